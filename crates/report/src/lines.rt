//! The lines that are printed.
ghost use Rattle.planning.specs.Refusals.{told};
ghost use Rattle.report.specs.Lines.{shortest_word, lines_of, refused_line, line_of};
ghost use Rattle.std.specs.Prelude.{◌≡◌, Some};

use planning::refusal::Refusal;
use planning::report::Report;
use std::error::Error;
use std::fmt;

/// A report as it is printed.
#[derive(Clone, Copy, Debug, PartialEq, Eq)]
pub struct Lines(pub Report);

/// A file that is refused, and its refusal.
#[derive(Clone, Copy, Debug, PartialEq, Eq)]
pub enum Refused {
    /// The task file.
    Task(Refusal),
    /// The sheet file.
    Plan(Refusal),
}

/// `yes` if the sheet is called shortest, else `no`.
fn shortest_word(report: &Report) -> &'static str
    ensures { result.now ≡ shortest_word report.now.verdict report.now.excess }
{
    if report.is_shortest() { "yes" } else { "no" }
}

/// Four lines: the rounds, the distance, the verdict, and whether the sheet is called shortest.
impl fmt::Display for Lines {
    ghost output = { λ lines. Some (lines_of lines.0) };

    fn fmt<W: fmt::Write>(&self, f: &mut fmt::Formatter<W>) -> fmt::Result {
        let report = &self.0;
        writeln!(f, "rounds {}", report.rounds)?;
        writeln!(f, "distance {}", report.distance)?;
        writeln!(f, "verdict {}", report.verdict)?;
        writeln!(f, "shortest {}", shortest_word(report))
    }
}

/// The line of what is refused: its name, the number of the refusal and its place, as `plan refused 6 9`.
#[derive(Clone, Copy)]
pub(crate) struct RefusedLine {
    pub(crate) name: &'static str,
    pub(crate) refusal: Refusal,
}

impl fmt::Display for RefusedLine {
    ghost output = { λ line. Some (refused_line line.name.now (told line.refusal)) };

    fn fmt<W: fmt::Write>(&self, f: &mut fmt::Formatter<W>) -> fmt::Result {
        let RefusedLine { name, refusal } = self;
        let number = refusal.cause.number();
        writeln!(f, "{name} refused {number} {}", refusal.place)
    }
}

/// One line: which file is refused, the number of the refusal and its place, as `plan refused 6 9`.
impl fmt::Display for Refused {
    ghost output = { λ refused. Some (line_of refused) };

    fn fmt<W: fmt::Write>(&self, f: &mut fmt::Formatter<W>) -> fmt::Result {
        let (name, refusal) = match *self {
            Refused::Task(refusal) => ("task", refusal),
            Refused::Plan(refusal) => ("plan", refusal),
        };
        write!(f, "{}", RefusedLine { name, refusal })
    }
}

impl Error for Refused {}
