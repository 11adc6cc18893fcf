//! Why no page is printed.
ghost use Rattle.report.specs.PageLines.{why_text};
ghost use Rattle.report.specs.declared.no_page.NoPage.TheVariants.{Refused as file_refused};
ghost use Rattle.std.specs.Prelude.{◌≡◌, Some};

use crate::lines::{Lines, Refused, RefusedLine};
use planning::refusal::Refusal;
use planning::report::Report;
use std::error::Error;
use std::fmt;

/// Why there is no page of three files.
#[derive(Clone, Copy, Debug, PartialEq, Eq)]
pub enum NoPage {
    /// The task file or the sheet file is refused.
    Refused(Refused),
    /// The names file is refused.
    Names(Refusal),
    /// The sheet isn't sound: the report on it, and the refusal to issue it.
    Unsound(Report, Refusal),
}

/// A task file or a sheet file that is refused.
impl From<Refused> for NoPage {
    ghost from_gives = { λ refused why. why ≡ file_refused refused };

    fn from(refused: Refused) -> NoPage {
        NoPage::Refused(refused)
    }
}

/// One line that says which file is refused, the number of the refusal and its place, as `names refused 15 0`; or, where the
/// sheet isn't sound, the four lines of the report on it, and the line `sheet refused 14 0` behind them.
impl fmt::Display for NoPage {
    ghost output = { λ why. Some (why_text why) };

    fn fmt<W: fmt::Write>(&self, f: &mut fmt::Formatter<W>) -> fmt::Result {
        match *self {
            NoPage::Refused(refused) => write!(f, "{refused}"),
            NoPage::Names(refusal) => {
                let name = "names";
                write!(f, "{}", RefusedLine { name, refusal })
            }
            NoPage::Unsound(report, refusal) => {
                let name = "sheet";
                write!(f, "{}{}", Lines(report), RefusedLine { name, refusal })
            }
        }
    }
}

impl Error for NoPage {}
