//! What judging answers.
ghost use Rattle.planning.specs.Reports.{Excess, Shortest, text};
ghost use Rattle.std.specs.Prelude.{◌↔◌, IsTrue, Some};

use std::fmt;
use verdicts::verdict::Verdict;

/// What a table tells of the distance. What that says of plans is said for a table that was opened and
/// grown for the task, under the rule, that is judged.
#[derive(Clone, Copy, Debug, PartialEq, Eq)]
pub enum Distance {
    /// The distance: no plan has fewer rounds.
    Told(u16),
    /// None: there is no plan.
    NoPlan,
    /// Not told yet, but no plan has fewer rounds than this.
    AtLeast(u32),
}

/// The answer of judging.
#[derive(Clone, Copy, Debug, PartialEq, Eq)]
pub struct Report {
    pub rounds: u16,
    pub verdict: Verdict,
    pub distance: Distance,
    /// Rounds minus distance, absent while no distance is told.
    pub excess: Option<i32>,
}

impl Distance {
    /// Rounds minus distance, exact, negative too; none while no distance is told.
    pub fn excess(self, rounds: u16) -> Option<i32>
        ensures { Excess rounds self result }
    {
        match self {
            Distance::Told(distance) => Some(rounds as i32 - distance as i32),
            Distance::NoPlan | Distance::AtLeast(_) => None,
        }
    }
}

/// What is told of the distance, as `4`, `none` or `at least 4`.
impl fmt::Display for Distance {
    ghost output = { λ distance. Some (text distance) };

    fn fmt<W: fmt::Write>(&self, f: &mut fmt::Formatter<W>) -> fmt::Result {
        match *self {
            Distance::Told(distance) => write!(f, "{distance}"),
            Distance::NoPlan => write!(f, "none"),
            Distance::AtLeast(rounds) => write!(f, "at least {rounds}"),
        }
    }
}

impl Report {
    /// Whether the sheet is called shortest: it is sound, and its excess is 0.
    pub fn is_shortest(&self) -> bool
        ensures { IsTrue result ↔ Shortest self.now }
    {
        self.verdict == Verdict::Sound && self.excess == Some(0)
    }
}
