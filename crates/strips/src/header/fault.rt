//! What keeps four values from being a header, and how it reads.
ghost use Rattle.std.specs.Prelude.{◌≡◌, Some};
ghost use Rattle.strips.specs.Headers.{told, text};

use std::error::Error;
use std::fmt;

/// What keeps four values from being a header.
#[derive(Clone, Copy, Debug, PartialEq, Eq)]
pub enum HeaderFault {
    /// The number of facts is 0 or above 128.
    FactCount,
    /// The lowest start fact that the task doesn't have.
    StartFact(u8),
    /// The lowest goal fact that the task doesn't have.
    GoalFact(u8),
}

impl HeaderFault {
    /// The two numbers of the refusal that the fault stands for, its own and its place: 4 for the number of
    /// facts, 5 for a fact that the task doesn't have; the place is 0, since four values have no other.
    pub fn told(self) -> (u8, usize)
        ensures { result ≡ told self }
    {
        match self {
            HeaderFault::FactCount => (4, 0),
            HeaderFault::StartFact(_) | HeaderFault::GoalFact(_) => (5, 0),
        }
    }
}

/// As `the number of facts is not from 1 to 128`, `the task has no start fact 7` or
/// `the task has no goal fact 7`.
impl fmt::Display for HeaderFault {
    ghost output = { λ e. Some (text e) };

    fn fmt<W: fmt::Write>(&self, f: &mut fmt::Formatter<W>) -> fmt::Result {
        match *self {
            HeaderFault::FactCount => write!(f, "the number of facts is not from 1 to 128"),
            HeaderFault::StartFact(fact) => write!(f, "the task has no start fact {fact}"),
            HeaderFault::GoalFact(fact) => write!(f, "the task has no goal fact {fact}"),
        }
    }
}

impl Error for HeaderFault {}
