//! Verdicts, and how they read.
ghost use Rattle.std.specs.Prelude.{◌≡◌, Some};
ghost use Rattle.verdicts.specs.Verdicts.{text, fault_round};

use std::fmt;

/// What is said of a sheet. Rounds are numbered from 0.
#[derive(Clone, Copy, Debug, PartialEq, Eq)]
pub enum Verdict {
    /// A job of the round is absent.
    Closed { round: u16, job: u8 },
    /// The rule doesn't let two jobs of the round share it.
    Clash { round: u16, first: u8, second: u8 },
    /// A job of the round is short of a need.
    Missing { round: u16, job: u8, fact: u8 },
    /// The last state lacks a fact of the goal.
    Goal { fact: u8 },
    /// The sheet is a plan.
    Sound,
}

impl Verdict {
    /// The number of the round at fault: that of a verdict closed, clash or missing. None for goal and sound, which
    /// are of no round.
    pub fn round(self) -> Option<u16>
        ensures { result ≡ fault_round self }
    {
        match self {
            Verdict::Closed { round, .. }
            | Verdict::Clash { round, .. }
            | Verdict::Missing { round, .. } => Some(round),
            Verdict::Goal { .. } | Verdict::Sound => None,
        }
    }
}

/// The word of the verdict and its numbers, as `clash 0 0 1` or `sound`.
impl fmt::Display for Verdict {
    ghost output = { λ v. Some (text v) };

    fn fmt<W: fmt::Write>(&self, f: &mut fmt::Formatter<W>) -> fmt::Result {
        match *self {
            Verdict::Closed { round, job } => write!(f, "closed {round} {job}"),
            Verdict::Clash {
                round,
                first,
                second,
            } => write!(f, "clash {round} {first} {second}"),
            Verdict::Missing { round, job, fact } => write!(f, "missing {round} {job} {fact}"),
            Verdict::Goal { fact } => write!(f, "goal {fact}"),
            Verdict::Sound => write!(f, "sound"),
        }
    }
}
