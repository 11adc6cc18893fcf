//! Records of a file, lent from it.
ghost use Rattle.planning.specs.declared.refusal.Cause.TheVariants.{OtherMark};
ghost use Rattle.std.specs.Prelude.{◌≡◌};

pub mod read;

use planning::refusal::{Cause, Refusal};

/// A record of a file: its kind, by its mark, and its body, a part of the file.
#[derive(Clone, Copy)]
pub enum Record<'a> {
    /// TK: the numbers of facts and of jobs.
    Task(&'a [u8]),
    /// AC: a job.
    Job(&'a [u8]),
    /// ST: the start state.
    Start(&'a [u8]),
    /// GO: the goal.
    Goal(&'a [u8]),
    /// RD: a round.
    Round(&'a [u8]),
    /// NJ: the name of a job.
    Name(&'a [u8]),
}

/// A record with the byte where its mark begins and the byte behind its body.
#[derive(Clone, Copy)]
pub struct Placed<'a> {
    pub record: Record<'a>,
    pub at: usize,
    pub end: usize,
}

impl<'a> Placed<'a> {
    /// The refusal of this record where one of another mark is due: 2, at the byte where it begins.
    pub fn other_mark(&self) -> Refusal
        ensures { result ≡ record { cause = OtherMark; place = self.now.at } }
    {
        Cause::OtherMark.at(self.at)
    }
}
