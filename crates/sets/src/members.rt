//! The members of a job set one after the other, for a `for`.
ghost use Rattle.std.specs.Prelude.{◌≡◌, ◌-◌};
ghost use Rattle.sets.specs.Members.{Rises};
ghost use Rattle.std.specs.Iterator.{at_most};

use crate::jobs::JobSet;

/// The members of a set from one number up and below another, rising.
#[derive(Clone, Copy)]
pub struct Members {
    set: JobSet,
    from: u16,
    end: u8,
}

impl JobSet {
    /// The members from `from` up and below `end`, rising.
    pub fn between(self, from: u16, end: u8) -> Members
        ensures { result ≡ record { set = self; from = from; end = end } }
    {
        Members {
            set: self,
            from,
            end,
        }
    }

    /// The members below `end`, rising.
    pub fn below(self, end: u8) -> Members
        ensures { result ≡ record { set = self; from = 0; end = end } }
    {
        self.between(0, end)
    }
}

impl Iterator for Members {
    type Item = u8;

    ghost next_gives = { Rises };

    ghost remaining = { λ s. at_most (256 - s.from) };

    /// The lowest member that is still to come, and from then on only those above it are still to come;
    /// or none where no member is, and nothing changes.
    fn next(&mut self) -> Option<u8> {
        let job = self.set.next(self.from).filter(|job| *job < self.end)?;
        self.from = job as u16 + 1;
        Some(job)
    }
}
