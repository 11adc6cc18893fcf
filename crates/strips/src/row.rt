//! Rows of a loaded task.
ghost use Rattle.strips.specs.Loading.{job_of};
ghost use Rattle.std.specs.Prelude.{◌≡◌};

use crate::job::Job;
use sets::facts::FactSet;

// The parts of a `Job` in a type of their own, so that a row is not taken for the job that it stands for.
/// A job as it was read: its zone, one byte where 0 is no zone, and its needs, adds and deletes, three sets of any
/// facts below 128. It may name facts that the task doesn't have, and one fact in both adds and deletes; what job it
/// stands for depends on the task's `n`. The default is of zone 0 and names no fact.
#[derive(Clone, Copy, Default)]
pub struct Row {
    pub zone: u8,
    pub needs: FactSet,
    pub adds: FactSet,
    pub deletes: FactSet,
}

impl Row {
    /// The job of this row in a task of `n` facts: the row's zone, needs, adds and deletes, but facts from `n` up
    /// don't count, and a fact both added and deleted counts as added. From 128 up, `n` cuts nothing.
    pub fn job(&self, n: u8) -> Job
        ensures { result ≡ job_of n self.now }
    {
        let adds = self.adds.below(n);
        Job {
            zone: self.zone,
            needs: self.needs.below(n),
            adds,
            deletes: self.deletes.below(n).minus(adds),
        }
    }
}
