//! A layer over any task that starts it elsewhere.
ghost use Rattle.strips.specs.Admits.{moved_admitted};
ghost use Rattle.strips.specs.Layering.{moved};

use crate::job::Job;
use crate::task::Task;
use sets::facts::FactSet;

/// The task `below`, but its start is the set given, without facts from `n` up.
#[derive(Clone, Copy)]
pub struct MovedStart<B: Task> {
    pub below: B,
    pub start: FactSet,
}

impl<B: Task> Task for MovedStart<B> {
    ghost meaning = { λ s. moved s.start (B.Task.meaning s.below) };

    ghost admitted = { λ s. moved_admitted s.start (B.Task.meaning s.below) (B.Task.admitted s.below) };

    // What stays as it is below is handed on answer by answer: a trait knows no shorter way.
    fn n(&self) -> u8 {
        self.below.n()
    }

    fn m(&self) -> u8 {
        self.below.m()
    }

    fn start(&self) -> FactSet {
        self.start.below(self.below.n())
    }

    fn goal(&self) -> FactSet {
        self.below.goal()
    }

    fn job(&self, j: u8) -> Option<Job> {
        self.below.job(j)
    }
}
