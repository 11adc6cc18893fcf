//! A layer over any task that withholds some of its jobs.
ghost use Rattle.strips.specs.Admits.{withheld_admitted};
ghost use Rattle.strips.specs.Layering.{withheld};

use crate::job::Job;
use crate::task::Task;
use sets::facts::FactSet;
use sets::jobs::JobSet;

/// The task `below`, but the marked job numbers are absent.
#[derive(Clone, Copy)]
pub struct Withheld<B: Task> {
    pub below: B,
    pub marks: JobSet,
}

impl<B: Task> Task for Withheld<B> {
    ghost meaning = { λ s. withheld s.marks (B.Task.meaning s.below) };

    ghost admitted = { λ s. withheld_admitted s.marks (B.Task.meaning s.below) (B.Task.admitted s.below) };

    // What stays as it is below is handed on answer by answer: a trait knows no shorter way.
    fn n(&self) -> u8 {
        self.below.n()
    }

    fn m(&self) -> u8 {
        self.below.m()
    }

    fn start(&self) -> FactSet {
        self.below.start()
    }

    fn goal(&self) -> FactSet {
        self.below.goal()
    }

    fn job(&self, j: u8) -> Option<Job> {
        if self.marks.contains(j) {
            None
        } else {
            self.below.job(j)
        }
    }
}
