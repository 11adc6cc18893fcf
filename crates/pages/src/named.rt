//! A layer over any task that gives its jobs names, from places that the caller lends.
ghost use Rattle.pages.specs.Names.{named_by};
ghost use Rattle.pages.specs.Namings.{named_by_naming};

use crate::name::NamePlace;
use crate::task::NamedTask;
use sets::facts::FactSet;
use strips::job::Job;
use strips::task::Task;

/// The task `below`, with the names in these places, one place a job. A job whose place is lacking or holds no name has the
/// empty name; so has each number from `m` up, whatever stands in its place. Other names, which `below` may tell, don't count.
#[derive(Clone, Copy)]
pub struct Named<'a, B: Task> {
    pub below: B,
    pub places: &'a [NamePlace],
}

impl<'a, B: Task> Task for Named<'a, B> {
    ghost meaning = { λ s. B.Task.meaning s.below };

    ghost admitted = { λ s. B.Task.admitted s.below };

    // What stays as it is below is handed on answer by answer: a trait knows no shorter way.
    fn n(&self) -> u8 {
        self.below.n()
    }

    fn m(&self) -> u8 {
        self.below.m()
    }

    fn start(&self) -> FactSet {
        self.below.start()
    }

    fn goal(&self) -> FactSet {
        self.below.goal()
    }

    fn job(&self, j: u8) -> Option<Job> {
        self.below.job(j)
    }
}

impl<'a, B: Task> NamedTask for Named<'a, B> {
    ghost names = { λ s. named_by (B.Task.meaning s.below).m s.places.now };

    fn name(&self, j: u8) -> &[u8] {
        if j < self.below.m() && (j as usize) < self.places.len() {
            self.places[j as usize].name()
        } else {
            &[]
        }
    }

    ghost naming = { λ s. named_by_naming (B.Task.meaning s.below).m s.places.now };
}
