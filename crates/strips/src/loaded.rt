//! A task that answers from rows that the caller lends.
ghost use Rattle.strips.specs.Admits.{loaded_admitted};
ghost use Rattle.strips.specs.Loading.{loaded};

use crate::header::Header;
use crate::job::Job;
use crate::row::Row;
use crate::task::Task;
use sets::facts::FactSet;

/// A task that answers from rows that the caller lends, one row a job.
///
/// Its `n`, start and goal are the header's. Its `m` is the header's too, or the number of rows if that is less.
/// Job `j` is what row `j` stands for in a task of `n` facts (`Row::job`); numbers from `m` up are absent, so rows
/// from the header's `m` up don't count. Any header over any rows is a task, and no answer writes to a row.
#[derive(Clone, Copy)]
pub struct Loaded<'a> {
    pub header: Header,
    pub rows: &'a [Row],
}

impl<'a> Task for Loaded<'a> {
    ghost meaning = { λ s. loaded s.header s.rows.now };

    ghost admitted = { λ s. loaded_admitted s.header s.rows.now };

    fn n(&self) -> u8 {
        self.header.n()
    }

    fn m(&self) -> u8 {
        self.rows.len().min(self.header.m() as usize) as u8
    }

    fn start(&self) -> FactSet {
        self.header.start()
    }

    fn goal(&self) -> FactSet {
        self.header.goal()
    }

    fn job(&self, j: u8) -> Option<Job> {
        if j < self.m() {
            Some(self.rows[j as usize].job(self.header.n()))
        } else {
            None
        }
    }
}
