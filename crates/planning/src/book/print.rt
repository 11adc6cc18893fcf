//! Whether what a printing is lent is the book's.
ghost use Rattle.planning.specs.Printing.{FittingToPrint};

use crate::book::Book;
use crate::refusal::{Cause, Refusal};
use sets::jobs::JobSet;
use strips::task::Task;

impl Book {
    /// Refuses with 9, place 0, a task whose `n` or `m` isn't the book's, and a sheet with fewer places than rounds.
    pub(crate) fn check_printing<S: Task>(&self, task: &S, sheet: &[JobSet]) -> Result<(), Refusal>
        ensures { FittingToPrint (S.Task.meaning task.now) self.now sheet.now result }
    {
        if task.n() != self.n || task.m() != self.m || sheet.len() < self.rounds as usize {
            return Err(Cause::Misfit.into());
        }
        Ok(())
    }
}
