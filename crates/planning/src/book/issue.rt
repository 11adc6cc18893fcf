//! Issuing a book.
ghost use Rattle.planning.specs.Issuing.{SoundOrNot, Issuing};
ghost use Rattle.planning.specs.Main.{IssuedOfRuns};

use crate::book::Book;
use crate::issued::{Issued, NotIssued};
use crate::refusal::{Cause, Refusal};
use sets::jobs::JobSet;
use strips::rule::Rule;
use strips::task::Task;
use verdicts::verdict::Verdict;

impl Book {
    /// Refuses a sheet that judging doesn't find sound.
    fn check_sound<S: Task, R: Rule>(
        &self,
        task: &S,
        rule: &R,
        table: &[u16],
        sheet: &[JobSet],
    ) -> Result<(), Refusal>
        ensures { SoundOrNot (S.Task.meaning task.now) (R.Rule.shares rule.now) self.now table.now sheet.now result }
    {
        let report = self.judge(task, rule, table, sheet)?;
        if report.verdict != Verdict::Sound {
            return Err(Cause::UnsoundSheet.into());
        }
        Ok(())
    }

    /// Issues the book if its sheet is sound under the rule: the issued book has this one in it, and gives it back when it is
    /// reopened. The sheet is then a plan, every order in which its jobs may come back is permitted and ends in
    /// one state that holds the goal, and no other verdict is right. Nothing is written.
    ///
    /// Refused, and the book comes back as it was: 9, place 0, if there are fewer entries than n(n+1)/2, fewer places than
    /// rounds, or the task's `n` or `m` isn't the book's; else 14, place 0, if the sheet isn't sound.
    ///
    /// Where the book, the table and the sheet come from an accepted opening of this task and any list of calls after it,
    /// as `judge` says, the book is issued exactly if the sheet that the list of calls gives is a plan, and else it is
    /// refused with 14.
    pub fn issue<S: Task, R: Rule>(
        self,
        task: &S,
        rule: &R,
        table: &[u16],
        sheet: &[JobSet],
    ) -> Result<Issued, NotIssued>
        ensures answer { Issuing (S.Task.meaning task.now) (R.Rule.shares rule.now) self table.now sheet.now result }
        ensures runs { IssuedOfRuns (S.Task.meaning task.now) (R.Rule.shares rule.now) self table.now sheet.now result }
    {
        match self.check_sound(task, rule, table, sheet) {
            Ok(()) => Ok(Issued { book: self }),
            Err(refusal) => Err(NotIssued {
                refusal,
                book: self,
            }),
        }
    }
}
