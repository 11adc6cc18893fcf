//! Issued books, which the handhelds ask and the page for the pinboard is printed of.
ghost use Rattle.planning.specs.Issuing.{Reopened, JobAsked};
ghost use Rattle.planning.specs.Main.{AskedOfRuns, PageOfRuns};
ghost use Rattle.planning.specs.Printing.{PagePrinted};

use crate::book::Book;
use crate::refusal::{Cause, Refusal};
use pages::page::write_page;
use pages::task::NamedTask;
use sets::jobs::JobSet;

/// A book whose sheet was sound when it was issued. It comes only from issuing, tells of a sheet that it is lent which jobs
/// each round has, prints its page, and grows, adds and drops nothing until it is reopened.
#[derive(Drop)]
pub struct Issued {
    pub(crate) book: Book,
}

/// A book that is not issued: the refusal, and the book as it was.
#[derive(Drop)]
pub struct NotIssued {
    pub refusal: Refusal,
    pub book: Book,
}

impl Issued {
    // Apart from `has_job`, whose clause on lists of calls is proved from this one alone.
    /// The answer of asking.
    fn answer(&self, sheet: &[JobSet], round: u16, job: u8) -> Result<bool, Refusal>
        ensures { JobAsked self.now sheet.now round job result }
    {
        let rounds = self.book.rounds() as usize;
        if sheet.len() < rounds {
            return Err(Cause::Misfit.into());
        }
        Ok(match sheet[..rounds].get(round as usize) {
            Some(place) => job < self.book.m() && place.contains(job),
            None => false,
        })
    }

    /// Whether the job is in the round of the sheet: no, if the round is beyond the sheet, or the job is `m` or
    /// above. Nothing is written.
    ///
    /// Refused with 9, place 0, if there are fewer places than rounds.
    ///
    /// The sheet is the caller's memory: that it still has the rounds that were found sound is the caller's to see to. Where
    /// the book and the sheet come from an accepted opening of a task and any list of calls after it, as `Book::judge`
    /// says, this isn't refused, and the rounds are those that the list of calls gives.
    pub fn has_job(&self, sheet: &[JobSet], round: u16, job: u8) -> Result<bool, Refusal>
        ensures answer { JobAsked self.now sheet.now round job result }
        ensures runs { AskedOfRuns self.now sheet.now round job result }
    {
        self.answer(sheet, round, job)
    }

    // Apart from `print_page`, whose clause on lists of calls is proved from this one alone.
    /// The answer of printing.
    fn printed<S: NamedTask>(
        &self,
        task: &S,
        sheet: &[JobSet],
        page: &mut [u8],
    ) -> Result<usize, Refusal>
        ensures { PagePrinted (S.Task.meaning task.now) (S.NamedTask.names task.now) self.now sheet.now page.old result page.new }
    {
        self.book.check_printing(task, sheet)?;
        match write_page(task, sheet, self.book.rounds(), page) {
            Some(bytes) => Ok(bytes),
            None => Err(Cause::ShortOutput.into()),
        }
    }

    /// Prints the page of the sheet to the front of `page`, and answers its number of bytes; what stands behind it is kept.
    ///
    /// The rounds stand in their order, counted from 0, each with a line of 25 bytes for each of its jobs below `m`, in
    /// rising order: the round right-aligned in bytes 0 to 2 and the job in bytes 4 to 6, both in decimal, the job's name
    /// left-aligned in bytes 8 to 23, and hex 0A in byte 24; every other byte is a blank, hex 20. A round without such a job,
    /// a pause, has one line, with `-` in byte 6 in place of a job and no name. A sheet without rounds has a page of 0
    /// bytes. (Of a round above 999 the last three digits are shown. No list of calls leads to such a book.)
    ///
    /// Refused, and then nothing is written: first with 9, place 0, if the task's `n` or `m` isn't the book's or there are
    /// fewer places than rounds; then with 16, place 0, if `page` is shorter than the page.
    ///
    /// The sheet is the caller's memory: that it still has the rounds that were found sound is the caller's to see to. Where
    /// the book and the sheet come from an accepted opening of the task and any list of calls after it under one lawful rule,
    /// as `Book::judge` says, 9 isn't told, and the page is that of the rounds that the list of calls gives, under the names
    /// of the task that is handed over.
    pub fn print_page<S: NamedTask>(
        &self,
        task: &S,
        sheet: &[JobSet],
        page: &mut [u8],
    ) -> Result<usize, Refusal>
        ensures answer { PagePrinted (S.Task.meaning task.now) (S.NamedTask.names task.now) self.now sheet.now page.old result page.new }
        ensures runs { PageOfRuns (S.Task.meaning task.now) (S.NamedTask.names task.now) self.now sheet.now page.old result page.new }
    {
        self.printed(task, sheet, page)
    }

    /// The book that was issued, as it was.
    pub fn reopen(self) -> Book
        ensures { Reopened self result }
    {
        let Issued { book } = self;
        book
    }
}
