//! Working a book through a list of calls, each answer told as a text.
use planning::book::Book;
use planning::issued::NotIssued;
use planning::refusal::Refusal;
use planning::report::Report;
use sets::jobs::JobSet;
use std::alloc::{AllocError, Global};
use std::fmt::Write;
use std::process::Abort;
use std::test::Fail;
use strips::rule::Rule;
use strips::task::Task;

/// A call of a book after its opening.
#[derive(Clone, Copy)]
pub enum Call<'a> {
    Grow,
    Add(&'a [u8]),
    DropRound,
    Judge,
    /// Issuing, asking whether the job is in the round, and reopening.
    Ask { round: u16, job: u8 },
}

/// A task under a rule: what every call of a list takes.
#[derive(Drop)]
pub struct Under<'a, S: Task, R: Rule> {
    pub task: &'a S,
    pub rule: &'a R,
}

/// The book's numbers, as `layer 2, rounds 1`; or the refusal.
fn state_text(
    alloc: Global,
    answer: Result<(), Refusal>,
    book: &Book,
) -> Result<String, AllocError> {
    let settled = if book.is_settled() { ", settled" } else { "" };
    match answer {
        Ok(()) => { format!(in alloc; "layer {}{settled}, rounds {}", book.layer(), book.rounds()) }
        Err(refusal) => refusal.to_string(alloc),
    }
}

/// The report, as `rounds 3, distance 4, goal 0, excess -1`.
fn report_text(alloc: Global, report: &Report) -> Result<String, AllocError> {
    let Report {
        rounds,
        distance,
        verdict,
        excess,
    } = *report;
    let mut text = format!(in alloc; "rounds {rounds}, distance {distance}, {verdict}")?;
    if let Some(excess) = excess {
        write!(text, ", excess {excess}")?;
    }
    if report.is_shortest() {
        text.push_str(", shortest")?;
    }
    Ok(text)
}

impl<S: Task, R: Rule> Under<'_, S, R> {
    /// The text of judging, which tells of the distance what asking for it alone does.
    fn judged(
        &self,
        rt: &(impl Abort + AllocGlobal),
        book: &Book,
        table: &[u16],
        sheet: &[JobSet],
    ) -> Result<String, Fail> {
        let report = book.judge(self.task, self.rule, table, sheet)?;
        assert_eq!(rt; book.distance(self.task, table)?, report.distance);
        Ok(report_text(rt.alloc(), &report)?)
    }

    /// The text of asking, `true` or `false`, or of the refusal to issue; and the book as it is handed back.
    fn asked(
        &self,
        alloc: Global,
        book: Book,
        table: &[u16],
        sheet: &[JobSet],
        round: u16,
        job: u8,
    ) -> Result<(String, Book), Fail> {
        match book.issue(self.task, self.rule, table, sheet) {
            Ok(issued) => {
                let answer = issued.has_job(sheet, round, job)?;
                Ok((answer.to_string(alloc)?, issued.reopen()))
            }
            Err(NotIssued { refusal, book }) => Ok((refusal.to_string(alloc)?, book)),
        }
    }

    /// The text of the call's answer, and the book after it.
    fn answer(
        &self,
        rt: &(impl Abort + AllocGlobal),
        mut book: Book,
        table: &mut [u16],
        sheet: &mut [JobSet],
        call: Call<'_>,
    ) -> Result<(String, Book), Fail> {
        let answer = match call {
            Call::Grow => book.grow(self.task, self.rule, table),
            Call::Add(jobs) => book.add(sheet, jobs),
            Call::DropRound => book.drop_round(),
            Call::Judge => return Ok((self.judged(rt, &book, table, sheet)?, book)),
            Call::Ask { round, job } => {
                return self.asked(rt.alloc(), book, table, sheet, round, job);
            }
        };
        Ok((state_text(rt.alloc(), answer, &book)?, book))
    }

    /// Opens a book, works it through the calls, and passes if each is answered by the text beside it.
    pub fn work_through(
        &self,
        rt: &(impl Abort + AllocGlobal),
        table: &mut [u16],
        sheet: &mut [JobSet],
        calls: &[(Call<'_>, &str)],
    ) -> Result<(), Fail> {
        let mut book = Book::open(self.task, table)?;
        for (call, text) in calls {
            let (answer, next) = self.answer(rt, book, table, sheet, *call)?;
            assert_eq!(rt; answer.as_str(), *text);
            book = next;
        }
        Ok(())
    }
}
