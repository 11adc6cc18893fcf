//! What the tests do with a book.
use planning::book::Book;
use planning::issued::{Issued, NotIssued};
use planning::refusal::Refusal;
use sets::jobs::JobSet;
use std::process::Abort;
use std::test::Fail;
use strips::rule::Rule;
use strips::task::Task;

// A number and not a cause: the numbers are what is tested.
/// Passes if the answer is the refusal with this number and place.
pub fn refused<T: Drop>(
    rt: &impl Abort,
    answer: Result<T, Refusal>,
    number: u8,
    place: usize,
) -> Result<(), Fail> {
    let Err(refusal) = answer else {
        return Err(Fail::new("not refused"));
    };
    assert_eq!(rt; (u8::from(refusal.cause), refusal.place), (number, place));
    Ok(())
}

/// A book on the task, its table grown so many times under the rule.
pub fn grown<S: Task, R: Rule>(
    task: &S,
    rule: &R,
    table: &mut [u16],
    growings: u8,
) -> Result<Book, Fail> {
    let mut book = Book::open(task, table)?;
    for _ in 0..growings {
        book.grow(task, rule, table)?;
    }
    Ok(book)
}

pub fn add_all(book: &mut Book, sheet: &mut [JobSet], rounds: &[&[u8]]) -> Result<(), Fail> {
    for jobs in rounds {
        book.add(sheet, jobs)?;
    }
    Ok(())
}

pub fn add_pauses(book: &mut Book, sheet: &mut [JobSet], count: u16) -> Result<(), Fail> {
    for _ in 0..count {
        book.add(sheet, b"")?;
    }
    Ok(())
}

/// The issued book.
pub fn issued(answer: Result<Issued, NotIssued>) -> Result<Issued, Fail> {
    answer.map_err(|_| Fail::new("not issued"))
}

/// A book of these rounds, of a task with up to six facts, issued under the rule.
pub fn issue_all<S: Task, R: Rule>(
    task: &S,
    rule: &R,
    sheet: &mut [JobSet],
    rounds: &[&[u8]],
) -> Result<Issued, Fail> {
    let mut table = [0; 21];
    let mut book = Book::open(task, &mut table)?;
    add_all(&mut book, sheet, rounds)?;
    issued(book.issue(task, rule, &table, sheet))
}
