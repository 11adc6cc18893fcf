//! Issuing a book, asking an issued one and reopening it, on the twin count.
use crate::twin::{rows, twin};
use crate::work::{add_all, issue_all, issued, refused};
use planning::book::Book;
use planning::issued::{Issued, NotIssued};
use sets::jobs::JobSet;
use std::process::Abort;
use std::test::Fail;
use strips::rules::{Apart, SingleFile};

/// The book that comes back where issuing is refused with this number, place 0.
fn returned(rt: &impl Abort, answer: Result<Issued, NotIssued>, number: u8) -> Result<Book, Fail> {
    let Err(NotIssued { refusal, book }) = answer else {
        return Err(Fail::new("issued"));
    };
    assert_eq!(rt; (u8::from(refusal.cause), refusal.place), (number, 0));
    Ok(book)
}

#[test]
fn an_issued_book_tells_its_jobs(rt: HostRuntime) -> Result<(), Fail> {
    let rows = rows(0);
    let twin = twin(&rows)?;
    let mut sheet = [JobSet::of(&[0, 7]); 3];
    let issued = issue_all(&twin, &Apart, &mut sheet, &[&[0, 1], &[]])?;
    assert_eq!(rt; issued.has_job(&sheet, 0, 1)?, true);
    assert_eq!(rt; issued.has_job(&sheet, 1, 1)?, false);
    // Round 2 is beyond the sheet, though its place has job 0; job 7 is no job.
    assert_eq!(rt; issued.has_job(&sheet, 2, 0)?, false);
    let pile = [JobSet::of(&[0, 7]); 2];
    assert_eq!(rt; issued.has_job(&pile, 0, 7)?, false);
    refused(&rt, issued.has_job(&sheet[0..1], 0, 1), 9, 0)
}

#[test]
fn a_reopened_book_goes_on(rt: HostRuntime) -> Result<(), Fail> {
    let rows = rows(0);
    let twin = twin(&rows)?;
    let mut table = [0; 10];
    let mut sheet = [JobSet::empty(); 2];
    let mut book = Book::open(&twin, &mut table)?;
    add_all(&mut book, &mut sheet, &[&[0, 1]])?;
    let mut book = issued(book.issue(&twin, &Apart, &table, &sheet))?.reopen();
    book.grow(&twin, &Apart, &mut table)?;
    let report = book.judge(&twin, &Apart, &table, &sheet)?;
    assert!(rt; report.is_shortest());
    add_all(&mut book, &mut sheet, &[&[]])?;
    assert_eq!(rt; book.rounds(), 2);
    Ok(())
}

#[test]
fn an_unsound_sheet_is_not_issued(rt: HostRuntime) -> Result<(), Fail> {
    let rows = rows(0);
    let twin = twin(&rows)?;
    let mut table = [0; 10];
    let mut sheet = [JobSet::empty(); 2];
    let mut book = Book::open(&twin, &mut table)?;
    add_all(&mut book, &mut sheet, &[&[0]])?;
    let book = returned(&rt, book.issue(&twin, &Apart, &table[0..9], &sheet), 9)?;
    let book = returned(&rt, book.issue(&twin, &Apart, &table, &sheet[0..0]), 9)?;
    let mut book = returned(&rt, book.issue(&twin, &Apart, &table, &sheet), 14)?;
    add_all(&mut book, &mut sheet, &[&[1]])?;
    let book = issued(book.issue(&twin, &SingleFile, &table, &sheet))?.reopen();
    assert_eq!(rt; book.rounds(), 2);
    Ok(())
}
