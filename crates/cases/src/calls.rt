//! What the calls of a book refuse, on the twin count.
use crate::twin::{rows, twin};
use crate::work::{add_pauses, grown, refused};
use planning::book::Book;
use planning::report::Distance;
use sets::jobs::JobSet;
use std::test::Fail;
use strips::rules::{Apart, SingleFile};

#[test]
fn the_501st_round_is_refused(rt: HostRuntime) -> Result<(), Fail> {
    let rows = rows(0);
    let twin = twin(&rows)?;
    let mut table = [0; 10];
    let mut sheet = [JobSet::empty(); 501];
    let mut book = Book::open(&twin, &mut table)?;
    add_pauses(&mut book, &mut sheet, 500)?;
    refused(&rt, book.add(&mut sheet, &[0]), 11, 0)?;
    let report = book.judge(&twin, &Apart, &table, &sheet)?;
    assert_eq!(rt; report.rounds, 500);
    Ok(())
}

#[test]
fn lists_out_of_order_are_refused_at_their_index(rt: HostRuntime) -> Result<(), Fail> {
    let rows = rows(0);
    let twin = twin(&rows)?;
    let mut table = [0; 10];
    let mut sheet = [JobSet::empty(); 1];
    let mut book = Book::open(&twin, &mut table)?;
    refused(&rt, book.drop_round(), 12, 0)?;
    refused(&rt, book.add(&mut sheet, &[0, 2]), 10, 1)?;
    refused(&rt, book.add(&mut sheet, &[1, 0, 2]), 6, 1)?;
    book.add(&mut sheet, &[0, 1])?;
    refused(&rt, book.add(&mut sheet, &[0, 0]), 6, 1)?;
    refused(&rt, book.add(&mut sheet, &[0]), 11, 0)
}

#[test]
fn short_memory_and_other_tasks_are_refused_first(rt: HostRuntime) -> Result<(), Fail> {
    let rows = rows(0);
    let other = twin(&rows[0..1])?;
    let twin = twin(&rows)?;
    let mut short = [0; 9];
    refused(&rt, Book::open(&twin, &mut short), 9, 0)?;
    let mut table = [0; 10];
    let mut book = grown(&twin, &Apart, &mut table, 2)?;
    refused(&rt, book.grow(&twin, &Apart, &mut short), 9, 0)?;
    refused(&rt, book.grow(&other, &Apart, &mut table), 9, 0)?;
    refused(&rt, book.grow(&twin, &Apart, &mut table), 13, 0)?;
    refused(&rt, book.distance(&twin, &short), 9, 0)?;
    let mut sheet = [JobSet::empty(); 1];
    book.add(&mut sheet, &[0, 1])?;
    refused(&rt, book.add(&mut sheet[0..0], &[7]), 9, 0)?;
    refused(&rt, book.judge(&twin, &Apart, &table, &sheet[0..0]), 9, 0)
}

#[test]
fn the_rule_decides_the_distance(rt: HostRuntime) -> Result<(), Fail> {
    let rows = rows(0);
    let twin = twin(&rows)?;
    let mut table = [0; 10];
    let mut sheet = [JobSet::empty(); 1];
    let mut book = grown(&twin, &Apart, &mut table, 2)?;
    book.add(&mut sheet, &[0, 1])?;
    let apart = book.judge(&twin, &Apart, &table, &sheet)?;
    assert_eq!(rt; apart.distance, Distance::Told(1));
    assert!(rt; apart.is_shortest());
    let book = grown(&twin, &SingleFile, &mut table, 3)?;
    let single = book.judge(&twin, &SingleFile, &table, &sheet)?;
    assert_eq!(rt; single.distance, Distance::Told(2));
    Ok(())
}
