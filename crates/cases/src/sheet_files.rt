//! Reading sheet files, good ones and each kind at fault, for the twin count.
use crate::twin::{rows, twin};
use crate::work::refused;
use files::sheet::read_sheet;
use planning::book::Book;
use sets::jobs::JobSet;
use std::process::Abort;
use std::test::Fail;

/// Passes if a sheet of one round and three places refuses the file with this number and place, and is as before.
fn refuses(rt: &impl Abort, file: &[u8], number: u8, place: usize) -> Result<(), Fail> {
    let rows = rows(0);
    let twin = twin(&rows)?;
    let mut table = [0; 10];
    let mut sheet = [JobSet::of(&[9]); 3];
    let mut book = Book::open(&twin, &mut table)?;
    book.add(&mut sheet, &[1])?;
    refused(rt, read_sheet(&mut book, &mut sheet, file), number, place)?;
    assert!(rt; book.rounds() == 1 && sheet[0].contains(1));
    assert!(rt; sheet[1].contains(9) && sheet[2].contains(9));
    Ok(())
}

#[test]
fn a_sheet_file_is_added_behind_the_sheet(rt: HostRuntime) -> Result<(), Fail> {
    let rows = rows(0);
    let twin = twin(&rows)?;
    let mut table = [0; 10];
    let mut sheet = [JobSet::of(&[9]); 4];
    let mut book = Book::open(&twin, &mut table)?;
    book.add(&mut sheet, &[1])?;
    read_sheet(&mut book, &mut sheet, b"RD\x02\x00\x01RD\x00")?;
    assert_eq!(rt; book.rounds(), 3);
    assert!(rt; sheet[0].contains(1) && sheet[1].contains(0) && sheet[1].contains(1));
    assert!(rt; !sheet[2].contains(9) && sheet[3].contains(9));
    Ok(())
}

#[test]
fn a_sheet_file_at_fault_adds_nothing(rt: HostRuntime) -> Result<(), Fail> {
    refuses(&rt, b"RD\x01\x00R", 1, 4)?;
    refuses(&rt, b"RD\x01\x00RD\x02\x01", 1, 4)?;
    refuses(&rt, b"RD\x01\x00GO\x00", 2, 4)?;
    refuses(&rt, b"RD\x01\x00RD\x01\x02", 10, 4)?;
    refuses(&rt, b"RD\x01\x00RD\x02\x01\x00", 6, 4)?;
    refuses(&rt, b"RD\x01\x00RD\x00RD\x00", 11, 7)?;
    refuses(&rt, b"RD\x01\x00RD\x00RD\x01\x02", 10, 7)
}

#[test]
fn the_501st_round_of_a_file_is_refused(rt: HostRuntime) -> Result<(), Fail> {
    let rows = rows(0);
    let twin = twin(&rows)?;
    let mut table = [0; 10];
    let mut sheet = [JobSet::empty(); 501];
    let mut book = Book::open(&twin, &mut table)?;
    let pauses = [*b"RD\0"; 501];
    let file = pauses.as_flattened();
    refused(&rt, read_sheet(&mut book, &mut sheet, file), 11, 1500)?;
    assert_eq!(rt; book.rounds(), 0);
    read_sheet(&mut book, &mut sheet, &file[..1500])?;
    assert_eq!(rt; book.rounds(), 500);
    let mut few = [JobSet::empty(); 499];
    refused(&rt, read_sheet(&mut book, &mut few, b""), 9, 0)
}
