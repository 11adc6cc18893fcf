//! Reading a sheet file into a book.
ghost use Rattle.files.specs.SheetFiles.{RoundRead, RoundsChecked, Read, ExactReading};
ghost use Rattle.std.specs.Prelude.{Ok, IsOk, length};

use crate::lists::check_list_at;
use crate::record::Record;
use crate::record::read::record_at;
use planning::book::Book;
use planning::refusal::{Cause, Refusal};
use planning::sheet::has_room;
use sets::jobs::JobSet;

/// The list of the round record at byte `at`, and the byte behind the record.
fn round_at(file: &[u8], at: usize) -> Result<(&[u8], usize), Refusal>
    ensures { RoundRead file.now at result }
{
    let found = record_at(file, at)?;
    let Record::Round(jobs) = found.record else {
        return Err(found.other_mark());
    };
    Ok((jobs, found.end))
}

/// Whether all rounds of the file can be added. Refused as reading it is.
fn check_rounds(book: &Book, sheet: &[JobSet], file: &[u8]) -> Result<(), Refusal>
    ensures { RoundsChecked book.now.m (length sheet.now) book.now.rounds file.now result }
{
    let mut rounds = book.rounds() as usize;
    if sheet.len() < rounds {
        return Err(Cause::Misfit.into());
    }
    let mut at = 0;
    while at < file.len() {
        let (jobs, end) = round_at(file, at)?;
        check_list_at(jobs, book.m(), Cause::NoSuchJob, at)?;
        if !has_room(sheet.len(), rounds) {
            return Err(Cause::SheetFull.at(at));
        }
        rounds += 1;
        at = end;
    }
    Ok(())
}

/// Adds all rounds of a file that was checked, and so never refuses.
fn add_rounds(book: &mut Book, sheet: &mut [JobSet], file: &[u8]) -> Result<(), Refusal>
    requires { RoundsChecked book.old.m (length sheet.old) book.old.rounds file.now (Ok tt) }
    ensures fine { IsOk result }
    ensures read { Read book.old sheet.old file.now result book.new sheet.new }
{
    let mut at = 0;
    while at < file.len() {
        let (jobs, end) = round_at(file, at)?;
        book.add(sheet, jobs)?;
        at = end;
    }
    Ok(())
}

/// Reads a sheet file: adds all its rounds to the sheet, in order, or none.
///
/// Accepted exactly if the file is the bytes of rounds that can all be added, one after another. Then book and
/// sheet are as after adding them by `Book::add`: only the places of the rounds added are written.
///
/// Refused first of all with 9, place 0, if there are fewer places than rounds in use; else at the first record
/// that is at fault, with the byte where it begins as place. In a record the checks are, in this order: 1,
/// fewer than three bytes are left or the body passes the end of the file; 2, its mark isn't a round's; then
/// number by number 10, a job is `m` or above, and 6, it isn't above the one before it; last 11, every place
/// supplied, or 500, is in use. On a refusal book and sheet are as before.
pub fn read_sheet(book: &mut Book, sheet: &mut [JobSet], file: &[u8]) -> Result<(), Refusal>
    ensures read { Read book.old sheet.old file.now result book.new sheet.new }
    ensures exact { ExactReading book.old sheet.old file.now result }
{
    check_rounds(book, sheet, file)?;
    add_rounds(book, sheet, file)
}
