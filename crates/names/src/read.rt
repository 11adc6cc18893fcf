//! Reading a names file into places.
ghost use Rattle.names.specs.Reading.{RecordRead, AllRead, NamesRead, ExactNames};
ghost use Rattle.pages.specs.Names.{place_of};
ghost use Rattle.std.specs.Prelude.{◌≡◌, ℕ, ◌<◌, ◌≤◌, [], Some, length, slice_get};

use files::record::Record;
use files::record::read::record_at;
use pages::name::{MOST_NAME_BYTES, NamePlace, all_printable};
use planning::refusal::{Cause, Refusal};
use strips::task::{MOST_JOBS, Task};

/// A name record of a file: the number of a job, its name, and the byte behind the record.
#[derive(Clone, Copy)]
struct NameRecord<'a> {
    job: u8,
    name: &'a [u8],
    end: usize,
}

/// The name record at byte `at`.
///
/// Refused at `at`: with 1 if fewer than three bytes are left or the body passes the end of the file, with 2
/// if the mark isn't a name's; else with 15 if the body isn't 2 to 17 bytes, or a byte of the name isn't from
/// 32 to 126.
fn name_record_at(file: &[u8], at: usize) -> Result<NameRecord<'_>, Refusal>
    ensures { RecordRead file.now at result }
{
    let found = record_at(file, at)?;
    let Record::Name(body) = found.record else {
        return Err(found.other_mark());
    };
    if body.len() < 2 || body.len() > 1 + MOST_NAME_BYTES {
        return Err(Cause::BadName.at(at));
    }
    let name = &body[1..];
    if !all_printable(name) {
        return Err(Cause::BadName.at(at));
    }
    Ok(NameRecord {
        job: body[0],
        name,
        end: found.end,
    })
}

/// Reads the names of the file, for `m` jobs, into places that hold none. Refused at the first record that is
/// at fault.
fn read_all(file: &[u8], m: u8, read: &mut [NamePlace]) -> Result<(), Refusal>
    requires room { m ≤ length read.old }
    requires empty { (j : ℕ) → j < length read.old → slice_get read.old j ≡ Some (place_of []) }
    ensures length { length read.new ≡ length read.old }
    ensures read { AllRead m file.now read.new result }
{
    let mut least = 0;
    let mut at = 0;
    while at < file.len() {
        let found = name_record_at(file, at)?;
        if found.job >= m {
            return Err(Cause::NoSuchJob.at(at));
        }
        if found.job < least {
            return Err(Cause::NotRising.at(at));
        }
        read[found.job as usize] = NamePlace::of(found.name);
        least = found.job + 1;
        at = found.end;
    }
    Ok(())
}

/// Reads a names file into the caller's places, for a task of `m` job numbers.
///
/// Accepted exactly if the file is the bytes of entries that may be read, one after another, and there are at
/// least `m` places. An entry is the number of a job and its name. Entries may be read if their numbers are
/// below `m` and rise strictly, and each name has 1 to 16 bytes, all from 32 to 126. So a file without a byte
/// is accepted, and all names are empty; none is refused for its size alone. Then the first `m` places are
/// written, all of them, whatever they held: place `j` gets the name that the file has for job `j`, or the empty
/// name where it has none, by its length, its bytes, and 0 in each byte behind them. The places from `m` up are
/// kept.
///
/// Refused first of all with 9, place 0, whatever the file is, if there are fewer than `m` places; else at
/// the first record that is at fault, with the byte where it begins as place. A record is due while bytes are
/// left. In a record the checks are, in this order: 1, fewer than three bytes are left or the body passes the
/// end of the file; 2, its mark isn't a name's; 15, its body isn't 2 to 17 bytes, or a byte of the name,
/// which is what stands behind the first, isn't from 32 to 126; 10, the job's number, which is that first
/// byte, is `m` or above; 6, it isn't above that of the record before. On a refusal all places are kept.
pub fn read_names<S: Task>(task: &S, file: &[u8], places: &mut [NamePlace]) -> Result<(), Refusal>
    ensures read { NamesRead (S.Task.meaning task.now).m file.now places.old result places.new }
    ensures exact { ExactNames (S.Task.meaning task.now).m places.old file.now result }
{
    let m = task.m();
    if places.len() < m as usize {
        return Err(Cause::Misfit.into());
    }
    let mut read = [NamePlace::of(b""); MOST_JOBS];
    read_all(file, m, &mut read)?;
    places[..m as usize].copy_from_slice(&read[..m as usize]);
    Ok(())
}
