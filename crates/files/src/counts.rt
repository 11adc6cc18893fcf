//! The record in front of a task: its numbers of facts and of jobs.
ghost use Rattle.files.specs.Reading.{Counted};

use crate::record::Record;
use crate::record::read::record_at;
use planning::refusal::{Cause, Refusal};

/// How many facts and how many jobs a task has.
#[derive(Clone, Copy)]
pub(crate) struct Counts {
    pub(crate) n: u8,
    pub(crate) m: u8,
}

/// The numbers that the record at the front of a task file gives, where `rows` rows are supplied.
///
/// Refused at byte 0 with 1 or 2 as every record is; with 3 if its length isn't 2; with 4 if `n` is 0 or above
/// 128; with 9 if there are fewer rows than `m`.
pub(crate) fn read_counts(file: &[u8], rows: usize) -> Result<Counts, Refusal>
    ensures { Counted file.now rows result }
{
    let found = record_at(file, 0)?;
    let Record::Task(body) = found.record else {
        return Err(found.other_mark());
    };
    if body.len() != 2 {
        return Err(Cause::WrongLength.at(0));
    }
    let counts = Counts {
        n: body[0],
        m: body[1],
    };
    if counts.n == 0 || counts.n > 128 {
        return Err(Cause::FactCount.at(0));
    }
    if rows < counts.m as usize {
        return Err(Cause::Misfit.at(0));
    }
    Ok(counts)
}
