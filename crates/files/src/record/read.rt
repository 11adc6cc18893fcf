//! Reading the record at a byte of a file.
ghost use Rattle.files.specs.Records.{Found};

use crate::record::{Placed, Record};
use planning::refusal::{Cause, Refusal};

/// The bytes of a record in front of its body: two of its mark, and its length.
const FRONT: usize = 3;

/// The record of the file that begins at byte `at`, with that byte and the byte behind its body.
///
/// Refused at `at`: with 1 if fewer than three bytes are left, or the body passes the end of the file; else
/// with 2 if its mark is none of the six.
pub fn record_at(file: &[u8], at: usize) -> Result<Placed<'_>, Refusal>
    ensures { Found file.now at result }
{
    let truncated = Cause::Truncated.at(at);
    if at > file.len() || file.len() - at < FRONT {
        return Err(truncated);
    }
    let size = file[at + 2] as usize;
    let from = at + FRONT;
    if file.len() - from < size {
        return Err(truncated);
    }
    let end = from + size;
    let body = &file[from..end];
    let record = match (file[at], file[at + 1]) {
        (0x54, 0x4B) => Record::Task(body),
        (0x41, 0x43) => Record::Job(body),
        (0x53, 0x54) => Record::Start(body),
        (0x47, 0x4F) => Record::Goal(body),
        (0x52, 0x44) => Record::Round(body),
        (0x4E, 0x4A) => Record::Name(body),
        _ => return Err(Cause::OtherMark.at(at)),
    };
    Ok(Placed { record, at, end })
}
