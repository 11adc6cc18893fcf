//! Loading a task file.
ghost use Rattle.files.specs.Loading.{Loaded, ExactLoading};
ghost use Rattle.files.specs.Reading.{Parsed};
ghost use Rattle.std.specs.Prelude.{◌≡◌, length};

use crate::counts::read_counts;
use crate::ends::header_at;
use crate::jobs::read_jobs;
use planning::refusal::Refusal;
use strips::header::Header;
use strips::row::Row;
use strips::task::MOST_JOBS;

/// The byte of the first job record, behind the five bytes of a task record.
const FIRST_JOB: usize = 5;

/// Reads a whole task file, its rows into `read`; `rows` rows are supplied by the caller.
fn parse(file: &[u8], rows: usize, read: &mut [Row]) -> Result<Header, Refusal>
    requires { length read.old ≡ 255 }
    ensures length { length read.new ≡ 255 }
    ensures parsed { Parsed file.now rows read.new result }
{
    let counts = read_counts(file, rows)?;
    let end = read_jobs(file, FIRST_JOB, counts.n, &mut read[..counts.m as usize])?;
    header_at(file, end, counts)
}

/// Loads a task file: writes its `m` rows over the first `m` rows, and gives the header.
///
/// Accepted exactly if the file is the bytes of a header and rows within the limits, and at least `m` rows are lent;
/// then these are the header given and the rows written, row `j` with the zone, needs, adds and deletes that the file has
/// for job `j`, and the rows behind them are as they were. A fact may be in both adds and deletes: the row has it in both,
/// as the file does, and the job adds it (`Row::job`). The file may have any number of bytes, and is not written.
///
/// Refused at the first record that is at fault, with the byte where it begins, or should begin, as place,
/// and then no row is written. A task record is due first, then `m` job records, a start record and a goal record. In a
/// record the checks are, in this order: 1, fewer than three bytes are left or the body passes the end of the file; 2,
/// another mark is due; 3, the length is wrong for its mark: that of a task record isn't 2, that of a job record is
/// below 4 or isn't 4 and its three list lengths; 4, `n` is 0 or above 128; 9, there are fewer rows than `m`, at place 0,
/// where the task record begins; then list by list (needs, adds, deletes) and number by number 5, a fact is `n` or above,
/// and 6, it isn't above the one before it. Last comes 8, bytes follow the goal record, at the first of them.
pub fn load(file: &[u8], rows: &mut [Row]) -> Result<Header, Refusal>
    ensures loaded { Loaded file.now rows.old result rows.new }
    ensures exact { ExactLoading file.now rows.old result }
{
    let mut read = [Row::default(); MOST_JOBS];
    let header = parse(file, rows.len(), &mut read)?;
    let m = header.m() as usize;
    rows[..m].copy_from_slice(&read[..m]);
    Ok(header)
}
