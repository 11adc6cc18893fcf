//! The records of all jobs of a task.
ghost use Rattle.std.specs.Prelude.{◌≡◌, ◌≤◌, length};
ghost use Rattle.files.specs.Reading.{JobsRead};
ghost use Rattle.files.specs.Records.{place};

use crate::job::read::job_at;
use planning::refusal::Refusal;
use strips::row::Row;

/// Reads a job record into each of the rows, the first at byte `first`, and gives the byte behind the last.
///
/// Refused as the first of them that is at fault.
pub(crate) fn read_jobs(
    file: &[u8],
    first: usize,
    n: u8,
    rows: &mut [Row],
) -> Result<usize, Refusal>
    requires few { n ≤ 128 }
    requires first { first ≡ place file.now 1 }
    requires within { first ≤ length file.now }
    ensures length { length rows.new ≡ length rows.old }
    ensures jobs { JobsRead n file.now rows.new result }
{
    let mut at = first;
    for row in rows.iter_mut() {
        (*row, at) = job_at(file, at, n)?;
    }
    Ok(at)
}
