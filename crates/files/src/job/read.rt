//! Reading the record of a job.
ghost use Rattle.std.specs.Prelude.{◌≤◌};
ghost use Rattle.files.specs.Reading.{JobRead};

use crate::job::row::row_of;
use crate::record::Record;
use crate::record::read::record_at;
use planning::refusal::Refusal;
use strips::row::Row;

/// The row that the job record at byte `at` gives, in a task of `n` facts, and the byte behind it.
pub(crate) fn job_at(file: &[u8], at: usize, n: u8) -> Result<(Row, usize), Refusal>
    requires { n ≤ 128 }
    ensures { JobRead n file.now at result }
{
    let found = record_at(file, at)?;
    let Record::Job(body) = found.record else {
        return Err(found.other_mark());
    };
    let row = row_of(body, at, n)?;
    Ok((row, found.end))
}
