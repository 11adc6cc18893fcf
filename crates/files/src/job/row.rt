//! The row of a job record's body.
ghost use Rattle.std.specs.Prelude.{◌≤◌};
ghost use Rattle.files.specs.Reading.{RowRead};

use crate::facts::fact_list;
use crate::job::JobBody;
use planning::refusal::Refusal;
use strips::row::Row;

/// The row that the body of a record at byte `at` gives, in a task of `n` facts.
///
/// Refused at `at`: with 3 for a wrong length; then list by list and number by number with 5 or 6. A fact that is both
/// added and deleted stays in both lists.
pub(crate) fn row_of(body: &[u8], at: usize, n: u8) -> Result<Row, Refusal>
    requires { n ≤ 128 }
    ensures { RowRead n body.now at result }
{
    let parts = JobBody::split(body, at)?;
    let needs = fact_list(parts.needs, n, at)?;
    let adds = fact_list(parts.adds, n, at)?;
    let deletes = fact_list(parts.deletes, n, at)?;
    Ok(Row {
        zone: parts.zone,
        needs,
        adds,
        deletes,
    })
}
