//! What stands behind the jobs of a task: its start, its goal, and the end of the file.
ghost use Rattle.files.specs.Reading.{EndsRead};
ghost use Rattle.strips.specs.Headers.{Limits};

use crate::counts::Counts;
use crate::facts::{goal_at, start_at};
use planning::refusal::{Cause, Refusal};
use strips::header::Header;

/// The header of a task with these numbers, whose start record is due at byte `at`.
///
/// Refused as the start or the goal record is; then with 8, at the first byte behind them, if there is one.
pub(crate) fn header_at(file: &[u8], at: usize, counts: Counts) -> Result<Header, Refusal>
    requires { Limits counts.n }
    ensures { EndsRead counts.n counts.m file.now at result }
{
    let (start, goal_place) = start_at(file, at, counts.n)?;
    let (goal, end) = goal_at(file, goal_place, counts.n)?;
    if end < file.len() {
        return Err(Cause::BytesFollow.at(end));
    }
    let Ok(header) = Header::new(counts.n, counts.m, start, goal) else {
        unreachable!("the number of facts and each fact were checked");
    };
    Ok(header)
}
