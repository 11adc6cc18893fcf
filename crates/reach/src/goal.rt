//! Reading the goal from a table.
ghost use Rattle.reach.specs.Tables.{GoalTold};

use crate::reading::Reading;
use crate::table::ShortTable;
use strips::task::Task;

/// The largest entry of the pairs of the goal, 0 for an empty goal, if all of them are reached in the
/// table read as layer `t`, that is, if their entries are `t` or less; none if one of them isn't. The pair of a goal
/// fact with itself counts. Nothing is written.
///
/// Fewer entries than n(n+1)/2 are refused, which tells 9 at place 0, with the number of entries and that of facts.
pub fn goal_layer<S: Task>(task: &S, table: &[u16], t: u16) -> Result<Option<u16>, ShortTable>
    ensures { GoalTold (S.Task.meaning task.now) t table.now result }
{
    let reading = Reading::of(task, table, t)?;
    let largest = reading.largest_within(task.goal());
    Ok((largest <= t).then_some(largest))
}
