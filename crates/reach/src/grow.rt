//! Growing a table by a layer.
ghost use Rattle.reach.specs.Tables.{Growing};

use crate::makings::pairs_made;
use crate::reading::Reading;
use crate::ready::ready_jobs;
use crate::table::{ShortTable, pair_count};
use crate::write::write_new;
use strips::rule::Rule;
use strips::task::{MOST_JOBS, Task};

// Task and rule are handed over side by side: opening and reading the goal take no rule.
/// Grows the table of the task by a layer under the rule, and says whether a pair is new.
///
/// An entry up to `t` counts as reached, a larger one not, whatever the table holds. Each pair of the
/// task's facts that isn't reached and enters behind that layer gets `t + 1` as its entry, and the answer is true; all
/// other entries, those above `t` of pairs that don't enter too, and what stands behind the first n(n+1)/2, are as they
/// were. Where there is no such pair, or `t` is n(n+1)/2 or more, nothing is written and the answer is false.
///
/// Fewer entries than n(n+1)/2 are refused, which tells 9 at place 0, with the number of entries and that of facts,
/// and then nothing is written.
pub fn grow_table<S: Task, R: Rule>(
    task: &S,
    rule: &R,
    table: &mut [u16],
    t: u16,
) -> Result<bool, ShortTable>
    ensures { Growing (S.Task.meaning task.now) (R.Rule.shares rule.now) t table.old result table.new }
{
    let n = task.n();
    let reading = Reading::of(task, table, t)?;
    if t as usize >= pair_count(n) {
        return Ok(false);
    }
    let reached = reading.reached();
    // An array and no `Vec`: growing allocates nothing.
    let mut ready = [None; MOST_JOBS];
    let ready = &mut ready[..task.m() as usize];
    ready_jobs(task, &reached, ready);
    let made = pairs_made(rule, &reached, ready);
    Ok(write_new(table, n, &made, &reached, t + 1))
}
