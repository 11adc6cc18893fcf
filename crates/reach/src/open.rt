//! Opening a table: layer 0.
ghost use Rattle.reach.specs.Tables.{Opening};

use crate::table::{ShortTable, check_room, pair_count};
use crate::write::write_row;
use strips::task::Task;

/// Writes layer 0 of the task to the first n(n+1)/2 entries, whatever they held: 0 for the pairs within the start,
/// that of a start fact with itself too, 65,535 for the others; the entries behind them are as they were.
///
/// Fewer entries than n(n+1)/2 are refused, which tells 9 at place 0, with the number of entries and that of facts,
/// and then nothing is written.
pub fn open_table<S: Task>(task: &S, table: &mut [u16]) -> Result<(), ShortTable>
    ensures { Opening (S.Task.meaning task.now) table.old result table.new }
{
    let n = task.n();
    check_room(table, n)?;
    // 65,535 and not `None`: the entries are the caller's memory.
    table[..pair_count(n)].fill(u16::MAX);
    let start = task.start();
    for p in start.walk() {
        write_row(table, p, start, 0);
    }
    Ok(())
}
