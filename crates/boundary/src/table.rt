//! The table of a task file.
ghost use Rattle.boundary.specs.Tables.{FileGrown};

use crate::pile::Layers;
use crate::sharing::Sharing;
use files::load::load;
use planning::book::Book;
use planning::refusal::Refusal;
use strips::loaded::Loaded;
use strips::row::Row;
use strips::task::MOST_JOBS;

/// Loads the task file, and grows the table of its task under the layers and the rule, as `grow_times` does.
///
/// Refused as `load` refuses the file where 255 rows are supplied, or else with 9, place 0, if there are fewer entries
/// than n(n+1)/2, and then nothing is written.
pub(crate) fn grow_file(
    task_file: &[u8],
    layers: &Layers,
    sharing: Sharing,
    growings: u16,
    table: &mut [u16],
) -> Result<Book, Refusal>
    ensures { FileGrown task_file.now layers.now sharing growings table.old result table.new }
{
    let mut rows = [Row::default(); MOST_JOBS];
    let header = load(task_file, &mut rows)?;
    let task = Loaded {
        header,
        rows: &rows,
    };
    sharing.grow_times(&task, layers, growings, table)
}
