//! Growing a book's table until it is decided.
ghost use Rattle.report.specs.Growing.{GrownToEnd};
ghost use Rattle.strips.specs.Rules.{apart};

use planning::book::Book;
use planning::refusal::Refusal;
use planning::report::Distance;
use strips::rules::Apart;
use strips::task::Task;

/// Grows the table under apart, layer by layer, until a distance or none is told: at most n(n+1)/2 + 1 times.
///
/// Refused with 9, place 0, if there are fewer entries than n(n+1)/2 or the task's `n` or `m` isn't the
/// book's, and then nothing changes.
pub(crate) fn grow_until_decided<S: Task>(
    book: &mut Book,
    task: &S,
    table: &mut [u16],
) -> Result<(), Refusal>
    ensures { GrownToEnd (S.Task.meaning task.now) apart book.old table.old result book.new table.new }
{
    while let Distance::AtLeast(_) = book.distance(task, table)? {
        book.grow(task, &Apart, table)?;
    }
    Ok(())
}
