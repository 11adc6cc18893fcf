//! The answer to a sheet.
ghost use Rattle.report.specs.Answers.{AnswersRuns, GrownOn};
ghost use Rattle.strips.specs.Rules.{apart};

use crate::grow::grow_until_decided;
use planning::book::Book;
use planning::refusal::Refusal;
use planning::report::Report;
use sets::jobs::JobSet;
use strips::rules::Apart;
use strips::task::Task;

/// Grows the table under apart until a distance or none is told, and judges the sheet.
///
/// Where the book, the table and the sheet come from an accepted opening of this task and any list of growings under
/// apart, addings, droppings, judgings and issuings after it, where an issuing that isn't refused is followed by
/// reopening, this isn't refused, and what is answered is true of the task and of the rounds that the list gives. Then
/// a list of calls leads to the book and the table as they are left, and gives the same rounds.
pub(crate) fn answer<S: Task>(
    task: &S,
    book: &mut Book,
    table: &mut [u16],
    sheet: &[JobSet],
) -> Result<Report, Refusal>
    ensures answers { AnswersRuns (S.Task.meaning task.now) apart book.old table.old sheet.now result }
    ensures grown { GrownOn (S.Task.meaning task.now) apart book.old table.old sheet.now book.new table.new }
{
    grow_until_decided(book, task, table)?;
    book.judge(task, &Apart, table, sheet)
}
