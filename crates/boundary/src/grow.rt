//! Growing a table a number of times.
ghost use Rattle.boundary.specs.Growths.{TimesGrown};

use planning::book::Book;
use planning::refusal::Refusal;
use strips::rule::Rule;
use strips::task::Task;

/// Opens a book for the task over the table, and grows it under the rule `growings` times, or until a growing settles it
/// if that comes sooner.
///
/// Refused with 9, place 0, if there are fewer entries than n(n+1)/2, and then nothing is written.
pub(crate) fn grow_times<S: Task, R: Rule>(
    task: &S,
    rule: &R,
    growings: u16,
    table: &mut [u16],
) -> Result<Book, Refusal>
    ensures { TimesGrown (S.Task.meaning task.now) (R.Rule.shares rule.now) growings table.old result table.new }
{
    let mut book = Book::open(task, table)?;
    let mut done = 0;
    while done < growings && !book.is_settled() {
        book.grow(task, rule, table)?;
        done += 1;
    }
    Ok(book)
}
