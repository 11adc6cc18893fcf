//! The library's boundary: two functions that a program in another language can call.
//!
//! Bytes go in, and bytes or numbers come out, all in memory that the caller lends. The two only hand over to the
//! library and back; `docs/boundary.md` has them as C declares them, and what a caller owes.
#![tactic(auto)]

ghost use Rattle.boundary.specs.Tables.{TellsOf, TableWritten};
ghost use Rattle.boundary.specs.Texts.{TextWritten};

mod grow;
mod pile;
mod sharing;
mod table;

use crate::pile::Layers;
use crate::sharing::Sharing;
use crate::table::grow_file;
use planning::book::Book;
use planning::refusal::Refusal;
use report::text::report_text;
use std::alloc::Global;

/// How far a table was grown, or why it wasn't.
#[repr(C)]
#[derive(Clone, Copy)]
pub struct Grown {
    /// The number of the refusal, 0 where there is none.
    pub number: u8,
    /// Whether the book is settled.
    pub settled: bool,
    /// The layer of the book.
    pub layer: u16,
    /// The place of the refusal, 0 where there is none.
    pub place: usize,
}

impl Grown {
    /// What is told of an answer.
    fn of(answer: Result<Book, Refusal>) -> Grown
        ensures { TellsOf answer result }
    {
        match answer {
            Ok(book) => Grown {
                number: 0,
                settled: book.is_settled(),
                layer: book.layer(),
                place: 0,
            },
            Err(refusal) => Grown {
                number: refusal.cause.number(),
                settled: false,
                layer: 0,
                place: refusal.place,
            },
        }
    }
}

/// Writes the text that is printed of a task file and a sheet file to the front of `text`, if there is room for all of
/// it; what stands behind it is as before. The result is its number of bytes.
///
/// Without room nothing is written. Without memory for the text nothing is written either, and the result is the largest
/// `usize`, which no text's length is.
#[unsafe(no_mangle)]
pub extern "C" fn lekhnop_report(
    alloc: Global,
    task_file: &[u8],
    plan_file: &[u8],
    text: &mut [u8],
) -> usize
    ensures { TextWritten task_file.now plan_file.now text.old result text.new }
{
    let Ok(printed) = report_text(alloc, task_file, plan_file) else {
        return usize::MAX;
    };
    let bytes = printed.as_bytes();
    if bytes.len() <= text.len() {
        text[..bytes.len()].copy_from_slice(bytes);
    }
    bytes.len()
}

/// Loads a task file, piles layers on the task, opens a book for it over the table, and grows it under a rule `growings`
/// times, or until a growing settles the book if that comes sooner. `grown` is written, and its old value isn't read.
///
/// The piles are 0, none; 1, withheld; 2, moved start; 3, withheld over moved start; from 4 up, moved start over
/// withheld; over the loaded task, with these jobs withheld and the start moved to these facts. Both lists are in any
/// order, and a number may stand there more than once; job numbers from `m` up and facts from `n` up don't count, and a
/// list whose layer isn't in the pile isn't used. The rules are 0, apart; 1, single file; from 2 up, zoned.
///
/// First the file is refused as `load` refuses it with 255 rows, whatever its size; else the table is refused with 9,
/// place 0, if there are fewer entries than n(n+1)/2. Then the number and the place of that one refusal are told, `settled`
/// is false, `layer` is 0, and the table is as before.
///
/// Else `number` and `place` are 0, the book's layer is told and whether it is settled, and the table's first n(n+1)/2
/// entries are those of that layer: each is the first layer of its pair, or 65,535 where the pair isn't in the book's
/// layer; the entries behind them are as before. Nothing else is written.
#[unsafe(no_mangle)]
pub extern "C" fn lekhnop_table(
    task_file: &[u8],
    pile: u8,
    withheld: &[u8],
    start: &[u8],
    rule: u8,
    growings: u16,
    table: &mut [u16],
    grown: &mut Grown,
)
    ensures { TableWritten task_file.now pile withheld.now start.now rule growings table.old grown.new table.new }
{
    let layers = Layers::of(pile, withheld, start);
    *grown = Grown::of(grow_file(task_file, &layers, Sharing::of(rule), growings, table));
}
