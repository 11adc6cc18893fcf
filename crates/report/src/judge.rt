//! Judging a sheet file on a task file.
ghost use Rattle.report.specs.Files.{SizeChecked, TaskLoaded, PlanRead, PlanAnswered, FilesAnswered};
ghost use Rattle.std.specs.Prelude.{◌≡◌, length};

use crate::answer::answer;
use crate::lines::Refused;
use files::load::load;
use files::sheet::read_sheet;
use planning::book::Book;
use planning::refusal::{Cause, Refusal};
use planning::report::Report;
use planning::sheet::MOST_ROUNDS;
use reach::table::MOST_PAIRS;
use sets::jobs::JobSet;
use strips::header::Header;
use strips::loaded::Loaded;
use strips::row::Row;
use strips::task::{MOST_JOBS, Task};

/// The most bytes of a file.
const MOST_BYTES: usize = 60_000;

/// Refuses a file of more than 60,000 bytes with 1, place 60,000.
pub(crate) fn check_size(file: &[u8]) -> Result<(), Refusal>
    ensures { SizeChecked file.now result }
{
    if file.len() > MOST_BYTES {
        return Err(Cause::Truncated.at(MOST_BYTES));
    }
    Ok(())
}

/// Loads a task file into the rows, of which there are 255.
pub(crate) fn load_task(file: &[u8], rows: &mut [Row]) -> Result<Header, Refusal>
    requires { length rows.old ≡ 255 }
    ensures { TaskLoaded file.now result rows.new }
{
    check_size(file)?;
    load(file, rows)
}

// Opening is never refused: there are entries for 128 facts.
/// Opens a book for the task and reads the sheet file, where the table has entries for 128 facts and the sheet 500 places.
pub(crate) fn read_plan<S: Task>(
    task: &S,
    plan_file: &[u8],
    table: &mut [u16],
    sheet: &mut [JobSet],
) -> Result<Book, Refusal>
    requires entries { length table.old ≡ 8256 }
    requires places { length sheet.old ≡ 500 }
    ensures { PlanRead (S.Task.meaning task.now) plan_file.now result table.new sheet.new }
{
    check_size(plan_file)?;
    let mut book = Book::open(task, table)?;
    read_sheet(&mut book, sheet, plan_file)?;
    Ok(book)
}

// Answering is never refused: book, table and sheet go together.
/// What a sheet file is answered for the task, where the table has entries for 128 facts and the sheet 500 places.
fn judge_plan<S: Task>(
    task: &S,
    plan_file: &[u8],
    table: &mut [u16],
    sheet: &mut [JobSet],
) -> Result<Report, Refusal>
    requires entries { length table.old ≡ 8256 }
    requires places { length sheet.old ≡ 500 }
    ensures { PlanAnswered (S.Task.meaning task.now) plan_file.now result }
{
    let mut book = read_plan(task, plan_file, table, sheet)?;
    answer(task, &mut book, table, sheet)
}

/// Loads the task file, reads the sheet file, grows the table until a distance or none is told, and judges, all under
/// apart. Neither file is written, and rows, table and sheet are the call's own.
///
/// The report, where both files are accepted, is that of the task and of the rounds that the two files have: how many
/// rounds there are; the distance, which is the first layer that reaches the goal, or none where no layer does, and
/// never "at least"; the verdict on the rounds; and rounds minus distance, absent where the distance is none.
///
/// Else a refusal, `Task` or `Plan` by whose it is. The task file is refused before the sheet file is looked at. Each is
/// refused with 1, place 60,000, if it has more than 60,000 bytes, before anything of it is read; else as `load` refuses
/// it where 255 rows are supplied, or as `read_sheet` does where 500 places are and none is in use.
pub fn judge_files(task_file: &[u8], plan_file: &[u8]) -> Result<Report, Refused>
    ensures { FilesAnswered task_file.now plan_file.now result }
{
    let mut rows = [Row::default(); MOST_JOBS];
    let mut table = [0; MOST_PAIRS];
    let mut sheet = [JobSet::empty(); MOST_ROUNDS];
    let header = load_task(task_file, &mut rows).map_err(Refused::Task)?;
    let task = Loaded {
        header,
        rows: &rows,
    };
    judge_plan(&task, plan_file, &mut table, &mut sheet).map_err(Refused::Plan)
}
