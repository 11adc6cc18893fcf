//! Printing the page of three files.
ghost use Rattle.report.specs.Pages.{NamesLoaded, SheetPrinted, FilesPrinted, front_of};
ghost use Rattle.std.specs.Prelude.{◌≡◌, length};

use crate::answer::answer;
use crate::judge::{check_size, load_task, read_plan};
use crate::lines::Refused;
use crate::no_page::NoPage;
use names::read::read_names;
use pages::name::NamePlace;
use pages::named::Named;
use pages::task::NamedTask;
use planning::book::Book;
use planning::refusal::Refusal;
use planning::sheet::MOST_ROUNDS;
use reach::table::MOST_PAIRS;
use sets::jobs::JobSet;
use strips::loaded::Loaded;
use strips::row::Row;
use strips::rules::Apart;
use strips::task::{MOST_JOBS, Task};

/// The bytes of the largest page: 500 rounds of 255 jobs, 25 bytes each.
pub(crate) const MOST_PAGE_BYTES: usize = 3_187_500;

/// Reads the names file of the task into the places, of which there are 255.
fn load_names<S: Task>(task: &S, file: &[u8], places: &mut [NamePlace]) -> Result<(), Refusal>
    requires { length places.old ≡ 255 }
    ensures { NamesLoaded (S.Task.meaning task.now) file.now result places.new }
{
    check_size(file)?;
    read_names(task, file, places)
}

// Answering and printing are never refused: book, table and sheet go together, and there is room for the largest page.
/// Grows the table under apart until a distance or none is told, and issues the sheet and prints its page, if it is sound.
fn print_sheet<S: NamedTask>(
    task: &S,
    mut book: Book,
    table: &mut [u16],
    sheet: &[JobSet],
    page: &mut [u8],
) -> Result<usize, NoPage>
    requires { length page.old ≡ 3187500 }
    ensures { SheetPrinted (S.Task.meaning task.now) (S.NamedTask.names task.now) book table.old sheet.now (front_of page.new result) }
{
    let report = answer(task, &mut book, table, sheet).map_err(Refused::Plan)?;
    match book.issue(task, &Apart, table, sheet) {
        Ok(issued) => Ok(issued.print_page(task, sheet, page).map_err(Refused::Plan)?),
        Err(not_issued) => Err(NoPage::Unsound(report, not_issued.refusal)),
    }
}

/// Loads the task file, reads the sheet file and the names file, grows the table under apart until a distance or none is
/// told, issues the sheet, and prints its page to the front of `page`, which has room for the largest.
pub(crate) fn print_files(
    task_file: &[u8],
    plan_file: &[u8],
    names_file: &[u8],
    page: &mut [u8],
) -> Result<usize, NoPage>
    requires { length page.old ≡ 3187500 }
    ensures { FilesPrinted task_file.now plan_file.now names_file.now (front_of page.new result) }
{
    let mut rows = [Row::default(); MOST_JOBS];
    let mut table = [0; MOST_PAIRS];
    let mut sheet = [JobSet::empty(); MOST_ROUNDS];
    let mut places = [NamePlace::of(b""); MOST_JOBS];
    let header = load_task(task_file, &mut rows).map_err(Refused::Task)?;
    let task = Loaded {
        header,
        rows: &rows,
    };
    let book = read_plan(&task, plan_file, &mut table, &mut sheet).map_err(Refused::Plan)?;
    load_names(&task, names_file, &mut places).map_err(NoPage::Names)?;
    let named = Named {
        below: task,
        places: &places,
    };
    print_sheet(&named, book, &mut table, &sheet, page)
}
