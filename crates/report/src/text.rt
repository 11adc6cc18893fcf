//! What is printed: the text of two files, and the page of three.
ghost use Rattle.report.specs.Printed.{Printed, PrintedOfThree};
ghost use Rattle.std.specs.Prelude.{IfOk, string_bytes};

use crate::judge::judge_files;
use crate::lines::Lines;
use crate::page::{MOST_PAGE_BYTES, print_files};
use std::alloc::{AllocError, Global};

/// The text that is printed of a task file and a sheet file, one of three replies. Each line ends with hex 0A.
///
/// `task refused N P`, where the task file is refused, whatever the sheet file is. N is 1 and P 60000 if it has more
/// than 60,000 bytes; else they are the number and the place with which `load` refuses it, where 255 rows are supplied.
///
/// `plan refused N P`, where the task file is the bytes of a task and the sheet file is refused. N is 1 and P 60000 if
/// it has more than 60,000 bytes; else they are the number and the place with which `read_sheet` refuses it, where 500
/// places are supplied and none is in use.
///
/// Four lines, where the two files are the bytes of a task and of rounds that can be added for it:
///
/// - `rounds R`: there are R rounds.
/// - `distance D`: layer D under apart is the first that reaches the goal, and no plan has fewer rounds; or
///   `distance none`: no layer does, and there is no plan.
/// - `verdict V`: the word and the numbers of the verdict on the rounds under apart. It is `sound` exactly if they are
///   a plan.
/// - `shortest yes`: the verdict is sound and R is D, so that no plan has fewer rounds; else `shortest no`.
///
/// Want of memory for the text is the only error.
pub fn report_text(alloc: Global, task_file: &[u8], plan_file: &[u8]) -> Result<String, AllocError>
    ensures { IfOk result (λ text. Printed task_file.now plan_file.now (string_bytes text)) }
{
    match judge_files(task_file, plan_file) {
        Ok(report) => Lines(report).to_string(alloc),
        Err(refused) => refused.to_string(alloc),
    }
}

/// What is printed of a task file, a sheet file and a names file, one of five replies: the page of the sheet, which is issued
/// for that, or why there is none. Each line ends with hex 0A.
///
/// `task refused N P`, where the task file is refused, whatever the other two are, and `plan refused N P`, where the task
/// file is the bytes of a task and the sheet file is refused, whatever the names file is: as in `report_text`.
///
/// `names refused N P`, where the task file is the bytes of a task, the sheet file is those of rounds that can be added for
/// it, and the names file is refused. N is 1 and P 60000 if it has more than 60,000 bytes; else they are the number and the
/// place with which `read_names` refuses it, where 255 name places are supplied.
///
/// Five lines, where the files are the bytes of a task, of rounds that can be added for it and of names for its jobs, and the
/// rounds aren't a plan under apart: the four lines that `report_text` gives of the first two, and `sheet refused 14 0`.
///
/// The page, where the files are such bytes, and the rounds are a plan under apart: of each round, from 0, a line of 25 bytes
/// for each of its jobs, in rising order, or one line where it has none, as `Issued::print_page` prints them. Each job has
/// the name that the names file gives it, or none if it isn't listed there. A sheet without rounds has no byte.
///
/// Want of memory, for the page, which takes 3,187,500 bytes while it is printed, or for the text, is the only error.
pub fn page_text(
    alloc: Global,
    task_file: &[u8],
    plan_file: &[u8],
    names_file: &[u8],
) -> Result<Vec<u8>, AllocError>
    ensures { IfOk result (λ out. PrintedOfThree task_file.now plan_file.now names_file.now out.items) }
{
    let mut page = vec![in alloc; 0; MOST_PAGE_BYTES]?;
    match print_files(task_file, plan_file, names_file, &mut page) {
        Ok(bytes) => {
            page.truncate(bytes);
            Ok(page)
        }
        Err(why) => Ok(why.to_string(alloc)?.into_bytes()),
    }
}
