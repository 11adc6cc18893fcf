//! What is proved of files, whatever reads them.
ghost use Rattle.files.specs.Loading.{OneTask, OneLoading};
ghost use Rattle.files.specs.SheetFiles.{OneList, OneReading};
ghost use Rattle.files.specs.TaskFiles.{TasksWithFiles};

/// The theorem that a task file is the bytes of one header and one list of rows. If a file is the bytes of two
/// headers, each with its rows and within the limits, then the two have the same numbers of facts and of jobs, the same
/// start and goal, and the same rows in the same order, each with the same adds and the same deletes, also where a fact is
/// in both. So what loading answers and writes for an accepted file is fixed by the file. (Two files with different rows
/// may still mean one task: where the rows differ in nothing but deletes that are added.)
pub fn one_task()
    ensures { OneTask }
{}

/// The theorem that loading has one answer. Whatever a file and the caller's rows are, what `load` says of its
/// answer and of the rows behind it is true of one answer only: any two answers of which it is true both accept,
/// with headers of the same numbers of facts and of jobs, the same start and goal, or both refuse, with the same
/// number and place; and they leave the same rows.
pub fn one_answer_of_loading()
    ensures { OneLoading }
{}

/// The theorem on which headers and rows have a file: those whose rows' bodies fit a length byte. The bytes of a header
/// and rows within the limits are all below 256 exactly if, of each row, the zone is and the body has at most 255 bytes.
/// Loading accepts each such file where there are rows enough, as `load` says.
pub fn tasks_with_files()
    ensures { TasksWithFiles }
{}

/// The theorem that a sheet file is the bytes of one list of rounds. If a file is the bytes of two lists of
/// rounds, each round a list of job numbers, then the two lists are equal.
pub fn one_list_of_rounds()
    ensures { OneList }
{}

/// The theorem that reading a sheet file has one answer. Whatever a file, a book and a sheet are, what
/// `read_sheet` says of its answer and of the book and the sheet behind it is true of one answer only: any two
/// answers of which it is true both accept, or both refuse with the same number and place; and they leave the same
/// book, and a sheet with the same jobs in each place.
pub fn one_answer_of_reading()
    ensures { OneReading }
{}
