//! What is proved of texts, whatever prints them.
ghost use Rattle.report.specs.Printed.{OnePage, OneText};

/// The theorem that two files have at most one text. What `report_text` says of a text, a task file and a sheet file
/// is true of one text only: any two texts of which it is true, with the same two files, are equal. So the files alone
/// fix what is printed.
pub fn one_text()
    ensures { OneText }
{}

/// The theorem that three files have at most one page, or one text in its place. What `page_text` says of what is printed,
/// of a task file, a sheet file and a names file is true of one text only: any two texts of which it is true, with the same
/// three files, are equal. So the files alone fix what is printed.
pub fn one_page()
    ensures { OnePage }
{}
