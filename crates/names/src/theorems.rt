//! What is proved of names files, whatever reads them.
ghost use Rattle.names.specs.NameFiles.{OneNaming};
ghost use Rattle.names.specs.Reading.{OneNamesReading};

/// The theorem that a names file is the bytes of one list of entries. If a file is the bytes of two lists of
/// entries, each entry the number of a job and its name, then the two lists are equal.
pub fn one_list_of_names()
    ensures { OneNaming }
{}

/// The theorem that reading a names file has one answer. Whatever a number of jobs, a file and the caller's
/// places are, what `read_names` says of its answer and of the places behind it is true of one answer only:
/// any two answers of which it is true both accept, or both refuse with the same number and place; and they
/// leave the same places.
pub fn one_answer_of_reading_names()
    ensures { OneNamesReading }
{}
