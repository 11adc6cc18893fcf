//! What the program is asked for on its command line.
use clap::builder::ValueParser;
use clap::error::ErrorKind;
use clap::{Arg, Command, Error};
use std::alloc::{AllocError, Global};
use std::env::{Env, FillError};
use std::{env, io};

/// The kit that the program is proved and built with, as `rt version` prints it.
const KIT: &str = "rattle-kit-13f logic dac8208d650f15bf";

const PAGE: &str = "page";

const FOLDER: &str = "FOLDER";

/// What is asked for.
#[derive(Drop)]
pub enum Asked {
    /// The report on the sheet in the folder that the program is run in.
    Report,
    /// The page of the sheet in a folder; in the one that the program is run in, if none is named.
    Page { folder: Option<String> },
}

/// The command line, without its words.
fn command_line<'a>(alloc: Global) -> Result<Command<'a>, AllocError> {
    Command::new(alloc, "lekhnop")
        .version(KIT)
        .about("Judges a stock count's sheet of rounds, and prints it for the pinboard")
        .after_help(
            "Without a command, lekhnop reads count.tsk (the task) and count.pln (the sheet) where it is run, and\n\
            prints its report on the sheet.",
        )
        .subcommand(page_command(alloc)?)
}

/// The command `page`.
fn page_command<'a>(alloc: Global) -> Result<Command<'a>, AllocError> {
    let folder = Arg::new(alloc, FOLDER)
        .value_parser(ValueParser::NonEmptyString)
        .help("The count's folder; where lekhnop is run, if none is given");
    Command::new(alloc, PAGE)
        .about("Print the page of the sheet, if the sheet is sound")
        .after_help(
            "The page has a line for each job of each round, with the job's name, and one for each round without\n\
            jobs. It is made of count.tsk (the task), count.pln (the sheet) and count.nms (the names).",
        )
        .arg(folder)
}

/// The words of the command line, the program's name first.
fn words(rt: &HostRuntime) -> Result<Vec<String>, Error> {
    match env::args(rt) {
        Ok(words) => Ok(words.collect(rt.alloc())?),
        Err(error) if error.kind() == io::ErrorKind::InvalidData => {
            let message = "a word of the command line isn't UTF-8";
            Err(command_line(rt.alloc())?.error(ErrorKind::ValueValidation, message)?)
        }
        Err(_) => Err(AllocError.into()),
    }
}

/// What the command line asks for.
///
/// The error is what is to be told in place of an answer: what is wrong with the command line, or help or the version, which
/// were asked for; or that there is no memory.
pub fn asked_for(rt: &HostRuntime) -> Result<Asked, Error> {
    // (the program's own name needn't be UTF-8 where it stands alone)
    if matches!(rt.arg(1, &mut []), Err(FillError::NotPresent)) {
        return Ok(Asked::Report);
    }
    let words = words(rt)?;
    let matches = command_line(rt.alloc())?.try_get_matches_from(words.as_slice())?;
    match matches.subcommand() {
        Some((PAGE, page)) => {
            let folder = page
                .get_str(FOLDER)
                .map(|name| String::from_str(rt.alloc(), name))
                .transpose()?;
            Ok(Asked::Page { folder })
        }
        // (no other command is there)
        _ => Ok(Asked::Report),
    }
}
