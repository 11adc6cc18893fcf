//! Lekhnop reads the files of a count in a folder, and prints what it is asked for on its command line: without a word there
//! the report on the count's sheet (how many rounds it has, the distance, the verdict, and whether it is sound with as few
//! rounds as the distance), or by a command another of its answers; or which file is refused.
#![tactic(auto)]

mod answer;
mod command;
mod input;

use crate::answer::answer;
use crate::command::asked_for;
use anyhow::{Context, Result};
use clap::error::ErrorKind;
use std::alloc::AllocError;
use std::process::ExitCode;

fn main(rt: HostRuntime) -> ExitCode {
    match run(&rt) {
        Ok(status) => status,
        Err(error) => {
            // (where this can't be said either, the status tells)
            let _ = eprintln!(rt; "lekhnop: {error:#}");
            ExitCode::FAILURE
        }
    }
}

/// Prints what is asked for, and gives the status.
fn run(rt: &HostRuntime) -> Result<ExitCode> {
    match asked_for(rt) {
        Ok(asked) => {
            let text = answer(rt, asked)?;
            rt.write_all(&text).context("standard output")?;
            Ok(ExitCode::SUCCESS)
        }
        Err(told) => tell(rt, &told),
    }
}

/// Prints help or the version, or says what is wrong with the command line, and gives the status.
fn tell(rt: &HostRuntime, told: &clap::Error) -> Result<ExitCode> {
    if told.kind() == ErrorKind::OutOfMemory {
        return Err(AllocError.into());
    }
    let printed = told.print(rt);
    // (as in `main`, the status tells of a wrong command line where nothing can be said)
    if !told.use_stderr() {
        printed.context("standard output")?;
    }
    Ok(ExitCode::from(told.exit_code() as u8))
}
