//! The bytes that are printed of what is asked for.
use crate::command::Asked;
use crate::input::Folder;
use anyhow::Result;
use report::text::{page_text, report_text};

const TASK_FILE: &str = "count.tsk";

const SHEET_FILE: &str = "count.pln";

const NAMES_FILE: &str = "count.nms";

/// What is printed: the answer to what is asked for.
pub fn answer(rt: &HostRuntime, asked: Asked) -> Result<Vec<u8>> {
    match asked {
        Asked::Report => report(rt, Folder::Here),
        Asked::Page { folder: None } => page(rt, Folder::Here),
        Asked::Page { folder: Some(name) } => page(rt, Folder::named(rt, &name)?),
    }
}

/// The report on the sheet of the count in the folder.
fn report(rt: &HostRuntime, folder: Folder) -> Result<Vec<u8>> {
    let (task, sheet) = task_and_sheet(rt, folder)?;
    Ok(report_text(rt.alloc(), &task, &sheet)?.into_bytes())
}

/// The page of the sheet of the count in the folder.
fn page(rt: &HostRuntime, folder: Folder) -> Result<Vec<u8>> {
    let (task, sheet) = task_and_sheet(rt, folder)?;
    let names = folder.read(rt, NAMES_FILE)?;
    Ok(page_text(rt.alloc(), &task, &sheet, &names)?)
}

/// The task file and the sheet file of the count in the folder.
fn task_and_sheet(rt: &HostRuntime, folder: Folder) -> Result<(Vec<u8>, Vec<u8>)> {
    let task = folder.read(rt, TASK_FILE)?;
    let sheet = folder.read(rt, SHEET_FILE)?;
    Ok((task, sheet))
}
