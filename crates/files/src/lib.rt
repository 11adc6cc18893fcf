//! Task files and sheet files: records, loading a task, and reading a sheet.
//!
//! A file is a row of records, each a two-byte mark, a length byte and a body. Loading reads a task file into
//! rows that the caller lends; reading a sheet file adds its rounds to a book. Names files have their own crate.
#![tactic(auto)]

mod counts;
mod ends;
mod facts;
mod job;
mod jobs;
mod lists;
pub mod load;
pub mod record;
pub mod sheet;
pub mod theorems;
