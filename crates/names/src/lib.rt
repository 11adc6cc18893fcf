//! Names files: reading the names of a task's jobs.
//!
//! A names file is a row of records, each the number of a job and its name. Reading one writes the names into
//! places that the caller lends.
#![tactic(auto)]

pub mod read;
pub mod theorems;
