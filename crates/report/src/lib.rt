//! What the program prints: of a task file and a sheet file the report on the sheet, and with a names file its page.
#![tactic(auto)]

mod answer;
mod grow;
pub mod judge;
pub mod lines;
pub mod no_page;
mod page;
pub mod text;
pub mod theorems;
