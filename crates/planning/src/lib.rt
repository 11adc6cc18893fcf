//! The book: a supervisor's sheet of rounds beside the table that says how few rounds any plan can take.
//!
//! A book keeps a few numbers. The table and the sheet belong to the caller, who lends them at each call. Task and
//! rule are handed over side by side, since opening and asking for the distance take no rule.
#![tactic(auto)]

pub mod book;
pub mod issued;
pub mod lists;
pub mod refusal;
pub mod report;
pub mod sheet;
pub mod theorems;
