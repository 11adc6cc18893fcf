//! The table of pairs: opening it, growing it by a layer, and reading the goal from it.
#![tactic(auto)]

pub mod goal;
pub mod grow;
mod makings;
pub mod open;
mod pair_set;
mod reading;
mod ready;
pub mod table;
mod write;
