//! The two sets that everything above is made of: facts of a task, and job numbers of a round.
//!
//! Both are a few 64-bit words, plain and `Copy`. Every promise here speaks of members alone, so a
//! caller never needs to know how the words are laid out; only a sheet place, which callers hand over
//! as four words, has its layout promised.
#![tactic(auto)]

pub mod facts;
pub mod jobs;
pub mod members;
pub mod theorems;
pub mod walk;
