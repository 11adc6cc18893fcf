//! Parallel STRIPS planning: tasks, sharing rules, rounds.
//!
//! A task has facts and jobs that change them; the jobs of one round go out together and come back in
//! any order. The two interfaces, `Task` and `Rule`, each say by a ghost member what an implementation
//! means, so that code over them is proved once, for every task and every rule.
#![tactic(auto)]

pub mod header;
pub mod job;
pub mod lent;
pub mod loaded;
pub mod moved_start;
pub mod round;
pub mod row;
pub mod rule;
pub mod rules;
pub mod task;
pub mod theorems;
pub mod withheld;
