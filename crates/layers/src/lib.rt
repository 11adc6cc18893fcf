//! Layers: which pairs of facts may hold together after so many rounds, and what that says of plans.
//!
//! The definitions are in `specs/`; there is no code here but the functions whose contracts are the
//! theorems.
#![tactic(auto)]

pub mod theorems;
