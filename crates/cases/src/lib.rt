//! Small counts with known answers: as a theorem on the definitions, and run as tests.
#![tactic(auto)]

#[cfg(test)]
mod calls;
#[cfg(test)]
mod issuing;
#[cfg(test)]
mod lift;
#[cfg(test)]
mod list_of_calls;
#[cfg(test)]
mod names_files;
#[cfg(test)]
mod own;
#[cfg(test)]
mod parcels;
#[cfg(test)]
mod piles;
#[cfg(test)]
mod printing;
#[cfg(test)]
mod reports;
#[cfg(test)]
mod sheet_files;
#[cfg(test)]
mod task_files;
#[cfg(test)]
mod texts;
#[cfg(test)]
mod twin;
#[cfg(test)]
mod work;
pub mod worked;
