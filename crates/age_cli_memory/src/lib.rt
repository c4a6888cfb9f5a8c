//! A set of files over memory, and what a run of the program leaves of it.
//!
//! `MemFiles` is a set of files whose names and bytes contracts see. `runs_keep_files` is the law that
//! says what `run_words` of `age_cli` leaves of such a set.
#![tactic(auto)]

mod entry;
mod files;
mod laws;

pub use files::{MemFiles, MemIn, MemOut};
pub use laws::runs_keep_files;
