//! The files that a command works with: a trait for a set of them.
//!
//! A set notes what was opened, created, replaced and ended, in order, and what came of it. For the
//! files of a system (`age_host`), contracts see the bytes that they gave and took; for a set in
//! memory (`age_cli_memory`), also what each file holds.
#![tactic(auto)]

mod error;
mod file_set;
mod log;

pub use age_host_model::{Action, ErrorContext, Failure, FirstBytes, ReadSummary};
pub use error::{FileError, OpenError};
pub use file_set::{FileSet, IfMissing, OpenFault, Purpose};
pub use log::{EventLog, FileEvent};
