//! The system calls that make, write, sync, close or remove a file, and what they leave on a disk,
//! even if the power is cut between two of them.
//!
//! By these definitions contracts say what was done for an output, for any list of calls. A crate
//! that only cites them needs no proof about `age_host_syscalls`, which makes the calls. What is
//! proved of a list of calls holds on every disk that does what the definitions say of a call.
#![tactic(auto)]

mod error_context;
mod laws;
mod opened;
mod options;

pub use error_context::{Action, ErrorContext, Failure, FirstBytes, ReadSummary};
pub use laws::{
    calls_are_answered, changed_if_locked_late, others_are_kept, outs_are_answered,
    second_run_changes_nothing, torn_if_cut_last, torn_if_unsynced,
};
pub use opened::{FileKind, OpenOutcome};
pub use options::{ClobberOption, Durability};
