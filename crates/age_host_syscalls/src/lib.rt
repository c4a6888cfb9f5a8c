//! Writing files by system calls, each of which is noted.
//!
//! A [`Machine`] makes the calls. Its contracts see only which ones it made, in order, and how many
//! have failed; `age_host_model` defines what they leave on a disk. So what is proved of a function
//! that makes these calls holds on every disk that does what the definitions say of a call.
#![tactic(auto)]

pub mod calls;
mod file;
mod machine;
mod overwrite;
mod retry;
mod sync_support;
mod syscall_log;

pub use file::{
    ExpectedStat, FileStat, HostFile, above_stdio, close_copy, lock, move_above_stdio, sync_folder,
    write_at,
};
pub use machine::Machine;
pub use overwrite::{CloseOutcome, Out};
pub use retry::{TRIES, is_to_retry, too_many_tries};
pub use sync_support::sync;
