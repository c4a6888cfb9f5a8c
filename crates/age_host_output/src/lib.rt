//! Files that are written: a regular file by system calls that are noted, a device, or a standard
//! stream.
//!
//! Contracts see which file it is, what was put, how much of that was synced, and by which calls a
//! regular file was made, written and ended.
#![tactic(auto)]

mod closing;
mod device;
mod output;
mod sync_and_close;
mod target;

pub use closing::CloseRecord;
pub use output::HostOut;
