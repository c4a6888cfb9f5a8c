//! The set of the files of a system. It knows which of them are in use, so that none is used twice,
//! and how each was made, written and replaced.
//!
//! Contracts see which files were opened, created, replaced and ended, what was read from them and
//! what was put, and nothing else that they hold. An error has the answer of the system.
#![tactic(auto)]

mod files;
mod in_use;
mod laws;
mod position_file;
mod temp_file;

pub use age_host_input::{HostIn, RecordingStream};
pub use age_host_output::HostOut;
pub use files::HostFiles;
pub use laws::no_input_is_changed;
