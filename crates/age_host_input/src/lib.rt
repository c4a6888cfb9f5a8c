//! Files that are read, and the standard streams.
//!
//! Contracts see the bytes that a file gave or skipped, whether a read found its end, and how many
//! reads have failed. [`HostIn::context`] has the error of the system.
#![tactic(auto)]

mod input;
mod standard_stream;

pub use input::HostIn;
pub use standard_stream::RecordingStream;
