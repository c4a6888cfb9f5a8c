//! Age files over sources and sinks: all engines, each of which has its own crate, and the laws
//! that join them.
//!
//! A [`Source`] gives bytes and a [`Sink`] takes them. Both count their failures, and those in
//! memory show contracts their bytes, so that the contract of an engine can name what it read and
//! what it wrote.
//!
//! [`inspect`] reads a complete file and reports its header, and how much plaintext the bytes after
//! it would be. [`encrypt`] writes an age file of what it reads, and [`decrypt`] the plaintext of a
//! file whose header an unlocker opens; if it stops, it returns the position at which to continue.
//! [`resume`] continues from that position: it copies the earlier output up to it, and opens the
//! blocks after it, so that what it writes is the complete plaintext.
//!
//! docs/LIBRARY.md says which call to use for what, and has examples.
#![tactic(auto)]

mod laws;

pub use age_fault::FileFault;
pub use age_file_decrypt::{
    Checkpoints, Done, Stopped, authentic_runs, bound_positions, calls_in_a_row, decrypt,
    decrypt_marked, done_gave_text, head_faults_stay, resume, resume_marked, runs_in_a_row,
    undamaged_is_written,
};
pub use age_file_encrypt::{Preamble, Secret, Written, encrypt, encrypt_after};
pub use age_file_inspect::{Report, StanzaReport, StanzaReports, inspect, inspect_sized};
pub use age_file_position::{Position, PositionPolicy};
pub use age_io::{
    ByteTrace, Failed, Memory, Reading, Sink, Source, WriteFailure, Writing, flush_all, write_all,
};
pub use age_memory::{MemSink, MemSource};
pub use laws::{age_file_is_whole, round_trip};
