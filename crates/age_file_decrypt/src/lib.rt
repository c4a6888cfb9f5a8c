//! The decryption of a file, from its start or from a position, from any source to any sink; and
//! laws about any number of such runs.
#![tactic(auto)]

mod checkpoints;
mod copy;
mod decryption;
mod laws;
mod payload;
mod resumption;
mod start;

pub use checkpoints::Checkpoints;
pub use decryption::{Done, Stopped, decrypt, decrypt_marked};
pub use laws::{
    authentic_runs, bound_positions, calls_in_a_row, done_gave_text, head_faults_stay,
    runs_in_a_row, undamaged_is_written,
};
pub use resumption::{resume, resume_marked};
