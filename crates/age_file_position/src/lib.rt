//! Positions: how far a run over an age file has come, and where another can continue after a stop.
//!
//! A [`RunProgress`] counts the bytes that a [`Writer`]'s sink took, and has the hash chain over
//! the plaintext's chunks. A [`Position`] is after some of these chunks, and is bound to the file
//! and to the plaintext before it.
#![tactic(auto)]

mod chunk_chain;
mod chunk_trace;
mod position;
mod position_text;
mod run_progress;
mod writer;

pub use chunk_chain::{Checkpoint, ChunkChain};
pub use position::{Position, PositionPolicy, compute_tag, file_id};
pub use run_progress::RunProgress;
pub use writer::Writer;
