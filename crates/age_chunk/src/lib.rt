//! One chunk of an age file's payload (<https://c2sp.org/age#payload>): its nonce, the box that
//! seals and opens it, and the faults that a payload has.
//!
//! A [`ChunkBox`] seals a plaintext into a block, which is longer by a tag, and opens it;
//! `age_keys` has the one of age files, and [`ClearBox`] is one that doesn't encrypt, for examples.
//! The lengths of the format and the definitions of a plaintext's chunks and of its payload are in
//! this crate too.
#![tactic(auto)]

mod chunk_box;
mod clear_box;
mod fault;
mod laws;
mod lengths;
mod nonce;

pub use chunk_box::ChunkBox;
pub use clear_box::ClearBox;
pub use fault::{Memory, StreamFault, StreamKind};
pub use laws::valid_beyond;
pub use lengths::{BLOCK_LEN, CHUNK_LEN, CHUNK_LIMIT, PAYLOAD_NONCE_LEN, TAG_LEN};
pub use nonce::nonce_of;
