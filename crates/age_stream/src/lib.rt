//! The payload of an age file (<https://c2sp.org/age#payload>).
//!
//! A plaintext is split into chunks of [`CHUNK_LEN`] bytes; the last has fewer or as many, but none
//! only if the plaintext is empty. Each chunk is sealed with a tag of [`TAG_LEN`] bytes at a nonce
//! of its own: eleven bytes of its number from 0, the highest first, and one byte that is 1 for the
//! last chunk and 0 for the others. The blocks follow one another, and nothing comes after the
//! last.
//!
//! A [`Sealer`] takes a plaintext in pieces and lends the blocks, and an [`Opener`] takes the
//! blocks in pieces and lends the plaintext, each out of one buffer of `SEALED` bytes, the length
//! of a full block; for age files that is [`BLOCK_LEN`]. Neither allocates memory. A [`ChunkBox`]
//! seals and opens single chunks. [`Replay`] and [`drill`] collect the plaintext that results from
//! any list of pieces, ends and restarts. docs/LIBRARY.md says what to use for what.
#![tactic(auto)]

mod buffer;
mod delivery;
mod drilling;
mod headline;
mod laws;
mod length;
mod opener;
mod replay;
mod sealer;
mod step;
mod whole_text;

pub use age_chunk::{
    BLOCK_LEN, CHUNK_LEN, CHUNK_LIMIT, ChunkBox, ClearBox, Memory, StreamFault, StreamKind,
    TAG_LEN, nonce_of,
};
pub use delivery::Delivery;
pub use drilling::drill;
pub use headline::held_is_written;
pub use laws::{
    chunks_are_counted, chunks_are_one, clear_is_sealable, closed_stays, lengths_are_one,
    nonces_differ, payload_is_longer, pieces_join, released_grows, released_is_written, round_trip,
    sealed_grows, sealings_differ, undamaged_is_authentic,
};
pub use length::plaintext_len;
pub use opener::Opener;
pub use replay::{Drill, Replay};
pub use sealer::Sealer;
pub use step::{Status, Step};
pub use whole_text::{SealFault, seal_all, seal_into};
