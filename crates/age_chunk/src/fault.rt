//! The errors of a payload, or of a plaintext to be sealed.

ghost use Rattle.std.specs.Prelude.{◌≡◌, Some, None};
ghost use Rattle.age_chunk.specs.Payload.{stream_fault_number};

use std::alloc::AllocError;
use std::{error, fmt};
use thiserror::Error;

/// The kind of fault for which a payload, or a plaintext to be sealed, was refused. The value of
/// each kind is its number in the list of all faults (docs/FAULTS.md).
#[derive(Clone, Copy, Debug, PartialEq, Eq)]
pub enum StreamKind {
    /// A full block, or the last one, opens neither as its chunk nor as the last.
    ChunkDamaged = 17,
    /// The input ended with 1 to 15 bytes of a block, fewer than a tag.
    ChunkCut = 18,
    /// The last chunk is empty though chunks came before it.
    EmptyLast = 19,
    /// The input ended before the last chunk.
    Truncated = 20,
    /// Bytes came after the last chunk.
    Trailing = 21,
    /// One more chunk would have the number [`CHUNK_LIMIT`](crate::CHUNK_LIMIT), which is 2^48.
    TooManyChunks = 22,
}

impl StreamKind {
    /// Returns the message for people.
    fn text(&self) -> &'static str {
        match self {
            StreamKind::ChunkDamaged => "chunk damaged",
            StreamKind::ChunkCut => "chunk cut",
            StreamKind::EmptyLast => "empty last chunk",
            StreamKind::Truncated => "payload truncated",
            StreamKind::Trailing => "bytes after the last chunk",
            StreamKind::TooManyChunks => "too many chunks",
        }
    }
}

impl fmt::Display for StreamKind {
    fn fmt<W: fmt::Write>(&self, f: &mut fmt::Formatter<W>) -> fmt::Result {
        f.write_str(self.text())
    }
}

impl error::Error for StreamKind {}

impl StreamKind {
    /// Returns the kind's number in the list of all faults (docs/FAULTS.md).
    pub fn number(&self) -> u8
        ensures { result ≡ stream_fault_number self.now }
    {
        *self as u8
    }
}

/// The error of a payload, or of a plaintext to be sealed, that was refused at a chunk.
#[derive(Clone, Copy, Debug, PartialEq, Eq, Error)]
#[error("{kind} at chunk {chunk}")]
pub struct StreamFault {
    /// The kind of the fault.
    pub kind: StreamKind,
    /// The number of the chunk, from 0.
    pub chunk: u64,
}

impl StreamFault {
    /// Returns the number of the fault's kind in the list of all faults (docs/FAULTS.md).
    pub fn number(&self) -> u8
        ensures { result ≡ stream_fault_number self.now.kind }
    {
        self.kind.number()
    }

    /// Returns the number of the chunk, from 0.
    pub fn place(&self) -> Option<u64>
        ensures { result ≡ Some self.now.chunk }
    {
        Some(self.chunk)
    }
}

/// The error that memory ran out.
#[derive(Clone, Copy, Debug, PartialEq, Eq, Error)]
#[error("out of memory")]
pub struct Memory;

impl Memory {
    /// Returns 28, the number of this fault in the list of all faults (docs/FAULTS.md).
    pub fn number(&self) -> u8
        ensures { result ≡ 28 }
    {
        28
    }

    /// Returns `None`, since running out of memory has no chunk.
    pub fn place(&self) -> Option<u64>
        ensures { result ≡ None }
    {
        None
    }
}

impl From<AllocError> for Memory {
    fn from(_e: AllocError) -> Memory {
        Memory
    }
}
