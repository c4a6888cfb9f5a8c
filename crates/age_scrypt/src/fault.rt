//! The error of scrypt: running out of memory.
ghost use Rattle.std.specs.Prelude.{◌≡◌};

use std::alloc::AllocError;
use thiserror::Error;

/// The error that memory ran out.
#[derive(Clone, Copy, Debug, PartialEq, Eq, Error)]
#[error("out of memory")]
pub struct Memory;

impl Memory {
    /// Returns 28, the number of this fault in the list of all faults (docs/FAULTS.md).
    pub fn number(&self) -> u8
        ensures { result ≡ 28 }
    {
        28
    }

    /// Returns `None`, since running out of memory has no line or chunk.
    pub fn place(&self) -> Option<u64>
        ensures { result ≡ None }
    {
        None
    }
}

impl From<AllocError> for Memory {
    fn from(_error: AllocError) -> Self {
        Memory
    }
}
