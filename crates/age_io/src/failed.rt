//! The errors of sources, sinks and memory.

ghost use Rattle.std.specs.Prelude.{◌≡◌, None};

use thiserror::Error;

/// The error that a source or a sink failed. The call moved no bytes, and the source or sink
/// counted the failure.
#[derive(Clone, Copy, Debug, PartialEq, Eq, Error)]
#[error("a source or a sink failed")]
pub struct Failed;

/// The error that a sink failed before it took all bytes, or that it could not be flushed.
#[derive(Clone, Copy, Debug, PartialEq, Eq, Error)]
#[error("a sink failed")]
pub struct WriteFailure;

/// The error that memory ran out.
#[derive(Clone, Copy, Debug, PartialEq, Eq, Error)]
#[error("out of memory")]
pub struct Memory;

impl Memory {
    /// Returns 28, the number of this fault in the list of all faults (docs/FAULTS.md).
    pub fn number(&self) -> u8
        ensures { result ≡ 28 }
    {
        28
    }

    /// Returns `None`, since running out of memory has no place.
    pub fn place(&self) -> Option<u64>
        ensures { result ≡ None }
    {
        None
    }
}
