//! The state of a file that is written in pieces.

use crate::writer::Writer;

/// A writer that takes its plaintext in pieces of any length: plain numbers and the bytes of one
/// chunk. It contains the file key and plaintext.
#[repr(C)]
#[derive(Drop)]
pub struct WriteStream {
    /// The state of the file that is written.
    pub writer: Writer,
    /// The number of bytes that have come of the chunk that is open.
    pub held: u32,
    /// Unused: padding before the chunk.
    pub unused: u32,
    /// The bytes of the chunk that is open.
    pub chunk: [u8; 65_536],
}
