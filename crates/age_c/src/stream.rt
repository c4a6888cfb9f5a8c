//! The state of a file that is read in pieces.

use crate::reader::Reader;

/// A reader that takes its payload in pieces of any length: plain numbers and the bytes of one
/// block. It contains the file key.
#[repr(C)]
#[derive(Drop)]
pub struct Stream {
    /// The state of the file that is read.
    pub reader: Reader,
    /// The number of bytes that have come of the block that is open.
    pub held: u32,
    /// Unused: padding before the block.
    pub unused: u32,
    /// The bytes of the block that is open.
    pub block: [u8; 65_552],
}
