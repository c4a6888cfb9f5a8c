//! The state of a file that is decoded.

use crate::stream::Stream;

/// The state of a file that is decoded from its first byte on, in pieces of any length: plain
/// numbers and the bytes of one block. It contains the file key. Only the calls of a decoder touch
/// it.
#[repr(C)]
#[derive(Drop)]
pub struct Decoder {
    /// The stream of the payload, once the header is open.
    pub stream: Stream,
    /// The number of bytes that have come of a header that isn't open.
    pub held: usize,
    /// The number of plaintext bytes that are still to be dropped before the place of a seek.
    pub skip: usize,
    /// 1 once the header is open, or else 0.
    pub open: u32,
    /// The number of the fault for which the header was refused, or else 0.
    pub fault: u32,
}
