//! The result of a call on a stream, and the state of an opener.

use age_chunk::StreamFault;

/// The state of an opener.
#[derive(Clone, Copy, PartialEq, Eq)]
pub enum Status {
    /// Blocks are still to come.
    Open,
    /// A full block was the last one, and nothing may follow it.
    LastSeen,
    /// The input ended after the last chunk.
    Done,
    /// A call was refused, and each further call is refused with the same fault.
    Failed(StreamFault),
}

/// The result of feeding a piece to a sealer or an opener. It lends a block or a plaintext, if one
/// came, until the next call.
#[derive(Drop)]
pub struct Step<'a> {
    /// The number of bytes taken from the beginning of the piece.
    pub taken: usize,
    /// The number of the current chunk after the call.
    pub index: u64,
    /// The block of a sealer, tag included, or the plaintext of an opener, or `None` if no chunk
    /// was finished.
    pub chunk: Option<&'a [u8]>,
}
