//! A source with its buffer.

use crate::buffer::InputBuffer;

/// A source, with the buffer of bytes that were read from it and not used yet.
#[derive(Drop)]
pub struct Reader<'a, S> {
    /// The source.
    pub source: &'a mut S,
    /// The buffer of the source.
    pub intake: &'a mut InputBuffer,
}
