//! The events of a transfer.

/// An event of a transfer: bytes, an end or a restart.
#[derive(Clone, Copy)]
pub enum Delivery<'a> {
    /// Bytes of the payload, or others that came in their place.
    Piece(&'a [u8]),
    /// The input ended.
    End,
    /// The transfer starts again at a chunk, by the chunk's number.
    Restart(u64),
}
