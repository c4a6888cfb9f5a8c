//! The result of feeding a piece to the parser of a header.

use crate::header::Header;

/// The result of feeding a piece to a [`HeadParser`](crate::HeadParser) that found no fault.
#[derive(Drop)]
pub enum HeadStep {
    /// The bytes so far are the beginning of a header, and all of the piece was taken.
    More,
    /// The header is complete with the first `taken` bytes of the piece. The last of these is the
    /// end line's LF.
    Ready { taken: usize, header: Header },
}
