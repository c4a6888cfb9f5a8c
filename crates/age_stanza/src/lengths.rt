//! The lengths in a header's text, and its version line.

/// The version line, without its LF.
pub(crate) const VERSION: &[u8; 21] = b"age-encryption.org/v1";

/// The number of characters in a full line of a body.
pub(crate) const COLUMNS: usize = 64;

/// The number of bytes that a full line of a body encodes.
pub(crate) const LINE_BYTES: usize = COLUMNS / 4 * 3;

/// The number of characters in the base64 of a header's MAC.
pub(crate) const MAC_CHARACTERS: usize = 43;
