//! The lengths of a chunk, of its block and of the payload nonce, and the most chunks of a payload.

/// The length of a full chunk in bytes of plaintext: 64 KiB.
pub const CHUNK_LEN: usize = 65_536;

/// The length of a Poly1305 tag in bytes, by which a block is longer than its plaintext.
pub const TAG_LEN: usize = 16;

/// The length of a full chunk's block in bytes.
pub const BLOCK_LEN: usize = CHUNK_LEN + TAG_LEN;

/// The greatest number of chunks in a payload: 2^48.
pub const CHUNK_LIMIT: u64 = 281_474_976_710_656;

/// The length of the payload nonce in bytes. The nonce stands before the payload and salts the
/// payload's key (<https://c2sp.org/age#payload>).
pub const PAYLOAD_NONCE_LEN: usize = 16;
