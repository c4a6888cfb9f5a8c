//! The state of a file that is read, between calls.

/// The state of a file that is read: 64 bytes of plain numbers. It contains the file key.
#[repr(C)]
#[derive(Drop)]
pub struct Reader {
    /// The file key.
    pub file_key: [u8; 16],
    /// The payload nonce.
    pub nonce: [u8; 16],
    /// The offset in the file, in bytes, at which the payload begins.
    pub payload_at: u64,
    /// The number of the next chunk.
    pub chunk: u64,
    /// The number of the chunk at which the payload was refused, or else 0.
    pub fault_chunk: u64,
    /// 1 while blocks are to come, 2 after a full block that is the last, 3 after the end, and the
    /// fault's number, 17 to 22, after a refusal.
    pub state: u32,
    /// Unused: fills the 64 bytes.
    pub unused: u32,
}
