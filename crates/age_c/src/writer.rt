//! The state of a file that is written.

/// The state of a file that is written: 64 bytes of plain numbers. It contains the file key.
#[repr(C)]
#[derive(Drop)]
pub struct Writer {
    /// The file key.
    pub file_key: [u8; 16],
    /// The payload nonce.
    pub nonce: [u8; 16],
    /// The number of the next chunk.
    pub chunk: u64,
    /// 1 while chunks are to come, 2 after the last.
    pub state: u32,
    /// Unused: fills the 64 bytes.
    pub unused: [u32; 5],
}
