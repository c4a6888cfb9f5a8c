//! The place of a header's stanza.

/// The place of a stanza: its arguments in the bytes of the file, and its body in a buffer. All are
/// numbers of bytes.
#[repr(C)]
#[derive(Clone, Copy)]
pub struct StanzaPlace {
    /// The offset in the file of the stanza's type, which is its first argument.
    pub args_at: usize,
    /// The length of the arguments in the file, with one space between two of them.
    pub args_len: usize,
    /// The offset of the stanza's body in the buffer.
    pub body_at: usize,
    /// The length of the stanza's body.
    pub body_len: usize,
}
