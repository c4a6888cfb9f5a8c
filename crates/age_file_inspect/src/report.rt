//! The report on a file.

use age_io::{Bytes, List};

/// A stanza in the report on a file.
#[derive(Drop)]
pub struct StanzaReport {
    /// The stanza's type, which is its first argument.
    pub kind: Bytes,
    /// The number of arguments after the type.
    pub args: u64,
    /// The length of the stanza's body in bytes.
    pub body: u64,
}

/// The stanzas of a report, in the order of the file.
pub type StanzaReports = List<StanzaReport>;

/// A report on an age file, whose header was read and not opened.
#[derive(Drop)]
pub struct Report {
    /// The length of the header in bytes.
    pub header: u64,
    /// The header's stanzas, in order.
    pub stanzas: StanzaReports,
    /// The number of bytes after the header: the payload nonce and the payload.
    pub rest: u128,
    /// The length of the plaintext in bytes, from the number in `rest`, or `None` if no valid
    /// payload has that length.
    pub plain: Option<u128>,
}
