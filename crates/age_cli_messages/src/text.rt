//! Writes a text to a sink.

use age_io::{Failed, Sink};

/// Writes a text, by one put if the sink takes all of it, and flushes the sink.
fn put_all<O: Sink>(sink: &mut O, text: &[u8]) -> Result<(), Failed> {
    let mut at = 0;
    while at < text.len() {
        at += sink.put(&text[at..])?;
    }
    sink.flush()
}

/// Writes a text, and flushes the sink. Ignores a failure.
pub(crate) fn show<O: Sink>(sink: &mut O, text: &[u8]) {
    let _ = put_all(sink, text);
}
