//! Words of the command line, escaped so that a terminal may show them in a line.

use std::fmt::{self, Formatter};

/// The largest number of characters of a word that are shown.
const SHOWN_MAX: usize = 1000;

/// A word, displayed so that whatever isn't text, and whatever would begin a line or control a
/// terminal, is shown by its code. A long word is truncated.
#[derive(Clone, Copy)]
pub struct Escaped<'a>(pub &'a [u8]);

impl<'a> fmt::Display for Escaped<'a> {
    fn fmt<W: fmt::Write>(&self, f: &mut Formatter<W>) -> fmt::Result {
        if self.0.is_empty() {
            return f.write_str("\"\"");
        }
        let mut left = SHOWN_MAX;
        for chunk in self.0.utf8_chunks() {
            let Some(after_text) = show_text(chunk.valid(), left, f)? else {
                return f.write_str("..");
            };
            let Some(after_bytes) = show_bytes(chunk.invalid(), after_text, f)? else {
                return f.write_str("..");
            };
            left = after_bytes;
        }
        Ok(())
    }
}

/// A word at the beginning of a line, displayed like [`Escaped`]. A name that begins with a digit
/// of any script, or with a blank, gets `./`, so that no line that begins with a name looks like a
/// fault's.
#[derive(Clone, Copy)]
pub struct EscapedLineStart<'a>(pub &'a [u8]);

impl<'a> fmt::Display for EscapedLineStart<'a> {
    fn fmt<W: fmt::Write>(&self, f: &mut Formatter<W>) -> fmt::Result {
        let text = self.0.utf8_chunks().next();
        let first = text.and_then(|it| it.valid().chars().next());
        if first.is_some_and(|it| it.is_numeric() || it.is_whitespace()) {
            f.write_str("./")?;
        }
        fmt::Display::fmt(&Escaped(self.0), f)
    }
}

/// Shows at most `left` characters of a text. Returns how many are left then, or `None` if the text
/// has more.
fn show_text<W: fmt::Write>(
    text: &str,
    left: usize,
    f: &mut Formatter<W>,
) -> Result<Option<usize>, fmt::Error> {
    let mut left = left;
    for c in text.chars() {
        if left == 0 {
            return Ok(None);
        }
        show_char(c, f)?;
        left -= 1;
    }
    Ok(Some(left))
}

/// Shows a character, by its code if necessary. Quotes are harmless, and a backslash must differ
/// from the one that begins a code.
fn show_char<W: fmt::Write>(c: char, f: &mut Formatter<W>) -> fmt::Result {
    match c {
        '\'' => f.write_str("'"),
        '"' => f.write_str("\""),
        _ => fmt::Display::fmt(&c.escape_debug(), f),
    }
}

/// Shows at most `left` bytes that aren't text. Returns how many characters are left then, or
/// `None` if there are more bytes.
fn show_bytes<W: fmt::Write>(
    bytes: &[u8],
    left: usize,
    f: &mut Formatter<W>,
) -> Result<Option<usize>, fmt::Error> {
    let shown = &bytes[..bytes.len().min(left)];
    write!(f, "{}", shown.escape_ascii())?;
    Ok(left.checked_sub(bytes.len()))
}
