//! Names in a command for a shell.

use std::fmt::{self, Formatter};

/// A name as a shell takes it, so that a command that is shown can be pasted, and a name that was
/// made to mislead does nothing there. No character of it is left out. Any shell takes a name
/// without characters that must be shown by their codes; bash, zsh and ksh take those too.
#[derive(Clone, Copy)]
pub(crate) struct Quoted<'a>(pub(crate) &'a str);

/// Returns whether a shell takes a character unquoted.
fn is_plain(c: char) -> bool {
    c.is_ascii_alphanumeric() || matches!(c, '_' | '-' | '.' | '/' | ':' | ',' | '+' | '@' | '%')
}

/// Returns whether a character can be shown between quotes.
fn is_shown(c: char) -> bool {
    c == ' ' || c.is_ascii_graphic() || c.is_alphanumeric()
}

impl<'a> fmt::Display for Quoted<'a> {
    fn fmt<W: fmt::Write>(&self, f: &mut Formatter<W>) -> fmt::Result {
        if self.0.starts_with('-') {
            f.write_str("./")?;
        }
        if !self.0.is_empty() && self.0.chars().all(is_plain) {
            return f.write_str(self.0);
        }
        let has_codes = !self.0.chars().all(is_shown);
        f.write_str(if has_codes { "$'" } else { "'" })?;
        for c in self.0.chars() {
            show_quoted(c, has_codes, f)?;
        }
        f.write_str("'")
    }
}

/// Shows a character between quotes: a quote outside of them, or after a backslash between `$'` and `'`,
/// where what can't be shown has the codes of its bytes, so that no locale matters.
fn show_quoted<W: fmt::Write>(c: char, has_codes: bool, f: &mut Formatter<W>) -> fmt::Result {
    match c {
        '\'' if has_codes => f.write_str("\\'"),
        '\'' => f.write_str("'\\''"),
        '\\' if has_codes => f.write_str("\\\\"),
        _ if !has_codes || is_shown(c) => fmt::Display::fmt(&c, f),
        _ => show_codes(c, f),
    }
}

/// Shows the codes of the bytes of a character.
fn show_codes<W: fmt::Write>(c: char, f: &mut Formatter<W>) -> fmt::Result {
    let mut room = [0; 4];
    for byte in c.encode_utf8(&mut room).bytes() {
        write!(f, "\\{:03o}", byte)?;
    }
    Ok(())
}
