//! Lines for people while a run does something that may take long, or if the command line isn't
//! UTF-8.

use crate::escaped::{Escaped, EscapedLineStart};
use crate::line::size_line;
use age_host_model::ErrorContext;
use std::env::{Env, FillError};
use std::io::{Eprint, IsTerminal};
use std::rt::HostRuntime;

/// The number of bytes of a word that are looked at.
const WORD_MAX: usize = 8192;

/// The number of bytes from which on handling them takes long.
const LONG: u64 = 64 << 20;

/// Prints on standard error which word of the command line isn't UTF-8; it may be the program's own
/// path. A word that is longer than any path isn't shown.
pub fn report_non_utf8(rt: &HostRuntime) {
    let mut word = [0; WORD_MAX];
    for i in 0..=u16::MAX {
        match rt.arg(i as usize, &mut word) {
            Ok(n) if show_unread(rt, &word[..n]) => return,
            Err(FillError::NotPresent) => return,
            _ => {}
        }
    }
}

/// Prints that a word isn't UTF-8, if it isn't. Returns whether it did.
fn show_unread(rt: &HostRuntime, word: &[u8]) -> bool {
    if str::from_utf8(word).is_ok() {
        return false;
    }
    let word = EscapedLineStart(word);
    let _ = eprintln!(rt; "age_tool: {word}: it isn't UTF-8, as a name must be");
    true
}

/// Prints that a header is read from a terminal, if standard input is one, and where to find help.
pub fn announce_reading(rt: &HostRuntime) {
    if rt.stdin().is_terminal() {
        let _ = eprintln!(rt;
            "age_tool: reading a header from standard input; for help, age_tool --help"
        );
    }
}

/// Prints that a passphrase is read from a terminal, if `name` leads to one, since no prompt is
/// shown.
pub fn announce_passphrase(rt: &HostRuntime, name: &str) {
    let is_typed = match name {
        "/dev/tty" => true,
        "/dev/stdin" => rt.stdin().is_terminal(),
        _ => false,
    };
    if is_typed {
        let _ = eprintln!(rt;
            "age_tool: reading the passphrase from the terminal, which shows it; Ctrl-D ends it"
        );
    }
}

/// Prints that an earlier output is copied before more of the input is read, and how long it is, if
/// that takes long. (Progress counts what is read of the input.)
pub fn announce_copying(rt: &HostRuntime, name: &str, length: Option<u64>) {
    let length = length.unwrap_or(0);
    if length < LONG {
        return;
    }
    let name = Escaped(name.as_bytes());
    let size = size_line(length);
    if let Ok(size) = str::from_utf8(size.as_slice()) {
        let _ = eprintln!(rt; "age_tool: copying {name} ({size}) first");
    }
}

/// Prints that a run waits for the disk, if standard error is a terminal and the run read much, and
/// so wrote about as much.
pub fn announce_sync(rt: &HostRuntime, last_read: ErrorContext<'_>) {
    if let ErrorContext::Read(summary) = last_read
        && summary.bytes >= LONG
        && rt.stderr().is_terminal()
    {
        let _ = eprintln!(rt; "age_tool: waiting for the disk");
    }
}
