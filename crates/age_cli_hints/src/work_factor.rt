//! The work factor that a header names, by the first bytes of its file.

use age_cli_messages::Size;
use age_host_model::FirstBytes;
use std::fmt::{self, Formatter};

/// The number of characters of the salt in a passphrase's stanza, and of its body.
const SALT_LEN: usize = 22;

const BODY_LEN: usize = 43;

/// A work factor.
#[derive(Clone, Copy)]
pub(crate) enum WorkFactor {
    /// A work factor that some limit allows.
    Allowed(u8),
    /// A work factor above all limits.
    TooHigh,
}

impl fmt::Display for WorkFactor {
    fn fmt<W: fmt::Write>(&self, f: &mut Formatter<W>) -> fmt::Result {
        match *self {
            WorkFactor::Allowed(log) => {
                let size = Size(1024 << (log as u64).min(22));
                write!(f, "work factor {log}: a passphrase takes {size} of memory")
            }
            WorkFactor::TooHigh => f.write_str("work factor above 22: no age_tool opens it"),
        }
    }
}

/// Returns the work factor in the first bytes of a file, of a passphrase's stanza that comes first.
pub(crate) fn work_in(head: &FirstBytes) -> Option<WorkFactor> {
    let (_, rest) = scrypt(head)?;
    parse_work_factor(rest)
}

/// Returns the work factor in the first bytes of a file, if a passphrase can open it: its only
/// stanza is that of a passphrase.
pub(crate) fn work_alone(head: &FirstBytes) -> Option<WorkFactor> {
    let (salt, rest) = scrypt(head)?;
    let (_, body) = rest.split_once('\n')?;
    let (body, end) = body.split_once('\n')?;
    if salt.len() == SALT_LEN && body.len() == BODY_LEN && end.starts_with("---") {
        parse_work_factor(rest)
    } else {
        None
    }
}

/// Splits the first bytes of a file, if a passphrase's stanza comes first: returns its salt, and
/// what follows that.
fn scrypt(head: &FirstBytes) -> Option<(&str, &str)> {
    let kept = str::from_utf8(head.as_slice()).ok()?;
    let stanza = kept.strip_prefix("age-encryption.org/v1\n-> scrypt ")?;
    stanza.split_once(' ')
}

/// Parses the work factor with which a text begins, to the end of its line. (A line without an end
/// has more digits than are kept.)
fn parse_work_factor(text: &str) -> Option<WorkFactor> {
    let digits = match text.split_once('\n') {
        Some((digits, _)) => digits,
        None => text,
    };
    if digits.is_empty() || !digits.bytes().all(|it| it.is_ascii_digit()) {
        return None;
    }
    match digits.parse::<u8>() {
        Ok(log) if log <= 22 => Some(WorkFactor::Allowed(log)),
        _ => Some(WorkFactor::TooHigh),
    }
}
