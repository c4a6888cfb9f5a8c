//! Tests of which headers have a text, and the length of that text.

ghost use Rattle.std.specs.Prelude.{◌≡◌, ◌↔◌, ◌≤◌, ◌+◌, ◌*◌, ◌/◌, ◌∷◌, ◌&&◌, IsTrue, length, nat_le};
ghost use Rattle.std.specs.List.{flat_map, list_all};
ghost use Rattle.base64.specs.GeneralPurpose.{IsBytes};
ghost use Rattle.age_stanza.specs.{base64_text, IsArgument, HasText, in_lines, header_limit};
ghost use Rattle.age_stanza.specs.inner.{HasArguments, Leaves, LeavesAfterStanza, IsHeaderLength};

use crate::HEAD_MAX;
use crate::argument::Argument;
use crate::header::{Header, Stanza};
use crate::lengths::{COLUMNS, VERSION};

/// Returns whether all bytes are visible ASCII characters.
fn are_visible(bytes: &[u8]) -> bool
    ensures { result ≡ list_all (λ c. nat_le 33 c && nat_le c 126) bytes.now }
{
    bytes.iter().all(|c| b'!' <= *c && *c <= b'~')
}

/// Returns whether some bytes are a valid argument of a stanza: one or more visible ASCII
/// characters, from `!` to `~` (<https://c2sp.org/age#header>).
pub fn is_argument(bytes: &[u8]) -> bool
    ensures { IsTrue result ↔ IsArgument bytes.now }
{
    !bytes.is_empty() && are_visible(bytes)
}

/// Returns whether a stanza has one or more arguments, all of them valid.
fn has_arguments(stanza: &Stanza) -> bool
    ensures { IsTrue result ↔ HasArguments stanza.now }
{
    let args = stanza.args.as_slice();
    !args.is_empty() && args.iter().all(|argument| is_argument(argument.as_slice()))
}

/// Subtracts the length of arguments, each with the space before it, from `room`. Returns `None` if
/// they are longer.
fn room_after_arguments(room: usize, args: &[Argument]) -> Option<usize>
    ensures { Leaves room (length (flat_map (λ a. 32 ∷ a) args.now)) result }
{
    let mut left = room;
    for argument in args {
        left = left.checked_sub(1)?.checked_sub(argument.len())?;
    }
    Some(left)
}

/// Returns the number of characters in the base64 of some bytes, without padding.
#[tactic(auto, using(crate::proofs::TextLengthLemmas::text_characters))]
fn count_characters(bytes: &[u8]) -> usize
    requires { length bytes.now ≤ header_limit }
    ensures len { result ≡ length (base64_text bytes.now) }
    ensures value { result ≡ (4 * length bytes.now + 2) / 3 }
    ensures bytes { IsBytes bytes.now }
{
    (4 * bytes.len()).div_ceil(3)
}

/// Subtracts the length of a body's text from `room`. Returns `None` if it is longer.
fn room_after_body(room: usize, body: &[u8]) -> Option<usize>
    requires { room ≤ header_limit }
    ensures leaves { Leaves room (length (in_lines (base64_text body.now))) result }
    ensures bytes { IsBytes body.now }
{
    if room < body.len() {
        return None;
    }
    let characters = count_characters(body);
    room.checked_sub(characters + characters / COLUMNS + 1)
}

/// Subtracts the length of a stanza's text from `room`. Returns `None` if it is longer.
fn room_after_stanza(room: usize, stanza: &Stanza) -> Option<usize>
    requires { room ≤ header_limit }
    ensures { LeavesAfterStanza room stanza.now result }
{
    let arrow_and_line_end = 3;
    let left = room.checked_sub(arrow_and_line_end)?;
    let left = room_after_arguments(left, stanza.args.as_slice())?;
    room_after_body(left, stanza.body.as_slice())
}

/// Returns the length of a header's text, or `None` if it exceeds the limit.
pub(crate) fn text_len(header: &Header) -> Option<usize>
    ensures { IsHeaderLength header.now result }
{
    let version_line = VERSION.len() + 1;
    let end_line = 4 + count_characters(&header.mac) + 1;
    let mut left = HEAD_MAX - version_line - end_line;
    for stanza in header.stanzas.as_slice() {
        left = room_after_stanza(left, stanza)?;
    }
    Some(HEAD_MAX - left)
}

/// Returns whether a header has a text: one or more stanzas, each with one or more arguments, which
/// are all valid ([`is_argument`]), and a text of no more than [`HEAD_MAX`] bytes.
pub fn is_header(header: &Header) -> bool
    ensures { IsTrue result ↔ HasText header.now }
{
    let stanzas = header.stanzas.as_slice();
    !stanzas.is_empty() && stanzas.iter().all(has_arguments) && text_len(header).is_some()
}
