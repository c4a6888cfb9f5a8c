//! Base64 without padding, and canonical: the unused low bits of the last character are zero (RFC
//! 4648, sections 3.5 and 4).

ghost use Rattle.std.specs.Prelude.{◌≡◌, ◌≢◌, ◌≤◌, ℕ, List, length, take, Some, None, IfSome, IfNone};
ghost use Rattle.std.specs.Bool.{OnTrue, OnFalse};
ghost use Rattle.base64.specs.GeneralPurpose.{IsBytes};
ghost use Rattle.age_stanza.specs.inner.{base64_bytes, mac_of as spec_mac_of};
ghost use Rattle.age_stanza.specs.{base64_text};

use base64::engine::general_purpose::STANDARD_NO_PAD;

/// Decodes a line of a body into `room`, and returns the number of bytes. Returns `None` if the
/// line isn't canonical base64. Allocates nothing.
pub(crate) fn decode_line(line: &[u8], room: &mut [u8]) -> Option<usize>
    requires line { length line.now ≤ 64 }
    requires room { length room.old ≡ 48 }
    ensures read { IfSome result (λ len. (len ≤ 48)
        × (base64_bytes line.now ≡ Some (take len room.new))) }
    ensures refused { IfNone result (base64_bytes line.now ≡ None) }
{
    STANDARD_NO_PAD.decode_slice_unchecked(line, room).ok()
}

/// Decodes canonical base64 without padding (RFC 4648, sections 3.5 and 4) into `bytes`, which has
/// at most 32 bytes. Returns `false`, and leaves `bytes` unchanged, if the text doesn't encode
/// exactly as many bytes as there is room for.
pub fn read_base64(characters: &[u8], bytes: &mut [u8]) -> bool
    requires { length bytes.old ≤ 32 }
    ensures read { OnTrue result (characters.now ≡ base64_text bytes.new) }
    ensures bytes { IsBytes bytes.new }
    ensures refused { OnFalse result ((other : List ℕ) → IsBytes other
        → length other ≡ length bytes.old → characters.now ≢ base64_text other) }
    ensures kept { OnFalse result (bytes.new ≡ bytes.old) }
{
    if characters.len() != (4 * bytes.len()).div_ceil(3) {
        return false;
    }
    let mut room = [0; 33];
    match STANDARD_NO_PAD.decode_slice_unchecked(characters, &mut room) {
        Ok(len) if len == bytes.len() => {
            bytes.copy_from_slice(&room[..len]);
            true
        }
        _ => false,
    }
}

/// Decodes the MAC of an end line, without its LF. Returns `None` if it isn't an end line.
pub(crate) fn parse_mac(line: &[u8]) -> Option<[u8; 32]>
    ensures { result ≡ spec_mac_of line.now }
{
    if !line.starts_with(b"--- ") {
        return None;
    }
    let mut mac = [0; 32];
    if !read_base64(&line[4..], &mut mac) {
        return None;
    }
    Some(mac)
}
