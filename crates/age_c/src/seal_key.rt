//! The beginning of a file whose key the caller has wrapped.

ghost use Rattle.std.specs.Prelude.{◌≡◌, ◌≤◌, ◌+◌, length, take, drop, IfOk, IfErr};
ghost use Rattle.age_keys.specs.{IsScryptNotAlone};
ghost use Rattle.age_c.specs.{Answers, BeginsFileWith, HasLines, IsKeyCall, RefusesLines, WritesOrRefuses};
ghost use Rattle.age_c.specs.inner.{HasKeyFront, zero_text};

use crate::MISUSED;
use crate::blocks::put;
use crate::seal::FRONT;
use crate::sealing::{begin_writer, encode_front};
use crate::start::parse_front;
use crate::writer::Writer;
use age_keys::{FileKey, compute_mac, scrypt_not_alone};
use age_stanza::{Header, one_header};
use std::alloc::{AllocError, Global};

/// The number of the fault of lines that no header can have.
const BAD_STANZA_LINE: u32 = 3;

/// The number of the fault of a scrypt stanza beside another stanza.
const SCRYPT_NOT_ALONE: u32 = 9;

/// The number of the fault of running out of memory.
const MEMORY: u32 = 28;

/// The number of random bytes in a file: the file key and the payload nonce.
const RANDOM_LEN: usize = 32;

/// The version line of a header, with its LF.
const VERSION_LINE: &[u8; 22] = b"age-encryption.org/v1\n";

/// The end line of a header, with a MAC of zeros.
const END_LINE: &[u8; 48] = b"--- AAAAAAAAAAAAAAAAAAAAAAAAAAAAAAAAAAAAAAAAAAA\n";

/// Returns the text of a header whose stanzas have these lines, with a MAC of zeros.
fn zero_text(alloc: Global, lines: &[u8]) -> Result<Vec<u8>, AllocError>
    ensures { IfOk result (λ text. text.items ≡ zero_text lines.now) }
{
    let mut text = Vec::from_slice(alloc, VERSION_LINE)?;
    text.extend_from_slice(lines)?;
    text.extend_from_slice(END_LINE)?;
    Ok(text)
}

/// Parses the lines of a header's stanzas, and returns the header, with a MAC of zeros. An error is
/// the number of the fault.
fn parse_lines(alloc: Global, lines: &[u8]) -> Result<Header, u32>
    ensures header { IfOk result (HasLines lines.now) }
    ensures alone { IfOk result (λ header. ¬ IsScryptNotAlone header) }
    ensures refused { IfErr result (RefusesLines lines.now) }
{
    one_header();
    let Ok(text) = zero_text(alloc, lines) else {
        return Err(MEMORY);
    };
    let head = match parse_front(alloc, text.as_slice()) {
        Ok(head) => head,
        Err(fault) if fault.number() == MEMORY => return Err(MEMORY),
        Err(_) => return Err(BAD_STANZA_LINE),
    };
    if head.len < text.len() {
        return Err(BAD_STANZA_LINE);
    }
    if scrypt_not_alone(&head.header) {
        return Err(SCRYPT_NOT_ALONE);
    }
    Ok(head.header)
}

/// Returns the header and the payload nonce of a file with these lines of stanzas. An error is the
/// number of the fault.
fn key_front(alloc: Global, lines: &[u8], key: &[u8; 16], nonce: &[u8; 16]) -> Result<Vec<u8>, u32>
    ensures front { IfOk result (λ front. HasKeyFront lines.now key.now nonce.now front.items) }
    ensures size { IfOk result (λ front. length front.items ≤ length lines.now + 256) }
    ensures refused { IfErr result (RefusesLines lines.now) }
{
    let mut header = match parse_lines(alloc, lines) {
        Ok(header) => header,
        Err(answer) => return Err(answer),
    };
    let Ok(mac) = compute_mac(alloc, &header, &FileKey::new(*key)) else {
        return Err(MEMORY);
    };
    header.mac = mac;
    match encode_front(alloc, &header, nonce) {
        Ok(front) => Ok(front),
        Err(fault) => Err(fault.number()),
    }
}

/// Splits random bytes into the file key and the payload nonce.
fn split_random(random: &[u8; RANDOM_LEN]) -> ([u8; 16], [u8; 16])
    ensures key { result.0 ≡ take 16 random.now }
    ensures nonce { result.1 ≡ drop 16 random.now }
{
    let (mut key, mut nonce) = ([0; 16], [0; 16]);
    key.copy_from_slice(&random[..16]);
    nonce.copy_from_slice(&random[16..]);
    (key, nonce)
}

/// Begins a file whose file key the caller has wrapped, and writes the header and the payload nonce
/// to `out`, which has room for 256 bytes more than `stanzas` has, or more. `stanzas` has the lines
/// of its header between the first and the last, and `random` 32 new random bytes: the file key and
/// the payload nonce. Refuses lines that no header can have with 3, and a scrypt stanza beside
/// another with 9.
pub(crate) fn seal_key(
    alloc: Global,
    stanzas: &[u8],
    random: &[u8],
    out: &mut [u8],
    written: &mut usize,
    writer: &mut Writer,
) -> u32
    ensures { Answers (IsKeyCall stanzas.now random.now out.old)
        (WritesOrRefuses (BeginsFileWith stanzas.now random.now) (RefusesLines stanzas.now) writer.old)
        writer.old writer.new result written.new out.old out.new }
{
    *written = 0;
    let Some(random) = random.as_array::<RANDOM_LEN>() else {
        return MISUSED;
    };
    if out.len() < stanzas.len() + FRONT {
        return MISUSED;
    }
    let (key, nonce) = split_random(random);
    match key_front(alloc, stanzas, &key, &nonce) {
        Ok(front) => {
            *written = put(front.as_slice(), out);
            *writer = begin_writer(&key, &nonce);
            0
        }
        Err(answer) => answer,
    }
}
