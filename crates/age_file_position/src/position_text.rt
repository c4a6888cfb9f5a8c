//! The text of a position: written and parsed.

ghost use Rattle.std.specs.Prelude.{◌≡◌, ◌≢◌, ◌<◌, ℕ, List, length, IfOk, IfErr, IfSome, IfNone, decimal};
ghost use Rattle.age_file_position.specs.Texts.{position_text, NoPosition, IsDigest};
ghost use Rattle.age_file_position.specs.inner.{index_text, field_text, fields_text};
ghost use Rattle.age_fault.specs.declared.fault.FileFault.TheVariants.{BadPosition, Memory};
ghost use Rattle.age_chunk.specs.{chunk_limit};

use crate::position::{Position, VERSION, encode_base64, front_parts};
use age_chunk::CHUNK_LIMIT;
use age_fault::FileFault;
use base64::engine::general_purpose::STANDARD_NO_PAD;
use itoa::Buffer;
use std::alloc::{AllocError, Global};
use std::str::from_utf8;

/// The number of characters after the index: three times a space and 43 characters, and a line
/// feed.
const FIELDS: usize = 133;

/// Formats a position.
#[tactic(auto, unfolding(crate::specs::Bindings::position_front))]
fn format_position(alloc: Global, position: &Position) -> Result<Vec<u8>, AllocError>
    ensures { IfOk result (λ text. text.items ≡ position_text position.now) }
{
    let mut digits = Buffer::new();
    let index = digits.format(position.index).as_bytes();
    let (id, links) = (
        encode_base64(&position.file_id),
        encode_base64(&position.chain),
    );
    let mut text = Vec::new(alloc);
    for part in &front_parts(index, &id, &links) {
        text.extend_from_slice(*part)?;
    }
    text.extend_from_slice(&encode_base64(&position.tag))?;
    text.extend_from_slice(b"\n")?;
    Ok(text)
}

/// Parses an index: a number below 2^48, in decimal without leading zeros.
fn parse_number(digits: &[u8]) -> Option<u64>
    ensures limit { IfSome result (λ index. index < chunk_limit) }
    ensures some { IfSome result (λ index. digits.now ≡ decimal index) }
    ensures none { IfNone result ((index : ℕ) → index < chunk_limit → digits.now ≢ decimal
        index) }
{
    let text = from_utf8(digits).ok()?;
    let index = text.parse::<u64>().ok()?;
    let mut buffer = Buffer::new();
    if index < CHUNK_LIMIT && buffer.format(index).as_bytes() == digits {
        Some(index)
    } else {
        None
    }
}

/// Parses the front of a position's text, which ends with the index.
fn parse_index(front: &[u8]) -> Option<u64>
    ensures limit { IfSome result (λ index. index < chunk_limit) }
    ensures some { IfSome result (λ index. front.now ≡ index_text index) }
    ensures none { IfNone result ((index : ℕ) → index < chunk_limit → front.now ≢ index_text
        index) }
{
    if front.len() < 16 || &front[..16] != VERSION.as_slice() {
        return None;
    }
    parse_number(&front[16..])
}

/// Decodes a field: a space, and the base64 of 32 bytes.
fn parse_digest(field: &[u8]) -> Option<[u8; 32]>
    requires { length field.now ≡ 44 }
    ensures some { IfSome result (λ bytes. field.now ≡ field_text bytes) }
    ensures none { IfNone result ((bytes : List ℕ) → IsDigest bytes → field.now ≢ field_text
        bytes) }
{
    if field[0] != b' ' {
        return None;
    }
    let mut room = [0; 33];
    let mut bytes = [0; 32];
    match STANDARD_NO_PAD.decode_slice_unchecked(&field[1..], &mut room) {
        Ok(len) if len == 32 => {
            bytes.copy_from_slice(&room[..len]);
            Some(bytes)
        }
        _ => None,
    }
}

/// Parses the fields after the index.
fn parse_position(index: u64, fields: &[u8]) -> Option<Position>
    requires index { index < chunk_limit }
    requires size { length fields.now ≡ 133 }
    ensures index { IfSome result (λ p. p.index ≡ index) }
    ensures fields { IfSome result (λ p. fields.now ≡ fields_text p.file_id p.chain p.tag) }
    ensures none { IfNone result ((id links tag : List ℕ) → IsDigest id → IsDigest links → IsDigest
        tag
        → fields.now ≢ fields_text id links tag) }
{
    if fields[132] != b'\n' {
        return None;
    }
    Some(Position {
        index,
        file_id: parse_digest(&fields[..44])?,
        chain: parse_digest(&fields[44..88])?,
        tag: parse_digest(&fields[88..132])?,
    })
}

impl Position {
    /// Returns the text of the position: `age-position/v2 INDEX ID CHAIN TAG` and a line feed,
    /// INDEX in decimal, the others as the 43 characters of unpadded base64 (RFC 4648, section 4).
    /// Fails only if memory runs out.
    pub fn text(&self, alloc: Global) -> Result<Vec<u8>, FileFault>
        ensures text { IfOk result (λ text. text.items ≡ position_text self.now) }
        ensures memory { IfErr result (λ fault. fault ≡ Memory) }
    {
        Ok(format_position(alloc, self)?)
    }

    /// Parses the text of a position. Fails with [`BadPosition`](FileFault::BadPosition) for every
    /// other text, even one that differs only in leading zeros, in the line feed or in characters
    /// after it. Allocates nothing.
    pub fn read(text: &[u8]) -> Result<Position, FileFault>
        ensures read { IfOk result (λ position. text.now ≡ position_text position) }
        ensures fault { IfErr result (λ fault. fault ≡ BadPosition) }
        ensures refused { IfErr result (λ _. NoPosition text.now) }
    {
        let Some(at) = text.len().checked_sub(FIELDS) else {
            return Err(FileFault::BadPosition);
        };
        let Some(index) = parse_index(&text[..at]) else {
            return Err(FileFault::BadPosition);
        };
        match parse_position(index, &text[at..]) {
            Some(position) => Ok(position),
            None => Err(FileFault::BadPosition),
        }
    }
}
