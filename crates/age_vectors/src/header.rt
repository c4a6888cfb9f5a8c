//! Headers of the C2SP page's grammar, in one piece and in single bytes.
ghost use Rattle.std.specs.Prelude.{◌<◌, IsTrue, IfOk, IfErr, take};
ghost use Rattle.age_stanza.specs.{HeadText};
ghost use Rattle.age_vectors.specs.Rows.{IsReported, Accepts, RefusesHeader, AcceptedRows, FirstLineRows};
ghost use Rattle.age_vectors.specs.Rows.{ArgumentRows, LineRows};

use age_stanza::{HEAD_MAX, HeadFault, HeadParser, HeadStep, Header, encode_head, is_header};
use std::alloc::{AllocError, Global};

/// The smallest header, whose stanza has an empty body, with a MAC of zeros.
pub const SMALLEST: &[u8; 76] =
    b"age-encryption.org/v1\n-> x\n\n--- AAAAAAAAAAAAAAAAAAAAAAAAAAAAAAAAAAAAAAAAAAA\n";

/// The smallest header, and a byte of the payload.
const SMALLEST_AND_ONE: &[u8; 77] =
    b"age-encryption.org/v1\n-> x\n\n--- AAAAAAAAAAAAAAAAAAAAAAAAAAAAAAAAAAAAAAAAAAA\nZ";

/// A header with a body of 48 zero bytes, which an empty line ends.
const FULL_LINE: &[u8; 141] = b"age-encryption.org/v1\n-> x\n\
        AAAAAAAAAAAAAAAAAAAAAAAAAAAAAAAAAAAAAAAAAAAAAAAAAAAAAAAAAAAAAAAA\n\n\
        --- AAAAAAAAAAAAAAAAAAAAAAAAAAAAAAAAAAAAAAAAAAA\n";

/// A header with a body of 48 zero bytes, without the empty line.
const NO_EMPTY_LINE: &[u8; 140] = b"age-encryption.org/v1\n-> x\n\
        AAAAAAAAAAAAAAAAAAAAAAAAAAAAAAAAAAAAAAAAAAAAAAAAAAAAAAAAAAAAAAAA\n\
        --- AAAAAAAAAAAAAAAAAAAAAAAAAAAAAAAAAAAAAAAAAAA\n";

/// A header whose MAC's last character has a bit that stands for nothing.
const TRAILING_BIT: &[u8; 76] =
    b"age-encryption.org/v1\n-> x\n\n--- AAAAAAAAAAAAAAAAAAAAAAAAAAAAAAAAAAAAAAAAAAB\n";

/// A header whose MAC's last byte is 1.
const LAST_BYTE_ONE: &[u8; 76] =
    b"age-encryption.org/v1\n-> x\n\n--- AAAAAAAAAAAAAAAAAAAAAAAAAAAAAAAAAAAAAAAAAAE\n";

const TWO_SPACES: &[u8; 30] = b"age-encryption.org/v1\n-> x  y\n";

const SPACE_AT_END: &[u8; 28] = b"age-encryption.org/v1\n-> x \n";

const HIGH_BYTE: &[u8; 28] = b"age-encryption.org/v1\n-> \xc3\xa4\n";

const NUL: &[u8; 27] = b"age-encryption.org/v1\n-> \0\n";

const CR_LF: &[u8; 23] = b"age-encryption.org/v1\r\n";

const NO_STANZA: &[u8; 70] =
    b"age-encryption.org/v1\n--- AAAAAAAAAAAAAAAAAAAAAAAAAAAAAAAAAAAAAAAAAAA\n";

/// The beginning of a header, up to its first argument.
pub(crate) const ARGUMENT_START: &[u8; 25] = b"age-encryption.org/v1\n-> ";

const VERSION: &[u8; 22] = b"age-encryption.org/v1\n";

const END_LINE: &[u8; 48] = b"--- AAAAAAAAAAAAAAAAAAAAAAAAAAAAAAAAAAAAAAAAAAA\n";

/// The end of a header after its only argument, 50 bytes.
const ARGUMENT_END: &[u8; 50] = b"\n\n--- AAAAAAAAAAAAAAAAAAAAAAAAAAAAAAAAAAAAAAAAAAA\n";

const BODY_START: &[u8; 27] = b"age-encryption.org/v1\n-> x\n";

/// A line of a body, of 48 zero bytes.
const BODY_LINE: &[u8; 65] = b"AAAAAAAAAAAAAAAAAAAAAAAAAAAAAAAAAAAAAAAAAAAAAAAAAAAAAAAAAAAAAAAA\n";

/// A part of a line, with which a header of full lines of a body has the greatest length, and isn't
/// complete.
const HALF_LINE: &[u8; 34] = b"AAAAAAAAAAAAAAAAAAAAAAAAAAAAAAAAAA";

/// A part of a line, with which a header of full lines of a body is a byte shorter than the
/// greatest length.
const SHORTER: &[u8; 33] = b"AAAAAAAAAAAAAAAAAAAAAAAAAAAAAAAAA";

const ARMOR: &[u8; 35] = b"-----BEGIN AGE ENCRYPTED FILE-----\n";

const ARMOR_CR: &[u8; 36] = b"-----BEGIN AGE ENCRYPTED FILE-----\r\n";

/// Parses the header that some bytes begin with, if they come at once and then end. Returns its
/// length and the header, or the fault.
pub(crate) fn parsed(alloc: Global, bytes: &[u8]) -> Result<(usize, Header), HeadFault>
    ensures ok { IfOk result (λ found. HeadText found.1 (take found.0 bytes.now)) }
    ensures err { IfErr result (λ fault. IsReported bytes.now fault) }
{
    let mut parser = HeadParser::new(alloc);
    match parser.feed(bytes)? {
        HeadStep::More => Err(parser.end()),
        HeadStep::Ready { taken, header } => Ok((taken, header)),
    }
}

/// Returns whether bytes are parsed to this result if they come in pieces of `step` bytes, and then
/// end.
fn comes_to(
    alloc: Global,
    bytes: &[u8],
    step: usize,
    parsed: &Result<(usize, Header), HeadFault>,
) -> bool
    requires { 0 < step }
{
    let mut parser = HeadParser::new(alloc);
    let mut fed: usize = 0;
    for piece in bytes.chunks(step) {
        if !parser.is_open() {
            return false;
        }
        match parser.feed(piece) {
            Ok(HeadStep::More) => fed = fed.saturating_add(piece.len()),
            Ok(HeadStep::Ready { taken, header }) => {
                return *parsed == Ok((fed.saturating_add(taken), header));
            }
            Err(fault) => return *parsed == Err(fault),
        }
    }
    parser.is_open() && *parsed == Err(parser.end())
}

/// Returns whether a header has one stanza, of the argument `x` and `zeros` zero bytes, up to 48,
/// and a MAC of zeros except for its last byte.
fn is_of_zeros(header: &Header, zeros: usize, last: u8) -> bool {
    let [stanza] = header.stanzas.as_slice() else {
        return false;
    };
    let mut mac = [0; 32];
    mac[31] = last;
    matches!(stanza.args.as_slice(), [argument] if argument.as_slice() == b"x".as_slice())
        && [0; 48].get(..zeros) == Some(stanza.body.as_slice())
        && header.mac == mac
}

/// Returns whether a header is written as the first `size` of these bytes.
fn is_written(alloc: Global, header: &Header, bytes: &[u8], size: usize) -> bool {
    is_header(header)
        && encode_head(alloc, header).is_ok_and(|text| bytes.get(..size) == Some(text.as_slice()))
}

/// Returns whether bytes begin with a header of `size` bytes, with one stanza of the argument `x`
/// and `zeros` zero bytes, and a MAC of zeros except for its last byte.
fn accepts(alloc: Global, bytes: &[u8], size: usize, zeros: usize, last: u8) -> bool
    ensures { IsTrue result → Accepts bytes.now size }
{
    let parsed = parsed(alloc, bytes);
    if !comes_to(alloc, bytes, 1, &parsed) {
        return false;
    }
    let Ok((taken, header)) = parsed else {
        return false;
    };
    if !is_of_zeros(&header, zeros, last) || !is_written(alloc, &header, bytes, size) {
        return false;
    }
    taken == size
}

/// Returns whether bytes, and their end, have the fault of this number at this line.
fn refuses(alloc: Global, bytes: &[u8], number: u8, line: u64) -> bool
    ensures { IsTrue result → RefusesHeader bytes.now number line }
{
    let parsed = parsed(alloc, bytes);
    if !comes_to(alloc, bytes, 1, &parsed) {
        return false;
    }
    let Err(fault) = parsed else {
        return false;
    };
    let Some(at) = fault.place() else {
        return false;
    };
    fault.number() == number && at == line
}

/// Returns whether the valid headers are accepted.
fn accepted_rows(alloc: Global) -> bool
    ensures { IsTrue result → AcceptedRows }
{
    accepts(alloc, SMALLEST, 76, 0, 0)
        && accepts(alloc, SMALLEST_AND_ONE, 76, 0, 0)
        && accepts(alloc, FULL_LINE, 141, 48, 0)
        && accepts(alloc, LAST_BYTE_ONE, 76, 0, 1)
}

/// Returns whether headers with faulty first lines are refused.
fn first_line_rows(alloc: Global) -> bool
    ensures { IsTrue result → FirstLineRows }
{
    if !refuses(alloc, CR_LF, 1, 1) {
        return false;
    }
    refuses(alloc, ARMOR, 2, 1) && refuses(alloc, ARMOR_CR, 2, 1)
}

/// Returns whether headers with faulty argument lines are refused.
fn argument_rows(alloc: Global) -> bool
    ensures { IsTrue result → ArgumentRows }
{
    if !refuses(alloc, TWO_SPACES, 3, 2) {
        return false;
    }
    if !refuses(alloc, SPACE_AT_END, 3, 2) {
        return false;
    }
    refuses(alloc, HIGH_BYTE, 3, 2) && refuses(alloc, NUL, 3, 2)
}

/// Returns whether headers with other faulty lines are refused.
fn line_rows(alloc: Global) -> bool
    ensures { IsTrue result → LineRows }
{
    refuses(alloc, NO_EMPTY_LINE, 4, 4)
        && refuses(alloc, TRAILING_BIT, 5, 4)
        && refuses(alloc, NO_STANZA, 6, 2)
}

/// Returns whether the smallest header, truncated after each number of its bytes, is refused.
fn cut_rows(alloc: Global) -> bool {
    (0..76).all(|len| {
        let line = match len {
            0..=21 => 1,
            22..=26 => 2,
            27 => 3,
            _ => 4,
        };
        refuses(alloc, &SMALLEST[..len], 8, line)
    })
}

/// Returns whether the smallest header and a byte, in pieces of each length, is parsed without that
/// byte.
fn piece_rows(alloc: Global) -> bool {
    let parsed = parsed(alloc, SMALLEST_AND_ONE);
    (1..78).all(|step| comes_to(alloc, SMALLEST_AND_ONE, step, &parsed))
}

/// Joins a front, a piece `count` times, and an end.
pub(crate) fn repeated(
    alloc: Global,
    front: &[u8],
    piece: &[u8],
    count: usize,
    end: &[u8],
) -> Result<Vec<u8>, AllocError> {
    let mut text = Vec::from_slice(alloc, front)?;
    for _ in 0..count {
        text.extend_from_slice(piece)?;
    }
    text.extend_from_slice(end)?;
    Ok(text)
}

/// Returns the text of a header with the text of some stanzas and a MAC of zeros.
pub(crate) fn around(alloc: Global, stanzas: &[u8]) -> Result<Vec<u8>, AllocError> {
    repeated(alloc, VERSION, stanzas, 1, END_LINE)
}

/// The rows of headers at the limit: a front, a piece and how many times, an end, and the fault's
/// number and line.
const LIMITS: [(&[u8], &[u8], usize, &[u8], u8, u64); 5] = [
    (ARGUMENT_START, b"x", 1_048_502, ARGUMENT_END, 7, 4),
    (b"", b"x", HEAD_MAX, b"", 7, 1),
    (BODY_START, BODY_LINE, 16_131, HALF_LINE, 7, 16_134),
    (BODY_START, BODY_LINE, 16_131, SHORTER, 8, 16_134),
    (VERSION, b"-> x\n\n", 170_000, b"", 8, 340_002),
];

/// Returns whether headers at the limit of their length are accepted or refused.
fn limit_rows(alloc: Global) -> Result<bool, AllocError> {
    for (front, piece, count, end, number, line) in LIMITS {
        let text = repeated(alloc, front, piece, count, end)?;
        if !refuses(alloc, text.as_slice(), number, line) {
            return Ok(false);
        }
    }
    let longest = repeated(alloc, ARGUMENT_START, b"x", 1_048_501, ARGUMENT_END)?;
    let parsed = parsed(alloc, longest.as_slice());
    Ok(matches!(&parsed, Ok((HEAD_MAX, _))) && comes_to(alloc, longest.as_slice(), 1, &parsed))
}

/// Returns whether all rows of headers are right: of the grammar and its faults, of truncated
/// headers, and of headers at the limit of their length. Returns `false` also if memory runs out.
pub fn header_rows(alloc: Global) -> bool
    ensures accepted { IsTrue result → AcceptedRows }
    ensures first_lines { IsTrue result → FirstLineRows }
    ensures arguments { IsTrue result → ArgumentRows }
    ensures lines { IsTrue result → LineRows }
{
    if !cut_rows(alloc) || !piece_rows(alloc) || limit_rows(alloc) != Ok(true) {
        return false;
    }
    if !accepted_rows(alloc) {
        return false;
    }
    if !first_line_rows(alloc) {
        return false;
    }
    if !argument_rows(alloc) {
        return false;
    }
    line_rows(alloc)
}
