//! Passphrases and known keys that open headers, or don't. The header was made by Python: hashlib's
//! scrypt, HMAC over its SHA-256, and RFC 8439 in plain whole numbers.
ghost use Rattle.std.specs.Prelude.{IsTrue, IfOk, codes};
ghost use Rattle.age_stanza.specs.{HeadText};
ghost use Rattle.age_keys.specs.{Opens, scrypt_head};
ghost use Rattle.age_vectors.specs.{OpensIn};

use crate::header::{ARGUMENT_START, around, parsed, repeated};
use age_keys::{FileKey, KnownKey, Passphrase, Steps, Unlock, open_header, scrypt_header};
use age_stanza::{Header, encode_head, is_header};
use std::alloc::{AllocError, Global};

const SALT: [u8; 16] = *b"\x10\x11\x12\x13\x14\x15\x16\x17\x18\x19\x1a\x1b\x1c\x1d\x1e\x1f";

/// The file key of each header of these vectors that opens.
pub const FILE_KEY: [u8; 16] = [0, 1, 2, 3, 4, 5, 6, 7, 8, 9, 10, 11, 12, 13, 14, 15];

/// The header of the passphrase `kudebafon`, at work factor 1.
const WRITTEN: [u8; 149] = *b"age-encryption.org/v1\n-> scrypt EBESExQVFhcYGRobHB0eHw 1\n\
        1z3f/yTFiUXDwVbiU/TZ2AupEaKH6mWRdiP4zJo1RGw\n\
        --- j2RWCWPgvXImsyfN390ggNwin5ht9nxij7u+aGwWgss\n";

/// The header of the passphrase `kudebafon`, at work factor 10.
const AT_TEN: &[u8; 150] = b"age-encryption.org/v1\n-> scrypt EBESExQVFhcYGRobHB0eHw 10\n\
        Qh59WLlLxJRIkowFnzt99qkc7x6EgdHELDUQmvHY874\n\
        --- 2qY5AgJS48JZMvxeEOs4EKHsGHn1+dq7Rvg3gLXzgBM\n";

/// A header with a work factor of 23, which is one more than the greatest limit.
const AT_23: &[u8; 150] = b"age-encryption.org/v1\n-> scrypt AAAAAAAAAAAAAAAAAAAAAA 23\n\
        AAAAAAAAAAAAAAAAAAAAAAAAAAAAAAAAAAAAAAAAAAA\n\
        --- AAAAAAAAAAAAAAAAAAAAAAAAAAAAAAAAAAAAAAAAAAA\n";

/// Opens a header, and returns the file key, or the number of the fault; 0 if the header has no
/// text.
fn answer<U: Unlock>(alloc: Global, header: &Header, unlock: &U) -> Result<[u8; 16], u8>
    ensures { IfOk result (Opens (U.allows unlock.now) header.now) }
{
    if !is_header(header) {
        return Err(0);
    }
    match open_header(alloc, header, unlock, &mut Steps::new()) {
        Ok(key) => Ok(*key.bytes()),
        Err(fault) => Err(fault.number()),
    }
}

/// Opens the header in a text, and returns the file key, or the number of the fault; 0 if the text
/// has no header.
pub(crate) fn opened<U: Unlock>(alloc: Global, text: &[u8], unlock: &U) -> Result<[u8; 16], u8>
    ensures { IfOk result (OpensIn (U.allows unlock.now) text.now) }
{
    match parsed(alloc, text) {
        Ok((_taken, header)) => answer(alloc, &header, unlock),
        Err(_fault) => Err(0),
    }
}

/// Returns whether the header in a text opens to [`FILE_KEY`]. If it does, it does so by the
/// definitions.
pub(crate) fn is_opened<U: Unlock>(alloc: Global, text: &[u8], unlock: &U) -> bool
    ensures { IsTrue result → OpensIn (U.allows unlock.now) text.now FILE_KEY }
{
    match opened(alloc, text, unlock) {
        Ok(key) => key == FILE_KEY,
        Err(_number) => false,
    }
}

/// Opens the header in a text by a passphrase, and returns the file key, or the number of the
/// fault.
fn by_passphrase(alloc: Global, text: &[u8], pass: &[u8], max_log: u32) -> Result<[u8; 16], u8> {
    match Passphrase::new(pass, max_log) {
        Some(passphrase) => opened(alloc, text, &passphrase),
        None => Err(0),
    }
}

/// Returns whether `scrypt_header` makes the header that Python made. If it does, the definition
/// gives it.
fn writes_python_s_header(alloc: Global) -> bool
    ensures { IsTrue result → HeadText (scrypt_head (codes "kudebafon") 1 SALT FILE_KEY) WRITTEN }
{
    let Ok(header) = scrypt_header(alloc, b"kudebafon", 1, &SALT, &FileKey::new(FILE_KEY)) else {
        return false;
    };
    match encode_head(alloc, &header) {
        Ok(text) => text.as_slice() == WRITTEN.as_slice(),
        Err(_fault) => false,
    }
}

/// Tests the right passphrase and others, limits, and a MAC and a body whose last byte is inverted.
fn passphrase_rows(alloc: Global) -> bool {
    let (mut other_mac, mut other_body) = (WRITTEN, WRITTEN);
    other_mac[146..148].copy_from_slice(b"jQ");
    other_body[98..100].copy_from_slice(b"JM");
    by_passphrase(alloc, &WRITTEN, b"kudebafon", 1) == Ok(FILE_KEY)
        && by_passphrase(alloc, &WRITTEN, b"kudebafon", 22) == Ok(FILE_KEY)
        && by_passphrase(alloc, &WRITTEN, b"Kudebafon", 1) == Err(13)
        && by_passphrase(alloc, &other_mac, b"kudebafon", 1) == Err(14)
        && by_passphrase(alloc, &other_body, b"kudebafon", 1) == Err(13)
        && by_passphrase(alloc, AT_TEN, b"kudebafon", 10) == Ok(FILE_KEY)
        && by_passphrase(alloc, AT_TEN, b"kudebafon", 9) == Err(11)
        && by_passphrase(alloc, AT_23, b"kudebafon", 22) == Err(11)
        && Passphrase::new(b"", 1).is_none()
        && Passphrase::new(b"x", 0).is_none()
        && Passphrase::new(b"x", 23).is_none()
}

/// Tests a known key, right and wrong.
fn known_key_rows(alloc: Global) -> bool {
    let mut other = FILE_KEY;
    other[15] ^= 1;
    is_opened(alloc, &WRITTEN, &KnownKey::new(FILE_KEY))
        && opened(alloc, &WRITTEN, &KnownKey::new(other)) == Err(14)
        && KnownKey::read("000102030405060708090A0b0c0d0e0f").is_some()
        && KnownKey::read("000102030405060708090A0b0c0d0e0").is_none()
}

/// The arguments of a stanza with a body of 32 zero bytes, and the number of the fault with which
/// the passphrase `x` with the limit 11 refuses it.
const STANZAS: [(&[u8], u8); 15] = [
    (b"x", 12),
    (b"scrypt AAAAAAAAAAAAAAAAAAAAAA", 10),
    (b"scrypt AAAAAAAAAAAAAAAAAAAAAA 1 1", 10),
    (b"scrypt AAAAAAAAAAAAAAAAAAAAA 1", 10),
    (b"scrypt AAAAAAAAAAAAAAAAAAAAAAA 1", 10),
    (b"scrypt AAAAAAAAAAAAAAAAAAAAAB 1", 10),
    (b"scrypt AAAAAAAAAAAAAAAAAAAAA= 1", 10),
    (b"scrypt AAAAAAAAAAAAAAAAAAAAAA 018", 10),
    (b"scrypt AAAAAAAAAAAAAAAAAAAAAA 0", 10),
    (b"scrypt AAAAAAAAAAAAAAAAAAAAAA +1", 10),
    (b"scrypt AAAAAAAAAAAAAAAAAAAAAA 1x", 10),
    (b"scrypt AAAAAAAAAAAAAAAAAAAAAA 12", 11),
    (b"scrypt AAAAAAAAAAAAAAAAAAAAAA 23", 11),
    (b"scrypt AAAAAAAAAAAAAAAAAAAAAA 4294967297", 11),
    (b"scrypt AAAAAAAAAAAAAAAAAAAAAA 1", 13),
];

/// The end of a header after its arguments: a body of 32 zero bytes, and a MAC of zeros.
const BODY_AND_MAC: &[u8] = b"\nAAAAAAAAAAAAAAAAAAAAAAAAAAAAAAAAAAAAAAAAAAA\n\
        --- AAAAAAAAAAAAAAAAAAAAAAAAAAAAAAAAAAAAAAAAAAA\n";

/// Other stanzas, the first with a body of 31 bytes, and the numbers of their faults.
const OTHERS: [(&[u8], u8); 4] = [
    (
        b"-> scrypt AAAAAAAAAAAAAAAAAAAAAA 1\nAAAAAAAAAAAAAAAAAAAAAAAAAAAAAAAAAAAAAAAAAA\n",
        10,
    ),
    (
        b"-> scrypt AAAAAAAAAAAAAAAAAAAAAA 1\n\n-> scrypt AAAAAAAAAAAAAAAAAAAAAA 1\n\n",
        9,
    ),
    (b"-> scrypt\n\n-> X25519\n\n", 9),
    (b"-> X25519\n\n-> x scrypt\n\n", 12),
];

/// Tests the stanzas of [`STANZAS`] and [`OTHERS`], and a work factor of 400 digits.
fn stanza_rows(alloc: Global) -> Result<bool, AllocError> {
    for (arguments, number) in STANZAS {
        let text = repeated(alloc, ARGUMENT_START, arguments, 1, BODY_AND_MAC)?;
        if by_passphrase(alloc, text.as_slice(), b"x", 11) != Err(number) {
            return Ok(false);
        }
    }
    for (stanzas, number) in OTHERS {
        let text = around(alloc, stanzas)?;
        if by_passphrase(alloc, text.as_slice(), b"x", 11) != Err(number) {
            return Ok(false);
        }
    }
    let front = b"age-encryption.org/v1\n-> scrypt AAAAAAAAAAAAAAAAAAAAAA ";
    let text = repeated(alloc, front, b"9", 400, BODY_AND_MAC)?;
    Ok(by_passphrase(alloc, text.as_slice(), b"x", 11) == Err(11))
}

/// Returns whether all rows of passphrases and known keys are right: a header that Python made,
/// opened and written, and with another MAC and body; each shape that is refused, with its number.
/// Returns `false` also if memory runs out. If the result is `true`, the definition gives the
/// header that Python made.
pub fn key_rows(alloc: Global) -> bool
    ensures { IsTrue result → HeadText (scrypt_head (codes "kudebafon") 1 SALT FILE_KEY) WRITTEN }
{
    if !passphrase_rows(alloc) || !known_key_rows(alloc) || stanza_rows(alloc) != Ok(true) {
        return false;
    }
    writes_python_s_header(alloc)
}
