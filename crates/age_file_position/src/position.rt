//! Positions in a payload, at which a reader continues after a stop.

ghost use Rattle.std.specs.Prelude.{◌≡◌, ◌<◌, ◌*◌, ◌++◌, ℕ, List, length, map, codes};
ghost use Rattle.std.specs.List.{concat};
ghost use Rattle.sha2.specs.Hashers.{Holds256};
ghost use Rattle.age_stanza.specs.{base64_text};
ghost use Rattle.age_file_position.specs.Bindings.{file_id, position_tag};
ghost use Rattle.age_chunk.specs.{chunk_limit, chunk_length};

use age_chunk::CHUNK_LEN;
use base64::engine::general_purpose::STANDARD_NO_PAD;
use itoa::Buffer;
use sha2::{Digest, Sha256};

/// The beginning of every position's text.
pub(crate) const VERSION: &[u8; 16] = b"age-position/v2 ";

/// A place in a payload at which a reader continues after a stop, bound to the file and to the
/// plaintext before it. [`text`](Position::text) formats it, and [`read`](Position::read) parses
/// it. It is no part of the age format; docs/FORMAT.md describes it.
#[derive(Clone, Copy, Debug, PartialEq, Eq)]
pub struct Position {
    /// The number of the chunk at which reading continues, from 0; below 2^48.
    pub index: u64,
    /// The SHA-256 of the header's bytes and the payload nonce.
    pub file_id: [u8; 32],
    /// The hash chain over the chunks before: 32 zero bytes, then for each chunk the SHA-256 of the
    /// link before it and the chunk.
    pub chain: [u8; 32],
    /// The HMAC of the position's text before the tag, under the position key of the file.
    pub tag: [u8; 32],
    ghost within: { index < chunk_limit },
}

/// The choice whether a decryption keeps the position at which a reader can continue after a stop.
/// Keeping it costs a SHA-256 of the plaintext.
#[derive(Clone, Copy, Debug, PartialEq, Eq)]
pub enum PositionPolicy {
    /// A run that stops returns its position.
    Kept,
    /// A run that stops returns no position.
    Dropped,
}

/// Encodes 32 bytes as base64 without padding.
#[tactic(auto, unfolding(age_stanza::specs::Text::base64_text))]
pub(crate) fn encode_base64(bytes: &[u8; 32]) -> [u8; 43]
    ensures { result ≡ base64_text bytes.now }
{
    let mut text = [0; 43];
    let Ok(_) = STANDARD_NO_PAD.encode_slice(bytes, &mut text) else {
        unreachable!();
    };
    text
}

/// Returns the parts of a position's text up to its tag, from the texts of its index, its file id
/// and its chain.
pub(crate) fn front_parts<'a>(
    index: &'a [u8],
    id: &'a [u8; 43],
    links: &'a [u8; 43],
) -> [&'a [u8]; 7]
    ensures size { length result ≡ 7 }
    ensures joined { concat (map (λ part. part.now) result)
        ≡ codes "age-position/v2 " ++ index.now ++ codes " " ++ id.now ++ codes " " ++ links.now
        ++ codes " " }
{
    [VERSION, index, b" ", id, b" ", links, b" "]
}

/// Returns the tag of a position under a position key.
#[tactic(auto, unfolding(crate::specs::Bindings::position_tag, crate::specs::Bindings::position_front))]
pub fn compute_tag(key: &[u8; 32], index: u64, file_id: &[u8; 32], chain: &[u8; 32]) -> [u8; 32]
    ensures { result ≡ position_tag key.now index file_id.now chain.now }
{
    let mut digits = Buffer::new();
    let index = digits.format(index).as_bytes();
    let (id, links) = (encode_base64(file_id), encode_base64(chain));
    age_kdf::hmac(key, &front_parts(index, &id, &links))
}

/// Returns the identifier of a file: the SHA-256 of its header's bytes, which `digest` was fed
/// before, and of its payload nonce.
#[tactic(auto, unfolding(crate::specs::Bindings::file_id))]
pub fn file_id(mut digest: Sha256, nonce: &[u8; 16]) -> [u8; 32]
    ensures { (front : List ℕ) → Holds256 digest front → result ≡ file_id front nonce.now }
{
    digest.update(nonce);
    digest.finalize()
}

impl Position {
    /// Returns the number of bytes of plaintext before the position.
    pub fn old_len(&self) -> u128
        ensures { result ≡ self.now.index * chunk_length }
    {
        u128::from(self.index) * CHUNK_LEN as u128
    }

    /// Makes the position of this index, file and chain, with its tag under a position key.
    pub fn with_tag(key: &[u8; 32], index: u64, file_id: [u8; 32], chain: [u8; 32]) -> Position
        requires { index < chunk_limit }
        ensures index { result.index ≡ index }
        ensures file_id { result.file_id ≡ file_id }
        ensures chain { result.chain ≡ chain }
        ensures tag { result.tag ≡ position_tag key.now index file_id chain }
    {
        let tag = compute_tag(key, index, &file_id, &chain);
        Position {
            index,
            file_id,
            chain,
            tag,
        }
    }
}
