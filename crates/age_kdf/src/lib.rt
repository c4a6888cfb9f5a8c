//! Keys from SHA-256: HMAC (RFC 2104), HKDF (RFC 5869) and PBKDF2 with one iteration (RFC 8018).
//!
//! These are the three constructions under an age file (<https://c2sp.org/age>). HMAC authenticates
//! the header; HKDF derives the header's MAC key and the payload key from the file key; PBKDF2 with
//! one iteration is the first and the last step of scrypt. All of them rest on SHA-256 alone.
//!
//! Each result is what the standard's formula gives on lists of bytes, for keys, salts and messages
//! of every length. No call allocates memory: a message of several parts goes into a running digest
//! part by part and is never joined.
#![tactic(auto)]

ghost use Rattle.std.specs.Prelude.{◌≡◌, ℕ, map, length, ◌≤◌, List};
ghost use Rattle.std.specs.List.{concat};
ghost use Rattle.age_kdf.specs.{key_with_zeros, key_block, xor_pad, hmac, hkdf32, derived_key_limit};
ghost use Rattle.age_kdf.specs.{pbkdf2_block, pbkdf2_once};

use sha2::{Digest, Sha256};

/// The byte that the inner pad repeats (RFC 2104, section 2).
const INNER_PAD: u8 = 0x36;

/// The byte that the outer pad repeats (RFC 2104, section 2).
const OUTER_PAD: u8 = 0x5c;

/// Pads a key of at most 64 bytes with zeros to a block of SHA-256 (RFC 2104, section 2).
fn key_with_zeros(key: &[u8]) -> [u8; 64]
    requires { length key.now ≤ 64 }
    ensures { result ≡ key_with_zeros key.now }
{
    let mut block = [0; 64];
    block[..key.len()].copy_from_slice(key);
    block
}

/// Converts a key to a block of SHA-256. A key longer than a block is replaced by its digest first.
#[tactic(auto, unfolding(crate::specs::key_block), using(crate::proofs::BlockLemmas::length_tests))]
fn key_block(key: &[u8]) -> [u8; 64]
    ensures { result ≡ key_block key.now }
{
    if key.len() <= 64 {
        key_with_zeros(key)
    } else {
        key_with_zeros(&Sha256::digest(key))
    }
}

/// Returns the exclusive or of a block and the pad that repeats one byte.
fn xor_pad(block: &[u8; 64], pad: u8) -> [u8; 64]
    ensures { result ≡ xor_pad pad block.now }
{
    block.map(|byte| byte ^ pad)
}

/// Returns the HMAC of a message, given the block of its key (by [`key_block`]).
fn hmac_of_block(block: &[u8; 64], parts: &[&[u8]]) -> [u8; 32]
    ensures { (key : List ℕ) → block.now ≡ key_block key
        → result ≡ hmac key (concat (map (λ part. part.now) parts.now)) }
{
    let mut inner = Sha256::new();
    inner.update(xor_pad(block, INNER_PAD).as_slice());
    for part in parts {
        inner.update(*part);
    }
    let mut outer = Sha256::new();
    outer.update(xor_pad(block, OUTER_PAD).as_slice());
    outer.update(inner.finalize().as_slice());
    outer.finalize()
}

/// Returns the HMAC-SHA-256 of a message under a key (RFC 2104). The message is the parts joined.
///
/// The key may have any length: one of more than 64 bytes counts as its SHA-256.
pub fn hmac(key: &[u8], parts: &[&[u8]]) -> [u8; 32]
    ensures { result ≡ hmac key.now (concat (map (λ part. part.now) parts.now)) }
{
    hmac_of_block(&key_block(key), parts)
}

/// Returns the 32 bytes that HKDF-SHA-256 derives from input keying material (RFC 5869), by its
/// extract step and the first block of its expand step. An empty salt means no salt, in place of
/// which 32 zero bytes are used (RFC 5869, section 2.2).
#[tactic(auto, unfolding(crate::specs::hkdf32, crate::specs::extracted_key, crate::specs::expanded_key))]
pub fn hkdf32(ikm: &[u8], salt: &[u8], info: &[u8]) -> [u8; 32]
    ensures { result ≡ hkdf32 ikm.now salt.now info.now }
{
    let zeros = [0; 32];
    let salt = if salt.is_empty() { &zeros } else { salt };
    let prk = hmac(salt, &[ikm]);
    hmac(&prk, &[info, &[1]])
}

/// Returns block `i` of the output of PBKDF2, from 1, given the block of the passphrase (by
/// [`key_block`]).
#[tactic(auto, unfolding(crate::specs::Derivation::pbkdf2_block))]
fn pbkdf2_block(block: &[u8; 64], salt: &[u8], i: u32) -> [u8; 32]
    ensures { (pass : List ℕ) → block.now ≡ key_block pass
        → result ≡ pbkdf2_block pass salt.now i }
{
    hmac_of_block(block, &[salt, &i.to_be_bytes()])
}

/// Fills `out` with the key that PBKDF2-HMAC-SHA-256 derives in one iteration (RFC 8018, section
/// 5.2). `out` has at most 65,536 bytes, and its old contents don't matter.
pub fn pbkdf2_once(pass: &[u8], salt: &[u8], out: &mut [u8])
    requires { length out.old ≤ derived_key_limit }
    ensures { out.new ≡ pbkdf2_once pass.now salt.now (length out.old) }
{
    let key = key_block(pass);
    for i in 0..out.len().div_ceil(32) {
        let block = pbkdf2_block(&key, salt, i as u32 + 1);
        let start = 32 * i;
        let end = (start + 32).min(out.len());
        out[start..end].copy_from_slice(&block[..end - start]);
    }
}
