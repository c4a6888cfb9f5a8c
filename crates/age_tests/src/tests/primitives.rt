//! Tests of the keyed hashes, of scrypt and of the cipher, through what their crates make public.

ghost use Rattle.std.specs.Prelude.{◌+◌, ◌*◌, ◌^◌, ◌≤◌};

use age_cipher::{open_in_place, seal_in_place, xor_stream};
use age_kdf::{hmac, pbkdf2_once};
use age_scrypt::{Memory, Steps, derive};
use sha2::{Digest, Sha256};
use std::alloc::Global;

const KEY: [u8; 32] = [9; 32];

const NONCE: [u8; 12] = [0xff; 12];

/// Returns the SHA-256 of texts of 320 bytes 0x5a, of which the first 0, 1, and so on up to `most`
/// bytes are encrypted from block `counter` on.
fn digest_of_lengths(counter: u32, most: usize) -> [u8; 32]
    requires reaches { 64 * counter + most ≤ 2 ^ 38 }
    requires short { most ≤ 320 }
{
    let mut digest = Sha256::new();
    for len in 0..most + 1 {
        let mut text = [0x5a; 320];
        xor_stream(&KEY, &NONCE, counter, &mut text[..len]);
        digest.update(&text);
    }
    digest.finalize()
}

/// Compares texts of every length with digests of OpenSSL's keystream.
#[test]
fn texts_of_every_length(rt: HostRuntime) {
    let from_0 = *b"\xb5\x14\xed\x4a\x63\x85\x5f\x42\x98\xdd\x7b\x05\xc8\xc2\xfe\xa2\
        \x68\x44\x59\x5e\x34\x9c\x1a\x4c\x62\x6a\x55\x0a\x3c\x72\x91\xf9";
    assert!(rt; digest_of_lengths(0, 200) == from_0);
    let from_1 = *b"\x5f\xd9\xbe\x3c\xab\xc8\x70\xcb\x3d\x18\x42\xab\x93\xea\xda\x6b\
        \x57\x17\x18\xcb\xe8\xaa\xc9\x2a\x3b\xcf\xb5\x1f\xba\x84\x41\x4d";
    assert!(rt; digest_of_lengths(1, 200) == from_1);
    let up_to_the_end = *b"\x7e\x5a\x06\xc3\xdb\x48\x77\x2f\x79\xb5\x3b\xa3\xe9\xf6\x8a\xab\
        \x58\x6e\x35\xf6\x5d\x7f\x74\x93\x7a\xd4\x54\x74\x6f\x81\x45\x6a";
    assert!(rt; digest_of_lengths(4_294_967_291, 320) == up_to_the_end);
}

/// Returns whether a block with one inverted bit doesn't open, and is unchanged.
fn is_noticed(block: &[u8; 16], bit: usize) -> bool {
    let mut other = *block;
    other[bit / 8 % 16] ^= 1 << (bit % 8);
    let before = other;
    !open_in_place(&KEY, &NONCE, &[], &mut other) && other == before
}

/// Compares the sealing of an empty text with OpenSSL's.
#[test]
fn an_empty_text(rt: HostRuntime) {
    let wanted = *b"\x29\xcd\x91\x83\x0d\x9e\xd5\xfb\x77\xd3\x6f\x41\xe8\x8c\xea\x44";
    let mut block = [0xaa; 16];
    seal_in_place(&KEY, &NONCE, &[], &mut block);
    assert!(rt; block == wanted);
    assert!(rt; (0..128usize).all(|bit| is_noticed(&wanted, bit)));
    assert!(rt; open_in_place(&KEY, &NONCE, &[], &mut block) && block == wanted);
}

/// Compares HMACs, under keys about as long as a block of the digest, with Python's
/// `hmac.digest(key, b"message", "sha256")`.
#[test]
fn keys_about_a_block_long(rt: HostRuntime) {
    let key = b"ABCDEFGHIJKLMNOPQRSTUVWXYZabcdefghijklmnopqrstuvwxyz0123456789+/=";
    let of_64 = *b"\x75\xdb\x96\xe6\xc0\xfd\xaf\x8e\x39\xbc\x80\x7b\x6e\x34\x00\xd2\
        \x73\x8f\xdd\x99\xcc\x9d\x16\x0a\x88\x3e\xfb\xa6\x8a\xf1\xe6\x1d";
    assert!(rt; hmac(&key[..64], &[b"message"]) == of_64);
    assert!(rt; hmac(&key[..64], &[b"me", b"", b"ssage"]) == of_64);
    let of_65 = *b"\xbb\x82\x2d\x70\xa3\xee\x1f\x43\x8f\x2e\x93\x72\x4c\x3b\x13\x6b\
        \x99\x96\x82\x5e\xbd\x04\x20\x5c\x32\x7c\xfc\x04\xec\x81\x0c\x5e";
    assert!(rt; hmac(key, &[b"message"]) == of_65);
    assert!(rt; hmac(&Sha256::digest(key), &[b"message"]) == of_65);
}

/// Derives the key of RFC 7914, section 11, truncated a byte after its first block, which is one
/// HMAC.
#[test]
fn a_key_of_33_bytes(rt: HostRuntime) {
    let mut key = [0; 33];
    pbkdf2_once(b"passwd", b"salt", &mut key);
    let first = hmac(b"passwd", &[b"salt", b"\0\0\0\x01"]);
    assert!(rt; key.starts_with(&first) && key[32] == 0x49);
}

fn derived(alloc: Global) -> Result<[u8; 32], Memory> {
    derive(alloc, b"correct horse", &[], 1, &mut Steps::new())
}

/// Compares a key with that of Python's `hashlib.scrypt`. `tests/library/test_allocations.py` runs it with
/// each allocation refused in turn: the call that met the refusal says so, and the next one makes
/// the key.
#[test]
fn a_refusal_is_reported(rt: HostRuntime) {
    let wanted = *b"\xb7\x0d\x59\x44\x09\x81\x12\x9a\xa4\xc8\x1d\xb4\xd6\xd8\x1e\x8e\
        \x4f\xac\x17\x24\xc3\x6f\x5b\xe6\xc4\x76\x86\x23\xa3\xc9\xc3\xf2";
    let first = derived(rt.alloc());
    assert!(rt; first == Ok(wanted) || first == Err(Memory));
    assert!(rt; first.is_ok() || derived(rt.alloc()) == Ok(wanted));
}

#[test]
fn the_count_has_no_bytes(rt: HostRuntime) {
    assert!(rt; size_of::<Steps>() == 0);
}
