//! The keys below the file key: the payload's, and the key of positions in it.

ghost use Rattle.std.specs.Prelude.{◌≡◌, []};
ghost use Rattle.age_cipher.specs.{sealing as sealing_with, opening as opening_with};
ghost use Rattle.age_keys.specs.{payload_key, position_key};
ghost use Rattle.age_keys.specs.inner.{box_valid};

use crate::key::FileKey;
use age_chunk::{ChunkBox, PAYLOAD_NONCE_LEN};
use age_cipher::{open_in_place, seal_in_place};
use std::marker::Model;

/// The key of a payload, which seals and opens its chunks (<https://c2sp.org/age#payload>).
/// Contracts see the list of its 32 bytes.
#[derive(Drop)]
pub struct PayloadKey {
    bytes: [u8; 32],
}

impl Model for PayloadKey {
    ghost use Rattle.std.specs.Prelude.{List, ℕ};

    ghost Value = { List ℕ };

    ghost view = { λ k. k.bytes };
}

impl ChunkBox for PayloadKey {
    ghost sealing = { λ key nonce text. sealing_with key nonce [] text };

    ghost opening = { λ key nonce block. opening_with key nonce [] block };

    ghost valid = { λ key. box_valid key };

    fn seal_at(&self, nonce: &[u8; 12], block: &mut [u8]) {
        seal_in_place(&self.bytes, nonce, &[], block);
    }

    fn open_at(&self, nonce: &[u8; 12], block: &mut [u8]) -> bool {
        open_in_place(&self.bytes, nonce, &[], block)
    }
}

/// Derives the key of a payload: HKDF of the file key, salted with the payload nonce, under the
/// label `payload` (<https://c2sp.org/age#payload>).
#[tactic(auto, unfolding(crate::specs::Keys::payload_key))]
pub fn payload_key(key: &FileKey, nonce: &[u8; PAYLOAD_NONCE_LEN]) -> PayloadKey
    ensures { result ≡ payload_key key.now nonce.now }
{
    PayloadKey {
        bytes: age_kdf::hkdf32(key.bytes(), nonce, b"payload"),
    }
}

/// Derives the key of the tags of positions in a payload: HKDF of the file key, salted with the
/// payload nonce, under the label `age-tool position v2`. It is no part of the age format.
#[tactic(auto, unfolding(crate::specs::Keys::position_key))]
pub fn position_key(key: &FileKey, nonce: &[u8; PAYLOAD_NONCE_LEN]) -> [u8; 32]
    ensures { result ≡ position_key key.now nonce.now }
{
    age_kdf::hkdf32(key.bytes(), nonce, b"age-tool position v2")
}
