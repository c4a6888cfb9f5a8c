//! The wrapping of a file key in the body of a stanza: sealed under a wrap key, with a nonce of
//! zeros and no associated data. A nonce of zeros is safe, since a wrap key comes from a salt or a
//! share of the stanza's own, and so seals one file key.

ghost use Rattle.std.specs.Prelude.{◌≡◌, ◌≢◌, ℕ, List, IfSome, IfNone};
ghost use Rattle.age_keys.specs.{wrapped_key};

use crate::key::FileKey;
use age_cipher::{open_in_place, seal_in_place};

/// The nonce of each wrapping: zeros.
const NONCE: &[u8; 12] = &[0; 12];

/// Returns the body that wraps a file key.
#[tactic(auto, unfolding(crate::specs::Keys::wrapped_key), using(crate::proofs::StanzaLemmas::front_of))]
pub(crate) fn wrapped_key(wrap_key: &[u8; 32], key: &FileKey) -> [u8; 32]
    ensures { result ≡ wrapped_key wrap_key.now key.now }
{
    let mut block = [0; 32];
    block[..16].copy_from_slice(key.bytes());
    seal_in_place(wrap_key, NONCE, &[], &mut block);
    block
}

/// Returns the file key that a body wraps, or `None` if it wraps none.
#[tactic(auto, unfolding(crate::specs::Keys::wrapped_key))]
pub(crate) fn unwrapped_key(wrap_key: &[u8; 32], body: &[u8; 32]) -> Option<FileKey>
    ensures key { IfSome result (λ key. body.now ≡ wrapped_key wrap_key.now key) }
    ensures none { IfNone result ((key : List ℕ) → body.now ≢ wrapped_key wrap_key.now key) }
{
    let mut block = *body;
    if !open_in_place(wrap_key, NONCE, &[], &mut block) {
        return None;
    }
    let mut key = [0; 16];
    key.copy_from_slice(&block[..16]);
    Some(FileKey::new(key))
}
