//! The C function that wraps a file key for an X25519 recipient.

ghost use Rattle.std.specs.Prelude.{◌≡◌, ◌≢◌, ◌++◌, length, take, replicate, IfOk};
ghost use Rattle.base64.specs.GeneralPurpose.{IsBytes};
ghost use Rattle.age_keys.specs.{wrapped_key, shared_wrap_key};
ghost use Rattle.age_stanza.specs.{stanza_text, IsStanza};
ghost use Rattle.age_c.specs.{misused, PutsFront, IsWrapCall, RefusesWrap, WrapsShared, x25519_stanza};

use crate::MISUSED;
use crate::blocks::put;
use age_cipher::seal_in_place;
use age_kdf::hkdf32;
use base64::engine::general_purpose::STANDARD_NO_PAD;
use std::alloc::{AllocError, Global};

/// The length of the lines of an X25519 stanza in bytes.
const STANZA_LEN: usize = 98;

/// The number of the fault of a shared secret that is zero.
const BAD_X25519: u32 = 15;

/// The number of the fault of running out of memory.
const MEMORY: u32 = 28;

/// Returns the salt of HKDF: the share, and then the recipient.
fn hkdf_salt(share: &[u8; 32], recipient: &[u8; 32]) -> [u8; 64]
    ensures { result ≡ share.now ++ recipient.now }
{
    let mut both = [0; 64];
    both[..32].copy_from_slice(share);
    both[32..].copy_from_slice(recipient);
    both
}

/// Derives the key that wraps the file key.
#[tactic(auto, unfolding(age_keys::specs::X25519::shared_wrap_key))]
fn wrap_key(secret: &[u8; 32], share: &[u8; 32], recipient: &[u8; 32]) -> [u8; 32]
    ensures { result ≡ shared_wrap_key
        (record { secret = secret.now; recipient = recipient.now }) share.now }
{
    let salt = hkdf_salt(share, recipient);
    hkdf32(secret, &salt, b"age-encryption.org/v1/X25519")
}

/// Returns the body of the stanza, in which the file key is wrapped. A nonce of zeros is safe,
/// since the wrap key comes from the share, and so seals one file key.
#[tactic(auto, unfolding(age_keys::specs::Keys::wrapped_key), using(age_keys::proofs::StanzaLemmas::front_of))]
fn wrapped_key(wrap_key: &[u8; 32], key: &[u8; 16]) -> [u8; 32]
    ensures { result ≡ wrapped_key wrap_key.now key.now }
{
    let mut block = [0; 32];
    block[..16].copy_from_slice(key);
    seal_in_place(wrap_key, &[0; 12], &[], &mut block);
    block
}

/// Formats the lines of an X25519 stanza.
fn encode_stanza_lines(
    alloc: Global,
    share: &[u8; 32],
    body: &[u8; 32],
) -> Result<Vec<u8>, AllocError>
    ensures text { IfOk result
        (λ lines. lines.items ≡ stanza_text (x25519_stanza share.now body.now)) }
    ensures valid { IfOk result (λ _. IsStanza (x25519_stanza share.now body.now)) }
    ensures bytes { IfOk result (λ _. IsBytes share.now) }
    ensures size { IfOk result (λ lines. length lines.items ≡ 98) }
{
    let mut lines = Vec::from_slice(alloc, b"-> X25519 ")?;
    lines.extend_from_slice(STANDARD_NO_PAD.encode(alloc, share)?.as_bytes())?;
    lines.extend_from_slice(b"\n")?;
    lines.extend_from_slice(STANDARD_NO_PAD.encode(alloc, body)?.as_bytes())?;
    lines.extend_from_slice(b"\n")?;
    Ok(lines)
}

/// Wraps a file key, and returns the lines of the stanza.
fn wrap(
    alloc: Global,
    secret: &[u8; 32],
    share: &[u8; 32],
    recipient: &[u8; 32],
    key: &[u8; 16],
) -> Result<Vec<u8>, AllocError>
    requires { secret.now ≢ replicate 32 0 }
    ensures wraps { IfOk result (λ lines. WrapsShared
        (record { secret = secret.now; recipient = recipient.now }) share.now key.now
        lines.items) }
    ensures size { IfOk result (λ lines. length lines.items ≡ 98) }
{
    let body = wrapped_key(&wrap_key(secret, share, recipient), key);
    encode_stanza_lines(alloc, share, &body)
}

/// Wraps a file key for an X25519 recipient, and writes the lines of the stanza to `out`, which has
/// room for 98 bytes or more: `-> X25519 SHARE` and a body
/// (<https://c2sp.org/age#x25519-recipient-stanza>). The secret is X25519 of the share's own secret
/// and the recipient. Secret, share and recipient have 32 bytes each, and the key 16. Refuses a
/// secret of zeros with 15.
#[unsafe(no_mangle)]
pub extern "C" fn age_c_wrap_shared(
    alloc: Global,
    secret: &[u8],
    share: &[u8],
    recipient: &[u8],
    file_key: &[u8],
    out: &mut [u8],
    written: &mut usize,
) -> u32
    ensures wraps { result ≡ 0 → WrapsShared
        (record { secret = secret.now; recipient = recipient.now }) share.now file_key.now
        (take written.new out.new) }
    ensures refused { result ≢ 0 → result ≢ misused → RefusesWrap secret.now result }
    ensures fits { IsWrapCall secret.now share.now recipient.now file_key.now out.old
        → result ≢ misused }
    ensures meant { result ≢ misused
        → IsWrapCall secret.now share.now recipient.now file_key.now out.old }
    ensures nothing { result ≢ 0 → written.new ≡ 0 }
    ensures put { PutsFront written.new out.old out.new }
{
    *written = 0;
    let (Some(secret), Some(share)) = (secret.as_array::<32>(), share.as_array::<32>()) else {
        return MISUSED;
    };
    let (Some(recipient), Some(key)) = (recipient.as_array::<32>(), file_key.as_array::<16>())
    else {
        return MISUSED;
    };
    if out.len() < STANZA_LEN {
        return MISUSED;
    }
    if *secret == [0; 32] {
        return BAD_X25519;
    }
    let Ok(lines) = wrap(alloc, secret, share, recipient, key) else {
        return MEMORY;
    };
    *written = put(lines.as_slice(), out);
    0
}
