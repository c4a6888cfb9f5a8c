//! Shared secrets, which find the file key in X25519 stanzas.

ghost use Rattle.std.specs.Prelude.{◌≡◌, ◌++◌, Any, IfSome, IfNone};
ghost use Rattle.std.specs.Bool.{OnTrue, OnFalse};
ghost use Rattle.std.specs.List.{list_any, AllByRecursion};
ghost use Rattle.age_keys.specs.{is_x25519, shared_wrap_key, OpensTo, StaysShut, IsBadStanza, IsFirstKey};
ghost use Rattle.age_keys.specs.{IsSharedKey, SharedRefuses};

use crate::key::FileKey;
use crate::unlock::Unlock;
use crate::wrap::unwrapped_key;
use crate::x25519::{X25519Stanza, is_x25519};
use age_fault::KeyFault;
use age_scrypt::Steps;
use age_stanza::{Header, Stanza};
use std::alloc::Global;
use std::marker::Model;

/// Returns whether some stanza is of type `X25519`.
fn has_x25519(stanzas: &[Stanza]) -> bool
    ensures { result ≡ list_any is_x25519 stanzas.now }
{
    stanzas.iter().any(is_x25519)
}

/// Returns whether a stanza is of type `X25519`, but not of its shape.
fn is_bad(stanza: &Stanza) -> bool
    ensures bad { OnTrue result (IsBadStanza stanza.now) }
    ensures fine { OnFalse result (¬ IsBadStanza stanza.now) }
{
    match X25519Stanza::read(stanza) {
        Err(KeyFault::BadX25519) => true,
        _ => false,
    }
}

/// Returns whether some stanza is of type `X25519`, but not of its shape.
fn has_bad(stanzas: &[Stanza]) -> bool
    ensures bad { OnTrue result (Any IsBadStanza stanzas.now) }
    ensures fine { OnFalse result (AllByRecursion (λ s. ¬ IsBadStanza s) stanzas.now) }
{
    for stanza in stanzas {
        if is_bad(stanza) {
            return true;
        }
    }
    false
}

/// Returns the salt of HKDF: the share, and then the recipient.
fn hkdf_salt(share: &[u8; 32], recipient: &[u8; 32]) -> [u8; 64]
    ensures { result ≡ share.now ++ recipient.now }
{
    let mut both = [0; 64];
    both[..32].copy_from_slice(share);
    both[32..].copy_from_slice(recipient);
    both
}

/// A shared secret of X25519, of 32 bytes, with the recipient's public key. The secret was computed
/// elsewhere from a stanza's share and the recipient's identity. It finds the file key in the first
/// X25519 stanza of a header that opens (<https://c2sp.org/age#x25519-recipient-stanza>), and skips
/// stanzas of other types. It allocates nothing.
///
/// It refuses, in this order, a header without an X25519 stanza ([`KeyFault::NoMatch`]), a header
/// with an X25519 stanza of another shape, or any such header if the secret is zero
/// ([`KeyFault::BadX25519`]), and a header in which no X25519 stanza opens
/// ([`KeyFault::WrongKey`]).
///
/// docs/RECIPES.md says how to make one from a key file. Contracts see the secret and the
/// recipient.
#[derive(Drop)]
pub struct SharedSecret {
    secret: [u8; 32],
    recipient: [u8; 32],
}

impl Model for SharedSecret {
    ghost use Rattle.age_keys.specs.{Shared};

    ghost Value = { Shared };

    ghost view = { λ x. record { secret = x.secret; recipient = x.recipient } };
}

impl SharedSecret {
    /// Makes a shared secret for the recipient that it was computed for.
    pub fn new(shared: &[u8; 32], recipient: &[u8; 32]) -> SharedSecret
        ensures { result ≡ record { secret = shared.now; recipient = recipient.now } }
    {
        SharedSecret {
            secret: *shared,
            recipient: *recipient,
        }
    }

    /// Derives the key that wraps the file key in the stanza of a share.
    #[tactic(auto, unfolding(crate::specs::X25519::shared_wrap_key))]
    fn wrap_key(&self, share: &[u8; 32]) -> [u8; 32]
        ensures { result ≡ shared_wrap_key self.now share.now }
    {
        let salt = hkdf_salt(share, &self.recipient);
        age_kdf::hkdf32(&self.secret, &salt, b"age-encryption.org/v1/X25519")
    }

    /// Opens a stanza, and returns its file key, or `None` if the stanza doesn't open.
    fn key_in(&self, stanza: &Stanza) -> Option<FileKey>
        ensures key { IfSome result (OpensTo self.now stanza.now) }
        ensures none { IfNone result (StaysShut self.now stanza.now) }
    {
        match X25519Stanza::read(stanza) {
            Ok(read) => unwrapped_key(&self.wrap_key(&read.share), &read.body),
            Err(_) => None,
        }
    }

    /// Returns the file key of the first stanza that opens.
    fn first_key(&self, stanzas: &[Stanza]) -> Option<FileKey>
        ensures key { IfSome result (IsFirstKey self.now stanzas.now) }
        ensures none { IfNone result (AllByRecursion (StaysShut self.now) stanzas.now) }
    {
        for stanza in stanzas {
            if let Some(key) = self.key_in(stanza) {
                return Some(key);
            }
        }
        None
    }
}

impl Unlock for SharedSecret {
    ghost allows = { IsSharedKey };

    ghost refuses = { SharedRefuses };

    ghost most_steps = { λ _. 0 };

    fn unlock(
        &self,
        _alloc: Global,
        header: &Header,
        _steps: &mut Steps,
    ) -> Result<FileKey, KeyFault> {
        let stanzas = header.stanzas.as_slice();
        if !has_x25519(stanzas) {
            return Err(KeyFault::NoMatch);
        }
        if self.secret == [0; 32] || has_bad(stanzas) {
            return Err(KeyFault::BadX25519);
        }
        self.first_key(stanzas).ok_or(KeyFault::WrongKey)
    }
}
