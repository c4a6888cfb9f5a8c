//! The X25519 stanza.

ghost use Rattle.std.specs.Prelude.{◌≡◌, IfOk, IfErr};
ghost use Rattle.age_keys.specs.{is_x25519, IsX25519Stanza, ReadRefuses};

use crate::open::has_type;
use age_fault::KeyFault;
use age_stanza::{Stanza, read_base64};

/// An X25519 stanza (<https://c2sp.org/age#x25519-recipient-stanza>): `-> X25519 SHARE` and a body.
#[derive(Clone, Copy, PartialEq, Eq)]
pub struct X25519Stanza {
    /// The ephemeral share of the stanza.
    pub share: [u8; 32],
    /// The wrapped file key.
    pub body: [u8; 32],
}

/// Returns whether a stanza is of type `X25519`.
pub(crate) fn is_x25519(stanza: &Stanza) -> bool
    ensures { result ≡ is_x25519 stanza.now }
{
    has_type(stanza, b"X25519")
}

impl X25519Stanza {
    /// Parses an X25519 stanza. Refuses a stanza of another type ([`KeyFault::NoMatch`]), and one
    /// whose arguments aren't two, whose share isn't the canonical base64 of 32 bytes, or whose
    /// body isn't 32 bytes long ([`KeyFault::BadX25519`]).
    ///
    /// The length is checked before the body is opened, since the AEAD doesn't commit to a key: a
    /// longer body could be made to open under many keys, and whether it opens would reveal
    /// something about the key.
    pub fn read(stanza: &Stanza) -> Result<X25519Stanza, KeyFault>
        ensures read { IfOk result (λ read. IsX25519Stanza stanza.now read.share read.body) }
        ensures refused { IfErr result (ReadRefuses stanza.now) }
    {
        if !is_x25519(stanza) {
            return Err(KeyFault::NoMatch);
        }
        let [_, share] = stanza.args.as_slice() else {
            return Err(KeyFault::BadX25519);
        };
        let mut bytes = [0; 32];
        if !read_base64(share.as_slice(), &mut bytes) {
            return Err(KeyFault::BadX25519);
        }
        let Some(body) = stanza.body.as_slice().as_array::<32>() else {
            return Err(KeyFault::BadX25519);
        };
        Ok(X25519Stanza {
            share: bytes,
            body: *body,
        })
    }
}
