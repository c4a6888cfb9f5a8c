//! Passphrases, which find the file key in a scrypt stanza.

ghost use Rattle.std.specs.Option.{SomeIff};
ghost use Rattle.age_keys.specs.{IsAllowed, IsPassphraseKey, PassphraseRefuses, passphrase_steps};

use crate::key::FileKey;
use crate::open::has_scrypt;
use crate::scrypt::{ScryptStanza, wrap_key};
use crate::unlock::Unlock;
use crate::wrap::unwrapped_key;
use age_fault::KeyFault;
use age_scrypt::{Steps, WORK_FACTOR_LIMIT};
use age_stanza::Header;
use std::alloc::Global;
use std::marker::Model;

/// The greatest length of a passphrase in bytes.
pub const PASSPHRASE_LIMIT: usize = 65_536;

/// A passphrase, with the greatest work factor that is accepted. It finds the file key in the one
/// scrypt stanza of a header (<https://c2sp.org/age#scrypt-recipient-stanza>).
///
/// It refuses, in this order, a scrypt stanza beside another stanza ([`KeyFault::ScryptNotAlone`]),
/// a header without a scrypt stanza ([`KeyFault::NoMatch`]), a scrypt stanza of another shape
/// ([`KeyFault::BadScrypt`]), a work factor above the limit, however many digits it has
/// ([`KeyFault::WorkTooHigh`]), running out of memory for scrypt's table ([`KeyFault::Memory`]),
/// and a body that opens to no file key under the passphrase ([`KeyFault::WrongKey`]).
///
/// docs/LIBRARY.md has an example of a decryption, `open_bytes`, for which this is the unlocker.
/// Contracts see the passphrase and the greatest work factor.
#[derive(Drop)]
pub struct Passphrase<'a> {
    bytes: &'a [u8],
    max_log: u32,
}

impl<'a> Model for Passphrase<'a> {
    ghost use Rattle.age_keys.specs.{PassphraseIdentity, IsAllowed};

    ghost Value = { PassphraseIdentity };

    ghost view = { λ p. record { pass = p.bytes.now; max_log = p.max_log } };

    ghost invariant = { λ p. IsAllowed p.bytes.now p.max_log };
}

impl<'a> Passphrase<'a> {
    /// Makes a passphrase of 1 to [`PASSPHRASE_LIMIT`] bytes, whatever they are, with a greatest
    /// work factor of 1 to [`WORK_FACTOR_LIMIT`], or `None` for any other. A header with work
    /// factor n takes `1,024 * 2^n` bytes of memory.
    pub fn new(bytes: &'a [u8], max_log: u32) -> Option<Passphrase<'a>>
        ensures { SomeIff result (IsAllowed bytes.now max_log)
            (record { pass = bytes.now; max_log = max_log }) }
    {
        if bytes.is_empty()
            || bytes.len() > PASSPHRASE_LIMIT
            || max_log < 1
            || max_log > WORK_FACTOR_LIMIT
        {
            return None;
        }
        Some(Passphrase { bytes, max_log })
    }
}

impl<'a> Unlock for Passphrase<'a> {
    ghost allows = { IsPassphraseKey };

    ghost refuses = { PassphraseRefuses };

    ghost most_steps = { passphrase_steps };

    fn unlock(
        &self,
        alloc: Global,
        header: &Header,
        steps: &mut Steps,
    ) -> Result<FileKey, KeyFault> {
        let stanzas = header.stanzas.as_slice();
        if !has_scrypt(stanzas) {
            return Err(KeyFault::NoMatch);
        }
        let [stanza] = stanzas else {
            return Err(KeyFault::ScryptNotAlone);
        };
        let Some(read) = ScryptStanza::read(stanza) else {
            return Err(KeyFault::BadScrypt);
        };
        if read.log > self.max_log {
            return Err(KeyFault::WorkTooHigh);
        }
        let wrap_key = wrap_key(alloc, self.bytes, &read.salt, read.log, steps)?;
        unwrapped_key(&wrap_key, &read.body).ok_or(KeyFault::WrongKey)
    }
}
