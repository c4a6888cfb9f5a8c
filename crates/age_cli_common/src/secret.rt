//! A passphrase whose bytes are overwritten when it is dropped.

ghost use Rattle.age_keys.specs.{IsAllowed, IsPassphraseKey, PassphraseRefuses, passphrase_steps};
ghost use Rattle.age_cli_common.specs.Files.{without_line_feed};
ghost use Rattle.std.specs.Prelude.{◌≡◌, IfSome};

use crate::identity::trimmed;
use age_keys::{FileKey, KeyFault, Passphrase, Steps, Unlock};
use age_stanza::Header;
use std::alloc::Global;
use std::marker::Model;

/// A vector whose bytes are overwritten before their memory is freed. No contract says so, but a
/// test checks it.
struct Zeroizing {
    bytes: Vec<u8>,
}

impl Model for Zeroizing {
    ghost use Rattle.std.specs.Prelude.{List, ℕ};

    ghost Value = { List ℕ };

    ghost view = { λ e. e.bytes.items };
}

impl Drop for Zeroizing {
    fn drop(self) {
        let Zeroizing { mut bytes } = self;
        bytes.as_mut_slice().fill(0);
    }
}

impl Zeroizing {
    /// Returns the bytes.
    fn bytes(&self) -> &[u8]
        ensures { result.now ≡ self.now }
    {
        self.bytes.as_slice()
    }
}

/// A passphrase that owns the bytes of its file, and a work factor: the greatest that is accepted
/// with it, or the one that is written. When it is dropped, these bytes are overwritten. Contracts
/// see the passphrase and the work factor.
#[derive(Drop)]
pub struct OwnPassphrase {
    held: Zeroizing,
    max_log: u32,
}

impl Model for OwnPassphrase {
    ghost use Rattle.age_keys.specs.{PassphraseIdentity, IsAllowed};
    ghost use Rattle.age_cli_common.specs.Files.{without_line_feed};

    ghost Value = { PassphraseIdentity };

    ghost view = { λ p. record { pass = without_line_feed p.held; max_log = p.max_log } };

    ghost invariant = { λ p. IsAllowed (without_line_feed p.held) p.max_log };
}

impl Unlock for OwnPassphrase {
    ghost allows = { IsPassphraseKey };

    ghost refuses = { PassphraseRefuses };

    ghost most_steps = { passphrase_steps };

    fn unlock(
        &self,
        alloc: Global,
        header: &Header,
        steps: &mut Steps,
    ) -> Result<FileKey, KeyFault> {
        match Passphrase::new(trimmed(self.held.bytes()), self.max_log) {
            Some(pass) => pass.unlock(alloc, header, steps),
            // (its invariant says so)
            None => unreachable!(),
        }
    }
}

impl OwnPassphrase {
    /// Returns the bytes of the passphrase, and the work factor.
    pub fn parts(&self) -> (&[u8], u32)
        ensures parts { (result.0.now ≡ self.now.pass) × (result.1 ≡ self.now.max_log) }
        ensures allowed { IsAllowed self.now.pass self.now.max_log }
    {
        (trimmed(self.held.bytes()), self.max_log)
    }
}

/// Returns the passphrase in the bytes of its file, if they hold one.
pub(crate) fn own_passphrase(bytes: Vec<u8>, max_log: u32) -> Option<OwnPassphrase>
    ensures { IfSome result (λ words. (words.pass ≡ without_line_feed bytes.items)
        × (words.max_log ≡ max_log)) }
{
    if Passphrase::new(trimmed(bytes.as_slice()), max_log).is_none() {
        return None;
    }
    Some(OwnPassphrase {
        held: Zeroizing { bytes },
        max_log,
    })
}
