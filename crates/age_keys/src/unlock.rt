//! The trait of unlockers, which find a file key in a header.

ghost use Rattle.std.specs.Prelude.{◌≡◌, ℕ, List, MatchResult, IfSome, IfNone};
ghost use Rattle.age_stanza.specs.declared.header.Header.{Header as HeaderValue};
ghost use Rattle.age_fault.specs.declared.key.KeyFault.{KeyFault as Fault};
ghost use Rattle.age_keys.specs.{Counts, SpellsKey};

use crate::key::FileKey;
use age_fault::KeyFault;
use age_scrypt::Steps;
use age_stanza::Header;
use hex::FromHex;
use std::alloc::Global;
use std::marker::Model;

/// An unlocker, which finds the file key in the stanzas of a header, or refuses it.
///
/// An implementation states two relations, which key it may return for a header and which fault,
/// and how many steps of scrypt it makes at most. [`open_header`](crate::open_header) states its
/// contract in these terms. docs/LIBRARY.md has an example, `Either`.
pub trait Unlock {
    /// The keys that an unlocker may return for a header.
    ghost allows: { Self → HeaderValue → List ℕ → Type 0 };

    /// The faults that an unlocker may return for a header.
    ghost refuses: { Self → HeaderValue → Fault → Type 0 };

    /// The greatest number of steps of scrypt that an unlocker makes for a header.
    ghost most_steps: { Self → ℕ };

    /// Returns the file key of a header, or refuses it. Only the count of steps changes, and not
    /// even that if the fault [is found before any work](KeyFault::is_before_work).
    fn unlock(&self, alloc: Global, header: &Header, steps: &mut Steps) -> Result<FileKey, KeyFault>
        ensures answer { MatchResult result (λ key. allows self.now header.now key)
            (refuses self.now header.now) }
        ensures counted { Counts (most_steps self.now) result steps.old steps.new };
}

/// A known file key, which is returned for every header. Contracts see the list of its bytes.
#[derive(Drop)]
pub struct KnownKey(pub [u8; 16]);

impl Model for KnownKey {
    ghost use Rattle.std.specs.Prelude.{List, ℕ};

    ghost Value = { List ℕ };

    ghost view = { λ k. k.0 };
}

impl KnownKey {
    /// Makes a known key of these bytes.
    pub fn new(bytes: [u8; 16]) -> KnownKey
        ensures { result ≡ bytes }
    {
        KnownKey(bytes)
    }

    /// Parses a key of 32 hexadecimal digits of either case, two for each byte, or returns `None`
    /// for any other text.
    pub fn read(text: &str) -> Option<KnownKey>
        ensures key { IfSome result (λ key. SpellsKey text.now key) }
        ensures none { IfNone result ((key : List ℕ) → SpellsKey text.now key → ⊥) }
    {
        match <[u8; 16] as FromHex>::from_hex(text) {
            Ok(bytes) => Some(KnownKey::new(bytes)),
            Err(_) => None,
        }
    }
}

impl Unlock for KnownKey {
    ghost allows = { λ known _ key. key ≡ known };

    ghost refuses = { λ _ _ _. ⊥ };

    ghost most_steps = { λ _. 0 };

    fn unlock(
        &self,
        _alloc: Global,
        _header: &Header,
        _steps: &mut Steps,
    ) -> Result<FileKey, KeyFault> {
        Ok(FileKey::new(self.0))
    }
}
