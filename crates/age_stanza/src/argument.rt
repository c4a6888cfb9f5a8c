//! One argument of a stanza.

ghost use Rattle.std.specs.Prelude.{◌≡◌, ◌↔◌, ◌<◌, [], length, IsTrue, IfOk, OnErr};

use age_io::List;
use arrayvec::ArrayVec;
use std::alloc::{AllocError, Global};
use std::marker::Model;

/// The bytes of an argument, by where they are stored.
#[derive(Drop)]
enum ArgumentBytes {
    /// The bytes in the value itself.
    Short(ArrayVec<u8, 8>),
    /// The bytes in an allocation. It is a box, since a `Vec` would make each argument 32 bytes
    /// long.
    Long(Box<Vec<u8>>),
}

/// An argument of a stanza (<https://c2sp.org/age#header>). The value takes 24 bytes, and stores an
/// argument of up to 8 bytes without an allocation, so that a header of many short arguments needs
/// none for each. Contracts see the list of the argument's bytes.
#[derive(Drop)]
pub struct Argument {
    letters: ArgumentBytes,
}

impl Model for Argument {
    ghost use Rattle.std.specs.Prelude.{List, ℕ};
    ghost use Rattle.age_stanza.specs.Text.{letters_of};

    ghost Value = { List ℕ };

    ghost view = { λ a. letters_of a.letters };
}

impl Argument {
    /// Makes an argument of a copy of some bytes, whether or not they are valid by
    /// [`is_argument`](crate::is_argument). Up to 8 bytes need no allocation, so only more can run
    /// out of memory.
    pub fn from_slice(alloc: Global, bytes: &[u8]) -> Result<Argument, AllocError>
        ensures copied { IfOk result (λ argument. argument ≡ bytes.now) }
        ensures refused { OnErr result (8 < length bytes.now) }
    {
        let letters = match ArrayVec::try_from(bytes) {
            Ok(short) => ArgumentBytes::Short(short),
            Err(_) => ArgumentBytes::Long(Box::new(alloc, Vec::from_slice(alloc, bytes)?)?),
        };
        Ok(Argument { letters })
    }

    /// Returns the argument's bytes.
    pub fn as_slice(&self) -> &[u8]
        ensures { result.now ≡ self.now }
    {
        match &self.letters {
            ArgumentBytes::Short(short) => short.as_slice(),
            ArgumentBytes::Long(long) => long.as_slice(),
        }
    }

    /// Returns the length of the argument in bytes.
    pub fn len(&self) -> usize
        ensures { result ≡ length self.now }
    {
        self.as_slice().len()
    }

    /// Returns whether the argument is empty.
    pub fn is_empty(&self) -> bool
        ensures { IsTrue result ↔ (self.now ≡ []) }
    {
        self.as_slice().is_empty()
    }
}

impl PartialEq for Argument {
    ghost use Rattle.std.proofs.Common.{rules};
    ghost use Rattle.std.specs.Prelude.{nat_eq};
    ghost use Rattle.std.specs.Cmp.Lexicographic.{pointwise};
    ghost use Rattle.std.specs.Cmp.Rules.{comparing};

    ghost eq = { λ v w. pointwise nat_eq v w };

    ghost laws = { Prim.search (comparing, rules) };

    fn eq(&self, other: &Self) -> bool {
        self.as_slice() == other.as_slice()
    }
}

/// The arguments of a stanza. The first one is the stanza's type.
pub type Arguments = List<Argument>;
