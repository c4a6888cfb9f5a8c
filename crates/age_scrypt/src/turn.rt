//! Turned blocks, whose parts are kept as their diagonals, so that BlockMix has no words to move.
//! ROMix turns its block once at its entry, and back at its exit.

ghost use Rattle.std.specs.Prelude.{◌≡◌, List, ℕ, length};
ghost use Rattle.age_scrypt.specs.inner.{IsTurned};

use crate::part::Part;
use crate::salsa::{diagonals, rows};

/// Turns each part of a block, and writes the result to `to`.
pub(crate) fn turn(from: &[u32], to: &mut [u32])
    requires from { length from.now ≡ 256 }
    requires to { length to.old ≡ 256 }
    ensures { IsTurned from.now to.new }
{
    for i in 0..16 {
        diagonals(Part::read(from, i)).write(to, i);
    }
}

/// Turns each part of a turned block back, and writes the result to `to`.
pub(crate) fn turn_back(from: &[u32], to: &mut [u32])
    requires from { length from.now ≡ 256 }
    requires to { length to.old ≡ 256 }
    ensures { (b : List ℕ) → IsTurned b from.now → to.new ≡ b }
{
    for i in 0..16 {
        rows(Part::read(from, i)).write(to, i);
    }
}
