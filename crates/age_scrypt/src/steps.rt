//! BlockMix with r = 8 (RFC 7914, section 4), and the count of its steps. They are in one module,
//! so that no other code can raise a count.

ghost use Rattle.std.specs.Prelude.{◌≡◌, ℕ, ◌+◌, List, length};
ghost use Rattle.age_scrypt.specs.{block_mix};
ghost use Rattle.age_scrypt.specs.inner.{IsTurned};

use crate::part::Part;
use crate::salsa::salsa20_8;
use age_io::ByteTrace;
use std::marker::Model;

/// A count of steps, each one BlockMix (RFC 7914, section 4). Nothing else raises it. Contracts see
/// a number without a greatest value. Ghost: no bytes at run time.
#[derive(Drop)]
pub struct Steps {
    // a byte for each
    tape: ByteTrace,
}

impl Model for Steps {
    ghost Value = { ℕ };

    ghost view = { λ steps. length steps.tape };
}

impl Steps {
    /// Returns a count of no steps.
    pub fn new() -> Steps
        ensures { result ≡ 0 }
    {
        Steps {
            tape: ByteTrace::new(),
        }
    }

    /// Counts one more step.
    fn tick(&mut self)
        ensures { self.new ≡ self.old + 1 }
    {
        self.tape.note(&[0]);
    }
}

/// Mixes a turned block of 256 words into another turned block, which is one step (RFC 7914,
/// section 4).
#[tactic(auto, unfolding(crate::specs::Scrypt::x_part))]
pub(crate) fn block_mix(from: &[u32], to: &mut [u32], steps: &mut Steps)
    requires from { length from.now ≡ 256 }
    requires to { length to.old ≡ 256 }
    ensures mixed { (b : List ℕ) → IsTurned b from.now → IsTurned (block_mix b) to.new }
    ensures counted { steps.new ≡ steps.old + 1 }
{
    let mut x = Part::read(from, 15);
    for i in 0..16 {
        x = salsa20_8(x.xor(Part::read(from, i)));
        // the outputs of even parts, and then those of odd ones
        x.write(to, i / 2 + i % 2 * 8);
    }
    steps.tick();
}
