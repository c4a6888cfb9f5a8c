//! ROMix with r = 8 (RFC 7914, section 5), over one flat table of words.

ghost use Rattle.std.specs.Prelude.{◌≡◌, ℕ, ◌+◌, ◌*◌, ◌%◌, ◌^◌, ◌<◌, ◌≤◌, List, length};
ghost use Rattle.age_scrypt.specs.{xor_words, v_block, integerify, romix, work_factor_limit};
ghost use Rattle.age_scrypt.specs.inner.{IsTable, IsTurned, IsCount, HasTableRoom, AreBlocks, IsWorkspace};
ghost use Rattle.age_scrypt.specs.inner.{IsFilled};

use crate::part::Part;
use crate::steps::{Steps, block_mix};
use crate::turn::{turn, turn_back};

/// Returns the number of blocks in the table, `2^log`.
pub(crate) fn block_count(log: u32) -> usize
    requires { log ≤ work_factor_limit }
    ensures value { result ≡ 2 ^ log }
    ensures count { IsCount result }
{
    1 << log
}

/// Writes the exclusive or of two blocks over a third.
#[tactic(auto, using(crate::proofs::PartLemmas::xored_parts))]
fn xor_blocks(x: &[u32], y: &[u32], to: &mut [u32])
    requires x { length x.now ≡ 256 }
    requires y { length y.now ≡ 256 }
    requires to { length to.old ≡ 256 }
    ensures { to.new ≡ xor_words x.now y.now }
{
    for i in 0..16 {
        Part::read(x, i).xor(Part::read(y, i)).write(to, i);
    }
}

/// Returns Integerify(x) mod n (RFC 7914, section 5), of a turned block. The lowest word is enough,
/// since 2^32 is a multiple of `n`, and it is where it was before the turn.
fn pick_block(x: &[u32], n: usize) -> usize
    requires x { length x.now ≡ 256 }
    requires count { IsCount n }
    ensures below { result < n }
    ensures place { (b : List ℕ) → IsTurned b x.now → result ≡ integerify b % n }
{
    x[240] as usize % n
}

/// Fills a table that has room for `n` turned blocks. Block `i` is `x` mixed `i` times.
#[tactic(auto, unfolding(crate::specs::Scrypt::v_block))]
fn fill(table: &mut Vec<u32>, x: &mut [u32], n: usize, steps: &mut Steps)
    requires count { IsCount n }
    requires table { HasTableRoom n table.old }
    requires x { length x.old ≡ 256 }
    ensures filled { IsFilled n x.old table.new x.new }
    ensures counted { steps.new ≡ steps.old + n }
{
    for i in 0..n {
        // there is room, so this allocates nothing and can't fail
        table.extend_from_slice(x).unwrap();
        block_mix(&table[256 * i..256 * i + 256], x, steps);
    }
}

/// Mixes the block `x` as often as the table has blocks, each time after an XOR with one of them:
/// the second loop of ROMix (RFC 7914, section 5).
#[tactic(auto, unfolding(crate::specs::Scrypt::x_block))]
fn look_up(table: &[u32], x: &mut [u32], y: &mut [u32], n: usize, steps: &mut Steps)
    requires count { IsCount n }
    requires table { length table.now ≡ 256 * n }
    requires blocks { AreBlocks x.old y.old }
    ensures x { (b : List ℕ) → IsTable b n table.now → IsTurned (v_block b n) x.old
        → IsTurned (romix n b) x.new }
    ensures counted { steps.new ≡ steps.old + n }
{
    for _round in 0..n {
        let at = 256 * pick_block(x, n);
        xor_blocks(x, &table[at..at + 256], y);
        block_mix(y, x, steps);
    }
}

/// Computes ROMix of the block `x` in place, with `y` as a buffer for a block.
pub(crate) fn romix(table: &mut Vec<u32>, x: &mut [u32], y: &mut [u32], log: u32, steps: &mut Steps)
    requires log { log ≤ work_factor_limit }
    requires workspace { IsWorkspace (2 ^ log) table.old x.old y.old }
    ensures x { x.new ≡ romix (2 ^ log) x.old }
    ensures counted { steps.new ≡ steps.old + 2 * 2 ^ log }
{
    let n = block_count(log);
    turn(x, y);
    fill(table, y, n, steps);
    look_up(table, y, x, n, steps);
    turn_back(y, x);
}
