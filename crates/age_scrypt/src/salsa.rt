//! The Salsa20/8 core (RFC 7914, section 3), on vectors of four words.
//!
//! The diagonals of sixteen words, as four rows of four, are in four vectors, each word in the lane
//! of its column. So the four quarter rounds of the columns are one on vectors. The rows of a
//! matrix are the columns of its transpose, whose diagonals are the same words, in other lanes.

ghost use Rattle.std.specs.Prelude.{◌≡◌, ℕ, ◌<◌, List, [], ◌∷◌, length, map, bit_xor, slice_index};
ghost use Rattle.std.specs.Int.{w32, rotate_left};
ghost use Rattle.std.specs.Simd.Lanes.{zip2};
ghost use Rattle.age_scrypt.specs.{add32, rows, columns, salsa20_8};
ghost use Rattle.age_scrypt.specs.inner.{words, IsRows, IsDiagonals, transpose, quarters, turned};

use crate::part::Part;
use std::simd::u32x4;

/// Returns `b` XOR the sum of `x` and `y` rotated to the left by `K` bits.
#[inline(always)]
fn xor_rotated<const K: u32>(b: u32x4, x: u32x4, y: u32x4) -> u32x4
    requires some { 0 < K }
    requires below { K < 32 }
    ensures { result ≡ zip2 bit_xor b (map (λ sum. rotate_left w32 sum K) (zip2 add32 x y)) }
{
    let sum = x + y;
    b ^ ((sum << u32x4::splat(K)) | (sum >> u32x4::splat(32 - K)))
}

/// Computes a quarter round on each lane.
#[inline(always)]
fn quarter(p: Part) -> Part
    ensures a { result.a ≡ map (λ q. q.0) (quarters p.a p.b p.c p.d) }
    ensures b { result.b ≡ map (λ q. q.1) (quarters p.a p.b p.c p.d) }
    ensures c { result.c ≡ map (λ q. q.2) (quarters p.a p.b p.c p.d) }
    ensures d { result.d ≡ map (λ q. q.3) (quarters p.a p.b p.c p.d) }
{
    let Part { a, b, c, d } = p;
    let b = xor_rotated::<7>(b, a, d);
    let c = xor_rotated::<9>(c, b, a);
    let d = xor_rotated::<13>(d, c, b);
    let a = xor_rotated::<18>(a, d, c);
    Part { a, b, c, d }
}

/// Returns the diagonals of the transposed matrix.
#[inline(always)]
#[tactic(auto, unfolding(crate::specs::inner::transpose))]
fn transposed(p: Part) -> Part
    ensures { (x : List ℕ) → IsDiagonals x p → IsDiagonals (transpose x) result }
{
    Part {
        a: p.a,
        b: p.d.rotate_elements_left::<1>(),
        c: p.c.rotate_elements_left::<2>(),
        d: p.b.rotate_elements_right::<1>(),
    }
}

/// Computes a double round: the columns, and then the rows.
#[inline(always)]
fn double_round(p: Part) -> Part
    ensures { (x : List ℕ) → length x ≡ 16 → IsDiagonals x p
        → IsDiagonals (rows (columns x)) result }
{
    transposed(quarter(transposed(quarter(p))))
}

/// Returns the even lanes of `x` and the odd lanes of `y`.
#[inline(always)]
fn alternate(x: u32x4, y: u32x4) -> u32x4
    ensures { result ≡ slice_index x 0 ∷ slice_index y 1 ∷ slice_index x 2 ∷ slice_index y 3 ∷ [] }
{
    x.shuffle(y, [0, 5, 2, 7])
}

/// Returns the first half of `x` and the second half of `y`.
#[inline(always)]
fn halves(x: u32x4, y: u32x4) -> u32x4
    ensures { result ≡ slice_index x 0 ∷ slice_index x 1 ∷ slice_index y 2 ∷ slice_index y 3 ∷ [] }
{
    x.shuffle(y, [0, 1, 6, 7])
}

/// Converts rows to diagonals. Each word stays in its lane.
#[inline(always)]
pub(crate) fn diagonals(p: Part) -> Part
    ensures { (x : List ℕ) → IsRows x p → IsDiagonals x result }
{
    let (ab, cd) = (alternate(p.a, p.b), alternate(p.c, p.d));
    let (bc, da) = (alternate(p.b, p.c), alternate(p.d, p.a));
    Part {
        a: halves(ab, cd),
        b: halves(bc, da),
        c: halves(cd, ab),
        d: halves(da, bc),
    }
}

/// Converts diagonals to rows. Each word stays in its lane.
#[inline(always)]
pub(crate) fn rows(p: Part) -> Part
    ensures { (x : List ℕ) → IsDiagonals x p → IsRows x result }
{
    let (ad, cb) = (alternate(p.a, p.d), alternate(p.c, p.b));
    let (ba, dc) = (alternate(p.b, p.a), alternate(p.d, p.c));
    Part {
        a: halves(ad, cb),
        b: halves(ba, dc),
        c: halves(cb, ad),
        d: halves(dc, ba),
    }
}

/// Computes Salsa20/8 of sixteen words that are kept as their diagonals: four double rounds, and
/// the sum with the input.
#[inline(always)]
pub(crate) fn salsa20_8(p: Part) -> Part
    ensures { (x : List ℕ) → length x ≡ 16 → words p ≡ turned x
        → words result ≡ turned (salsa20_8 x) }
{
    let mut mixed = p;
    for _round in 0..4u32 {
        mixed = double_round(mixed);
    }
    mixed.wrapping_add(p)
}
