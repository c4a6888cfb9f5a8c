//! A part of a block: sixteen words in four vectors.

ghost use Rattle.std.specs.Prelude.{◌≡◌, ◌≢◌, ℕ, ◌+◌, ◌<◌, ◌≤◌, ◌++◌, length, take, drop};
ghost use Rattle.std.specs.Simd.Lanes.{zip2};
ghost use Rattle.age_scrypt.specs.Scrypt.{add32, xor_words, part};

use std::simd::u32x4;

/// Sixteen words as a matrix of four by four: its rows, or its diagonals.
#[derive(Clone, Copy)]
pub(crate) struct Part {
    /// The first row or diagonal.
    pub a: u32x4,
    /// The second row or diagonal.
    pub b: u32x4,
    /// The third row or diagonal.
    pub c: u32x4,
    /// The fourth row or diagonal.
    pub d: u32x4,
    ghost a_len: { length a ≡ 4 },
    ghost b_len: { length b ≡ 4 },
    ghost c_len: { length c ≡ 4 },
    ghost d_len: { length d ≡ 4 },
}

/// Reads four words from position `at` on.
#[inline(always)]
fn read_row(words: &[u32], at: usize) -> u32x4
    requires { at + 4 ≤ length words.now }
    ensures { result ≡ take 4 (drop at words.now) }
{
    u32x4::from_slice(&words[at..at + 4])
}

/// Writes four words from position `at` on.
#[inline(always)]
fn write_row(words: &mut [u32], at: usize, row: u32x4)
    requires { at + 4 ≤ length words.old }
    ensures { words.new ≡ take at words.old ++ row ++ drop (at + 4) words.old }
{
    row.copy_to_slice(&mut words[at..at + 4]);
}

impl Part {
    ghost use Rattle.age_scrypt.specs.inner.{words};

    /// Reads part `i` of a block of 256 words, row by row.
    #[inline(always)]
    #[tactic(auto, using(crate::proofs::PartLemmas::rows_read), unfolding(crate::specs::Scrypt::part))]
    pub fn read(block: &[u32], i: usize) -> Part
        requires block { length block.now ≡ 256 }
        requires i { i < 16 }
        ensures { words result ≡ part 16 block.now i }
    {
        let at = 16 * i;
        Part {
            a: read_row(block, at),
            b: read_row(block, at + 4),
            c: read_row(block, at + 8),
            d: read_row(block, at + 12),
        }
    }

    /// Writes the rows over sixteen words.
    #[inline(always)]
    fn write_over(self, to: &mut [u32])
        requires { length to.old ≡ 16 }
        ensures { to.new ≡ words self }
    {
        write_row(to, 0, self.a);
        write_row(to, 4, self.b);
        write_row(to, 8, self.c);
        write_row(to, 12, self.d);
    }

    /// Writes the rows over part `i` of a block of 256 words.
    #[inline(always)]
    #[tactic(auto, using(crate::proofs::PartLemmas::parts_put))]
    pub fn write(self, block: &mut [u32], i: usize)
        requires block { length block.old ≡ 256 }
        requires i { i < 16 }
        ensures here { part 16 block.new i ≡ words self }
        ensures others { (j : ℕ) → j < 16 → j ≢ i → part 16 block.new j ≡ part 16 block.old j }
    {
        self.write_over(&mut block[16 * i..16 * i + 16]);
    }

    /// Returns the exclusive or, word by word.
    #[inline(always)]
    #[tactic(auto, using(crate::proofs::SalsaLemmas::zip2_words, crate::proofs::SalsaLemmas::vector_lengths))]
    pub fn xor(self, other: Part) -> Part
        ensures { words result ≡ xor_words (words self) (words other) }
    {
        Part {
            a: self.a ^ other.a,
            b: self.b ^ other.b,
            c: self.c ^ other.c,
            d: self.d ^ other.d,
        }
    }

    /// Returns the sums, word by word, with their carries dropped.
    #[inline(always)]
    #[tactic(auto, using(crate::proofs::SalsaLemmas::zip2_words, crate::proofs::SalsaLemmas::vector_lengths))]
    pub fn wrapping_add(self, other: Part) -> Part
        ensures { words result ≡ zip2 add32 (words self) (words other) }
    {
        Part {
            a: self.a + other.a,
            b: self.b + other.b,
            c: self.c + other.c,
            d: self.d + other.d,
        }
    }
}
