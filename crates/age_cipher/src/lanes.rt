//! XOR of a text with words, through vectors of 32 bytes.

ghost use Rattle.std.specs.Prelude.{◌≡◌, ◌*◌, ◌≤◌, length};
ghost use Rattle.age_cipher.specs.inner.{word_byte, IsXored};

use std::simd::{u8x32, u32x8};

/// XORs 32 bytes with eight words.
fn xor_lanes(text: &mut [u8], words: &[u32])
    requires text { length text.old ≡ 32 }
    requires words { length words.now ≡ 8 }
    ensures { IsXored (word_byte words.now) text.old text.new }
{
    let lanes = u8x32::from_slice(text) ^ u32x8::from_slice(words).to_le_bytes();
    lanes.copy_to_slice(text);
}

/// XORs the last bytes of a text, which fill no vector, with words.
fn xor_rest(text: &mut [u8], words: &[u32])
    requires { length text.old ≤ 4 * length words.now }
    ensures { IsXored (word_byte words.now) text.old text.new }
{
    for k in 0..text.len() {
        text[k] ^= words[k / 4].to_le_bytes()[k % 4];
    }
}

/// XORs each byte of a text with the byte of the words at its place.
pub(crate) fn xor_words(text: &mut [u8], words: &[u32])
    requires { length text.old ≤ 4 * length words.now }
    ensures { IsXored (word_byte words.now) text.old text.new }
{
    let whole = text.len() / 32;
    for i in 0..whole {
        xor_lanes(&mut text[32 * i..32 * i + 32], &words[8 * i..8 * i + 8]);
    }
    xor_rest(&mut text[32 * whole..], &words[8 * whole..]);
}
