//! ChaCha20 (RFC 8439, 2.4), whose words come from the generator of `rand_chacha`.

ghost use Rattle.std.specs.Prelude.{◌≡◌, ℕ, ◌+◌, ◌*◌, ◌%◌, ◌^◌, ◌<◌, ◌≤◌, length, slice_index};
ghost use Rattle.rand_chacha.specs.ChaCha.{word_at, key_of};
ghost use Rattle.age_cipher.specs.{stream_number, block_place, ciphertext};

use crate::lanes::xor_words;
use rand_chacha::ChaCha20Rng;
use rand_core::SeedableRng;
use rand_core::utils::{NextWord, read_u32};

/// Makes the generator of a key and a nonce. The nonce's last two words are its stream.
fn start_keystream(key: &[u8; 32], nonce: &[u8; 12]) -> ChaCha20Rng
    ensures key { result.key ≡ key_of key.now }
    ensures stream { result.stream ≡ stream_number nonce.now }
{
    let middle = u64::from(read_u32(nonce, 1));
    let last = u64::from(read_u32(nonce, 2));
    let mut generator = ChaCha20Rng::from_seed(*key);
    generator.set_stream(middle + (last << 32));
    generator
}

/// Returns the number of block `counter` in the generator's stream. The nonce's first word is the
/// high half of that number.
fn block_number(nonce: &[u8; 12], counter: u32) -> u64
    ensures { 16 * result ≡ block_place nonce.now counter }
{
    u64::from(counter) + (u64::from(read_u32(nonce, 0)) << 32)
}

/// Fills `words` with the generator's next words.
#[inline(always)]
#[tactic(auto, unfolding(crate::proofs::generator_on, crate::proofs::word_on))]
fn draw(generator: &mut ChaCha20Rng, words: &mut [u32])
    requires { generator.old.word_pos < 2 ^ 68 }
    ensures words { (k : ℕ) → k < length words.old
        → slice_index words.new k
        ≡ word_at 10 generator.old.key generator.old.stream
        ((generator.old.word_pos + k) % 2 ^ 68) }
    ensures generator { generator.new ≡ record generator.old {
      word_pos = (generator.old.word_pos + length words.old) % 2 ^ 68;
    } }
{
    for k in 0..words.len() {
        words[k] = generator.next_word();
    }
}

/// Fills `words` with four blocks of the keystream, from block `number` on.
///
/// The generator has a buffer of four blocks, and checks at each word whether they are used up.
/// Here the compiler knows whether they are: at a block's first word the buffer is empty, and eight
/// words at a time are few enough for it to unroll each loop.
fn draw_blocks(generator: &mut ChaCha20Rng, number: u64, words: &mut [u32; 64])
    ensures words { (k : ℕ) → k < 64
        → slice_index words.new k
        ≡ word_at 10 generator.old.key generator.old.stream ((16 * number + k) % 2 ^ 68) }
    ensures key { generator.new.key ≡ generator.old.key }
    ensures stream { generator.new.stream ≡ generator.old.stream }
{
    generator.set_word_pos(16 * u128::from(number));
    draw(generator, &mut words[0..8]);
    draw(generator, &mut words[8..16]);
    draw(generator, &mut words[16..24]);
    draw(generator, &mut words[24..32]);
    draw(generator, &mut words[32..40]);
    draw(generator, &mut words[40..48]);
    draw(generator, &mut words[48..56]);
    draw(generator, &mut words[56..64]);
}

/// XORs a text with the keystream, from block `counter` on (RFC 8439, 2.4). A second call with
/// these arguments gives the text back.
///
/// The keystream must be long enough: with 64 bytes a block, `64 * counter` and the text's length
/// are together at most 2^38.
pub fn xor_stream(key: &[u8; 32], nonce: &[u8; 12], counter: u32, text: &mut [u8])
    requires { 64 * counter + length text.old ≤ 2 ^ 38 }
    ensures { text.new ≡ ciphertext key.now nonce.now counter text.old }
{
    let mut generator = start_keystream(key, nonce);
    let first = block_number(nonce, counter);
    let mut words = [0; 64];
    // A turn changes 256 bytes by 64 words, four blocks of the keystream.
    for i in 0..text.len().div_ceil(256) {
        draw_blocks(&mut generator, first + 4 * i as u64, &mut words);
        let end = text.len().min(256 * i + 256);
        xor_words(&mut text[256 * i..end], &words);
    }
}
