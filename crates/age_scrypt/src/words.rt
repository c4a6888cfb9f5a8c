//! Conversions of a block between 1,024 bytes and 256 words.

ghost use Rattle.std.specs.Prelude.{◌≡◌, length};
ghost use Rattle.age_scrypt.specs.{words_of, bytes_of};

use byteorder::{ByteOrder, LittleEndian};

/// Converts the bytes of a block to words.
#[tactic(auto, using(crate::proofs::RomixLemmas::words_all))]
pub(crate) fn read_words(bytes: &[u8; 1024], words: &mut [u32])
    requires { length words.old ≡ 256 }
    ensures { words.new ≡ words_of bytes.now }
{
    LittleEndian::read_u32_into(bytes, words);
}

/// Converts the words of a block to bytes.
#[tactic(auto, unfolding(crate::specs::Scrypt::bytes_of))]
pub(crate) fn write_bytes(words: &[u32], bytes: &mut [u8])
    requires words { length words.now ≡ 256 }
    requires bytes { length bytes.old ≡ 1024 }
    ensures { bytes.new ≡ bytes_of words.now }
{
    LittleEndian::write_u32_into(words, bytes);
}
