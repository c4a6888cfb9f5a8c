//! The C function that begins a file that is decoded.

ghost use Rattle.std.specs.Prelude.{◌≡◌, [], List, ℕ, replicate};
ghost use Rattle.age_c.specs.{Waits, held_front};

use crate::decoder::Decoder;

/// Begins a file. Forgets all that came before, of this file or another.
#[unsafe(no_mangle)]
pub extern "C" fn age_c_decode_begin(decoder: &mut Decoder)
    ensures waits { (front : List ℕ) → Waits decoder.new front }
    ensures nothing { (front : List ℕ) → held_front decoder.new front ≡ [] }
    ensures wiped { decoder.new.stream.reader.file_key ≡ replicate 16 0 }
{
    decoder.stream.reader.file_key = [0; 16];
    decoder.stream.held = 0;
    decoder.held = 0;
    decoder.skip = 0;
    decoder.open = 0;
    decoder.fault = 0;
}
