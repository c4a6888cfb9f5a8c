//! The C function that seeks in a plaintext.

ghost use Rattle.std.specs.Prelude.{◌≡◌, ◌≢◌, ◌-◌, ◌/◌, min};
ghost use Rattle.age_chunk.specs.{block_length, chunk_length};
ghost use Rattle.age_c.specs.{misused, SeeksTo};

use crate::MISUSED;
use crate::decoder::Decoder;
use crate::seek::go_to;
use age_chunk::{BLOCK_LEN, CHUNK_LEN};

/// The length of a chunk.
const CHUNK: u64 = CHUNK_LEN as u64;

/// The length of a block.
const BLOCK: u64 = BLOCK_LEN as u64;

/// Returns the number of the chunk to read first for byte `place` of the plaintext, in a payload of
/// `size` bytes: the one of the byte before it, or the last if the payload ends before that.
fn chunk_for(place: u64, size: u64) -> u64
    ensures { result ≡ min ((place - 1) / chunk_length) ((size - 1) / block_length) }
{
    (place.saturating_sub(1) / CHUNK).min(size.saturating_sub(1) / BLOCK)
}

/// Seeks to byte `place` of the plaintext, in a file of `file_len` bytes, and sets `offset` to the
/// place in the file from which to give bytes next. The next byte of plaintext is then that one, or
/// there is none if the plaintext ends before it. Forgets the bytes given before, a fault and an
/// end. Give 2^64 - 1 for a length that isn't known; then a place beyond the end may be refused.
#[unsafe(no_mangle)]
pub extern "C" fn age_c_decode_seek(
    decoder: &mut Decoder,
    place: u64,
    file_len: u64,
    offset: &mut u64,
) -> u32
    ensures goes { result ≡ 0 → SeeksTo place file_len decoder.old offset.new decoder.new }
    ensures idle { result ≢ 0 → (result ≡ misused) × (decoder.new ≡ decoder.old)
        × (offset.new ≡ 0) }
    ensures fits { decoder.old.open ≡ 1 → result ≡ 0 }
{
    *offset = 0;
    if decoder.open != 1 {
        return MISUSED;
    }
    let payload_at = decoder.stream.reader.payload_at;
    let chunk = chunk_for(place, file_len.saturating_sub(payload_at));
    go_to(&mut decoder.stream.reader, chunk);
    decoder.stream.held = 0;
    decoder.skip = (place - chunk * CHUNK) as usize;
    *offset = payload_at + chunk * BLOCK;
    0
}
