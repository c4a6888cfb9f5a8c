//! The C function that decodes a whole piece of a payload.

ghost use Rattle.std.specs.Prelude.{◌≡◌, ◌≢◌, ◌<◌, ◌≤◌, ◌↔◌, IsTrue, length, take};
ghost use Rattle.age_c.specs.{misused, DecodesMore, IsPieceCall};
ghost use Rattle.age_c.specs.inner.{IsStreamCall, KeepsRoom};
ghost use Rattle.age_c.specs.inner.{DecodesOne};

use crate::MISUSED;
use crate::blocks::status_at;
use crate::decode::decode;
use crate::decoder::Decoder;
use age_chunk::{BLOCK_LEN, CHUNK_LEN};

/// Takes bytes from the front of a piece by [`decode`]. Returns its result, the number of bytes
/// taken, and the number of bytes of plaintext copied to `out`.
fn take_some(decoder: &mut Decoder, piece: &[u8], out: &mut [u8]) -> (u32, usize, usize)
    ensures one { DecodesOne decoder.old decoder.new (take result.1 piece.now)
        (take result.2 out.new) }
    ensures some { result.0 ≡ 0 → 0 < length piece.now → 0 < result.1 }
    ensures most { result.1 ≤ length piece.now }
    ensures room { result.2 ≤ length out.new }
    ensures fits { decoder.old.open ≡ 1 → IsStreamCall decoder.old.stream piece.now out.old
        → (result.0 ≢ misused) × (decoder.new.open ≡ 1)
        × KeepsRoom piece.now decoder.old.stream result.1 result.2 decoder.new.stream }
{
    let mut taken = 0;
    let mut written = 0;
    let answer = decode(decoder, piece, &mut taken, out, &mut written);
    (answer, taken, written)
}

/// Returns whether a decoder can take a piece, with `room` bytes for its plaintext.
fn can_take(decoder: &Decoder, piece: &[u8], room: usize) -> bool
    ensures { IsTrue result ↔ IsPieceCall decoder.now piece.now room }
{
    let held = decoder.stream.held as usize;
    if decoder.open != 1 || held >= BLOCK_LEN || status_at(&decoder.stream.reader).is_none() {
        return false;
    }
    (held + piece.len()) / BLOCK_LEN * CHUNK_LEN <= room
}

/// Takes all of a piece of the payload, and copies the plaintext of the blocks that it fills to
/// `out`, which has room for them. Returns 0, or the number of a fault that came before the end of
/// the piece; the bytes before it were still taken and written. A misused call changes nothing.
#[unsafe(no_mangle)]
pub extern "C" fn age_c_decode_piece(
    decoder: &mut Decoder,
    piece: &[u8],
    taken: &mut usize,
    out: &mut [u8],
    written: &mut usize,
) -> u32
    ensures more { DecodesMore decoder.old decoder.new (take taken.new piece.now)
        (take written.new out.new) }
    ensures all { result ≡ 0 → taken.new ≡ length piece.now }
    ensures most { written.new ≤ length out.new }
    ensures fits { IsPieceCall decoder.old piece.now (length out.old) → result ≢ misused }
    ensures meant { result ≢ misused → IsPieceCall decoder.old piece.now (length out.old) }
    ensures idle { result ≡ misused → (decoder.new ≡ decoder.old) × (taken.new ≡ 0)
        × (written.new ≡ 0) }
{
    let mut at = 0;
    let mut done = 0;
    *taken = at;
    *written = done;
    if !can_take(decoder, piece, out.len()) {
        return MISUSED;
    }
    'pieces: while at < piece.len() {
        let (answer, some, count) = take_some(decoder, &piece[at..], &mut out[done..]);
        at += some;
        done += count;
        if answer != 0 {
            *taken = at;
            *written = done;
            return answer;
        }
    }
    *taken = at;
    *written = done;
    0
}
