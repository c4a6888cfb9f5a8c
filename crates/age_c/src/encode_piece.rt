//! The C function that encodes a whole piece of a plaintext.

ghost use Rattle.std.specs.Prelude.{◌≡◌, ◌≢◌, ◌<◌, ◌≤◌, ◌↔◌, IsTrue, length, take};
ghost use Rattle.age_c.specs.{misused, EncodesMore, IsTextCall, IsTextPieceCall};
ghost use Rattle.age_c.specs.inner.{KeepsTextRoom};
ghost use Rattle.age_c.specs.inner.{EncodesOne};

use crate::MISUSED;
use crate::feed_text::{can_take, feed_text};
use crate::write_stream::WriteStream;
use age_chunk::{BLOCK_LEN, CHUNK_LEN};

/// Takes bytes from the front of a piece by [`feed_text`]. Returns its result, the number of bytes
/// taken, and the number of bytes copied to `out`.
fn take_some(stream: &mut WriteStream, piece: &[u8], out: &mut [u8]) -> (u32, usize, usize)
    ensures one { EncodesOne stream.old stream.new (take result.1 piece.now)
        (take result.2 out.new) }
    ensures some { result.0 ≡ 0 → 0 < length piece.now → 0 < result.1 }
    ensures most { result.1 ≤ length piece.now }
    ensures room { result.2 ≤ length out.new }
    ensures fits { IsTextCall stream.old piece.now out.old → result.0 ≢ misused }
    ensures keeps { result.0 ≡ 0
        → KeepsTextRoom piece.now stream.old result.1 result.2 stream.new }
{
    let mut taken = 0;
    let mut written = 0;
    let answer = feed_text(stream, piece, &mut taken, out, &mut written);
    (answer, taken, written)
}

/// Returns whether an encoder can take a piece, with `room` bytes for its blocks.
fn can_take_piece(stream: &WriteStream, piece: &[u8], room: usize) -> bool
    ensures { IsTrue result ↔ IsTextPieceCall stream.now piece.now room }
{
    if !can_take(stream) {
        return false;
    }
    (stream.held as usize + piece.len()).saturating_sub(1) / CHUNK_LEN * BLOCK_LEN <= room
}

/// Takes all of a piece of the plaintext, and copies the blocks of the chunks that it fills to
/// `out`, which has room for them. Returns 0, or the number of a fault that came before the end of
/// the piece; the bytes before it were still taken and written. A misused call changes nothing.
#[unsafe(no_mangle)]
pub extern "C" fn age_c_encode_piece(
    stream: &mut WriteStream,
    piece: &[u8],
    taken: &mut usize,
    out: &mut [u8],
    written: &mut usize,
) -> u32
    ensures more { EncodesMore stream.old stream.new (take taken.new piece.now)
        (take written.new out.new) }
    ensures all { result ≡ 0 → taken.new ≡ length piece.now }
    ensures most { written.new ≤ length out.new }
    ensures fits { IsTextPieceCall stream.old piece.now (length out.old) → result ≢ misused }
    ensures meant { result ≢ misused → IsTextPieceCall stream.old piece.now (length out.old) }
    ensures idle { result ≡ misused → (stream.new ≡ stream.old) × (taken.new ≡ 0)
        × (written.new ≡ 0) }
{
    let mut at = 0;
    let mut done = 0;
    *taken = at;
    *written = done;
    if !can_take_piece(stream, piece, out.len()) {
        return MISUSED;
    }
    'pieces: while at < piece.len() {
        let (answer, some, count) = take_some(stream, &piece[at..], &mut out[done..]);
        at += some;
        done += count;
        if answer != 0 {
            *taken = at;
            *written = done;
            return answer;
        }
    }
    *taken = at;
    *written = done;
    0
}
