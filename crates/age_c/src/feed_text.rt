//! The writing of a plaintext in pieces of any length.

ghost use Rattle.std.specs.Prelude.{◌≡◌, ◌≢◌, ◌+◌, ◌<◌, ◌≤◌, ◌↔◌, IsTrue, true, false, [], length, take};
ghost use Rattle.age_chunk.specs.{chunk_length, chunk_limit};
ghost use Rattle.age_c.specs.{Answers, PutsFront, CanSeal, WritesOrRefuses, FeedsText, FinishesText};
ghost use Rattle.age_c.specs.{IsTextCall, IsLastTextCall, RefusesText};
ghost use Rattle.age_c.specs.inner.{KeepsTextRoom};
ghost use Rattle.age_c.specs.inner.{HoldsText};

use crate::MISUSED;
use crate::seal::{TOO_MANY_CHUNKS, can_be_used};
use crate::sealing::{seal_last, seal_next};
use crate::write_stream::WriteStream;
use age_chunk::{BLOCK_LEN, CHUNK_LEN, CHUNK_LIMIT, TAG_LEN};

/// Returns whether a stream can be used.
pub(crate) fn can_take(stream: &WriteStream) -> bool
    ensures { IsTrue result ↔ (CanSeal stream.now.writer × (stream.now.held ≤ chunk_length)
        × (stream.now.held ≡ 0 → stream.now.writer.chunk ≡ 0)) }
{
    let held = stream.held as usize;
    can_be_used(&stream.writer) && held <= CHUNK_LEN && (held > 0 || stream.writer.chunk == 0)
}

/// Appends as many bytes of `piece` to the open chunk as fit. Returns their number.
fn hold_text(stream: &mut WriteStream, piece: &[u8]) -> usize
    requires { stream.old.held ≤ chunk_length }
    ensures { HoldsText piece.now result stream.old stream.new }
{
    let held = stream.held as usize;
    let count = piece.len().min(CHUNK_LEN - held);
    stream.chunk[held..held + count].copy_from_slice(&piece[..count]);
    stream.held = (held + count) as u32;
    count
}

/// Returns whether bytes of a piece fit in the open chunk before it has to be sealed.
fn has_room(stream: &WriteStream, piece: &[u8]) -> bool
    ensures room { result ≡ true → 0 < length piece.now → stream.now.held < chunk_length }
    ensures full { result ≡ false → (0 < length piece.now) × (chunk_length ≤ stream.now.held) }
{
    piece.is_empty() || (stream.held as usize) < CHUNK_LEN
}

/// Appends bytes of a piece to the open chunk, and returns their number.
fn hold_only(stream: &mut WriteStream, piece: &[u8]) -> usize
    requires short { stream.old.held ≤ chunk_length }
    requires room { 0 < length piece.now → stream.old.held < chunk_length }
    requires usable { CanSeal stream.old.writer }
    requires some { stream.old.held ≡ 0 → stream.old.writer.chunk ≡ 0 }
    ensures feeds { FeedsText piece.now result stream.old [] stream.new }
    ensures room { KeepsTextRoom piece.now stream.old result 0 stream.new }
{
    hold_text(stream, piece)
}

/// Seals the full chunk in the buffer, which isn't the last, to `out`, and then appends bytes of a
/// piece. Returns their number, and the length of the block.
fn seal_held(stream: &mut WriteStream, piece: &[u8], out: &mut [u8]) -> (usize, usize)
    requires call { IsTextCall stream.old piece.now out.old }
    requires full { stream.old.held ≡ chunk_length }
    requires limit { stream.old.writer.chunk + 1 < chunk_limit }
    requires more { 0 < length piece.now }
    ensures feeds { FeedsText piece.now result.0 stream.old (take result.1 out.new) stream.new }
    ensures put { PutsFront result.1 out.old out.new }
    ensures room { KeepsTextRoom piece.now stream.old result.0 result.1 stream.new }
{
    let written = seal_next(&mut stream.writer, &stream.chunk, out);
    stream.held = 0;
    (hold_text(stream, piece), written)
}

/// Takes bytes of the plaintext from the front of `piece`, up to the end of the chunk that is open.
/// A chunk that is full is sealed once a byte comes after it, and its block is copied to `out`,
/// which has room for 65,552 bytes or more if one is. Returns 22, and changes nothing, if the chunk
/// that is full can only be the last, since a payload has at most 2^48.
pub(crate) fn feed_text(
    stream: &mut WriteStream,
    piece: &[u8],
    taken: &mut usize,
    out: &mut [u8],
    written: &mut usize,
) -> u32
    ensures answers { Answers (IsTextCall stream.old piece.now out.old)
        (WritesOrRefuses (FeedsText piece.now taken.new stream.old)
        (RefusesText piece.now stream.old) stream.old)
        stream.old stream.new result written.new out.old out.new }
    ensures none { result ≢ 0 → taken.new ≡ 0 }
    ensures room { result ≡ 0
        → KeepsTextRoom piece.now stream.old taken.new written.new stream.new }
{
    *taken = 0;
    *written = 0;
    if !can_take(stream) {
        return MISUSED;
    }
    if has_room(stream, piece) {
        *taken = hold_only(stream, piece);
        return 0;
    }
    if out.len() < BLOCK_LEN {
        return MISUSED;
    }
    if stream.writer.chunk == CHUNK_LIMIT - 1 {
        return TOO_MANY_CHUNKS;
    }
    (*taken, *written) = seal_held(stream, piece, out);
    0
}

/// Seals the plaintext in the buffer as the last chunk to `out`, and returns the length of its
/// block.
fn seal_rest(stream: &mut WriteStream, out: &mut [u8]) -> usize
    requires { IsLastTextCall stream.old out.old }
    ensures finishes { FinishesText stream.old (take result out.new) stream.new }
    ensures put { PutsFront result out.old out.new }
{
    let held = stream.held as usize;
    stream.held = 0;
    seal_last(&mut stream.writer, &stream.chunk[..held], out)
}

/// Ends the plaintext: seals the rest as the last chunk to `out`, which has room for its block.
#[unsafe(no_mangle)]
pub extern "C" fn age_c_finish_text(
    stream: &mut WriteStream,
    out: &mut [u8],
    written: &mut usize,
) -> u32
    ensures { Answers (IsLastTextCall stream.old out.old)
        (WritesOrRefuses (FinishesText stream.old) (λ _. ⊥) stream.old)
        stream.old stream.new result written.new out.old out.new }
{
    *written = 0;
    if !can_take(stream) || out.len() < stream.held as usize + TAG_LEN {
        return MISUSED;
    }
    *written = seal_rest(stream, out);
    0
}
