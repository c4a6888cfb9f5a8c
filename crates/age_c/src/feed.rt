//! The reading of a payload in pieces of any length.

ghost use Rattle.std.specs.Prelude.{◌≡◌, ◌≢◌, ◌<◌, ◌≤◌, IfNone, IfSome, Some, length, take};
ghost use Rattle.age_chunk.specs.{block_length};
ghost use Rattle.age_c.specs.{Answers, PutsFront, answer_of, misused, reader_status, CanBeUsed, FeedsStream};
ghost use Rattle.age_c.specs.{FinishesStream, IsFinishCall};
ghost use Rattle.age_c.specs.inner.{IsStreamCall, KeepsRoom};
ghost use Rattle.age_c.specs.inner.{HoldsPiece};

use crate::MISUSED;
use crate::blocks::{open_block, open_last, refuse_more, status_at};
use crate::numbers::encode_answer;
use crate::stream::Stream;
use age_chunk::{BLOCK_LEN, CHUNK_LEN, TAG_LEN};
use age_stream::Status;

/// Appends as many bytes of `piece` as fit to the open block, and returns their number.
fn hold(stream: &mut Stream, piece: &[u8]) -> usize
    requires { stream.old.held < block_length }
    ensures { HoldsPiece piece.now result stream.old stream.new }
{
    let held = stream.held as usize;
    let count = piece.len().min(BLOCK_LEN - held);
    stream.block[held..held + count].copy_from_slice(&piece[..count]);
    count
}

/// Appends bytes to the open block, and opens it if it is full. Returns the number of bytes taken,
/// and the number of bytes of plaintext copied to `out`.
fn feed_open(stream: &mut Stream, piece: &[u8], out: &mut [u8]) -> (usize, usize)
    requires call { IsStreamCall stream.old piece.now out.old }
    requires open { reader_status stream.old.reader.state stream.old.reader.fault_chunk
        ≡ Some Status.Open }
    ensures feeds { FeedsStream piece.now stream.old (answer_of stream.new.reader.state) result.0
        (take result.1 out.new) stream.new }
    ensures room { KeepsRoom piece.now stream.old result.0 result.1 stream.new }
    ensures put { PutsFront result.1 out.old out.new }
{
    let taken = hold(stream, piece);
    let held = stream.held as usize + taken;
    if held < BLOCK_LEN {
        stream.held = held as u32;
        return (taken, 0);
    }
    stream.held = 0;
    let written = open_block(&mut stream.reader, Status::Open, &stream.block, out);
    (taken, written)
}

/// Opens the full block at the beginning of a piece in place, while the stream's buffer is empty.
/// Returns its length, and the number of bytes of plaintext copied to `out`.
fn feed_whole(stream: &mut Stream, piece: &[u8], out: &mut [u8]) -> (usize, usize)
    requires call { IsStreamCall stream.old piece.now out.old }
    requires open { reader_status stream.old.reader.state stream.old.reader.fault_chunk
        ≡ Some Status.Open }
    requires empty { stream.old.held ≡ 0 }
    requires whole { block_length ≤ length piece.now }
    ensures feeds { FeedsStream piece.now stream.old (answer_of stream.new.reader.state) result.0
        (take result.1 out.new) stream.new }
    ensures room { KeepsRoom piece.now stream.old result.0 result.1 stream.new }
    ensures put { PutsFront result.1 out.old out.new }
{
    let block = &piece[..BLOCK_LEN];
    let written = open_block(&mut stream.reader, Status::Open, block, out);
    (BLOCK_LEN, written)
}

/// Takes bytes of a piece, by the status of the reader. Returns the number taken, and the number of
/// bytes of plaintext copied to `out`.
fn feed(stream: &mut Stream, status: Status, piece: &[u8], out: &mut [u8]) -> (usize, usize)
    requires call { IsStreamCall stream.old piece.now out.old }
    requires status { reader_status stream.old.reader.state stream.old.reader.fault_chunk
        ≡ Some status }
    ensures feeds { FeedsStream piece.now stream.old (answer_of stream.new.reader.state) result.0
        (take result.1 out.new) stream.new }
    ensures room { KeepsRoom piece.now stream.old result.0 result.1 stream.new }
    ensures put { PutsFront result.1 out.old out.new }
{
    match status {
        Status::Open if stream.held == 0 && piece.len() >= BLOCK_LEN => {
            feed_whole(stream, piece, out)
        }
        Status::Open => feed_open(stream, piece, out),
        _ => {
            stream.held = 0;
            (refuse_more(&mut stream.reader, status, piece), 0)
        }
    }
}

/// Ends the payload, and returns the number of bytes of plaintext copied to `out`.
fn finish(stream: &mut Stream, status: Status, out: &mut [u8]) -> usize
    requires call { IsFinishCall stream.old out.old }
    requires status { reader_status stream.old.reader.state stream.old.reader.fault_chunk
        ≡ Some status }
    ensures finishes { FinishesStream stream.old (answer_of stream.new.reader.state)
        (take result out.new) stream.new }
    ensures put { PutsFront result out.old out.new }
{
    let held = stream.held as usize;
    stream.held = 0;
    open_last(&mut stream.reader, status, &stream.block[..held], out)
}

/// Returns the status of a stream, or `None` if its numbers aren't those of any stream.
fn stream_status(stream: &Stream) -> Option<Status>
    ensures status { IfSome result (λ status.
        reader_status stream.now.reader.state stream.now.reader.fault_chunk ≡ Some status) }
    ensures usable { IfSome result
        (λ _. (CanBeUsed stream.now.reader) × (stream.now.held < block_length)) }
    ensures none { IfNone result (CanBeUsed stream.now.reader → stream.now.held < block_length
        → ⊥) }
{
    if stream.held as usize >= BLOCK_LEN {
        return None;
    }
    status_at(&stream.reader)
}

/// Takes bytes of the payload from the front of `piece`, up to the end of the block that is open,
/// and copies the plaintext of a block that is full to `out`, which has room for 65,536 bytes or
/// more if one is. Returns 0 or the number of a fault, 17 to 22, with which the reader refuses each
/// further call that gives it bytes or an end.
pub(crate) fn feed_stream(
    stream: &mut Stream,
    piece: &[u8],
    taken: &mut usize,
    out: &mut [u8],
    written: &mut usize,
) -> u32
    ensures answers { Answers (IsStreamCall stream.old piece.now out.old)
        (λ answer text new. FeedsStream piece.now stream.old answer taken.new text new)
        stream.old stream.new result written.new out.old out.new }
    ensures none { result ≡ misused → taken.new ≡ 0 }
    ensures room { result ≢ misused
        → KeepsRoom piece.now stream.old taken.new written.new stream.new }
{
    *taken = 0;
    *written = 0;
    let Some(status) = stream_status(stream) else {
        return MISUSED;
    };
    if piece.len() >= BLOCK_LEN - stream.held as usize && out.len() < CHUNK_LEN {
        return MISUSED;
    }
    (*taken, *written) = feed(stream, status, piece, out);
    encode_answer(stream.reader.state)
}

/// Ends the payload, and copies the rest of its plaintext to `out`, which has room for it: 65,536
/// bytes are always enough. The plaintext is complete only if the result is 0.
pub(crate) fn finish_stream(stream: &mut Stream, out: &mut [u8], written: &mut usize) -> u32
    ensures { Answers (IsFinishCall stream.old out.old) (FinishesStream stream.old)
        stream.old stream.new result written.new out.old out.new }
{
    *written = 0;
    let Some(status) = stream_status(stream) else {
        return MISUSED;
    };
    if stream.held as usize > out.len() + TAG_LEN {
        return MISUSED;
    }
    *written = finish(stream, status, out);
    encode_answer(stream.reader.state)
}
