//! The opening of a payload's blocks.

ghost use Rattle.std.specs.Prelude.{◌≡◌, ◌≢◌, ◌+◌, ◌<◌, ◌≤◌, [], length, min, take, drop, IfSome, IfNone};
ghost use Rattle.std.specs.Prelude.{Some, false};
ghost use Rattle.age_stream.specs.{with_piece, with_end, chunk_bytes, has_failed};
ghost use Rattle.age_c.specs.{PutsFront, answer_of, reader_status, TakesBlock};
ghost use Rattle.age_c.specs.inner.{IsBlockCall};
ghost use Rattle.age_c.specs.{TakesEnd, after_block, CanBeUsed};
ghost use Rattle.age_c.specs.inner.{IsRestCall, Keeps, PassesOn, key_of_reader};
ghost use Rattle.age_chunk.specs.{chunk_length, block_length, tag_length};

use crate::numbers::{decode_status, encode_status};
use crate::reader::Reader;
use age_chunk::{BLOCK_LEN, CHUNK_LIMIT};
use age_keys::{FileKey, PayloadKey, payload_key};
use age_stream::{Opener, Status};

/// The opener of an age file's payload.
type PayloadOpener<'a> = Opener<'a, PayloadKey, BLOCK_LEN>;

/// Returns the status of a reader, or `None` if its numbers aren't those of any reader.
pub(crate) fn status_at(reader: &Reader) -> Option<Status>
    ensures status { IfSome result
        (λ status. reader_status reader.now.state reader.now.fault_chunk ≡ Some status) }
    ensures usable { IfSome result (λ _. CanBeUsed reader.now) }
    ensures none { IfNone result (¬ CanBeUsed reader.now) }
{
    if reader.chunk >= CHUNK_LIMIT {
        return None;
    }
    decode_status(reader.state, reader.fault_chunk)
}

/// Derives the payload key of a reader.
fn load_reader_key(reader: &Reader) -> PayloadKey
    ensures { result ≡ key_of_reader reader.now }
{
    payload_key(&FileKey::new(reader.file_key), &reader.nonce)
}

/// Copies bytes to the beginning of `out`, and returns their number.
pub(crate) fn put(bytes: &[u8], out: &mut [u8]) -> usize
    requires { length bytes.now ≤ length out.old }
    ensures bytes { take result out.new ≡ bytes.now }
    ensures after { drop result out.new ≡ drop result out.old }
    ensures most { result ≤ length out.new }
    ensures len { result ≡ length bytes.now }
{
    out[..bytes.len()].copy_from_slice(bytes);
    bytes.len()
}

/// Copies a plaintext, if one is lent, to the beginning of `out`, and returns its length.
fn put_chunk(chunk: Option<&[u8]>, out: &mut [u8]) -> usize
    requires { length (chunk_bytes chunk) ≤ length out.old }
    ensures text { take result out.new ≡ chunk_bytes chunk.entry }
    ensures after { drop result out.new ≡ drop result out.old }
    ensures most { result ≤ length out.new }
    ensures len { result ≡ length (chunk_bytes chunk.entry) }
{
    match chunk {
        Some(text) => put(text, out),
        None => 0,
    }
}

/// Stores the state of an opener in the reader.
fn keep(reader: &mut Reader, index: u64, status: Status)
    ensures { Keeps index status reader.old reader.new }
{
    let (state, fault_chunk) = encode_status(status);
    reader.chunk = index;
    reader.state = state;
    reader.fault_chunk = fault_chunk;
}

/// Feeds a full block, and copies its plaintext to `out`. Returns the number of bytes copied.
fn feed_block(opener: &mut PayloadOpener<'_>, block: &[u8], out: &mut [u8]) -> usize
    requires held { opener.old.held ≡ [] }
    requires block { length block.now ≡ block_length }
    requires room { chunk_length ≤ length out.old }
    ensures passes { PassesOn (λ s. with_piece s block.now) opener.old opener.new
        (take result out.new) }
    ensures put { PutsFront result out.old out.new }
    ensures len { result ≤ chunk_length }
{
    match opener.feed(block) {
        Ok(step) => put_chunk(step.chunk, out),
        Err(_) => 0,
    }
}

/// Feeds the bytes after the last full block, which are fewer than a block, so that no plaintext
/// comes.
fn feed_rest(opener: &mut PayloadOpener<'_>, rest: &[u8])
    requires held { opener.old.held ≡ [] }
    requires rest { length rest.now < block_length }
    ensures passes { PassesOn (λ s. with_piece s rest.now) opener.old opener.new [] }
    ensures room { has_failed opener.new.status ≡ false
        → length opener.new.held ≤ length rest.now }
{
    match opener.feed(rest) {
        Ok(_) => {}
        Err(_) => {}
    }
}

/// Ends the opener, and copies the last plaintext to `out`. Returns the number of bytes copied.
fn finish_opener(opener: &mut PayloadOpener<'_>, out: &mut [u8]) -> usize
    requires room { has_failed opener.old.status ≡ false
        → length opener.old.held ≤ length out.old + tag_length }
    ensures passes { PassesOn with_end opener.old opener.new (take result out.new) }
    ensures closed { opener.new.status ≢ Status.Open }
    ensures done { has_failed opener.new.status ≡ false → opener.new.status ≡ Status.Done }
    ensures put { PutsFront result out.old out.new }
{
    match opener.end() {
        Ok(text) => put(text, out),
        Err(_) => 0,
    }
}

/// Feeds one byte of the piece to a reader that takes no more, which then fails. Returns the number
/// of bytes fed: 1, or 0 if the piece is empty.
// not inlined: together with another opener, its buffer would double what a call takes of the stack
#[inline(never)]
pub(crate) fn refuse_more(reader: &mut Reader, status: Status, piece: &[u8]) -> usize
    requires usable { CanBeUsed reader.old }
    requires status { reader_status reader.old.state reader.old.fault_chunk ≡ Some status }
    requires shut { status ≢ Status.Open }
    ensures takes { TakesBlock (λ s. with_piece s (take result piece.now)) reader.old
        (answer_of reader.new.state) [] reader.new }
    ensures count { result ≡ min (length piece.now) 1 }
    ensures usable { CanBeUsed reader.new }
{
    let count = piece.len().min(1);
    let key = load_reader_key(reader);
    let mut opener = PayloadOpener::between(&key, reader.chunk, status);
    feed_rest(&mut opener, &piece[..count]);
    keep(reader, opener.index(), opener.status());
    count
}

/// Opens a full block, and copies its plaintext to `out`. Returns the number of bytes copied.
pub(crate) fn open_block(reader: &mut Reader, status: Status, block: &[u8], out: &mut [u8]) -> usize
    requires call { IsBlockCall reader.old block.now out.old }
    requires status { reader_status reader.old.state reader.old.fault_chunk ≡ Some status }
    ensures takes { TakesBlock (after_block block.now) reader.old (answer_of reader.new.state)
        (take result out.new) reader.new }
    ensures put { PutsFront result out.old out.new }
    ensures usable { CanBeUsed reader.new }
    ensures len { result ≤ chunk_length }
{
    let key = load_reader_key(reader);
    let mut opener = PayloadOpener::between(&key, reader.chunk, status);
    let written = feed_block(&mut opener, block, out);
    keep(reader, opener.index(), opener.status());
    written
}

/// Opens the bytes after the last full block, at the end of the payload, and copies the plaintext
/// to `out`. Returns the number of bytes copied.
pub(crate) fn open_last(reader: &mut Reader, status: Status, rest: &[u8], out: &mut [u8]) -> usize
    requires call { IsRestCall reader.old rest.now out.old }
    requires status { reader_status reader.old.state reader.old.fault_chunk ≡ Some status }
    ensures takes { TakesEnd rest.now reader.old (answer_of reader.new.state)
        (take result out.new) reader.new }
    ensures put { PutsFront result out.old out.new }
{
    let key = load_reader_key(reader);
    let mut opener = PayloadOpener::between(&key, reader.chunk, status);
    feed_rest(&mut opener, rest);
    let written = finish_opener(&mut opener, out);
    keep(reader, opener.index(), opener.status());
    written
}
