//! The C function that gives the length of a plaintext before it is read.

ghost use Rattle.std.specs.Prelude.{◌≡◌, ◌-◌, ◌+◌};
ghost use Rattle.age_stream.specs.{chunks_for};
ghost use Rattle.age_c.specs.{Measures, length_fault};

use crate::reader::Reader;
use age_chunk::{BLOCK_LEN, CHUNK_LEN, StreamKind, TAG_LEN};
use age_stream::plaintext_len;

/// The length of a chunk.
const CHUNK: u64 = CHUNK_LEN as u64;

/// The length of a block.
const BLOCK: u64 = BLOCK_LEN as u64;

/// The length of a tag.
const TAG: u64 = TAG_LEN as u64;

/// Returns the number of the last chunk of a plaintext of `text_len` bytes.
fn find_last_chunk(text_len: u64) -> u64
    ensures { result + 1 ≡ chunks_for text_len }
{
    text_len.saturating_sub(1) / CHUNK
}

/// Returns the fault of a payload of `size` bytes, a length that no payload has.
fn length_fault(size: u64) -> StreamKind
    ensures { result ≡ length_fault size }
{
    let rest = size % BLOCK;
    if rest == 0 {
        return StreamKind::Truncated;
    }
    if rest == TAG {
        return StreamKind::EmptyLast;
    }
    StreamKind::ChunkCut
}

/// Computes the length in bytes of the plaintext of a file of `file_len` bytes, and the number of
/// its last chunk, if the file is complete. Returns 0, or the number of the fault with which a file
/// of this length ends, 18 to 20. Opens nothing. The payload begins at the reader's `payload_at`.
#[unsafe(no_mangle)]
pub extern "C" fn age_c_size(
    reader: &Reader,
    file_len: u64,
    text_len: &mut u64,
    last_chunk: &mut u64,
) -> u32
    ensures { Measures (file_len - reader.now.payload_at) result text_len.new last_chunk.new }
{
    let size = file_len.saturating_sub(reader.payload_at);
    *text_len = 0;
    *last_chunk = 0;
    let Some(len) = plaintext_len(size as u128) else {
        return u32::from(length_fault(size).number());
    };
    *text_len = len as u64;
    *last_chunk = find_last_chunk(len as u64);
    0
}
