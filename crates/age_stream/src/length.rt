//! The length of a plaintext, from the length of its payload.
ghost use Rattle.std.specs.Prelude.{◌<◌, ◌^◌};
ghost use Rattle.age_stream.specs.{IsTextLengthOf};

use age_chunk::{BLOCK_LEN, CHUNK_LIMIT, TAG_LEN};

/// The length of a tag.
const TAG: u128 = TAG_LEN as u128;

/// The length of a full block.
const BLOCK: u128 = BLOCK_LEN as u128;

/// Returns the length in bytes of the plaintext whose payload has `size` bytes, in chunks of
/// [`CHUNK_LEN`](crate::CHUNK_LEN), or `None` if no payload has that length. Requires a size below
/// 2^127.
pub fn plaintext_len(size: u128) -> Option<u128>
    requires { size < 2 ^ 127 }
    ensures { IsTextLengthOf size result }
{
    if size < TAG {
        return None;
    }
    if size == TAG {
        return Some(0);
    }
    let chunks = size.div_ceil(BLOCK);
    if chunks > CHUNK_LIMIT as u128 || size <= (chunks - 1) * BLOCK + TAG {
        return None;
    }
    Some(size - TAG * chunks)
}
