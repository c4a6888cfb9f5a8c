//! The C function that opens a chunk at its place.

ghost use Rattle.std.specs.Prelude.{take};
ghost use Rattle.age_c.specs.{Answers, PutsFront, answer_of, IsOpenAtCall, OpensAt};

use crate::MISUSED;
use crate::blocks::{open_block, open_last, status_at};
use crate::numbers::encode_answer;
use crate::reader::Reader;
use crate::seek::go_to;
use age_chunk::{BLOCK_LEN, CHUNK_LEN, CHUNK_LIMIT};
use age_stream::Status;

/// Goes to a chunk, and opens its block, or the shorter rest at the end. Returns the number of
/// bytes of plaintext copied to `out`.
fn open_there(reader: &mut Reader, chunk: u64, block: &[u8], out: &mut [u8]) -> usize
    requires { IsOpenAtCall reader.old chunk block.now out.old }
    ensures opens { OpensAt chunk block.now reader.old (answer_of reader.new.state)
        (take result out.new) reader.new }
    ensures put { PutsFront result out.old out.new }
{
    go_to(reader, chunk);
    if block.len() == BLOCK_LEN {
        open_block(reader, Status::Open, block, out)
    } else {
        open_last(reader, Status::Open, block, out)
    }
}

/// Opens the block of chunk `chunk`, a number below 2^48, and copies its plaintext to `out`, which
/// has room for 65,536 bytes or more. The block has 65,552 bytes, or fewer if the file ends after
/// them. Forgets a fault or an end that came before.
#[unsafe(no_mangle)]
pub extern "C" fn age_c_open_at(
    reader: &mut Reader,
    chunk: u64,
    block: &[u8],
    out: &mut [u8],
    written: &mut usize,
) -> u32
    ensures { Answers (IsOpenAtCall reader.old chunk block.now out.old)
        (OpensAt chunk block.now reader.old) reader.old reader.new result written.new out.old out.new }
{
    *written = 0;
    if status_at(reader).is_none() || chunk >= CHUNK_LIMIT {
        return MISUSED;
    }
    if block.len() > BLOCK_LEN || out.len() < CHUNK_LEN {
        return MISUSED;
    }
    *written = open_there(reader, chunk, block, out);
    encode_answer(reader.state)
}
