//! An example of a sealer over a sink.

ghost use Rattle.std.specs.Prelude.{◌≡◌, OnOk};
ghost use Rattle.age_io.specs.Taken.{Appends};
ghost use Rattle.age_stream.specs.{chunk_bytes};
ghost use Rattle.age_chunk.specs.{payload, chunk_length};

use age_file::{FileFault, Sink, WriteFailure, write_all};
use age_stream::{BLOCK_LEN, ChunkBox, Sealer};

/// Returns the bytes that are lent, or none.
fn unwrap_chunk(chunk: Option<&[u8]>) -> &[u8]
    ensures { result.now ≡ chunk_bytes chunk.entry }
{
    match chunk {
        Some(block) => block,
        None => &[],
    }
}

/// Writes all of some bytes to a sink.
fn put<O: Sink>(sink: &mut O, bytes: &[u8]) -> Result<(), WriteFailure>
    ensures { OnOk result (Appends (O.view sink.old).taken (O.view sink.new).taken bytes.now) }
{
    let mut written = 0;
    write_all(sink, bytes, &mut written)
}

/// Writes the payload of a text to a sink (<https://c2sp.org/age#payload>), block by block.
pub fn seal_to<B: ChunkBox, O: Sink>(key: &B, text: &[u8], sink: &mut O) -> Result<(), FileFault>
    ensures sealed { OnOk result (Appends (O.view sink.old).taken (O.view sink.new).taken
        (payload (B.sealing key.now) chunk_length text.now)) }
{
    let mut sealer = Sealer::<B, BLOCK_LEN>::new(key);
    let mut at = 0;
    while at < text.len() {
        let step = sealer.feed(&text[at..])?;
        put(sink, unwrap_chunk(step.chunk))?;
        at += step.taken;
    }
    put(sink, sealer.finish()?)?;
    Ok(())
}
