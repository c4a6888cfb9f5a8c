//! The copy of an earlier output, chunk by chunk, with the hash chain over it.

ghost use Rattle.std.specs.Prelude.{◌≡◌, ◌<◌, []};
ghost use Rattle.age_file_position.specs.declared.position.PositionPolicy.TheVariants.{Kept};
ghost use Rattle.age_file_position.specs.{chain_if};
ghost use Rattle.age_file_input.specs.{view_of_reader, SameReader};
ghost use Rattle.age_file_position.specs.inner.{view_of_writer, SameWriter};
ghost use Rattle.age_file_decrypt.specs.inner.{CanCopy, CopiesChunk, CopiesAll};
ghost use Rattle.age_chunk.specs.{chunk_length, chunk_limit};

use crate::start::need_bytes;
use age_fault::FileFault;
use age_file_input::Reader;
use age_file_position::Writer;
use age_io::{ByteTrace, Sink, Source, write_all};
use age_stream::CHUNK_LEN;
use sha2::Digest;

/// Copies a chunk of the earlier output, and counts it.
fn copy_chunk<S: Source, O: Sink>(
    reader: &mut Reader<'_, S>,
    writer: &mut Writer<'_, O>,
) -> Result<(), FileFault>
    requires { CanCopy writer.old.tally }
    ensures copied { CopiesChunk chunk_length (view_of_reader S.view reader.old)
        (view_of_reader S.view reader.new) (view_of_writer O.view writer.old)
        (view_of_writer O.view writer.new) result }
    ensures same_reader { SameReader S.view reader.old reader.new }
    ensures same_writer { SameWriter writer.old writer.new }
{
    let mut digest = writer.tally.digest();
    let mut chunk = ByteTrace::new();
    let mut left = CHUNK_LEN;
    'parts: while left > 0 {
        need_bytes(reader, FileFault::ShortText)?;
        let n = left.min(reader.intake.bytes().len());
        let piece = &reader.intake.bytes()[..n];
        write_all(writer.sink, piece, &mut writer.tally.written)?;
        digest.update(piece);
        chunk.note(piece);
        reader.intake.use_front(n);
        left -= n;
    }
    writer.tally.count_fed(digest, &chunk);
    Ok(())
}

/// Copies the first `chunks` chunks of an earlier output.
pub(crate) fn copy_chunks<S: Source, O: Sink>(
    reader: &mut Reader<'_, S>,
    chunks: u64,
    writer: &mut Writer<'_, O>,
) -> Result<(), FileFault>
    requires limit { chunks < chunk_limit }
    requires fresh { (writer.old.tally.written ≡ 0) × (writer.old.tally.index ≡ 0)
        × (writer.old.tally.chain ≡ chain_if Kept []) }
    ensures copied { CopiesAll chunk_length chunks (view_of_reader S.view reader.old)
        (view_of_reader S.view reader.new) (view_of_writer O.view writer.old)
        (view_of_writer O.view writer.new) result }
    ensures same_reader { SameReader S.view reader.old reader.new }
    ensures same_writer { SameWriter writer.old writer.new }
{
    for _copied in 0..chunks {
        copy_chunk(reader, writer)?;
    }
    Ok(())
}
