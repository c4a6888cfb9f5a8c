//! The sealing of a source's bytes into the blocks of a payload.

ghost use Rattle.std.specs.Prelude.{◌≡◌, ◌^◌, ◌≤◌, [], length, OnOk, true};
ghost use Rattle.age_keys.specs.inner.{seals};
ghost use Rattle.age_file_encrypt.specs.inner.{ports_of, HasRoom, SealsPiece, SealsRest};
ghost use Rattle.age_file_encrypt.specs.inner.{SealsSource};
ghost use Rattle.age_file_position.specs.inner.{view_of_writer, SameWriter};
ghost use Rattle.age_file_input.specs.{SameReader};
ghost use Rattle.age_chunk.specs.{chunk_length};

use crate::encryption::Written;
use age_fault::FileFault;
use age_file_input::Reader;
use age_file_position::Writer;
use age_io::{Sink, Source, flush_all, write_all};
use age_keys::PayloadKey;
use age_stream::{BLOCK_LEN, Sealer};

/// The sealer of an age file's payload.
type PayloadSealer<'a> = Sealer<'a, PayloadKey, BLOCK_LEN>;

/// Feeds all of a piece, and writes the blocks that are sealed.
fn seal_piece<O: Sink>(
    sealer: &mut PayloadSealer<'_>,
    piece: &[u8],
    writer: &mut Writer<'_, O>,
) -> Result<(), FileFault>
    requires { HasRoom seals chunk_length sealer.old (view_of_writer O.view writer.old)
        (length piece.now) }
    ensures sealed { SealsPiece seals chunk_length sealer.old sealer.new
        (view_of_writer O.view writer.old) (view_of_writer O.view writer.new) piece.now result }
    ensures same_writer { SameWriter writer.old writer.new }
{
    let mut at = 0;
    while at < piece.len() {
        let step = sealer.feed(&piece[at..])?;
        let taken = step.taken;
        let block = step.chunk.unwrap_or(&[]);
        write_all(writer.sink, block, &mut writer.tally.written)?;
        at += taken;
    }
    Ok(())
}

/// Seals the last chunk, writes its block, and flushes.
fn finish<O: Sink>(
    sealer: &mut PayloadSealer<'_>,
    writer: &mut Writer<'_, O>,
) -> Result<(), FileFault>
    requires sealed { HasRoom seals chunk_length sealer.old (view_of_writer O.view writer.old) 0 }
    requires room { writer.old.tally.written ≤ 2 ^ 127 }
    ensures sealed { SealsRest seals chunk_length sealer.old (view_of_writer O.view writer.old)
        (view_of_writer O.view writer.new) result }
    ensures flushed { OnOk result ((O.view writer.new.sink.now).flushed ≡ true) }
    ensures same_writer { SameWriter writer.old writer.new }
{
    let block = sealer.finish()?;
    write_all(writer.sink, block, &mut writer.tally.written)?;
    Ok(flush_all(writer.sink)?)
}

/// Seals all that a source gives, writes the payload, and flushes. Returns the number of bytes that
/// the source gave, and the number written, with those before.
pub(crate) fn seal_all<S: Source, O: Sink>(
    key: &PayloadKey,
    reader: &mut Reader<'_, S>,
    writer: &mut Writer<'_, O>,
) -> Result<Written, FileFault>
    requires unread { (reader.old.intake.now.bytes ≡ []) × (reader.old.intake.now.pulls ≡ 0) }
    requires room { writer.old.tally.written ≤ 2 ^ 126 }
    ensures sealed { SealsSource (seals key.now) chunk_length
        (ports_of S.view O.view reader.old writer.old)
        (ports_of S.view O.view reader.new writer.new) writer.old.tally.written
        writer.new.tally.written result }
    ensures same_reader { SameReader S.view reader.old reader.new }
    ensures same_writer { SameWriter writer.old writer.new }
{
    let mut sealer = PayloadSealer::new(key);
    let mut plain = 0;
    'pulls: while reader.intake.refill(reader.source)? {
        seal_piece(&mut sealer, reader.intake.bytes(), writer)?;
        plain += reader.intake.bytes().len() as u128;
        reader.intake.use_all();
    }
    finish(&mut sealer, writer)?;
    Ok(Written {
        plain,
        file: writer.tally.written,
    })
}
