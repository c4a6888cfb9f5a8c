//! The decryption of a payload: each chunk is written once its tag has been checked.

ghost use Rattle.std.specs.Prelude.{◌≡◌, ◌+◌, ◌^◌, ◌<◌, length, OnOk, true, false};
ghost use Rattle.age_stream.specs.{has_failed};
ghost use Rattle.age_keys.specs.inner.{opens};
ghost use Rattle.age_file_decrypt.specs.inner.{FeedsPiece, FeedGoes, EndsFeed, HasPlace};
ghost use Rattle.age_file_decrypt.specs.inner.{DecryptsPayload, stage_of};
ghost use Rattle.age_file_position.specs.inner.{view_of_writer, SameWriter};
ghost use Rattle.age_file_input.specs.{SameReader};
ghost use Rattle.age_chunk.specs.{chunk_length, chunk_limit};

use age_fault::FileFault;
use age_file_input::Reader;
use age_file_position::Writer;
use age_io::{Sink, Source, flush_all, write_all};
use age_keys::PayloadKey;
use age_stream::{BLOCK_LEN, Opener};

/// The opener of an age file's payload.
type PayloadOpener<'a> = Opener<'a, PayloadKey, BLOCK_LEN>;

/// Feeds all of a piece, and writes the chunks that are opened.
fn feed_piece<O: Sink>(
    opener: &mut PayloadOpener<'_>,
    piece: &[u8],
    writer: &mut Writer<'_, O>,
) -> Result<(), FileFault>
    requires sound { has_failed opener.old.status ≡ false }
    requires small { length opener.old.held + writer.old.tally.written + length piece.now
        < 2 ^ 128 }
    ensures fed { FeedsPiece opens chunk_length opener.old opener.new
        (view_of_writer O.view writer.old) (view_of_writer O.view writer.new) piece.now result }
    ensures goes { OnOk result (FeedGoes opens chunk_length opener.old opener.new
        (view_of_writer O.view writer.old) (view_of_writer O.view writer.new) piece.now) }
    ensures same { SameWriter writer.old writer.new }
{
    let mut at = 0;
    while at < piece.len() {
        let step = opener.feed(&piece[at..])?;
        let taken = step.taken;
        let index = step.index;
        let chunk = step.chunk.unwrap_or(&[]);
        write_all(writer.sink, chunk, &mut writer.tally.written)?;
        writer.tally.count(index, chunk);
        at += taken;
    }
    Ok(())
}

/// Ends the opener, writes the last chunk, and flushes.
fn finish<O: Sink>(
    opener: &mut PayloadOpener<'_>,
    writer: &mut Writer<'_, O>,
) -> Result<(), FileFault>
    requires { length opener.old.held + writer.old.tally.written < 2 ^ 128 }
    ensures ends { EndsFeed opens chunk_length opener.old opener.new
        (view_of_writer O.view writer.old) (view_of_writer O.view writer.new) result }
    ensures flushed { OnOk result ((O.view writer.new.sink.now).flushed ≡ true) }
    ensures same { SameWriter writer.old writer.new }
{
    let text = opener.end()?;
    write_all(writer.sink, text, &mut writer.tally.written)?;
    Ok(flush_all(writer.sink)?)
}

/// Opens all that a source gives, from chunk `index` on, and writes each chunk once its tag has
/// been checked.
pub(crate) fn decrypt_payload<S: Source, O: Sink>(
    key: &PayloadKey,
    index: u64,
    reader: &mut Reader<'_, S>,
    writer: &mut Writer<'_, O>,
) -> Result<(), FileFault>
    requires limit { index < chunk_limit }
    requires room { HasPlace (stage_of S.view O.view reader.old writer.old) }
    requires goes_on { (S.view reader.old.source.now).supply.is_at_end ≡ false }
    ensures decrypts { DecryptsPayload (opens key.now) chunk_length index
        (stage_of S.view O.view reader.old writer.old)
        (stage_of S.view O.view reader.new writer.new) result }
    ensures same_reader { SameReader S.view reader.old reader.new }
    ensures same_writer { SameWriter writer.old writer.new }
{
    let mut opener = PayloadOpener::at(key, index);
    'turns: loop {
        feed_piece(&mut opener, reader.intake.bytes(), writer)?;
        reader.intake.use_all();
        if !reader.intake.refill(reader.source)? {
            break;
        }
    }
    finish(&mut opener, writer)
}
