//! The continuation of a decryption that stopped.

ghost use Rattle.std.specs.Prelude.{◌≡◌, ◌<◌, [], IfOk, IfErr, false};
ghost use Rattle.age_chunk.specs.{chunk_limit};
ghost use Rattle.age_file_decrypt.specs.inner.{VerdictOn, StartsFor, StartForFails, HasRoomAfter};
ghost use Rattle.age_file_decrypt.specs.inner.{ResumesRest, stage_of, CopiesOld};
ghost use Rattle.age_file_input.specs.{view_of_reader, SameReader, ports};
ghost use Rattle.age_file_position.specs.inner.{view_of_writer, SameWriter};
ghost use Rattle.age_file_position.specs.{chain_if};
ghost use Rattle.age_file_decrypt.specs.Decrypts.{Decrypts, DecryptsMarked};
ghost use Rattle.age_file_decrypt.specs.Resumes.{from_position, resumption};
ghost use Rattle.age_file_position.specs.declared.position.PositionPolicy.TheVariants.{Kept};

use crate::checkpoints::Checkpoints;
use crate::copy::copy_chunks;
use crate::decryption::{Done, Stopped, open_payload};
use crate::start::{BorrowedUnlock, Unlocked, skip_blocks, start};
use age_fault::FileFault;
use age_file_input::{InputBuffer, Reader};
use age_file_position::{Position, PositionPolicy, RunProgress, Writer, compute_tag};
use age_io::{Sink, Source};
use age_keys::{Unlock, position_key};
use std::alloc::Global;

/// Checks that a position is for this file, and was made under its key.
fn verify_position(unlocked: &Unlocked, position: &Position) -> Result<(), FileFault>
    ensures { VerdictOn position.now unlocked.now.id unlocked.now.key unlocked.now.nonce result }
{
    if position.file_id != unlocked.id {
        return Err(FileFault::OtherFile);
    }
    let key = position_key(&unlocked.key, &unlocked.nonce);
    let tag = compute_tag(&key, position.index, &position.file_id, &position.chain);
    if position.tag != tag {
        return Err(FileFault::PositionForged);
    }
    Ok(())
}

/// Reads a file up to its payload, drops the unlocker, and refuses a position that isn't for this
/// file.
fn start_for<U: Unlock + Drop, S: Source>(
    alloc: Global,
    unlock: U,
    position: &Position,
    reader: &mut Reader<'_, S>,
) -> Result<Unlocked, FileFault>
    requires { (reader.old.intake.now.bytes ≡ []) × (reader.old.intake.now.pulls ≡ 0) }
    ensures found { IfOk result (StartsFor (U.allows unlock) position.now
        (S.view reader.old.source.now) (view_of_reader S.view reader.new)) }
    ensures fails { IfErr result (StartForFails (U.allows unlock) (U.refuses unlock)
        position.now (S.view reader.old.source.now) (view_of_reader S.view reader.new)) }
    ensures same { SameReader S.view reader.old reader.new }
{
    let unlocked = start(alloc, unlock, reader)?;
    verify_position(&unlocked, position)?;
    Ok(unlocked)
}

/// Copies the earlier output that a position was made for, and checks its hash chain. The pulls of
/// it and of the file count together.
fn copy_old<L: Source, O: Sink>(
    positions: PositionPolicy,
    position: &Position,
    source: &mut L,
    mut old_intake: InputBuffer,
    intake: &mut InputBuffer,
    writer: &mut Writer<'_, O>,
) -> Result<(), FileFault>
    requires unread { old_intake.bytes ≡ [] }
    requires fresh { (writer.old.tally.written ≡ 0) × (writer.old.tally.index ≡ 0)
        × (writer.old.tally.chain ≡ chain_if Kept []) }
    ensures copied { CopiesOld positions position.now (L.view source.old) (L.view source.new)
        intake.old intake.new (view_of_writer O.view writer.old) (view_of_writer O.view writer.new)
        result }
    ensures named { (L.view source.new).label ≡ (L.view source.old).label }
    ensures same_writer { SameWriter writer.old writer.new }
{
    old_intake.count_on(intake);
    let mut reader = Reader {
        source,
        intake: &mut old_intake,
    };
    copy_chunks(&mut reader, position.index, writer)?;
    intake.count_on(reader.intake);
    if writer.tally.chain_now() != Some(position.chain) {
        return Err(FileFault::OldTextDiffers);
    }
    writer.tally.keep(positions);
    Ok(())
}

/// Skips the blocks before chunk `index`, and decrypts the payload from there on.
fn resume_rest<S: Source, O: Sink>(
    unlocked: &Unlocked,
    index: u64,
    reader: &mut Reader<'_, S>,
    writer: &mut Writer<'_, O>,
) -> Result<Result<Done, Stopped>, FileFault>
    requires limit { index < chunk_limit }
    requires room { HasRoomAfter index (stage_of S.view O.view reader.old writer.old) }
    requires goes_on { (S.view reader.old.source.now).supply.is_at_end ≡ false }
    ensures resumes { ResumesRest unlocked.now index
        (stage_of S.view O.view reader.old writer.old)
        (stage_of S.view O.view reader.new writer.new) result }
    ensures same_reader { SameReader S.view reader.old reader.new }
    ensures same_writer { SameWriter writer.old writer.new }
{
    skip_blocks(reader, index)?;
    Ok(open_payload(unlocked, index, reader, writer))
}

/// Continues a decryption that stopped: opens the file's header, copies the earlier output up to
/// the position, skips the blocks of that plaintext, and writes each later chunk once the tag of
/// its block has been checked. In the end it has written the complete plaintext, not only its rest.
///
/// Up to the payload nonce it stops as [`decrypt`](crate::decrypt) does. Then it stops with
/// `OtherFile` (24) if the position belongs to another file, and with `PositionForged` (30) if its
/// tag wasn't made under the file's key; nothing was written. `ShortText` (25) means that the
/// earlier output ended before the position, and `OldTextDiffers` (31) that its chunks aren't those
/// that the position was made for; what was copied remains. `Truncated` (20), with its chunk, means
/// that the source ends in the blocks that are skipped. Otherwise it stops as `decrypt` does.
///
/// A stop returns a position once the earlier output was found to match `position`; in the blocks
/// that are skipped it is `position` itself. All memory is allocated before the payload nonce is
/// read.
pub fn resume<U: Unlock, S: Source, L: Source, O: Sink>(
    alloc: Global,
    unlock: &U,
    position: &Position,
    reader: &mut S,
    old_reader: &mut L,
    writer: &mut O,
) -> Result<Done, Stopped>
    ensures resumes { Decrypts Kept (U.allows unlock.now)
        (from_position (U.allows unlock.now) (U.refuses unlock.now) (resumption position.now
        (L.view old_reader.old) (L.view old_reader.new)))
        (ports (S.view reader.old) (O.view writer.old))
        (ports (S.view reader.new) (O.view writer.new)) result }
    ensures named { (S.view reader.new).label ≡ (S.view reader.old).label }
    ensures old_named { (L.view old_reader.new).label ≡ (L.view old_reader.old).label }
{
    let (keep, unlock) = (PositionPolicy::Kept, BorrowedUnlock { unlock });
    resume_marked(alloc, keep, unlock, position, reader, old_reader, writer).0
}

/// Resumes as [`resume`] does, and also returns the marks of the run, if it came to its payload and
/// positions are kept. The unlocker is dropped before the earlier output is copied.
pub fn resume_marked<U: Unlock + Drop, S: Source, L: Source, O: Sink>(
    alloc: Global,
    positions: PositionPolicy,
    unlock: U,
    position: &Position,
    reader: &mut S,
    old_reader: &mut L,
    writer: &mut O,
) -> (Result<Done, Stopped>, Option<Checkpoints>)
    ensures resumes { DecryptsMarked positions (U.allows unlock)
        (from_position (U.allows unlock) (U.refuses unlock) (resumption position.now
        (L.view old_reader.old) (L.view old_reader.new)))
        (ports (S.view reader.old) (O.view writer.old))
        (ports (S.view reader.new) (O.view writer.new)) result.0 result.1 }
    ensures named { (S.view reader.new).label ≡ (S.view reader.old).label }
    ensures old_named { (L.view old_reader.new).label ≡ (L.view old_reader.old).label }
{
    let (Ok(mut intake), Ok(old_intake)) = (InputBuffer::new(alloc), InputBuffer::new(alloc)) else {
        return (Err(Stopped::before_output(FileFault::Memory)), None);
    };
    let mut reader = Reader {
        source: reader,
        intake: &mut intake,
    };
    let unlocked = match start_for(alloc, unlock, position, &mut reader) {
        Ok(unlocked) => unlocked,
        Err(fault) => return (Err(Stopped::before_output(fault)), None),
    };
    let tally = RunProgress::new(PositionPolicy::Kept);
    let mut writer = Writer {
        sink: writer,
        tally,
    };
    match copy_old(
        positions,
        position,
        old_reader,
        old_intake,
        reader.intake,
        &mut writer,
    ) {
        Ok(()) => {}
        Err(fault) => {
            let stopped = Stopped::with_written(fault, &writer.tally, None);
            return (Err(stopped), None);
        }
    }
    match resume_rest(&unlocked, position.index, &mut reader, &mut writer) {
        Ok(result) => { (result, Checkpoints::of(&unlocked, &writer.tally)) }
        Err(fault) => {
            let stopped = Stopped::with_written(fault, &writer.tally, Some(*position));
            (Err(stopped), None)
        }
    }
}
