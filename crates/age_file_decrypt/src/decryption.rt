//! The decryption of a file from its start.

ghost use Rattle.std.specs.Prelude.{◌≡◌, ◌<◌, None, false};
ghost use Rattle.age_chunk.specs.{chunk_limit};
ghost use Rattle.age_file_input.specs.{ports, SameReader};
ghost use Rattle.age_file_position.specs.declared.position.PositionPolicy.TheVariants.{Kept};
ghost use Rattle.age_file_decrypt.specs.Decrypts.{Decrypts, DecryptsMarked, from_start};
ghost use Rattle.age_file_decrypt.specs.inner.{PositionAt, EndsAs, OpensPayload, HasPlace, stage_of};
ghost use Rattle.age_file_position.specs.inner.{SameWriter};

use crate::checkpoints::Checkpoints;
use crate::payload::decrypt_payload;
use crate::start::{BorrowedUnlock, Unlocked, start};
use age_fault::FileFault;
use age_file_input::{InputBuffer, Reader};
use age_file_position::{Position, PositionPolicy, RunProgress, Writer};
use age_io::{Sink, Source};
use age_keys::{Unlock, payload_key, position_key};
use std::alloc::Global;
use thiserror::Error;

/// The result of a decryption that reached the end of the file.
#[derive(Clone, Copy, PartialEq, Eq)]
pub struct Done {
    /// The number of bytes written.
    pub written: u128,
}

/// The error of a decryption that stopped, with how far it got.
#[derive(Clone, Copy, Debug, PartialEq, Eq, Error)]
#[error("stopped after {written} bytes: {fault}")]
pub struct Stopped {
    /// The fault that stopped it.
    pub fault: FileFault,
    /// The number of bytes written.
    pub written: u128,
    /// The position at which a reader may continue: after the full chunks before the last that were
    /// written. `None` if positions are dropped, if the payload nonce wasn't read yet, or if the
    /// earlier output of a resumed decryption wasn't found to match its position. A stop in the
    /// blocks that a resumed decryption skips always has the position that it began from.
    pub position: Option<Position>,
}

impl Stopped {
    /// Makes the error of a stop before anything was written.
    pub(crate) fn before_output(fault: FileFault) -> Stopped
        ensures { result ≡ record { fault = fault; written = 0; position = None } }
    {
        Stopped {
            fault,
            written: 0,
            position: None,
        }
    }

    /// Makes the error of a stop after some bytes were written.
    pub(crate) fn with_written(
        fault: FileFault,
        tally: &RunProgress,
        position: Option<Position>,
    ) -> Stopped
        ensures { result ≡ record {
          fault = fault;
          written = tally.now.written;
          position = position;
        } }
    {
        Stopped {
            fault,
            written: tally.written,
            position,
        }
    }
}

/// Returns the position at which a reader of this file may continue, or `None` if no hash chain was
/// kept.
fn make_position(unlocked: &Unlocked, tally: &RunProgress) -> Option<Position>
    ensures { PositionAt unlocked.now tally.now.index tally.now.chain result }
{
    match &tally.chain {
        Some(links) => {
            let key = position_key(&unlocked.key, &unlocked.nonce);
            let chain = links.chain();
            Some(Position::with_tag(&key, tally.index, unlocked.id, chain))
        }
        None => None,
    }
}

/// Makes the result of a run: the bytes written, and after a fault the position, if a hash chain
/// was kept.
pub(crate) fn run_result(
    run: Result<(), FileFault>,
    unlocked: &Unlocked,
    tally: &RunProgress,
) -> Result<Done, Stopped>
    ensures { EndsAs unlocked.now tally.now run result }
{
    match run {
        Ok(()) => Ok(Done {
            written: tally.written,
        }),
        Err(fault) => {
            let next = make_position(unlocked, tally);
            Err(Stopped::with_written(fault, tally, next))
        }
    }
}

/// Decrypts the payload of a file from chunk `index` on, and makes the result of the run.
pub(crate) fn open_payload<S: Source, O: Sink>(
    unlocked: &Unlocked,
    index: u64,
    reader: &mut Reader<'_, S>,
    writer: &mut Writer<'_, O>,
) -> Result<Done, Stopped>
    requires limit { index < chunk_limit }
    requires room { HasPlace (stage_of S.view O.view reader.old writer.old) }
    requires goes_on { (S.view reader.old.source.now).supply.is_at_end ≡ false }
    ensures opened { OpensPayload unlocked.now index
        (stage_of S.view O.view reader.old writer.old)
        (stage_of S.view O.view reader.new writer.new) result }
    ensures same_reader { SameReader S.view reader.old reader.new }
    ensures same_writer { SameWriter writer.old writer.new }
{
    let key = payload_key(&unlocked.key, &unlocked.nonce);
    let run = decrypt_payload(&key, index, reader, writer);
    run_result(run, unlocked, &writer.tally)
}

/// Decrypts a file: opens its header, and writes each chunk of the plaintext once the tag of its
/// block has been checked (<https://c2sp.org/age>). Reads to the end of the source, and flushes
/// before it returns `Ok`. A stop returns its position; [`decrypt_marked`] can do without.
/// docs/LIBRARY.md has an example, `open_bytes`.
///
/// Stops with the header's fault (1 to 8), the unlocker's or a wrong header MAC (9 to 15),
/// `NonceCut` (16), a fault of the payload (17 to 22), `Read` (26), `Write` (27), `Memory` (28) and
/// `ReadNeverEnds` (29). If the bytes that it read have a fault of 1 to 22, it stops with that, not
/// with 26 or 29. All memory is allocated before the payload nonce is read, so if it runs out,
/// nothing was written.
pub fn decrypt<U: Unlock, S: Source, O: Sink>(
    alloc: Global,
    unlock: &U,
    reader: &mut S,
    writer: &mut O,
) -> Result<Done, Stopped>
    ensures decrypts { Decrypts Kept (U.allows unlock.now)
        (from_start (U.allows unlock.now) (U.refuses unlock.now))
        (ports (S.view reader.old) (O.view writer.old))
        (ports (S.view reader.new) (O.view writer.new)) result }
    ensures named { (S.view reader.new).label ≡ (S.view reader.old).label }
{
    decrypt_marked(
        alloc,
        PositionPolicy::Kept,
        BorrowedUnlock { unlock },
        reader,
        writer,
    )
    .0
}

/// Decrypts as [`decrypt`] does, and also returns the marks of the run, if it came to its payload
/// and positions are kept. The unlocker is dropped before the payload is read.
pub fn decrypt_marked<U: Unlock + Drop, S: Source, O: Sink>(
    alloc: Global,
    positions: PositionPolicy,
    unlock: U,
    reader: &mut S,
    writer: &mut O,
) -> (Result<Done, Stopped>, Option<Checkpoints>)
    ensures decrypts { DecryptsMarked positions (U.allows unlock)
        (from_start (U.allows unlock) (U.refuses unlock))
        (ports (S.view reader.old) (O.view writer.old))
        (ports (S.view reader.new) (O.view writer.new)) result.0 result.1 }
    ensures named { (S.view reader.new).label ≡ (S.view reader.old).label }
{
    let Ok(mut intake) = InputBuffer::new(alloc) else {
        return (Err(Stopped::before_output(FileFault::Memory)), None);
    };
    let mut reader = Reader {
        source: reader,
        intake: &mut intake,
    };
    let unlocked = match start(alloc, unlock, &mut reader) {
        Ok(unlocked) => unlocked,
        Err(fault) => return (Err(Stopped::before_output(fault)), None),
    };
    let tally = RunProgress::new(positions);
    let mut writer = Writer {
        sink: writer,
        tally,
    };
    let result = open_payload(&unlocked, 0, &mut reader, &mut writer);
    (result, Checkpoints::of(&unlocked, &writer.tally))
}
