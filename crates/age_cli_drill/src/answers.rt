//! The lines that a drill prints, one for each line of its script.

use crate::script::ScriptLine;
use age_cli_common::{CommandError, put_bytes};
use age_fault::FileFault;
use age_io::{Sink, flush_all};
use age_stream::{ChunkBox, Delivery, Memory, Replay, Status};
use std::alloc::{AllocError, Global};

/// Returns a line of the output: the number of the script's line, the reader's status, and the
/// number of plaintext bytes held.
fn answer(alloc: Global, number: usize, status: Status, held: usize) -> Result<String, AllocError> {
    match status {
        Status::Open => format!(in alloc; "{number} open {held}\n"),
        Status::LastSeen => format!(in alloc; "{number} last {held}\n"),
        Status::Done => format!(in alloc; "{number} done {held}\n"),
        Status::Failed(fault) => {
            let fault = fault.number();
            format!(in alloc; "{number} failed-{fault} {held}\n")
        }
    }
}

/// Returns a line of the output after a restart that was refused.
fn refusal(alloc: Global, number: usize, held: usize) -> Result<String, AllocError> {
    format!(in alloc; "{number} refused-25 {held}\n")
}

/// Returns the bytes of a piece, as far as the payload has them.
fn part(payload: &[u8], offset: usize, len: usize) -> &[u8] {
    let rest = &payload[offset.min(payload.len())..];
    &rest[..len.min(rest.len())]
}

/// Inverts all bits of a byte of the payload.
fn flip(payload: &mut [u8], offset: usize) {
    if offset < payload.len() {
        payload[offset] = !payload[offset];
    }
}

/// Executes a line of the script.
fn obey_line<B: ChunkBox, const SEALED: usize>(
    replay: &mut Replay<'_, B, SEALED>,
    payload: &mut [u8],
    line: ScriptLine,
) -> Result<(), Memory> {
    match line {
        ScriptLine::Piece { offset, len } => {
            replay.take(&Delivery::Piece(part(payload, offset, len)))
        }
        ScriptLine::Flip { offset } => {
            flip(payload, offset);
            Ok(())
        }
        ScriptLine::End => replay.take(&Delivery::End),
        ScriptLine::Restart { index } => replay.take(&Delivery::Restart(index)),
    }
}

/// Executes a line of the script, and writes the line of the output.
fn answer_line<B: ChunkBox, O: Sink, const SEALED: usize>(
    alloc: Global,
    replay: &mut Replay<'_, B, SEALED>,
    payload: &mut [u8],
    number: usize,
    line: ScriptLine,
    output: &mut O,
) -> Result<(), FileFault> {
    let refused = replay.refused();
    if obey_line(replay, payload, line).is_err() {
        return Err(FileFault::Memory);
    }
    let held = replay.text().len();
    if replay.refused() > refused {
        let text = refusal(alloc, number, held)?;
        return put_bytes(output, text.as_bytes());
    }
    let text = answer(alloc, number, replay.status(), held)?;
    put_bytes(output, text.as_bytes())
}

/// Executes each line of the script, and writes a line of the output for each.
pub(crate) fn answer_lines<'w, B: ChunkBox, O: Sink, const SEALED: usize>(
    alloc: Global,
    replay: &mut Replay<'_, B, SEALED>,
    payload: &mut [u8],
    lines: &[ScriptLine],
    output: &mut O,
) -> Result<(), CommandError<'w>> {
    let mut number = 0;
    for line in lines {
        number += 1;
        answer_line(alloc, replay, payload, number, *line, output)?;
    }
    Ok(flush_all(output)?)
}
