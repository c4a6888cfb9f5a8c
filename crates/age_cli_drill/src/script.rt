//! Scripts of drills: one step a line.

use age_cli_common::{CommandError, Usage};
use age_fault::FileFault;
use std::alloc::{AllocError, Global};

/// The greatest length of a script.
pub(crate) const SCRIPT_MAX: usize = 1_048_576;

/// The largest number of lines of a script.
const LINES_MAX: usize = 1_000;

/// A line of a script: one step of the drill.
#[derive(Clone, Copy)]
pub(crate) enum ScriptLine {
    /// A delivery of `len` bytes of the payload, from `offset` on.
    Piece { offset: usize, len: usize },
    /// An inversion of all bits of a byte of the payload.
    Flip { offset: usize },
    /// The end of the input.
    End,
    /// A restart at this chunk.
    Restart { index: u64 },
}

/// Returns whether a script has more lines than a drill takes. What follows the last LF is a line
/// too.
pub(crate) fn has_too_many_lines(script: &[u8]) -> bool {
    script.split_inclusive(|b| *b == b'\n').count() > LINES_MAX
}

/// Returns the text of a line, with its LF.
fn format_line(alloc: Global, line: ScriptLine) -> Result<String, AllocError> {
    match line {
        ScriptLine::Piece { offset, len } => format!(in alloc; "piece {offset} {len}\n"),
        ScriptLine::Flip { offset } => format!(in alloc; "flip {offset}\n"),
        ScriptLine::End => format!(in alloc; "end\n"),
        ScriptLine::Restart { index } => format!(in alloc; "restart {index}\n"),
    }
}

/// Parses the numbers of a piece.
fn piece(numbers: &str) -> Option<ScriptLine> {
    let (offset, len) = numbers.split_once(' ')?;
    match (offset.parse::<usize>(), len.parse::<usize>()) {
        (Ok(offset), Ok(len)) => Some(ScriptLine::Piece { offset, len }),
        _ => None,
    }
}

/// Parses a word and its numbers, however these are written.
fn read_words(word: &str, numbers: &str) -> Option<ScriptLine> {
    match word {
        "piece" => piece(numbers),
        "flip" => Some(ScriptLine::Flip {
            offset: numbers.parse::<usize>().ok()?,
        }),
        "end" => Some(ScriptLine::End),
        "restart" => Some(ScriptLine::Restart {
            index: numbers.parse::<u64>().ok()?,
        }),
        _ => None,
    }
}

/// Parses a line leniently. The line is valid only if the result prints as just this text.
fn guess(line: &[u8]) -> Option<ScriptLine> {
    let text = std::str::from_utf8(line.strip_suffix(b"\n")?).ok()?;
    match text.split_once(' ') {
        Some((word, numbers)) => read_words(word, numbers),
        None => read_words(text, ""),
    }
}

/// Returns whether a payload of this length has the bytes that a line asks for.
fn is_within(line: ScriptLine, payload_len: usize) -> bool {
    match line {
        ScriptLine::Piece { offset, len } => offset <= payload_len && len <= payload_len - offset,
        ScriptLine::Flip { offset } => offset < payload_len,
        ScriptLine::End | ScriptLine::Restart { .. } => true,
    }
}

/// Parses a line with its LF: words separated by one space, numbers without leading zeros. Returns
/// `None` if it is malformed or reaches past the payload.
fn read_line(
    alloc: Global,
    line: &[u8],
    payload_len: usize,
) -> Result<Option<ScriptLine>, FileFault> {
    let Some(read) = guess(line) else {
        return Ok(None);
    };
    let text = format_line(alloc, read)?;
    if text.as_bytes() == line && is_within(read, payload_len) {
        Ok(Some(read))
    } else {
        Ok(None)
    }
}

/// Parses a script for a payload of this length. Fails with the number of the first bad line.
pub(crate) fn read_lines<'w>(
    alloc: Global,
    script: &[u8],
    payload_len: usize,
) -> Result<Vec<ScriptLine>, CommandError<'w>> {
    let mut lines = Vec::new(alloc);
    for line in script.split_inclusive(|b| *b == b'\n') {
        let Some(read) = read_line(alloc, line, payload_len)? else {
            return Err(CommandError::from(Usage::BadScriptLine(lines.len() + 1)));
        };
        if lines.push(read).is_err() {
            return Err(CommandError::from(FileFault::Memory));
        }
    }
    Ok(lines)
}
