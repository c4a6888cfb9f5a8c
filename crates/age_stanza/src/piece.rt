//! The parsing of one more piece of a header.

ghost use Rattle.std.specs.Prelude.{◌≡◌, ◌==◌, ◌+◌, ◌<◌, ◌≤◌, length, take};
ghost use Rattle.std.specs.List.{position};
ghost use Rattle.age_stanza.specs.{header_limit};
ghost use Rattle.age_stanza.specs.inner.{ReadsLines, TakesPiece};

use crate::HEAD_MAX;
use crate::head_step::HeadStep;
use crate::partial::PartialHeader;
use age_fault::HeadFault;

/// Returns the position of the first LF.
fn line_end(bytes: &[u8]) -> Option<usize>
    ensures { result ≡ position (λ c. c == 10) bytes.now }
{
    bytes.iter().position(|c| *c == b'\n')
}

/// Returns the first bytes of a piece, at most `room`.
fn first_bytes(piece: &[u8], room: usize) -> &[u8]
    ensures { result.now ≡ take room piece.now }
{
    if piece.len() <= room {
        piece
    } else {
        &piece[..room]
    }
}

/// Parses bytes line by line.
fn read_lines(partial: &mut PartialHeader, bytes: &[u8]) -> Result<HeadStep, HeadFault>
    requires { length partial.old + length bytes.now ≤ header_limit }
    ensures { ReadsLines partial.old bytes.now result partial.new }
{
    let mut taken = 0;
    while let Some(end) = line_end(&bytes[taken..]) {
        let line = &bytes[taken..taken + end];
        taken += end + 1;
        if let Some(header) = partial.end_line(line)? {
            return Ok(HeadStep::Ready { taken, header });
        }
    }
    partial.extend(&bytes[taken..])?;
    Ok(HeadStep::More)
}

/// Parses a piece, and reads no more of it than the limit allows.
pub(crate) fn take_piece(partial: &mut PartialHeader, piece: &[u8]) -> Result<HeadStep, HeadFault>
    requires { length partial.old < header_limit }
    ensures { TakesPiece partial.old piece.now result partial.new }
{
    let room = HEAD_MAX - partial.len();
    match read_lines(partial, first_bytes(piece, room))? {
        HeadStep::Ready { taken, header } => Ok(HeadStep::Ready { taken, header }),
        HeadStep::More => {
            if partial.len() == HEAD_MAX {
                return Err(partial.too_long_fault());
            }
            Ok(HeadStep::More)
        }
    }
}
