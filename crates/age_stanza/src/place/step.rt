//! The parsing of one line, by its place in the header.

ghost use Rattle.age_stanza.specs.inner.{Gives, step as step_of, end_line_result, argument_line_result};
ghost use Rattle.age_stanza.specs.inner.{mac_of as spec_mac_of, AddsLine, arguments_of as spec_arguments_of};

use super::{ARMOR, ARMOR_CR, LineState, Next};
use crate::argument::Arguments;
use crate::argument_line::split_arguments;
use crate::header::{Header, Stanza, Stanzas};
use crate::lengths::{COLUMNS, LINE_BYTES, VERSION};
use crate::text::{decode_line, parse_mac};
use age_fault::HeadKind;
use age_io::Bytes;
use std::alloc::Global;

/// Parses the first line. Only the version line is valid; an armored file's has a fault of its own.
#[tactic(auto, unfolding(crate::specs::inner::LineMachine::step))]
fn first(alloc: Global, line: &[u8]) -> Result<Next, HeadKind>
    ensures { Gives result (step_of LineState.Start line.now) }
{
    if line == VERSION.as_slice() {
        return Ok(Next::Go(LineState::Between(Stanzas::new(alloc))));
    }
    if line == ARMOR.as_slice() || line == ARMOR_CR.as_slice() {
        return Err(HeadKind::Armored);
    }
    Err(HeadKind::NotAge)
}

/// Parses a line that begins with `---`, which must be the end line, after one or more stanzas.
fn end(stanzas: Stanzas, line: &[u8]) -> Result<Next, HeadKind>
    ensures { Gives result (end_line_result stanzas (spec_mac_of line.now)) }
{
    let Some(mac) = parse_mac(line) else {
        return Err(HeadKind::BadEndLine);
    };
    if stanzas.is_empty() {
        return Err(HeadKind::NoStanza);
    }
    Ok(Next::Done(Header { stanzas, mac }))
}

/// Parses a line after the version line or a complete stanza that doesn't begin with `---`. It must
/// be an argument line.
fn begin(alloc: Global, stanzas: Stanzas, line: &[u8]) -> Result<Next, HeadKind>
    ensures { Gives result (argument_line_result stanzas (spec_arguments_of line.now)) }
{
    let Some(args) = split_arguments(alloc, line)? else {
        return Err(HeadKind::BadStanzaLine);
    };
    let body = Bytes::new(alloc);
    Ok(Next::Go(LineState::InBody {
        stanzas,
        args,
        body,
    }))
}

/// Decodes a line of a body, and appends its bytes.
fn add_line(body: &mut Bytes, line: &[u8]) -> Result<(), HeadKind>
    ensures { AddsLine body.old line.now result body.new }
{
    if line.len() > COLUMNS {
        return Err(HeadKind::BadBody);
    }
    let mut room = [0; LINE_BYTES];
    let Some(len) = decode_line(line, &mut room) else {
        return Err(HeadKind::BadBody);
    };
    body.extend_from_slice(&room[..len])?;
    Ok(())
}

/// Parses a line of a body. One of fewer than [`COLUMNS`] characters is its last.
fn body_line(
    mut stanzas: Stanzas,
    args: Arguments,
    mut body: Bytes,
    line: &[u8],
) -> Result<Next, HeadKind>
    ensures { Gives result (step_of (LineState.InBody stanzas args body) line.now) }
{
    add_line(&mut body, line)?;
    if line.len() == COLUMNS {
        return Ok(Next::Go(LineState::InBody {
            stanzas,
            args,
            body,
        }));
    }
    stanzas.push(Stanza { args, body })?;
    Ok(Next::Go(LineState::Between(stanzas)))
}

/// Parses a line, wherever in the header it is.
#[tactic(auto, unfolding(crate::specs::inner::LineMachine::step))]
pub(crate) fn step(alloc: Global, place: LineState, line: &[u8]) -> Result<Next, HeadKind>
    ensures { Gives result (step_of place line.now) }
{
    match place {
        LineState::Start => first(alloc, line),
        LineState::Between(stanzas) => {
            if line.starts_with(b"---") {
                end(stanzas, line)
            } else {
                begin(alloc, stanzas, line)
            }
        }
        LineState::InBody {
            stanzas,
            args,
            body,
        } => body_line(stanzas, args, body, line),
    }
}
