//! Functions that write the text of a header.

ghost use Rattle.std.specs.Prelude.{◌≡◌, ◌++◌, ◌∷◌, ◌≤◌, length, IfOk, IfErr, OnOk};
ghost use Rattle.std.specs.List.{flat_map};
ghost use Rattle.age_stanza.specs.{base64_text, line, in_lines, stanza_text, head_text, HeadText, HasText};
ghost use Rattle.age_stanza.specs.{mac_text, memory_fault};

use crate::argument::Argument;
use crate::header::{Header, Stanza};
use crate::lengths::{COLUMNS, LINE_BYTES, MAC_CHARACTERS, VERSION};
use crate::valid::text_len;
use age_fault::HeadFault;
use base64::engine::general_purpose::STANDARD_NO_PAD;
use std::alloc::{AllocError, Global};

/// The number of bytes of a header's text after the part that its MAC covers: a space, the MAC's
/// characters and LF.
const AFTER_MAC_TEXT: usize = 1 + MAC_CHARACTERS + 1;

/// Writes the base64 of at most 48 bytes, which one line of a body has.
fn put_text(out: &mut Vec<u8>, bytes: &[u8]) -> Result<(), AllocError>
    requires { length bytes.now ≤ 48 }
    ensures { OnOk result (out.new.items ≡ out.old.items ++ base64_text bytes.now) }
{
    let mut characters = [0u8; COLUMNS];
    let Ok(len) = STANDARD_NO_PAD.encode_slice(bytes, &mut characters) else {
        unreachable!();
    };
    out.extend_from_slice(&characters[..len])
}

/// Writes the base64 of at most 48 bytes, which one line of a body has, and LF.
fn put_line(out: &mut Vec<u8>, bytes: &[u8]) -> Result<(), AllocError>
    requires { length bytes.now ≤ 48 }
    ensures { OnOk result (out.new.items ≡ out.old.items ++ line (base64_text bytes.now)) }
{
    put_text(out, bytes)?;
    out.extend_from_slice(b"\n")
}

/// Writes the base64 of a body, wrapped into lines.
fn put_body(out: &mut Vec<u8>, body: &[u8]) -> Result<(), AllocError>
    ensures { OnOk result (out.new.items ≡ out.old.items ++ in_lines (base64_text body.now)) }
{
    let mut rest = body;
    while rest.len() >= LINE_BYTES {
        let (line, after) = rest.split_at(LINE_BYTES);
        put_line(out, line)?;
        rest = after;
    }
    put_line(out, rest)
}

/// Writes arguments, each after a space.
fn put_args(out: &mut Vec<u8>, args: &[Argument]) -> Result<(), AllocError>
    ensures { OnOk result (out.new.items ≡ out.old.items ++ flat_map (λ a. 32 ∷ a) args.now) }
{
    for argument in args {
        out.push(b' ')?;
        out.extend_from_slice(argument.as_slice())?;
    }
    Ok(())
}

/// Writes the text of a stanza.
fn put_stanza(out: &mut Vec<u8>, stanza: &Stanza) -> Result<(), AllocError>
    ensures { OnOk result (out.new.items ≡ out.old.items ++ stanza_text stanza.now) }
{
    out.extend_from_slice(b"->")?;
    put_args(out, stanza.args.as_slice())?;
    out.push(b'\n')?;
    put_body(out, stanza.body.as_slice())
}

/// Writes the texts of stanzas in order.
fn put_stanzas(out: &mut Vec<u8>, stanzas: &[Stanza]) -> Result<(), AllocError>
    ensures { OnOk result (out.new.items ≡ out.old.items ++ flat_map stanza_text stanzas.now) }
{
    for stanza in stanzas {
        put_stanza(out, stanza)?;
    }
    Ok(())
}

/// Returns the part of a header's text that its MAC covers, in a vector with room for `len` bytes.
fn front_text(alloc: Global, header: &Header, len: usize) -> Result<Vec<u8>, AllocError>
    ensures { IfOk result (λ bytes. bytes.items ≡ mac_text header.now) }
{
    let mut out = Vec::with_capacity(alloc, len)?;
    out.extend_from_slice(VERSION)?;
    out.push(b'\n')?;
    put_stanzas(&mut out, header.stanzas.as_slice())?;
    out.extend_from_slice(b"---")?;
    Ok(out)
}

/// Returns the text of a header, in a vector with room for `len` bytes.
fn whole_text(alloc: Global, header: &Header, len: usize) -> Result<Vec<u8>, AllocError>
    ensures { IfOk result (λ bytes. bytes.items ≡ head_text header.now) }
{
    let mut out = front_text(alloc, header, len)?;
    out.push(b' ')?;
    put_line(&mut out, &header.mac)?;
    Ok(out)
}

/// Returns the text of a header (<https://c2sp.org/age#header>), for which
/// [`is_header`](crate::is_header) must hold. Fails only if memory runs out
/// ([`HeadKind::Memory`](crate::HeadKind::Memory)). All memory is allocated at once.
pub fn encode_head(alloc: Global, header: &Header) -> Result<Vec<u8>, HeadFault>
    requires { HasText header.now }
    ensures text { IfOk result (λ bytes. HeadText header.now bytes.items) }
    ensures fault { IfErr result (λ fault. fault ≡ memory_fault) }
{
    let Some(len) = text_len(header) else {
        unreachable!();
    };
    Ok(whole_text(alloc, header, len)?)
}

/// Returns the part of a header's text that its MAC covers: from the version line up to and with
/// the `---` of the end line, without the space that follows (<https://c2sp.org/age#header-mac>).
/// Requires [`is_header`](crate::is_header). Fails only if memory runs out
/// ([`HeadKind::Memory`](crate::HeadKind::Memory)). All memory is allocated at once.
#[tactic(auto, using(crate::proofs::TextLengthLemmas::head_least))]
pub fn mac_text(alloc: Global, header: &Header) -> Result<Vec<u8>, HeadFault>
    requires { HasText header.now }
    ensures text { IfOk result (λ bytes. bytes.items ≡ mac_text header.now) }
    ensures fault { IfErr result (λ fault. fault ≡ memory_fault) }
{
    let Some(len) = text_len(header) else {
        unreachable!();
    };
    Ok(front_text(alloc, header, len - AFTER_MAC_TEXT)?)
}
