//! The command `drill`, which delivers a payload by a script.

ghost use Rattle.std.specs.Prelude.{◌≡◌, ◌<◌, ◌≤◌, [], IfOk, length};
ghost use Rattle.age_chunk.specs.{block_length, tag_length};
ghost use Rattle.age_cli_files.specs.{Does};
ghost use Rattle.age_stanza.specs.{HasText, reading};

use crate::answers::answer_lines;
use crate::script::{SCRIPT_MAX, has_too_many_lines, read_lines};
use age_cli_args::Drilling;
use age_cli_common::{
    CommandError, IdentityOption, OwnPassphrase, Usage, bad_passphrase_file, count_held,
    fill_first, passphrase_in, read_file, read_up_to,
};
use age_cli_files::{FileSet, IfMissing, Purpose};
use age_fault::FileFault;
use age_io::{Sink, Source};
use age_keys::{
    FileKey, KeyFault, PAYLOAD_NONCE_LEN, PayloadKey, Steps, WORK_FACTOR_LIMIT, open_header,
    payload_key,
};
use age_stanza::{HEAD_MAX, HeadParser, HeadStep, Header};
use age_stream::{BLOCK_LEN, ChunkBox, ClearBox, Replay};
use std::alloc::Global;

/// The greatest length of a payload.
const PAYLOAD_MAX: usize = 16_777_216;

/// The largest number of bytes of a file that are read: one more than the longest header and
/// payload have.
const BYTES_MAX: usize = HEAD_MAX + PAYLOAD_NONCE_LEN + PAYLOAD_MAX + 1;

/// The length of a block of a payload in the clear.
const CLEAR_LEN: usize = 20;

/// Reads the passphrase in its file, if one is named.
fn read_passphrase<'w, F: FileSet<'w>>(
    alloc: Global,
    files: &mut F,
    name: Option<&'w str>,
) -> Result<Option<OwnPassphrase>, CommandError<'w>>
    ensures { Does (F.view files.old) (F.view files.new) }
{
    match name {
        None => Ok(None),
        Some(name) => {
            let held = IdentityOption::PassphraseFile(name, WORK_FACTOR_LIMIT).read(alloc, files)?;
            let len = count_held(&held);
            match passphrase_in(held, WORK_FACTOR_LIMIT) {
                Some(pass) => Ok(Some(pass)),
                None => Err(CommandError::Usage(bad_passphrase_file(name, len))),
            }
        }
    }
}

/// Reads the file of a script. Fails if it is too long or has too many lines.
fn read_script<'w, F: FileSet<'w>>(
    alloc: Global,
    files: &mut F,
    name: &'w str,
) -> Result<Vec<u8>, CommandError<'w>>
    ensures { Does (F.view files.old) (F.view files.new) }
{
    match read_file(alloc, files, name, Purpose::Input, SCRIPT_MAX)? {
        Some(script) if !has_too_many_lines(script.as_slice()) => Ok(script),
        _ => Err(CommandError::from(Usage::ScriptTooLong)),
    }
}

/// Returns the header at the beginning of a file, and its length, by a new parser. `read` is the
/// result of reading the bytes: its fault is reported only if the bytes before it have none.
fn find_header(
    parser: &mut HeadParser,
    bytes: &[u8],
    read: Result<(), FileFault>,
) -> Result<(Header, usize), FileFault>
    requires { parser.old ≡ reading [] }
    ensures text { IfOk result (λ p. HasText p.0) }
    ensures within { IfOk result (λ p. p.1 ≤ length bytes.now) }
{
    match parser.feed(bytes)? {
        HeadStep::Ready { taken, header } => Ok((header, taken)),
        HeadStep::More => {
            read?;
            Err(FileFault::from(parser.end()))
        }
    }
}

/// Parses the header at the beginning of a file, and returns its length too. `read` is the result
/// of reading the bytes.
fn read_header(
    alloc: Global,
    bytes: &[u8],
    read: Result<(), FileFault>,
) -> Result<(Header, usize), FileFault>
    ensures text { IfOk result (λ p. HasText p.0) }
    ensures within { IfOk result (λ p. p.1 ≤ length bytes.now) }
{
    let mut parser = HeadParser::new(alloc);
    find_header(&mut parser, bytes, read)
}

/// Returns the payload key of a file, and the offset of its payload after a header of `len` bytes.
fn payload_after(
    key: Result<FileKey, KeyFault>,
    len: usize,
    bytes: &[u8],
    read: Result<(), FileFault>,
) -> Result<(PayloadKey, usize), FileFault>
    requires { len ≤ length bytes.now }
    ensures within { IfOk result (λ p. p.1 ≤ length bytes.now) }
{
    let key = key?;
    read?;
    match bytes[len..].first_chunk::<PAYLOAD_NONCE_LEN>() {
        Some(nonce) => Ok((payload_key(&key, nonce), len + PAYLOAD_NONCE_LEN)),
        None => Err(FileFault::NonceCut),
    }
}

/// Returns the payload key of a file, and the offset of its payload. Faults come in the order of
/// the bytes: a fault of reading comes after the faults of the header and the key.
fn open_payload(
    alloc: Global,
    unlock: &OwnPassphrase,
    bytes: &[u8],
    read: Result<(), FileFault>,
) -> Result<(PayloadKey, usize), FileFault>
    ensures within { IfOk result (λ p. p.1 ≤ length bytes.now) }
{
    let (header, len) = read_header(alloc, bytes, read)?;
    let key = open_header(alloc, &header, unlock, &mut Steps::new());
    payload_after(key, len, bytes, read)
}

/// Parses all of the script, and then delivers a payload by it.
fn deliver<'w, B: ChunkBox, O: Sink, const SEALED: usize>(
    alloc: Global,
    key: &B,
    payload: &mut [u8],
    script: &[u8],
    output: &mut O,
) -> Result<(), CommandError<'w>>
    requires least { tag_length < SEALED }
    requires most { SEALED ≤ block_length }
{
    let lines = read_lines(alloc, script, payload.len())?;
    let mut replay = Replay::<B, SEALED>::new(alloc, key);
    answer_lines(alloc, &mut replay, payload, lines.as_slice(), output)
}

/// Delivers a payload whose chunks are in the clear.
fn deliver_clear<'w, S: Source, O: Sink>(
    alloc: Global,
    source: &mut S,
    script: &[u8],
    output: &mut O,
) -> Result<(), CommandError<'w>> {
    match read_up_to(alloc, source, PAYLOAD_MAX)? {
        Some(mut payload) => deliver::<ClearBox, O, CLEAR_LEN>(
            alloc,
            &ClearBox,
            payload.as_mut_slice(),
            script,
            output,
        ),
        None => Err(CommandError::from(Usage::PayloadTooLong)),
    }
}

/// Delivers the payload of an age file that a passphrase opens. A fault of the header, the key or
/// the nonce is reported before a payload that is too long.
fn deliver_sealed<'w, S: Source, O: Sink>(
    alloc: Global,
    unlock: &OwnPassphrase,
    source: &mut S,
    script: &[u8],
    output: &mut O,
) -> Result<(), CommandError<'w>> {
    let mut bytes = Vec::new(alloc);
    let read = fill_first(source, &mut bytes, BYTES_MAX);
    let (key, start) = open_payload(alloc, unlock, bytes.as_slice(), read)?;
    let payload = &mut bytes.as_mut_slice()[start..];
    if payload.len() > PAYLOAD_MAX {
        return Err(CommandError::from(Usage::PayloadTooLong));
    }
    deliver::<PayloadKey, O, BLOCK_LEN>(alloc, &key, payload, script, output)
}

/// Delivers the payload of a source: of an age file that a passphrase opens, or in the clear if none
/// is given.
fn deliver_source<'w, S: Source, O: Sink>(
    alloc: Global,
    pass: Option<OwnPassphrase>,
    source: &mut S,
    script: &[u8],
    output: &mut O,
) -> Result<(), CommandError<'w>> {
    match &pass {
        Some(unlock) => deliver_sealed(alloc, unlock, source, script, output),
        None => deliver_clear(alloc, source, script, output),
    }
}

/// Runs the command `drill`. Changes no file. A fault to which the deliveries lead is a line of the
/// output, and no fault of the command.
pub fn drill_file<'w, F: FileSet<'w>, O: Sink>(
    alloc: Global,
    files: &mut F,
    asked: &Drilling<'w>,
    output: &mut O,
) -> Result<(), CommandError<'w>>
    // Nothing was put, ended or saved.
    ensures { Does (F.view files.old) (F.view files.new) }
{
    if asked.clear == asked.pass.is_some() {
        return Err(CommandError::from(Usage::GiveClearOrPass));
    }
    files.check_streams(alloc, &[asked.pass, Some(asked.script), Some(asked.from)])?;
    let pass = read_passphrase(alloc, files, asked.pass)?;
    let script = read_script(alloc, files, asked.script)?;
    let mut source = files.open(alloc, asked.from, IfMissing::Fails, Purpose::Input)?;
    let drilled = deliver_source(alloc, pass, &mut source, script.as_slice(), output);
    let context = files.close_input(source);
    match drilled {
        Ok(()) => Ok(()),
        Err(ending) => Err(ending.with_context(context)),
    }
}
