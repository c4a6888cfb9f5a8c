//! The inspection of a file: its header, and the lengths of the rest.

ghost use Rattle.std.specs.Prelude.{◌≡◌, ◌^◌, ◌<◌, ◌≤◌, ℕ, List, length, Some, IfOk, IfErr, OnOk, map};
ghost use Rattle.age_file_input.specs.{HeadFails, InHeader, NoHeadFault, view_of_reader, SameReader};
ghost use Rattle.age_file_inspect.specs.Reports.{stanza_report, IsPlainOf, IsReport, Inspects};
ghost use Rattle.age_file_inspect.specs.Reports.{InspectsFront};
ghost use Rattle.age_file_inspect.specs.inner.{CountsRest, RestFails};

use crate::report::{Report, StanzaReport, StanzaReports};
use age_chunk::PAYLOAD_NONCE_LEN;
use age_fault::FileFault;
use age_file_input::{InputBuffer, Reader, read_head};
use age_io::{Bytes, Source};
use age_stanza::{Stanza, Stanzas};
use age_stream::plaintext_len;
use std::alloc::{AllocError, Global};

/// The number of stanzas that free their memory at once.
const STANZAS_AT_ONCE: usize = 4_096;

/// Reads to the end of the source, and returns the number of bytes.
fn count_rest<S: Source>(reader: &mut Reader<'_, S>) -> Result<u128, FileFault>
    requires { reader.old.intake.now.pulls ≤ 2 ^ 63 }
    ensures counts { IfOk result (CountsRest (view_of_reader S.view reader.old)
        (view_of_reader S.view reader.new)) }
    ensures fails { IfErr result (RestFails (view_of_reader S.view reader.old)
        (view_of_reader S.view reader.new)) }
    ensures same { SameReader S.view reader.old reader.new }
{
    let mut count = reader.intake.bytes().len() as u128;
    reader.intake.use_all();
    'pulls: while reader.intake.refill(reader.source)? {
        count += reader.intake.bytes().len() as u128;
        reader.intake.use_all();
    }
    Ok(count)
}

/// Makes the report on a stanza.
fn report_stanza(alloc: Global, stanza: &Stanza) -> Result<StanzaReport, AllocError>
    ensures { IfOk result (λ r. r ≡ stanza_report stanza.now) }
{
    let mut kind = Vec::new(alloc);
    let mut args = 0;
    if let [first, others @ ..] = stanza.args.as_slice() {
        kind.extend_from_slice(first.as_slice())?;
        args = others.len() as u64;
    }
    Ok(StanzaReport {
        kind: Bytes::from_vec(kind),
        args,
        body: stanza.body.len() as u64,
    })
}

/// Makes the reports on stanzas. The stanzas free their memory on the way, so that the two lists
/// take hardly more than the stanzas did.
fn report_stanzas(alloc: Global, stanzas: Stanzas) -> Result<StanzaReports, AllocError>
    ensures { IfOk result (λ r. r ≡ map stanza_report stanzas) }
{
    let mut reports = StanzaReports::new(alloc);
    let mut left = stanzas.into_vec();
    left.reverse();
    'stanzas: while let Some(stanza) = left.pop() {
        reports.push(report_stanza(alloc, &stanza)?)?;
        if left.len() % STANZAS_AT_ONCE == 0 {
            left.shrink_to_fit();
        }
    }
    Ok(reports)
}

/// Returns the length of the plaintext in a nonce and a payload of `rest` bytes together, or `None`
/// if no valid payload has that length.
fn count_plaintext(rest: u128) -> Option<u128>
    requires { rest < 2 ^ 127 }
    ensures { IsPlainOf rest result }
{
    plaintext_len(rest.checked_sub(PAYLOAD_NONCE_LEN as u128)?)
}

/// Reads a source to its end, and returns a report: the header's length in bytes, its stanzas, the
/// number of bytes after it, and the length of the plaintext in a payload of that length
/// (<https://c2sp.org/age#header>, <https://c2sp.org/age#payload>). Opens nothing, so it checks
/// neither the header's MAC nor any chunk.
///
/// Fails with the header's fault (1 to 8), `Read` (26), `Memory` (28) and `ReadNeverEnds` (29). If
/// the bytes that it read have a fault of the header, it fails with that, not with 26 or 29.
pub fn inspect<S: Source>(alloc: Global, source: &mut S) -> Result<Report, FileFault>
    ensures ok { IfOk result (Inspects (S.view source.old).supply
        (S.view source.new).supply) }
    ensures unfailed { OnOk result ((S.view source.new).failed ≡ (S.view source.old).failed) }
    ensures named { (S.view source.new).label ≡ (S.view source.old).label }
    // When each fault comes.
    ensures fails { IfErr result (HeadFails NoHeadFault (S.view source.old) (S.view source.new)) }
{
    let mut intake = InputBuffer::new(alloc)?;
    let mut reader = Reader {
        source,
        intake: &mut intake,
    };
    let head = read_head(alloc, &mut reader)?;
    // all memory is taken before the rest is read
    let stanzas = report_stanzas(alloc, head.header.stanzas)?;
    let rest = count_rest(&mut reader)?;
    Ok(Report {
        header: head.len,
        stanzas,
        rest,
        plain: count_plaintext(rest),
    })
}

/// Returns the report on a source of `len` bytes, as [`inspect`] does, but reads no more than its
/// header and what one pull gives after that. The number of bytes after the header comes from `len`
/// alone, so a failure to read them goes unnoticed.
///
/// Fails with the header's fault (1 to 8), `Read` (26), `Memory` (28) and `ReadNeverEnds` (29).
pub fn inspect_sized<S: Source>(
    alloc: Global,
    len: u64,
    source: &mut S,
) -> Result<Report, FileFault>
    ensures ok { IfOk result (InspectsFront len (S.view source.old).supply
        (S.view source.new).supply) }
    ensures whole { (bytes : List ℕ) → (S.view source.old).supply.left ≡ Some bytes
        → len ≡ length bytes → IfOk result (IsReport bytes) }
    ensures unfailed { OnOk result ((S.view source.new).failed ≡ (S.view source.old).failed) }
    ensures named { (S.view source.new).label ≡ (S.view source.old).label }
    // When each fault comes.
    ensures fails { IfErr result (HeadFails InHeader (S.view source.old) (S.view source.new)) }
{
    let mut intake = InputBuffer::new(alloc)?;
    let mut reader = Reader {
        source,
        intake: &mut intake,
    };
    let head = read_head(alloc, &mut reader)?;
    let stanzas = report_stanzas(alloc, head.header.stanzas)?;
    let left = u128::from(len.saturating_sub(head.len));
    Ok(Report {
        header: head.len,
        stanzas,
        rest: left,
        plain: count_plaintext(left),
    })
}
