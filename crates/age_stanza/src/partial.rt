//! The part of a header that was read so far.

ghost use Rattle.std.specs.Prelude.{◌≡◌, ◌++◌, ◌+◌, ◌<◌, ◌≤◌, [], length, OnOk, IfErr, OnErr};
ghost use Rattle.age_stanza.specs.Grammar.{header_limit};
ghost use Rattle.age_fault.specs.{memory_fault};
ghost use Rattle.age_stanza.specs.Parsing.{line_after, IsLine};
ghost use Rattle.age_stanza.specs.inner.LineMachine.{fault_at as spec_fault_at, Gives, step as step_of};
ghost use Rattle.age_stanza.specs.inner.LineMachine.{IsUnfinished};

use crate::header::Header;
use crate::place::{LineState, Next, step};
use age_fault::{HeadFault, HeadKind};
use std::alloc::Global;
use std::marker::Model;
use std::mem;

/// The part of a header that a parser has read: the place of the line that isn't finished, with the
/// contents of the lines before it, and the characters of that line so far. Finished lines aren't
/// kept as text. Contracts see the bytes that were read.
#[derive(Drop)]
pub(crate) struct PartialHeader {
    place: LineState,
    line: Vec<u8>,
    bytes: usize,
    finished_lines: u64,
}

impl Model for PartialHeader {
    ghost use Rattle.std.specs.Prelude.{ℕ, List, ◌++◌};
    ghost use Rattle.age_stanza.specs.inner.LineMachine.{bytes_before, IsPartial};

    ghost Value = { List ℕ };

    ghost view = { λ p. bytes_before p.place ++ p.line.items };

    ghost invariant = { λ p. IsPartial p.place p.line.items p.bytes p.finished_lines };
}

/// Returns the fault of a header at a line. Running out of memory has no line.
fn fault_at(kind: HeadKind, line: u64) -> HeadFault
    ensures { result ≡ spec_fault_at kind line }
{
    match kind {
        HeadKind::Memory => HeadFault { kind, line: 0 },
        _ => HeadFault { kind, line },
    }
}

/// Parses a line whose first bytes are in `kept` and whose rest is `last`. Copies nothing if `kept`
/// is empty.
fn step_whole(
    alloc: Global,
    place: LineState,
    kept: &mut Vec<u8>,
    last: &[u8],
) -> Result<Next, HeadKind>
    ensures { Gives result (step_of place (kept.old.items ++ last.now)) }
{
    if kept.is_empty() {
        return step(alloc, place, last);
    }
    match kept.extend_from_slice(last) {
        Ok(()) => step(alloc, place, kept.as_slice()),
        Err(_) => {
            // dropped by a call, since the drop of each place here is slow to prove
            drop(place);
            Err(HeadKind::Memory)
        }
    }
}

impl PartialHeader {
    ghost use Rattle.age_stanza.specs.Grammar.{line};
    ghost use Rattle.age_stanza.specs.inner.LineMachine.{EndsLine, Fails};

    /// Makes the part of which nothing was read. Allocates nothing.
    pub(crate) fn new(alloc: Global) -> PartialHeader
        ensures { result ≡ [] }
    {
        PartialHeader {
            place: LineState::Start,
            line: Vec::new(alloc),
            bytes: 0,
            finished_lines: 0,
        }
    }

    /// Returns the number of bytes that were read.
    #[tactic(auto, using(crate::proofs::FinishedLineLemmas::under_way))]
    pub(crate) fn len(&self) -> usize
        ensures len { result ≡ length self.now }
        ensures known { IsUnfinished self.now }
    {
        self.bytes
    }

    /// Appends characters to the line that isn't finished.
    pub(crate) fn extend(&mut self, characters: &[u8]) -> Result<(), HeadFault>
        requires one_line { IsLine characters.now }
        requires within { length self.old + length characters.now ≤ header_limit }
        ensures ok { OnOk result (self.new ≡ self.old ++ characters.now) }
        ensures err { IfErr result (λ fault. fault ≡ memory_fault) }
        ensures some { OnErr result (0 < length characters.now) }
    {
        self.line.extend_from_slice(characters)?;
        self.bytes += characters.len();
        Ok(())
    }

    /// Parses the line that isn't finished, after appending the rest of it, whose LF has arrived.
    /// Returns the header if it was the end line. After a header or a fault, the state is empty.
    pub(crate) fn end_line(&mut self, characters: &[u8]) -> Result<Option<Header>, HeadFault>
        requires one_line { IsLine characters.now }
        requires within { length self.old + length characters.now < header_limit }
        ensures { EndsLine (self.old ++ line characters.now) result self.new }
    {
        let alloc = *self.line.allocator();
        let PartialHeader {
            place,
            mut line,
            bytes,
            finished_lines,
        } = mem::replace(self, PartialHeader::new(alloc));
        match step_whole(alloc, place, &mut line, characters) {
            Ok(Next::Go(next)) => {
                line.clear();
                let more = PartialHeader {
                    place: next,
                    line,
                    bytes: bytes + characters.len() + 1,
                    finished_lines: finished_lines + 1,
                };
                // an assignment would put the drop of each place here, which is slow to prove
                drop(mem::replace(self, more));
                Ok(None)
            }
            Ok(Next::Done(header)) => Ok(Some(header)),
            Err(kind) => Err(fault_at(kind, finished_lines + 1)),
        }
    }

    /// Returns the fault of a header that the end of input truncated.
    pub(crate) fn cut_fault(&self) -> HeadFault
        ensures { result ≡ record { kind = HeadKind.HeadCut; line = line_after self.now } }
    {
        HeadFault {
            kind: HeadKind::HeadCut,
            line: self.finished_lines + 1,
        }
    }

    /// Returns the fault of a header that reached the limit. Its line is the last byte's.
    pub(crate) fn too_long_fault(&self) -> HeadFault
        requires { length self.now ≡ header_limit }
        ensures { Fails result self.now }
    {
        let line = if self.line.is_empty() {
            self.finished_lines
        } else {
            self.finished_lines + 1
        };
        HeadFault {
            kind: HeadKind::HeadTooLong,
            line,
        }
    }
}
