//! A record of the bytes that a source gave, or that a sink took. Ghost: no bytes at run time.

ghost use Rattle.std.specs.Prelude.{◌≡◌, [], ◌++◌, List, ℕ, length, option_map, unwrap_or};
ghost use Rattle.std.specs.Coded.{coded_list, coded_ℕ};
ghost use Rattle.age_io.specs.inner.{went_by};

use crate::ghost_value::{AsGhost, GhostValue};
use crate::list::Bytes;
use std::marker::Model;

/// Bytes that were moved: ones that were read, or a number of unread ones.
#[derive(Clone, Copy)]
enum TraceItem<'b> {
    /// Bytes that were read.
    Read(&'b [u8]),
    /// A number of bytes that nobody read.
    Unread(u64),
}

/// The trace before, if any, and more bytes.
#[derive(Clone, Copy)]
struct TraceAppend<'a, 'b> {
    before: Option<&'a GhostValue<Bytes>>,
    more: TraceItem<'b>,
}

impl AsGhost<Bytes> for TraceAppend<'_, '_> {
    ghost shows = { λ piece. unwrap_or (option_map (λ b. b.now.value) piece.before) []
        ++ went_by piece.more };
}

/// A record of the bytes that were moved, in order. Ghost: no bytes at run time.
#[derive(Drop)]
pub struct ByteTrace {
    bytes: GhostValue<Bytes>,
}

impl Model for ByteTrace {
    ghost Value = { List ℕ };

    ghost coded = { coded_list coded_ℕ };

    ghost view = { λ trace. trace.bytes.value };
}

impl ByteTrace {
    /// Returns an empty trace.
    pub fn new() -> ByteTrace
        ensures { result ≡ [] }
    {
        let piece = TraceAppend {
            before: None,
            more: TraceItem::Read(&[]),
        };
        ByteTrace {
            bytes: GhostValue::of(&piece),
        }
    }

    /// Appends bytes to the trace.
    pub fn note(&mut self, bytes: &[u8])
        ensures { self.new ≡ self.old ++ bytes.now }
    {
        let before = Some(&self.bytes);
        let more = TraceItem::Read(bytes);
        self.bytes = GhostValue::of(&TraceAppend { before, more });
    }

    /// Appends `count` bytes that nobody read to the trace.
    pub fn note_unread(&mut self, count: u64)
        ensures { (bytes : List ℕ) × (length bytes ≡ count) × (self.new ≡ self.old ++ bytes) }
    {
        let before = Some(&self.bytes);
        let more = TraceItem::Unread(count);
        self.bytes = GhostValue::of(&TraceAppend { before, more });
    }
}
