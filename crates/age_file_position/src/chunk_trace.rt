//! A record of the chunks of a plaintext. Ghost: no bytes at run time.

ghost use Rattle.std.specs.Prelude.{◌≡◌, [], ◌∷◌, ◌++◌, List, ℕ, option_map, unwrap_or};
ghost use Rattle.std.specs.Coded.{coded_list, coded_ℕ};

use age_io::{AsGhost, ByteTrace, Bytes, GhostValue, List};
use std::marker::Model;

/// The chunks before, if any, and one more, if any.
#[derive(Clone, Copy)]
struct TraceUpdate<'a, 'b> {
    before: Option<&'a GhostValue<List<Bytes>>>,
    chunk: Option<&'b ByteTrace>,
}

impl AsGhost<List<Bytes>> for TraceUpdate<'_, '_> {
    ghost shows = { λ grown. unwrap_or (option_map (λ b. b.now.value) grown.before) []
        ++ unwrap_or (option_map (λ t. t.now ∷ []) grown.chunk) [] };
}

/// A record of the chunks of a plaintext, in order. Ghost: no bytes at run time.
#[derive(Drop)]
pub(crate) struct ChunkTrace {
    chunks: GhostValue<List<Bytes>>,
}

impl Model for ChunkTrace {
    ghost Value = { List (List ℕ) };

    ghost coded = { coded_list (coded_list coded_ℕ) };

    ghost view = { λ tape. tape.chunks.value };
}

impl ChunkTrace {
    /// Returns an empty record.
    pub(crate) fn new() -> ChunkTrace
        ensures { result ≡ [] }
    {
        let grown = TraceUpdate {
            before: None,
            chunk: None,
        };
        ChunkTrace {
            chunks: GhostValue::of(&grown),
        }
    }

    /// Copies the record.
    pub(crate) fn again(&self) -> ChunkTrace
        ensures { result ≡ self.now }
    {
        let grown = TraceUpdate {
            before: Some(&self.chunks),
            chunk: None,
        };
        ChunkTrace {
            chunks: GhostValue::of(&grown),
        }
    }

    /// Appends a chunk to the record.
    pub(crate) fn note(&mut self, chunk: &ByteTrace)
        ensures { self.new ≡ self.old ++ chunk.now ∷ [] }
    {
        let grown = TraceUpdate {
            before: Some(&self.chunks),
            chunk: Some(chunk),
        };
        self.chunks = GhostValue::of(&grown);
    }
}
