//! The headline: the plaintext released under any deliveries is a prefix of the written one.
ghost use Rattle.std.specs.Prelude.{◌<◌, List};
ghost use Rattle.age_stream.specs.Segment.{Segment};
ghost use Rattle.age_stream.specs.{outcome, released, reader_state, released_text, HoldsWritten, ReleasesWritten};
ghost use Rattle.age_stream.specs.declared.delivery.Delivery.{Delivery};
ghost use Rattle.age_chunk.specs.{tag_length, text_length};

use age_chunk::ChunkBox;

/// Proves the headline: while no delivered block opens at a nonce except as the writer of a
/// plaintext sealed it there, the released text is a prefix of the plaintext, the end is reported
/// only with all of it, and an undamaged payload, or its rest from a chunk on that was reached,
/// gives all of the plaintext.
///
/// Each block is in its place: the outcome is what comparing blocks with the writer's gives, so
/// that [`ChunkDamaged`](crate::StreamKind::ChunkDamaged) comes at the first that isn't the
/// writer's, and [`TooManyChunks`](crate::StreamKind::TooManyChunks) never comes. All of this holds
/// for one segment too, after the plaintext before its start. A law about the definitions: the call
/// does nothing.
pub fn held_is_written<B: ChunkBox, const SEALED: usize>()
    requires least { tag_length < SEALED }
    ensures held { (key : B) (deliveries : List Delivery)
        → HoldsWritten (B.sealing key) (B.opening key) (text_length SEALED) deliveries
        (released_text (B.opening key) (text_length SEALED)
        (reader_state (B.opening key) (text_length SEALED) deliveries))
        (outcome (B.opening key) (text_length SEALED)
        (reader_state (B.opening key) (text_length SEALED) deliveries).segment).status }
    ensures segment { (key : B) (s : Segment)
        → ReleasesWritten (B.sealing key) (B.opening key) (text_length SEALED) s
        (released (B.opening key) (text_length SEALED) s)
        (outcome (B.opening key) (text_length SEALED) s).status }
{}
