//! Plaintexts that result from whole lists of deliveries.
ghost use Rattle.std.specs.Prelude.{◌<◌, ◌≤◌, length, IfOk, OnErr};
ghost use Rattle.std.specs.List.{flat_map};
ghost use Rattle.age_stream.specs.{IsHeldAfter, bytes_in, HoldsWritten};
ghost use Rattle.age_chunk.specs.{block_length, tag_length, text_length};

use crate::delivery::Delivery;
use crate::replay::{Drill, Replay};
use age_chunk::{ChunkBox, Memory};
use std::alloc::Global;

/// Gives deliveries to a new [`Replay`], and returns the plaintext that it then has, with the
/// status of its opener. Fails only if memory runs out. Requires `SEALED`, the length of a full
/// block in bytes, from 17 to 65,552.
pub fn drill<B: ChunkBox, const SEALED: usize>(
    alloc: Global,
    key: &B,
    events: &[Delivery<'_>],
) -> Result<Drill, Memory>
    requires least { tag_length < SEALED }
    requires most { SEALED ≤ block_length }
    ensures held { IfOk result
        (λ drill. IsHeldAfter (B.opening key.now) (text_length SEALED) events.now drill) }

    // While no block opens except as the writer of a plaintext sealed it, what is held is a prefix
    // of that plaintext, the end is reported only with all of it, an undamaged payload, or its
    // rest, gives all of it, and each block is in its place.
    ensures written { IfOk result (λ drill. HoldsWritten (B.sealing key.now) (B.opening key.now)
        (text_length SEALED) events.now drill.text.items drill.status) }

    // Memory runs out only if more bytes are delivered than a tag has.
    ensures memory { OnErr result (tag_length < length (flat_map bytes_in events.now)) }
{
    let mut replay = Replay::<B, SEALED>::new(alloc, key);
    for event in events {
        replay.take(event)?;
    }
    Ok(replay.into_drill())
}
