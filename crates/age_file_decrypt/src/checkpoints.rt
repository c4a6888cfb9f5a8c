//! The positions at which a decryption that stopped can be continued.

ghost use Rattle.std.specs.Prelude.{◌≡◌};
ghost use Rattle.age_file_decrypt.specs.Runs.{IsMarked};
ghost use Rattle.age_file_decrypt.specs.inner.{marks_over};

use crate::start::Unlocked;
use age_file_position::{ChunkChain, Position, RunProgress};
use age_keys::position_key;
use std::marker::Model;

/// The positions at which a decryption that came to its payload can be continued: after the full
/// chunks before the last that it wrote, and after fewer of them. Contracts see the position key
/// and the id of its file, and those chunks.
#[derive(Drop)]
pub struct Checkpoints {
    key: [u8; 32],
    file_id: [u8; 32],
    links: ChunkChain,
}

impl Model for Checkpoints {
    ghost use Rattle.std.specs.Prelude.{◌<◌, length};
    ghost use Rattle.age_chunk.specs.{chunk_limit};
    ghost use Rattle.age_file_decrypt.specs.Runs.{MarksView};

    ghost Value = { MarksView };

    ghost view = { λ m. record {
      key = m.key;
      file_id = m.file_id;
      chunks = m.links;
    } };

    ghost invariant = { λ m. length m.links < chunk_limit };
}

impl Checkpoints {
    /// Returns the marks of a run, or `None` if no hash chain was kept.
    pub(crate) fn of(unlocked: &Unlocked, tally: &RunProgress) -> Option<Checkpoints>
        ensures { result ≡ marks_over unlocked.now tally.now.chain }
    {
        match &tally.chain {
            Some(links) => Some(Checkpoints {
                key: position_key(&unlocked.key, &unlocked.nonce),
                file_id: unlocked.id,
                links: links.again(),
            }),
            None => None,
        }
    }

    /// Returns the position at a checkpoint within the first `bytes` bytes of the plaintext: that of
    /// the stop if all full chunks lie within them, or else one that is at most four times as far
    /// from the last full chunk as the end of these bytes is.
    pub fn position_within(&self, bytes: u64) -> Position
        ensures { IsMarked self.now bytes result }
    {
        let mark = self.links.mark_within(bytes);
        Position::with_tag(&self.key, mark.index, self.file_id, mark.chain)
    }
}
