//! The hash chain over the chunks of a plaintext, and the checkpoints of it that are kept.

ghost use Rattle.std.specs.Prelude.{◌≡◌, ◌++◌, ◌∷◌, ◌<◌, ◌≤◌, ◌+◌, ◌*◌, ◌/◌, ◌↔◌, [], true, length, List, ℕ};
ghost use Rattle.sha2.specs.Hashers.{Holds256};
ghost use Rattle.age_chunk.specs.{chunk_length, chunk_limit};
ghost use Rattle.age_file_position.specs.Bindings.{chain};
ghost use Rattle.age_file_position.specs.Chains.{IsWithinFourfold};
ghost use Rattle.age_file_position.specs.Checkpoints.{IsMark, IsMarkWithin, IsPair, ArePairs};

use crate::chunk_trace::ChunkTrace;
use age_chunk::CHUNK_LEN;
use age_io::ByteTrace;
use sha2::{Digest, Sha256};
use std::marker::Model;

/// The number of distances at which marks are kept: each power of two below 2^48.
const DISTANCES: usize = 48;

/// A checkpoint of the hash chain, after the first `index` chunks of a plaintext.
#[derive(Clone, Copy)]
pub struct Checkpoint {
    /// The number of chunks before the mark.
    pub index: u64,
    /// The hash chain over the chunks before the mark.
    pub chain: [u8; 32],
}

impl Checkpoint {
    /// Returns the mark before the first chunk.
    #[tactic(auto, unfolding(crate::specs::Bindings::chain))]
    fn start() -> Checkpoint
        ensures index { result.index ≡ 0 }
        ensures chain { result.chain ≡ chain [] }
    {
        Checkpoint {
            index: 0,
            chain: [0; 32],
        }
    }

    /// Returns whether the chunks before the mark have at most `bytes` bytes.
    fn is_within(&self, bytes: u64) -> bool
        ensures { (result ≡ true) ↔ (self.now.index * chunk_length ≤ bytes) }
    {
        u128::from(self.index) * CHUNK_LEN as u128 <= u128::from(bytes)
    }
}

/// The last two marks at a distance. A new one is kept after each `distance` chunks.
#[derive(Clone, Copy)]
pub(crate) struct CheckpointPair {
    pub(crate) distance: u64,
    pub(crate) last: Checkpoint,
    pub(crate) before: Checkpoint,
}

impl CheckpointPair {
    /// Returns the pair before the first chunk.
    fn start(distance: u64) -> CheckpointPair
        requires { 0 < distance }
        ensures pair { IsPair [] result }
        ensures same { result.distance ≡ distance }
    {
        CheckpointPair {
            distance,
            last: Checkpoint::start(),
            before: Checkpoint::start(),
        }
    }

    /// Returns the pair after one more chunk, given the mark after it.
    fn after(&self, mark: Checkpoint) -> CheckpointPair
        ensures pair { (chunks : List (List ℕ)) (chunk : List ℕ) → IsPair chunks self.now
            → IsMark (chunks ++ chunk ∷ []) mark → mark.index ≡ length chunks + 1
            → IsPair (chunks ++ chunk ∷ []) result }
        ensures same { result.distance ≡ self.now.distance }
    {
        if mark.index.saturating_sub(self.last.index) < self.distance {
            return *self;
        }
        CheckpointPair {
            distance: self.distance,
            last: mark,
            before: self.last,
        }
    }
}

/// Returns the pairs before the first chunk.
fn start_pairs() -> [CheckpointPair; DISTANCES]
    ensures { ArePairs [] result }
{
    let mut pairs = [CheckpointPair::start(1); DISTANCES];
    for k in 0..DISTANCES {
        pairs[k] = CheckpointPair::start(1 << k);
    }
    pairs
}

/// Returns the pairs after one more chunk, given the mark after it.
fn pairs_after(pairs: &[CheckpointPair; DISTANCES], mark: Checkpoint) -> [CheckpointPair; DISTANCES]
    ensures { (chunks : List (List ℕ)) (chunk : List ℕ) → ArePairs chunks pairs.now
        → IsMark (chunks ++ chunk ∷ []) mark → mark.index ≡ length chunks + 1
        → ArePairs (chunks ++ chunk ∷ []) result }
{
    let mut next = *pairs;
    for k in 0..DISTANCES {
        next[k] = pairs[k].after(mark);
    }
    next
}

/// Returns the older mark of the first pair for which it is within `bytes` bytes of the plaintext,
/// or the mark before the first chunk if there is none.
fn older_within(pairs: &[CheckpointPair; DISTANCES], bytes: u64) -> Checkpoint
    ensures { (chunks : List (List ℕ)) → ArePairs chunks pairs.now → length chunks < chunk_limit
        → bytes / chunk_length < length chunks
        → IsMarkWithin chunks bytes result × IsWithinFourfold (length chunks) bytes result.index }
{
    for k in 0..DISTANCES {
        let mark = pairs[k].before;
        if mark.is_within(bytes) {
            return mark;
        }
    }
    Checkpoint::start()
}

/// The hash chain over the chunks of a plaintext, one link a chunk.
///
/// It keeps marks, so that a run can also be continued from before its end: two for each power of
/// two, that far from each other. So within all but the last `d` chunks there is a mark less than
/// `4 * d` before the end. Contracts see the chunks.
#[derive(Drop)]
pub struct ChunkChain {
    last: Checkpoint,
    pairs: [CheckpointPair; DISTANCES],
    chunks: ChunkTrace,
}

impl Model for ChunkChain {
    ghost use Rattle.std.specs.Prelude.{◌≡◌, ℕ, List, length};
    ghost use Rattle.std.specs.Coded.{coded_list, coded_ℕ};
    ghost use Rattle.age_file_position.specs.Checkpoints.{IsMark, ArePairs};

    ghost Value = { List (List ℕ) };

    ghost coded = { coded_list (coded_list coded_ℕ) };

    ghost view = { λ l. l.chunks };

    ghost invariant = { λ l. IsMark l.chunks l.last × (l.last.index ≡ length l.chunks)
        × ArePairs l.chunks l.pairs };
}

impl ChunkChain {
    /// Returns the chain of no chunks.
    pub(crate) fn new() -> ChunkChain
        ensures { result ≡ [] }
    {
        ChunkChain {
            last: Checkpoint::start(),
            pairs: start_pairs(),
            chunks: ChunkTrace::new(),
        }
    }

    /// Copies the chain and its marks.
    pub fn again(&self) -> ChunkChain
        ensures { result ≡ self.now }
    {
        ChunkChain {
            last: self.last,
            pairs: self.pairs,
            chunks: self.chunks.again(),
        }
    }

    /// Returns the hash chain over all chunks.
    pub fn chain(&self) -> [u8; 32]
        ensures { result ≡ chain self.now }
    {
        self.last.chain
    }

    /// Appends a chunk, by a digest that was fed the chain and then the chunk.
    pub(crate) fn link(&mut self, digest: Sha256, chunk: &ByteTrace)
        requires room { length self.old < chunk_limit }
        requires fed { Holds256 digest (chain self.old ++ chunk.now) }
        ensures { self.new ≡ self.old ++ chunk.now ∷ [] }
    {
        let mark = Checkpoint {
            index: self.last.index + 1,
            chain: digest.finalize(),
        };
        self.chunks.note(chunk);
        self.last = mark;
        self.pairs = pairs_after(&self.pairs, mark);
    }

    /// Appends a chunk to the chain.
    pub(crate) fn add(&mut self, chunk: &[u8])
        requires { length self.old < chunk_limit }
        ensures { self.new ≡ self.old ++ chunk.now ∷ [] }
    {
        let mut digest = Sha256::new();
        digest.update(&self.last.chain);
        digest.update(chunk);
        let mut text = ByteTrace::new();
        text.note(chunk);
        self.link(digest, &text);
    }

    /// Returns a mark within the first `bytes` bytes of the plaintext: the last one, if all chunks
    /// are within them, or else one near the last chunk that is.
    pub fn mark_within(&self, bytes: u64) -> Checkpoint
        requires { length self.now < chunk_limit }
        ensures mark { IsMarkWithin self.now bytes result }
        ensures near { IsWithinFourfold (length self.now) bytes result.index }
    {
        if self.last.is_within(bytes) {
            return self.last;
        }
        older_within(&self.pairs, bytes)
    }
}
