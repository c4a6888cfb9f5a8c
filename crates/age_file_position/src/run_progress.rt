//! A count of how far a run has come.

ghost use Rattle.std.specs.Prelude.{◌≡◌, ◌<◌, ◌≤◌, ◌++◌, ◌+◌, List, ℕ, [], length, IfSome, option_map};
ghost use Rattle.std.specs.Option.{ForSome};
ghost use Rattle.sha2.specs.Hashers.{Holds256};
ghost use Rattle.age_file_position.specs.Bindings.{chain};
ghost use Rattle.age_file_position.specs.Chains.{chain_if, link_if};
ghost use Rattle.age_file_position.specs.declared.position.PositionPolicy.TheVariants.{Kept};
ghost use Rattle.age_chunk.specs.{chunk_limit};

use crate::chunk_chain::ChunkChain;
use crate::position::PositionPolicy;
use age_io::ByteTrace;
use sha2::{Digest, Sha256};

/// A count of how far a run has come.
#[derive(Drop)]
pub struct RunProgress {
    /// The number of bytes that the run wrote.
    pub written: u128,
    /// The number of full chunks, from the start of the plaintext, that come before the last one
    /// and were written.
    pub index: u64,
    /// The hash chain over the full chunks that were written, if positions are kept.
    pub chain: Option<ChunkChain>,
    ghost within: { index < chunk_limit },
    ghost few: { ForSome chain (λ links. length links ≤ index) },
}

impl RunProgress {
    ghost use Rattle.age_file_position.specs.Tallies.{AdvancesTally};

    /// Makes the count of a run that has written nothing.
    pub fn new(positions: PositionPolicy) -> RunProgress
        ensures written { result.written ≡ 0 }
        ensures index { result.index ≡ 0 }
        ensures chain { result.chain ≡ chain_if positions [] }
    {
        let chain = match positions {
            PositionPolicy::Kept => Some(ChunkChain::new()),
            PositionPolicy::Dropped => None,
        };
        RunProgress {
            written: 0,
            index: 0,
            chain,
        }
    }

    /// Drops the hash chain if positions aren't kept.
    pub fn keep(&mut self, positions: PositionPolicy)
        ensures written { self.new.written ≡ self.old.written }
        ensures index { self.new.index ≡ self.old.index }
        ensures chain { (chunks : List (List ℕ)) → self.old.chain ≡ chain_if Kept chunks
            → self.new.chain ≡ chain_if positions chunks }
    {
        match positions {
            PositionPolicy::Kept => {}
            PositionPolicy::Dropped => self.chain = None,
        }
    }

    /// Counts a chunk that was written, unless it was the last of its plaintext: a last chunk
    /// doesn't raise the opener's index, and isn't linked.
    pub fn count(&mut self, index: u64, chunk: &[u8])
        requires { index < chunk_limit }
        ensures same { self.new.written ≡ self.old.written }
        ensures counted { AdvancesTally self.old.index self.old.chain index
            (link_if self.old.chain chunk.now) self.new }
    {
        if index <= self.index {
            return;
        }
        self.index = index;
        if let Some(links) = &mut self.chain {
            links.add(chunk);
        }
    }

    /// Returns the hash chain, if it is kept.
    pub fn chain_now(&self) -> Option<[u8; 32]>
        ensures { result ≡ option_map chain self.now.chain }
    {
        match &self.chain {
            Some(links) => Some(links.chain()),
            None => None,
        }
    }

    /// Returns a digest that was fed the hash chain, if it is kept.
    pub fn digest(&self) -> Sha256
        ensures { IfSome self.now.chain (λ links. Holds256 result (chain links)) }
    {
        let mut digest = Sha256::new();
        if let Some(links) = &self.chain {
            digest.update(&links.chain());
        }
        digest
    }

    /// Counts a chunk, by a digest that was fed the hash chain and then the chunk.
    pub fn count_fed(&mut self, digest: Sha256, chunk: &ByteTrace)
        requires limit { self.old.index + 1 < chunk_limit }
        requires fed { IfSome self.old.chain (λ links. Holds256 digest (chain links ++ chunk.now)) }
        ensures same { self.new.written ≡ self.old.written }
        ensures index { self.new.index ≡ self.old.index + 1 }
        ensures chain { self.new.chain ≡ link_if self.old.chain chunk.now }
    {
        self.index += 1;
        if let Some(links) = &mut self.chain {
            links.link(digest, chunk);
        }
    }
}
