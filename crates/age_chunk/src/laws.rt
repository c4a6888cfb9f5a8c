//! A law about the definitions alone. The function does nothing: what its contract says holds for
//! every box.

ghost use Rattle.age_chunk.specs.{BytesSuffice};

/// Proves that the law of [`ChunkBox`](crate::ChunkBox) asks no more of a box than what it does
/// with bytes. That law is about all lists of numbers, but a box that meets it only on bytes, such
/// as one made of tables, does the same with bytes as some box that meets all of it. A law about
/// the definitions: the call does nothing.
#[tactic(auto, using(crate::proofs::BeyondLemmas::valid_beyond))]
pub fn valid_beyond()
    ensures { BytesSuffice }
{}
