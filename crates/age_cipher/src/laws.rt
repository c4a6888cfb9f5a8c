//! Laws of the definitions.

ghost use Rattle.age_cipher.specs.{KeystreamIsBlocks, DistinctSealings, OpensSealings};

/// Proves that under one key, nonce and associated data different plaintexts seal to different
/// blocks. A law about the definitions: the call does nothing.
#[tactic(auto, using(crate::proofs::SealingLemmas::one_text))]
pub fn sealings_are_distinct()
    ensures { DistinctSealings }
{}

/// Proves that the keystream is the blocks of RFC 8439 (2.3 and 2.4), one after the other. A law
/// about the definitions: the call does nothing.
#[tactic(auto, using(crate::proofs::KeystreamLemmas::keystream_of_blocks))]
pub fn keystream_is_blocks()
    ensures { KeystreamIsBlocks }
{}

/// Proves that a block opens to a plaintext exactly if it is that plaintext's sealing. A law about
/// the definitions: the call does nothing.
#[tactic(auto, using(crate::proofs::sealing_of_opening, crate::proofs::opens_to))]
pub fn opens_sealings()
    ensures { OpensSealings }
{}
