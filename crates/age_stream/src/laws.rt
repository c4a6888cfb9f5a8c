//! Laws about the definitions, for the layers above.
ghost use Rattle.age_stream.specs.{ChunksAreCounted, ClosedStays, EndCloses, FreshIsOpen, NoncesDiffer};
ghost use Rattle.age_stream.specs.{PayloadIsLonger, PiecesJoin, ReleasedGrows, ReleasedIsWritten};
ghost use Rattle.age_stream.specs.{SealedGrows, SealingsDiffer, ClearIsSealable, RestIsAuthentic};
ghost use Rattle.age_stream.specs.{PayloadRoundTrip, UndamagedIsAuthentic, WholeIsAuthentic, LengthsAreOne};
ghost use Rattle.age_stream.specs.{ChunksAreOne, SealsChunks};

/// Proves that no two chunks of a payload have the same nonce. A law about the definitions: the
/// call does nothing.
pub fn nonces_differ()
    ensures { NoncesDiffer }
{}

/// Proves that different plaintexts are sealed to different blocks at a nonce. A law about the
/// definitions: the call does nothing.
#[tactic(auto, using(crate::proofs::LawLemmas::sealings_differ))]
pub fn sealings_differ()
    ensures { SealingsDiffer }
{}

/// Proves that feeding two pieces equals feeding their concatenation. A law about the definitions:
/// the call does nothing.
pub fn pieces_join()
    ensures { PiecesJoin }
{}

/// Proves that with more bytes the released plaintext only grows, and the index never falls. A law
/// about the definitions: the call does nothing.
pub fn released_grows()
    ensures { ReleasedGrows }
{}

/// Proves that a segment that was given nothing is open. Once it isn't open, more bytes and an end
/// release nothing, and a refusal stays. After an end it isn't open, and it stands at the same
/// chunk. A law about the definitions: the call does nothing.
#[tactic(auto, using(crate::proofs::GoingLemmas::fresh_outcome, crate::proofs::LawLemmas::end_closes))]
pub fn closed_stays()
    ensures fresh { FreshIsOpen }
    ensures closed { ClosedStays }
    ensures end { EndCloses }
{}

/// Proves the headline of one segment, for every sealing and opening that meet the law of
/// [`ChunkBox`](crate::ChunkBox): see [`held_is_written`](crate::held_is_written). A law about the
/// definitions: the call does nothing.
#[tactic(auto, using(crate::proofs::SegmentLemmas::segment_right))]
pub fn released_is_written()
    ensures { ReleasedIsWritten }
{}

/// Proves that a payload is longer than its plaintext by a tag for each chunk, and that the blocks
/// before the last are full. A law about the definitions: the call does nothing.
pub fn payload_is_longer()
    ensures { PayloadIsLonger }
{}

/// Proves that a plaintext is as long as [`plaintext_len`](crate::plaintext_len) says of its
/// payload's length. A law about the definitions: the call does nothing.
#[tactic(auto, using(crate::proofs::LawLemmas::lengths_are_one))]
pub fn lengths_are_one()
    ensures { LengthsAreOne }
{}

/// Proves that the payload of a plaintext, without its last block, is a prefix of the payload of
/// any longer plaintext that begins with that plaintext. A law about the definitions: the call does
/// nothing.
#[tactic(auto, using(crate::proofs::ChunkLemmas::sealed_grows))]
pub fn sealed_grows()
    ensures { SealedGrows }
{}

/// Proves that the index of a segment counts the full chunks before the plaintext: after a base of
/// `start` full chunks, what was released of the blocks before the last joins to the first `index`
/// chunks of all plaintext so far. A law about the definitions: the call does nothing.
pub fn chunks_are_counted()
    ensures { ChunksAreCounted }
{}

/// Proves that the payload of a plaintext, delivered in any pieces and then an end, meets the
/// premise of [`held_is_written`](crate::held_is_written), if the last chunk is short or its block
/// doesn't open as one before the last. So does its rest from a chunk on, and that rest after a
/// restart, if each segment that was given up before met the premise. A law about the definitions:
/// the call does nothing.
#[tactic(auto, using(crate::proofs::ReplayLemmas::rest_is_right))]
pub fn undamaged_is_authentic()
    ensures whole { WholeIsAuthentic }
    ensures rest { RestIsAuthentic }
    ensures after { UndamagedIsAuthentic }
{}

/// Proves that the payload of a plaintext, delivered in any pieces and then an end, gives that
/// plaintext, with the status [`Done`](crate::Status::Done), if the last chunk is short or its
/// block doesn't open as one before the last. A law about the definitions: the call does nothing.
pub fn round_trip()
    ensures { PayloadRoundTrip }
{}

/// Proves that with [`ClearBox`](crate::ClearBox) every plaintext of at most 2^48 chunks meets the
/// conditions of [`undamaged_is_authentic`] and [`round_trip`]: delivered undamaged, its payload
/// meets the premise of [`held_is_written`](crate::held_is_written) and gives the plaintext back. A
/// law about the definitions: the call does nothing.
#[tactic(auto, using(crate::proofs::ReplayLemmas::clear_is_sealable))]
pub fn clear_is_sealable()
    ensures { ClearIsSealable }
{}

/// Proves that a plaintext has exactly one list of chunks, and that the payload seals each at the
/// nonce of its number and of whether it is the last (<https://c2sp.org/age#payload>). A law about
/// the definitions: the call does nothing.
#[tactic(auto, using(crate::proofs::ChunkLemmas::seals_chunks))]
pub fn chunks_are_one()
    ensures one { ChunksAreOne }
    ensures sealed { SealsChunks }
{}
