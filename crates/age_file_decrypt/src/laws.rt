//! Laws about the definitions.

ghost use Rattle.age_file_decrypt.specs.InARow.{RunsInARow, CallsInARow, RunsAreBound, DoneIsBound};
ghost use Rattle.age_file_decrypt.specs.InARow.{AuthenticRuns, HeadFaultsStay, UndamagedIsWritten};
ghost use Rattle.age_file_decrypt.specs.InARow.{DoneGaveText, DoneIsFile, StoppedGaveFront, RestIsFile};

use age_keys::Unlock;
use age_stanza::one_header;

/// Proves what any number of runs write, each from the file's start, or with the output of the run
/// before as its earlier output. While no block opens except as the writer of a plaintext sealed
/// it, every output is a prefix of the plaintext, the last is all of it if its run ended, a run
/// that stops while it copies that output wrote a prefix of the plaintext too, and each position
/// that is returned has the hash chain over the plaintext's first chunks. A law about the
/// definitions: the call does nothing.
pub fn runs_in_a_row()
    ensures { RunsInARow }
{}

/// Proves what calls of [`decrypt`](crate::decrypt) and [`resume`](crate::resume) write, by
/// unlockers of one kind, each resumed one with what the sink of the call before took as its
/// earlier output. While no block opens except as the writer of a plaintext sealed it, what each
/// call's sink took is a prefix of the plaintext, and all of it if the call is done, and each
/// position that is returned has the hash chain over the plaintext's first chunks. No more is
/// assumed of each call than its contract promises. A law about the definitions: the call does
/// nothing.
#[tactic(auto, using(crate::proofs::GivenLemmas::in_a_row))]
pub fn calls_in_a_row<U: Unlock>()
    ensures { CallsInARow U U.allows U.refuses }
{}

/// Proves that positions are bound to the plaintext before them. Assume that a position has the
/// hash chain over a plaintext's first chunks, that the bytes that were copied of the earlier
/// output have that chain only if they are these chunks, and that no block opens except as the
/// writer of that plaintext sealed it. Then the copied bytes are the plaintext's, what a resumed
/// run wrote is a prefix of the plaintext, and it is all of the plaintext if the call is done. A
/// law about the definitions: the call does nothing.
pub fn bound_positions<U: Unlock>()
    ensures runs { RunsAreBound U U.allows }
    ensures done { DoneIsBound U U.allows }
{}

/// Proves what a run of [`decrypt`](crate::decrypt) writes, or of [`resume`](crate::resume) if the
/// bytes that it copied are a prefix of the plaintext. While no block opens except as the writer of
/// the plaintext sealed it, what the run wrote is a prefix of the plaintext, it is all of the
/// plaintext if the call is done, and each position has the hash chain over the plaintext's first
/// chunks. A law about the definitions: the call does nothing.
pub fn authentic_runs<U: Unlock>()
    ensures { AuthenticRuns U U.allows }
{}

/// Proves that the fault of a header that an engine reports is the fault of all of the input, even
/// if the engine read only a part of it. A law about the definitions: the call does nothing.
pub fn head_faults_stay()
    ensures { HeadFaultsStay }
{}

/// Proves that the plaintext of a complete age file with a closed payload, which the unlocker
/// opens, is written, by [`decrypt`](crate::decrypt) and at a position of it by
/// [`resume`](crate::resume), or the call stops with `Read` (26), `Write` (27), `Memory` (28) or
/// `ReadNeverEnds` (29), if contracts see the source's bytes. No more is assumed of the call than
/// its contract promises. A law about the definitions: the call does nothing.
pub fn undamaged_is_written<U: Unlock>()
    ensures { UndamagedIsWritten U U.allows U.refuses }
{
    one_header();
}

/// Proves what the sources gave and a sink took, whatever they are over.
///
/// If [`decrypt`](crate::decrypt) returns `Ok`, the bytes that its source gave during the call are
/// the age file of a plaintext, its header is one that the unlocker opens, the source is at its
/// end, and the bytes that its sink took during the call are exactly that plaintext. The source
/// need not show the bytes that are to come, nor the sink its contents. If they do, as in memory,
/// the age file is all that was to come, and the sink has the plaintext after its earlier contents.
///
/// If [`resume`](crate::resume) returns `Ok`, there is a plaintext whose chunks before the position
/// are what the earlier output gave, and whose payload from there on is what the file gave, which
/// the unlocker opens and which is at its end; and the bytes that the sink took during the call are
/// exactly that plaintext. The blocks before the position's are skipped and not opened. If they are
/// those that a [`decrypt`](crate::decrypt) gave that stopped at that position, in the same file
/// and by the same key, and the earlier output was what it wrote, then the file is the age file of
/// the plaintext.
///
/// No more is assumed of the calls than their contracts promise. A law about the definitions: the
/// call does nothing.
pub fn done_gave_text<U: Unlock>()
    ensures gave { DoneGaveText U U.allows U.refuses }
    ensures shown { DoneIsFile U U.allows U.refuses }
    ensures front { StoppedGaveFront U U.allows U.refuses }
    ensures whole { RestIsFile U U.allows }
{}
