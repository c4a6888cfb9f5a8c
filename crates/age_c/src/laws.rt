//! Laws about any list of calls. Decoders and encoders that take turns, or several of either, need
//! no law: each call takes its own by reference, and the library keeps nothing else.

ghost use Rattle.age_c.specs.{CallsAreWritten, PartsAreWritten, OpeningsAreParts, UndamagedOpens};
ghost use Rattle.age_c.specs.{AnswersAreTextCalls, DecodesAreWritten, AnswersAreDecodeCalls};
ghost use Rattle.age_c.specs.{DecodersAreRight, SoughtIsRight, EncodersWriteFiles, DecodersOpenFiles};
ghost use Rattle.age_c.specs.{DecodersReadBack, EncodersAreRead, KeysOpen};

/// Proves the headline for a caller who opens chunks. After any calls that give blocks, and the end
/// after them, to a reader that was just begun, or went to a chunk, while no block opens except as
/// the writer of a plaintext sealed it, what was written is a prefix of that plaintext from that
/// chunk on, and all of it if the last call is an end that returned 0; then the chunk begins within
/// the plaintext, so that its length is known. An undamaged payload gives all of it, and 0 each
/// time.
///
/// [`age_c_open_at`](crate::age_c_open_at) makes such calls, by [`openings_are_parts`], and so do
/// those of a decoder, by [`decodes_are_written`]. A law about the definitions: the call does
/// nothing.
#[tactic(auto, using(crate::proofs::CallLemmas::calls_are_written))]
pub fn calls_are_written()
    ensures { CallsAreWritten }
{}

/// Proves that [`calls_are_written`] holds after each seek, for any seeks and calls on one reader.
/// Each plaintext that was written is the part of the writer's plaintext at its place.
/// [`age_c_open_at`](crate::age_c_open_at) makes both, by [`openings_are_parts`]. A law about the
/// definitions: the call does nothing.
#[tactic(auto, using(crate::proofs::CallLemmas::parts_are_written))]
pub fn parts_are_written()
    ensures { PartsAreWritten }
{}

/// Proves that each use of [`age_c_open_at`](crate::age_c_open_at) is, by its contract, one of the
/// seeks and calls of [`parts_are_written`]: what it writes is the part of the writer's plaintext
/// at the chunk's place. A law about the definitions: the call does nothing.
#[tactic(auto, using(crate::proofs::CallLemmas::openings_are_parts))]
pub fn openings_are_parts()
    ensures { OpeningsAreParts }
{}

/// Proves the converse of [`parts_are_written`], for a caller who saves what still opens. After any
/// calls of [`age_c_open_at`](crate::age_c_open_at) on one reader, each chunk whose block was given
/// as the writer sealed it, at its place, was opened and written. So the chunks that didn't open
/// are just those that were damaged. A law about the definitions: the call does nothing.
#[tactic(auto, using(crate::proofs::UndamagedOpeningLemmas::undamaged_opens))]
pub fn undamaged_opens()
    ensures { UndamagedOpens }
{}

/// Proves the headline for a caller who decodes. Since its header was opened, or since the last
/// seek, what any calls of [`age_c_decode_piece`](crate::age_c_decode_piece) and
/// [`age_c_decode_end`](crate::age_c_decode_end) on a decoder wrote is a prefix of the plaintext
/// from that place on, and all of that if the last of them is an end that returned 0. (A piece
/// counts as several calls: `DecodesMore`.) A law about the definitions: the call does nothing.
#[tactic(auto, using(crate::proofs::DecoderLemmas::decodes_are_written))]
pub fn decodes_are_written()
    ensures { DecodesAreWritten }
{}

/// Proves that each use of [`age_c_decode_end`](crate::age_c_decode_end) is, by its contract, one
/// of the calls of [`decodes_are_written`]. So is each use of `decode`, by which
/// [`age_c_decode_piece`](crate::age_c_decode_piece) takes a piece. A law about the definitions:
/// the call does nothing.
#[tactic(auto, using(crate::proofs::DecoderLemmas::answers_are_decode_calls))]
pub fn answers_are_decode_calls()
    ensures { AnswersAreDecodeCalls }
{}

/// Proves the headline for a caller who decodes from the beginning. After any calls of
/// `age_c_decode_head_..` on a decoder that was begun, if its header is open, then what they took
/// is the header and the nonce, and [`decodes_are_written`] holds from the plaintext's first byte
/// on. A law about the definitions: the call does nothing.
pub fn decoders_are_right()
    ensures { DecodersAreRight }
{}

/// Proves that [`decodes_are_written`] holds from the place of the last seek on, by
/// [`age_c_decode_seek`](crate::age_c_decode_seek). A law about the definitions: the call does
/// nothing.
pub fn sought_is_right()
    ensures { SoughtIsRight }
{}

/// Proves that an encoder writes the age file of what it took, whatever it was used for before: by
/// a call of `age_c_encode_..` that returned 0, then any calls of
/// [`age_c_encode_piece`](crate::age_c_encode_piece), and then one of
/// [`age_c_finish_text`](crate::age_c_finish_text) that returned 0. (A piece counts as several
/// calls: `EncodesMore`.) A law about the definitions: the call does nothing.
pub fn encoders_write_files()
    ensures { EncodersWriteFiles }
{}

/// Proves that each use of [`age_c_finish_text`](crate::age_c_finish_text) is, by its contract, one
/// of the calls of [`encoders_write_files`]. So is each use of `feed_text`, by which
/// [`age_c_encode_piece`](crate::age_c_encode_piece) takes a piece. A law about the definitions:
/// the call does nothing.
#[tactic(auto, using(crate::proofs::WriterLemmas::answers_are_text_calls))]
pub fn answers_are_text_calls()
    ensures { AnswersAreTextCalls }
{}

/// Proves that a decoder that is given an age file in pieces of any length opens it, unless memory
/// is lacking: a file key opens each file of that key, and a passphrase each file that an encoder
/// wrote under it. A law about the definitions: the call does nothing.
pub fn decoders_open_files()
    ensures { DecodersOpenFiles }
{}

/// Proves that a decoder that is given an age file gives back the plaintext, in whatever pieces it
/// gets the payload. A law about the definitions: the call does nothing.
pub fn decoders_read_back()
    ensures { DecodersReadBack }
{}

/// Proves which keys of a decoder open what an encoder wrote: the passphrase, if the work that it
/// allows suffices, the file key, and the shared secret by which
/// [`age_c_wrap_shared`](crate::age_c_wrap_shared) wrapped the file key in the only stanza. By
/// [`decoders_open_files`] and [`decoders_read_back`] the decoder then gives the plaintext back. A
/// law about the definitions: the call does nothing.
pub fn keys_open()
    ensures { KeysOpen }
{}

/// Proves the headline for a caller who encodes: what an encoder wrote, from a begin that returned
/// 0 to an end that returned 0, a decoder of the same key gives back, in whatever pieces either is
/// given its bytes. A law about the definitions: the call does nothing.
pub fn encoders_are_read()
    ensures { EncodersAreRead }
{}
