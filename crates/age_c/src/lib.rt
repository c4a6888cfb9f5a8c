//! Age files (<https://c2sp.org/age>) for callers in C. All state is plain numbers in the caller's
//! memory, so nothing needs to be freed. `bindings/c/agefile.c` makes the calls of
//! `include/agefile.h` of them: it allocates, draws random bytes and wipes.
//!
//! A [`Decoder`] takes a file from its first byte on, in pieces of any length, and writes
//! plaintext; it can be begun again, ended, or sent to any place, at any time, and its [`Reader`]
//! opens any chunk by itself. An encoder, a [`WriteStream`], begins with a passphrase, or with a
//! file key and the stanzas that wrap it, and takes plaintext.
//!
//! Each function may be called with any numbers in what it is given, and with slices of any length.
//! A call that doesn't fit returns [`MISUSED`].
#![tactic(auto)]

mod blocks;
mod decode;
mod decode_begin;
mod decode_head;
mod decode_open;
mod decode_piece;
mod decode_seek;
mod decoder;
mod encode;
mod encode_piece;
mod feed;
mod feed_text;
mod header;
mod laws;
mod may_open;
mod numbers;
mod open_at;
mod reader;
mod seal;
mod seal_key;
mod sealing;
mod seek;
mod size;
mod stanza_place;
mod stanzas;
mod start;
mod stream;
mod text_len;
mod work;
mod wrap;
mod write_stream;
mod writer;

pub use decode::age_c_decode_end;
pub use decode_begin::age_c_decode_begin;
pub use decode_open::{
    age_c_decode_head_key, age_c_decode_head_passphrase, age_c_decode_head_shared,
};
pub use decode_piece::age_c_decode_piece;
pub use decode_seek::age_c_decode_seek;
pub use decoder::Decoder;
pub use encode::{age_c_encode_key, age_c_encode_passphrase};
pub use encode_piece::age_c_encode_piece;
pub use feed_text::age_c_finish_text;
pub use header::{age_c_header, age_c_stanzas};
pub use laws::{
    answers_are_decode_calls, answers_are_text_calls, calls_are_written, decoders_are_right,
    decoders_open_files, decoders_read_back, decodes_are_written, encoders_are_read,
    encoders_write_files, keys_open, openings_are_parts, parts_are_written, sought_is_right,
    undamaged_opens,
};
pub use open_at::age_c_open_at;
pub use reader::Reader;
pub use size::age_c_size;
pub use stanza_place::StanzaPlace;
pub use stream::Stream;
pub use wrap::age_c_wrap_shared;
pub use write_stream::WriteStream;
pub use writer::Writer;

/// The result of a call whose bytes end inside the header or the payload nonce: more of the file is
/// needed.
pub const MORE: u32 = 254;

/// The result of a call that doesn't fit: a length, a work factor or the number of a chunk is out
/// of range, there is too little room, or a reader, writer or stream has numbers that can't be
/// used. The call changed nothing, except that each number that it would have reported is 0.
pub const MISUSED: u32 = 255;
