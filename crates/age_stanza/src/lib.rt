//! The text header of an age file, version 1 (<https://c2sp.org/age#header>).
//!
//! A header is a text of lines that end with LF alone. Its first line is `age-encryption.org/v1`.
//! One or more recipient stanzas follow, each an argument line (`-> ` and arguments separated by
//! single spaces) and a body in base64 (RFC 4648, section 4, without padding, canonical). The body
//! is wrapped at 64 characters, and its last line is shorter than 64 and may be empty. The end line
//! is `--- ` and the 43 characters of the header's MAC. The binary payload follows immediately.
//!
//! A [`Header`] has recipient [`Stanzas`] and a MAC. A [`Stanza`] has [`Arguments`], each an
//! [`Argument`], and a body, which is `Bytes`. Each of the three is a `List` of `age_io`.
//!
//! [`HeadParser`] takes a file's bytes in pieces, however they are split, and returns the header as
//! soon as its last byte has arrived, or the first fault with its line. It accepts exactly the
//! texts of the grammar and takes no byte of the payload. [`encode_head`] writes the one text of a
//! header, and [`mac_text`] the part of it that the MAC covers. [`read_base64`] reads the bytes of
//! an argument out of its base64.
#![tactic(auto)]

mod argument;
mod argument_line;
mod encode;
mod head_step;
mod header;
mod laws;
mod lengths;
mod parser;
mod partial;
mod piece;
mod place;
mod text;
mod valid;

pub use age_fault::{HeadFault, HeadKind};
pub use argument::{Argument, Arguments};
pub use encode::{encode_head, mac_text};
pub use head_step::HeadStep;
pub use header::{Header, Stanza, Stanzas};
pub use laws::{
    alphabet, any_pieces, faults_stay, mac_text_is_front, one_fault, one_header, text_is_base64,
};
pub use parser::HeadParser;
pub use text::read_base64;
pub use valid::{is_argument, is_header};

/// The greatest length of a header in bytes, from the version line to the end line's LF.
pub const HEAD_MAX: usize = 1_048_576;
