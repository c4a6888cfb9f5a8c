//! ChaCha20, Poly1305 and the AEAD that joins them (RFC 8439), over texts that are changed in
//! place.
//!
//! ChaCha20 turns a key, a nonce and a block counter into a keystream. XOR with it encrypts a text,
//! and a second XOR gives the text back. Poly1305 reads a message as a polynomial whose
//! coefficients are its 16-byte blocks: the tag is the polynomial's value at a secret point, modulo
//! 2^130 - 5, plus a secret number. The AEAD joins the two. The text is encrypted from block 1 on,
//! and the tag covers the ciphertext, under a key that is half of block 0.
//!
//! No call allocates memory. Constant time isn't claimed, and no key is wiped.
#![tactic(auto)]

mod aead;
mod authenticator;
mod keystream;
mod lanes;
mod laws;
mod limbs;

pub use aead::{open_in_place, seal_in_place};
pub use authenticator::poly1305;
pub use keystream::xor_stream;
pub use laws::{keystream_is_blocks, opens_sealings, sealings_are_distinct};
