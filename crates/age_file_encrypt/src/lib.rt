//! The encryption of a file under a passphrase, from any source to any sink.
#![tactic(auto)]

mod encryption;
mod payload;
mod secret;

pub use encryption::{Preamble, Written, encrypt, encrypt_after};
pub use secret::Secret;
