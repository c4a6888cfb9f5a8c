//! Outside vectors and worked examples: of the constructions under an age file, of its payload, and
//! of runs that stop.
//!
//! Each public function runs the vectors of one standard, or the worked examples of one layer, and
//! returns whether every one came out right. If it has a contract, `true` says more: that the
//! definition itself, not only this program, gives the values of the standard. The tests of
//! `age_tests` call each one.
#![tactic(auto)]

mod cipher;
mod delivery;
mod header;
mod kdf;
mod keys;
mod shared;
mod stops;

pub use cipher::{rfc_aead, rfc_chacha, rfc_poly1305};
pub use delivery::{EIGHT, delivery_rows, hostile_rows};
pub use header::{SMALLEST, header_rows};
pub use kdf::{rfc_hkdf, rfc_hmac, rfc_pbkdf2, rfc_scrypt};
pub use keys::{FILE_KEY, key_rows};
pub use shared::{X25519_HEADER, X25519_RECIPIENT, X25519_SECRET, shared_rows};
pub use stops::stop_rows;
