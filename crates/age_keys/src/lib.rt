//! From the header of an age file to the key of its payload (<https://c2sp.org/age>).
//!
//! A file key of 16 bytes is wrapped in the body of a stanza. [`open_header`] has it found by an
//! [`Unlock`], and checks the header's MAC, an HMAC under a key that HKDF derives from the file
//! key. HKDF of the file key and the payload's nonce then gives the [`PayloadKey`], under which
//! ChaCha20 and Poly1305 seal each chunk.
//!
//! Constant time isn't claimed, and no key is wiped.
#![tactic(auto)]

mod key;
mod laws;
mod open;
mod passphrase;
mod payload;
mod random;
mod scrypt;
mod shared_secret;
mod unlock;
mod wrap;
mod x25519;

pub use age_chunk::PAYLOAD_NONCE_LEN;
pub use age_fault::KeyFault;
pub use age_scrypt::{Steps, WORK_FACTOR_LIMIT};
pub use key::FileKey;
pub use laws::passphrase_opens;
pub use open::{compute_mac, open_header, scrypt_not_alone};
pub use passphrase::{PASSPHRASE_LIMIT, Passphrase};
pub use payload::{PayloadKey, payload_key, position_key};
pub use random::{FileRandom, RANDOM_LEN};
pub use scrypt::{ScryptStanza, scrypt_header};
pub use shared_secret::SharedSecret;
pub use unlock::{KnownKey, Unlock};
pub use x25519::X25519Stanza;
