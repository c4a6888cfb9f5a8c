//! The random bytes in an age file for a passphrase.

ghost use Rattle.std.specs.Prelude.{◌≡◌, take, drop};

use age_chunk::PAYLOAD_NONCE_LEN;

/// The number of random bytes in an age file for a passphrase: file key, salt and payload nonce.
pub const RANDOM_LEN: usize = 16 + 16 + PAYLOAD_NONCE_LEN;

/// The random parts of an age file for a passphrase. They must be new for each file.
#[derive(Clone, Copy)]
pub struct FileRandom {
    /// The file key.
    pub file_key: [u8; 16],
    /// The salt of the scrypt stanza.
    pub salt: [u8; 16],
    /// The nonce before the payload.
    pub payload_nonce: [u8; PAYLOAD_NONCE_LEN],
}

impl FileRandom {
    /// Splits random bytes into the file key, the salt and the payload nonce, in this order.
    pub fn of(bytes: &[u8; RANDOM_LEN]) -> FileRandom
        ensures key { result.file_key ≡ take 16 bytes.now }
        ensures salt { result.salt ≡ take 16 (drop 16 bytes.now) }
        ensures nonce { result.payload_nonce ≡ take 16 (drop 32 bytes.now) }
    {
        let mut random = FileRandom {
            file_key: [0; 16],
            salt: [0; 16],
            payload_nonce: [0; PAYLOAD_NONCE_LEN],
        };
        random.file_key.copy_from_slice(&bytes[..16]);
        random.salt.copy_from_slice(&bytes[16..32]);
        random.payload_nonce.copy_from_slice(&bytes[32..]);
        random
    }
}
