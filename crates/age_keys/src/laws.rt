//! Laws about the definitions alone. Each function does nothing: its contract holds of every header
//! and all bytes.

ghost use Rattle.age_keys.specs.{PassphraseOpens};

/// Proves that the passphrase that a header of [`scrypt_header`](crate::scrypt_header) was made for
/// opens it, if its work factor is within the limit: only the file key, or running out of memory,
/// may be returned for it. A law about the definitions: the call does nothing.
pub fn passphrase_opens()
    ensures { PassphraseOpens }
{}
