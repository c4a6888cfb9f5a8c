//! Laws about an encryption and a decryption of what it wrote.

ghost use Rattle.age_file.specs.ThereAndBack.{AgeFileIsWhole, RoundTrip};

use age_keys::passphrase_opens;
use age_stanza::one_header;

/// Proves that the secret's passphrase opens the age file of the secret and a plaintext, if the
/// work factor is within the limit: only running out of memory may stop the opening of its header.
/// A law about the definitions: the call does nothing.
pub fn age_file_is_whole()
    ensures { AgeFileIsWhole }
{
    passphrase_opens();
}

/// Proves that [`decrypt`](crate::decrypt) gives back what [`encrypt`](crate::encrypt) wrote with
/// the same passphrase, or stops with `Read` (26), `Write` (27), `Memory` (28) or `ReadNeverEnds`
/// (29), while a last block that is full doesn't open as one before the last. No more is assumed of
/// both calls than their contracts promise. A law about the definitions: the call does nothing.
pub fn round_trip()
    ensures { RoundTrip }
{
    one_header();
    passphrase_opens();
}
