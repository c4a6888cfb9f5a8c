//! The identity that opens a file, and the format of the files with secrets.

ghost use Rattle.std.specs.Prelude.{◌≡◌, IfSome, Some};
ghost use Rattle.age_cli_common.specs.Identities.{HoldsBytes, IsSharedIn};
ghost use Rattle.age_cli_common.specs.Files.{without_line_feed};

use crate::secret::OwnPassphrase;
use age_keys::{FileKey, KeyFault, KnownKey, PASSPHRASE_LIMIT, SharedSecret, Steps, Unlock};
use age_stanza::Header;
use std::alloc::Global;

/// An identity that opens a file: a passphrase, a file key or a shared secret.
#[derive(Drop)]
pub enum Identity {
    /// A passphrase, and the greatest work factor that is accepted.
    ByPassphrase(OwnPassphrase),
    /// A file key.
    ByFileKey(KnownKey),
    /// A shared secret, and the recipient that it was made for.
    ByShared(SharedSecret),
}

impl Unlock for Identity {
    ghost use Rattle.age_cli_common.specs.Identities.{allows_by, refuses_by, steps_by};

    ghost allows = { allows_by };

    ghost refuses = { refuses_by };

    ghost most_steps = { steps_by };

    fn unlock(
        &self,
        alloc: Global,
        header: &Header,
        steps: &mut Steps,
    ) -> Result<FileKey, KeyFault> {
        match self {
            Identity::ByPassphrase(pass) => pass.unlock(alloc, header, steps),
            Identity::ByFileKey(key) => key.unlock(alloc, header, steps),
            Identity::ByShared(shared) => shared.unlock(alloc, header, steps),
        }
    }
}

/// Returns the bytes without one line feed at their end.
pub(crate) fn trimmed(bytes: &[u8]) -> &[u8]
    ensures { result.now ≡ without_line_feed bytes.now }
{
    let n = bytes.len();
    if n > 0 && bytes[n - 1] == b'\n' {
        &bytes[..n - 1]
    } else {
        bytes
    }
}

/// The greatest length of a passphrase's file: 65,536 bytes and a line feed.
pub(crate) const PASSPHRASE_FILE_MAX: usize = PASSPHRASE_LIMIT + 1;

/// The length of a shared secret's file: the secret, and the recipient that it was made for.
pub(crate) const SHARED_FILE_LEN: usize = 64;

/// Parses a shared secret, and the recipient after it.
pub(crate) fn parse_shared_secret(bytes: &[u8]) -> Option<SharedSecret>
    ensures some { IfSome result (IsSharedIn (HoldsBytes (Some bytes.now))) }
{
    let (shared, recipient) = bytes.split_first_chunk::<32>()?;
    Some(SharedSecret::new(shared, recipient.as_array::<32>()?))
}
