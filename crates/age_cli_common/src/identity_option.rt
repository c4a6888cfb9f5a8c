//! The identity option of a command, and the identity that it makes.

ghost use Rattle.std.specs.Prelude.{◌≡◌, IfOk, IfErr, IfSome};
ghost use Rattle.age_keys.specs.{IsAllowed};
ghost use Rattle.age_fault.specs.declared.fault.FileFault.TheVariants.{Read};
ghost use Rattle.age_cli_files.specs.{OpenFails, Does, NotedSince};
ghost use Rattle.age_cli_common.specs.Identities.{HoldsBytes, IsPassphraseIn, IsSharedIn, file_of, file_bytes};
ghost use Rattle.age_cli_common.specs.Identities.{Makes, Chooses, IsSecretGiven};

use crate::command_error::{Usage, UsageError};
use crate::first_bytes::read_file;
use crate::identity::{Identity, PASSPHRASE_FILE_MAX, SHARED_FILE_LEN, parse_shared_secret};
use crate::secret::{OwnPassphrase, own_passphrase};
use age_cli_args::IdentityOptions;
use age_cli_files::{ErrorContext, FileSet, OpenError, Purpose};
use age_keys::{KnownKey, SharedSecret};
use std::alloc::Global;

/// The identity option of a command: a key, or the name of a file that isn't read yet.
#[derive(Drop)]
pub enum IdentityOption<'a> {
    /// A passphrase file, by name, and the greatest work factor that is accepted.
    PassphraseFile(&'a str, u32),
    /// A file key.
    FileKey(KnownKey),
    /// A file with a shared secret and its recipient, by name.
    SharedFile(&'a str),
}

impl<'a> IdentityOption<'a> {
    /// Returns the choice that the identity options make. Fails if none or several are given, or if
    /// the file key is malformed.
    pub fn of(options: &IdentityOptions<'a>) -> Result<IdentityOption<'a>, UsageError<'a>>
        ensures { IfOk result (Chooses options.now) }
    {
        match (options.pass, options.file_key, options.shared) {
            (Some(name), None, None) => Ok(IdentityOption::PassphraseFile(name, options.max_log)),
            (None, Some(digits), None) => match KnownKey::read(digits) {
                Some(key) => Ok(IdentityOption::FileKey(key)),
                None => Err(UsageError::from(Usage::BadFileKey)),
            },
            (None, None, Some(name)) => Ok(IdentityOption::SharedFile(name)),
            _ => Err(UsageError::from(Usage::GiveOneIdentity)),
        }
    }

    /// Reads the file that the option names. Returns `None` if it names none, or if the file is
    /// longer than a secret may be. Reads at most one byte more than that.
    pub fn read<F: FileSet<'a>>(
        &self,
        alloc: Global,
        files: &mut F,
    ) -> Result<Option<Vec<u8>>, OpenError<'a>>
        ensures does { Does (F.view files.old) (F.view files.new) }
        ensures faults { IfErr result (OpenFails Read) }
        ensures given { IfOk result (λ o. IsSecretGiven
            (NotedSince (F.view files.old) (F.view files.new)) (file_of self.now) (file_bytes o)) }
    {
        match self {
            IdentityOption::PassphraseFile(name, _) => {
                read_file(
                    alloc,
                    files,
                    *name,
                    Purpose::Passphrase,
                    PASSPHRASE_FILE_MAX,
                )
            }
            IdentityOption::FileKey(_) => Ok(None),
            IdentityOption::SharedFile(name) => {
                read_file(alloc, files, *name, Purpose::Input, SHARED_FILE_LEN)
            }
        }
    }

    /// Returns the identity, given the bytes that [`read`](Choice::read) returned. Fails if they
    /// hold no passphrase, or no shared secret with its recipient.
    pub fn identity(self, secret: Option<Vec<u8>>) -> Result<Identity, UsageError<'a>>
        ensures { IfOk result (Makes self.entry (file_bytes secret)) }
    {
        let len = count_held(&secret);
        match self {
            IdentityOption::PassphraseFile(name, max_log) => match passphrase_in(secret, max_log) {
                Some(pass) => Ok(Identity::ByPassphrase(pass)),
                None => Err(bad_passphrase_file(name, len)),
            },
            IdentityOption::FileKey(key) => Ok(Identity::ByFileKey(key)),
            IdentityOption::SharedFile(name) => match shared_in(&secret) {
                Some(shared) => Ok(Identity::ByShared(shared)),
                None => Err(UsageError::new(Usage::BadSharedFile, ErrorContext::Holds(name, len))),
            },
        }
    }
}

/// Returns the length of a file that was read, or `None` if it was too long.
pub fn count_held(held: &Option<Vec<u8>>) -> Option<usize> {
    match held {
        Some(bytes) => Some(bytes.len()),
        None => None,
    }
}

/// Returns the error that the file of this name holds no passphrase, but `len` bytes.
pub fn bad_passphrase_file<'w>(name: &'w str, len: Option<usize>) -> UsageError<'w> {
    UsageError::new(Usage::BadPassphraseFile, ErrorContext::Holds(name, len))
}

/// Returns the passphrase in the bytes of its file, if they hold one.
pub fn passphrase_in(secret: Option<Vec<u8>>, max_log: u32) -> Option<OwnPassphrase>
    ensures { IfSome result (λ words. IsPassphraseIn (HoldsBytes (file_bytes secret)) words.pass
        × (words.max_log ≡ max_log) × IsAllowed words.pass words.max_log) }
{
    match secret {
        Some(bytes) => own_passphrase(bytes, max_log),
        None => None,
    }
}

/// Returns the shared secret and the recipient in the bytes of their file, if they hold them.
fn shared_in(secret: &Option<Vec<u8>>) -> Option<SharedSecret>
    ensures { IfSome result (IsSharedIn (HoldsBytes (file_bytes secret.now))) }
{
    match secret {
        Some(bytes) => parse_shared_secret(bytes.as_slice()),
        None => None,
    }
}
