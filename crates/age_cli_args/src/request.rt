//! The requests of a user: a command with its arguments.

use age_host_model::{ClobberOption, Durability};

/// The greatest work factor that an option may give.
pub(crate) const MOST_WORK: u32 = 22;

/// The choice whether progress is shown while IN is read.
#[derive(Clone, Copy, PartialEq, Eq)]
pub enum ProgressOption {
    /// The number of bytes read of IN is shown.
    Shown,
    /// No progress is shown.
    Silent,
}

/// The files of a command that writes one, and how it writes.
#[derive(Clone, Copy)]
pub struct Paths<'a> {
    /// The path of the input (IN).
    pub from: &'a str,
    /// The path of the output (OUT).
    pub to: &'a str,
    /// The treatment of an existing OUT: refused, if `--no-clobber` is given.
    pub clobber: ClobberOption,
    /// The time at which OUT and the saved position reach the disk: later, if `--no-sync` is given.
    pub durability: Durability,
    /// The choice whether progress is shown: if `--progress` is given.
    pub progress: ProgressOption,
}

/// The arguments of `encrypt`.
#[derive(Clone, Copy)]
pub struct Encrypting<'a> {
    /// The path of the passphrase file (`--pass`).
    pub pass: &'a str,
    /// The work factor, 1 to 22, which is the base-two logarithm of scrypt's N; 18 if `--log` isn't
    /// given.
    pub log: u32,
    /// The path of the file of random bytes, if `--random` is given.
    pub random: Option<&'a str>,
    /// The plaintext (IN) and the age file (OUT).
    pub paths: Paths<'a>,
}

/// The identity options, one of which gives the key or the file that opens the input. Exactly one
/// of the first three must be given, which isn't checked yet.
#[derive(Clone, Copy)]
pub struct IdentityOptions<'a> {
    /// The path of the passphrase file, if `--pass` is given.
    pub pass: Option<&'a str>,
    /// The file key's digits, if `--file-key` is given; they may be malformed.
    pub file_key: Option<&'a str>,
    /// The path of the file of the shared secret, if `--shared` is given.
    pub shared: Option<&'a str>,
    /// The greatest work factor that is accepted, 1 to 22; 22 if `--max-log` isn't given.
    pub max_log: u32,
}

/// The arguments of `decrypt`.
#[derive(Clone, Copy)]
pub struct Decrypting<'a> {
    /// The identity options.
    pub identity: IdentityOptions<'a>,
    /// The path to which the position of a stopped run is saved, if `--save` is given.
    pub save: Option<&'a str>,
    /// The age file (IN) and the plaintext (OUT).
    pub paths: Paths<'a>,
}

/// The arguments of `resume`: a decryption that continues at a position, after an earlier output.
#[derive(Clone, Copy)]
pub struct Resuming<'a> {
    /// The arguments of the decryption that continues.
    pub decrypting: Decrypting<'a>,
    /// The path of the saved position (`--position`).
    pub position: &'a str,
    /// The path of the earlier output (`--old`).
    pub old: &'a str,
}

/// The arguments of `drill`. Exactly one of the first two must be given, which isn't checked yet.
#[derive(Clone, Copy)]
pub struct Drilling<'a> {
    /// True if the payload is in the clear (`--clear`).
    pub clear: bool,
    /// The path of the passphrase file, if `--pass` is given.
    pub pass: Option<&'a str>,
    /// The path of the script (SCRIPT).
    pub script: &'a str,
    /// The path of the age file or of the payload (IN).
    pub from: &'a str,
}

/// A command with its arguments.
#[derive(Clone, Copy)]
pub enum Request<'a> {
    /// A request to encrypt a file.
    Encrypt(Encrypting<'a>),
    /// A request to decrypt a file.
    Decrypt(Decrypting<'a>),
    /// A request to continue a decryption that stopped.
    Resume(Resuming<'a>),
    /// A request to inspect the file at this path, or standard input.
    Inspect(Option<&'a str>),
    /// A request to deliver a payload by a script.
    Drill(Drilling<'a>),
}
