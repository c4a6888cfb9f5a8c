//! The errors of a run, and the ending that reports them.

ghost use Rattle.std.specs.Prelude.{◌≡◌};
ghost use Rattle.age_cli_common.specs.inner.{ending_of};
ghost use Rattle.age_fault.specs.declared.fault.FileFault.TheVariants.{Write};
ghost use Rattle.age_cli_common.specs.declared.command_error.CommandError.TheVariants.{Fault, Usage as UsageEnding};

use age_cli_files::{ErrorContext, FileError, OpenError, OpenFault};
use age_fault::FileFault;
use age_file_position::Position;
use age_io::WriteFailure;
use std::marker::Model;

/// An error of a command line that its parser accepts.
#[derive(Clone, Copy, PartialEq, Eq)]
pub enum Usage {
    /// Not exactly one of `--pass`, `--file-key` and `--shared` is given.
    GiveOneIdentity,
    /// `--file-key` isn't 32 hexadecimal digits.
    BadFileKey,
    /// Two files that must differ are the same.
    SameFile,
    /// The output of an encryption is a terminal.
    OutIsTerminal,
    /// The passphrase file doesn't hold 1 to 65,536 bytes, not counting a trailing newline.
    BadPassphraseFile,
    /// The shared-secret file isn't 64 bytes long.
    BadSharedFile,
    /// The file of random bytes has fewer than 48.
    BadRandomFile,
    /// Not exactly one of `--clear` and `--pass` is given to a drill.
    GiveClearOrPass,
    /// The script has more than 1,048,576 bytes or 1,000 lines.
    ScriptTooLong,
    /// A line of the script, counted from 1, is malformed, or reaches past the payload.
    BadScriptLine(usize),
    /// The payload has more than 16,777,216 bytes.
    PayloadTooLong,
}

/// An error of a command line, with its context. Contracts see the error alone.
#[derive(Drop)]
pub struct UsageError<'w> {
    usage: Usage,
    context: ErrorContext<'w>,
}

impl<'w> Model for UsageError<'w> {
    ghost use Rattle.age_cli_common.specs.declared.command_error.Usage.{Usage};

    ghost Value = { Usage };

    ghost view = { λ e. e.usage };
}

impl<'w> UsageError<'w> {
    /// Creates an error of a command line, with its context.
    pub fn new(usage: Usage, context: ErrorContext<'w>) -> UsageError<'w>
        ensures { result ≡ usage }
    {
        UsageError { usage, context }
    }

    /// Returns the error of the command line, without its context.
    pub fn usage(&self) -> Usage
        ensures { result ≡ self.now }
    {
        self.usage
    }

    /// Returns the context of the error: the files that it is about.
    pub fn context(&self) -> ErrorContext<'w> {
        self.context
    }
}

impl<'w> From<Usage> for UsageError<'w> {
    ghost from_gives = { λ u e. e ≡ u };

    fn from(usage: Usage) -> UsageError<'w> {
        UsageError::new(usage, ErrorContext::Nothing)
    }
}

/// An error of saving a position, and the position. Contracts see the fault alone.
#[derive(Drop)]
pub struct UnsavedError<'w> {
    error: FileError<'w>,
    position: Option<Position>,
}

impl<'w> Model for UnsavedError<'w> {
    ghost use Rattle.age_fault.specs.declared.fault.FileFault.{FileFault};

    ghost Value = { FileFault };

    ghost view = { λ e. e.error };
}

impl<'w> UnsavedError<'w> {
    /// Creates an error of saving `position`.
    pub fn new(error: FileError<'w>, position: Option<Position>) -> UnsavedError<'w>
        ensures { result ≡ error.entry }
    {
        UnsavedError { error, position }
    }

    /// Returns the fault of saving the position.
    pub fn fault(&self) -> FileFault
        ensures { result ≡ self.now }
    {
        self.error.fault()
    }

    /// Returns the context of the fault: the file, and the error of the system.
    pub fn context(&self) -> ErrorContext<'w> {
        self.error.context()
    }

    /// Returns the position that couldn't be saved, if it is known.
    pub fn position(&self) -> Option<Position> {
        self.position
    }
}

/// The reason why a command isn't done.
#[derive(Drop)]
pub enum CommandError<'w> {
    /// A bad command line.
    Usage(UsageError<'w>),
    /// A fault.
    Fault(FileError<'w>),
    /// A fault, and a second one, because its position couldn't be saved.
    Unsaved(FileError<'w>, UnsavedError<'w>),
}

impl<'w> CommandError<'w> {
    /// Returns this ending, with `context` for a fault that has none.
    pub fn with_context(self, context: ErrorContext<'w>) -> CommandError<'w>
        ensures { result ≡ self.entry }
    {
        match self {
            CommandError::Fault(error) => match error.context() {
                ErrorContext::Nothing => CommandError::Fault(FileError::new(
                    error.fault(),
                    context,
                )),
                _ => CommandError::Fault(error),
            },
            other => other,
        }
    }
}

impl<'w> From<FileFault> for CommandError<'w> {
    ghost from_gives = { λ f e. e ≡ Fault f };

    fn from(fault: FileFault) -> CommandError<'w> {
        CommandError::Fault(FileError::from(fault))
    }
}

impl<'w> From<FileError<'w>> for CommandError<'w> {
    ghost from_gives = { λ f e. e ≡ Fault f };

    fn from(error: FileError<'w>) -> CommandError<'w> {
        CommandError::Fault(error)
    }
}

impl<'w> From<WriteFailure> for CommandError<'w> {
    ghost from_gives = { λ _ e. e ≡ Fault Write };

    fn from(_e: WriteFailure) -> CommandError<'w> {
        CommandError::Fault(FileError::from(FileFault::Write))
    }
}

impl<'w> From<OpenError<'w>> for CommandError<'w> {
    ghost from_gives = { λ f e. e ≡ ending_of f };

    fn from(error: OpenError<'w>) -> CommandError<'w> {
        match error.fault() {
            OpenFault::SameFile => {
                CommandError::Usage(UsageError::new(Usage::SameFile, error.context()))
            }
            OpenFault::Fault(fault) => CommandError::Fault(FileError::new(fault, error.context())),
        }
    }
}

impl<'w> From<UsageError<'w>> for CommandError<'w> {
    ghost from_gives = { λ u e. e ≡ UsageEnding u };

    fn from(error: UsageError<'w>) -> CommandError<'w> {
        CommandError::Usage(error)
    }
}

impl<'w> From<Usage> for CommandError<'w> {
    ghost from_gives = { λ u e. e ≡ UsageEnding u };

    fn from(usage: Usage) -> CommandError<'w> {
        CommandError::Usage(UsageError::from(usage))
    }
}
