//! The error of a run of the program.

ghost use Rattle.std.specs.Prelude.{◌≡◌};
ghost use Rattle.age_cli_common.specs.declared.command_error.CommandError.TheVariants.{Fault};
ghost use Rattle.age_cli.specs.declared.error.RunError.TheVariants.{Ended};

use age_cli_common::CommandError;
use age_fault::FileFault;
use age_io::WriteFailure;
use clap::Error;

/// The reason why a run failed.
#[derive(Drop)]
pub enum RunError<'w> {
    /// The parser of command lines refuses the words.
    Words(Error),
    /// The parser accepts the words, but no request could be made of them.
    Unread,
    /// The command isn't done, for the reason in this ending.
    Ended(CommandError<'w>),
}

impl<'w> From<CommandError<'w>> for RunError<'w> {
    ghost from_gives = { λ e r. r ≡ Ended e };

    fn from(ending: CommandError<'w>) -> RunError<'w> {
        RunError::Ended(ending)
    }
}

impl<'w> From<FileFault> for RunError<'w> {
    ghost from_gives = { λ f r. r ≡ Ended (Fault f) };

    fn from(fault: FileFault) -> RunError<'w> {
        RunError::Ended(CommandError::from(fault))
    }
}

impl<'w> From<WriteFailure> for RunError<'w> {
    ghost use Rattle.age_fault.specs.declared.fault.FileFault.TheVariants.{Write};

    ghost from_gives = { λ _ r. r ≡ Ended (Fault Write) };

    fn from(e: WriteFailure) -> RunError<'w> {
        RunError::Ended(CommandError::from(e))
    }
}
