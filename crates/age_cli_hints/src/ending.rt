//! The lines after a run: why a command isn't done, and what may surprise.

use crate::fault::explain_fault;
use crate::position::{explain_position, explain_unsaved};
use crate::surprises::{explain_files, explain_typing, explain_words_taken, explain_work_factor};
use crate::usage::explain_usage;
use age_cli_args::Request;
use age_cli_common::{CommandError, Usage};
use age_cli_files::ErrorContext;
use age_cli_messages::Notes;
use std::rt::HostRuntime;

/// The request of a run, and what is to be told of its files and streams.
#[derive(Clone, Copy)]
pub struct RunContext<'w> {
    /// The request: a command with its arguments.
    pub asked: Request<'w>,
    /// The notes on what may surprise in the files.
    pub notes: Notes<'w>,
    /// The number of bytes that standard input gave, or why it failed.
    pub input: ErrorContext<'w>,
    /// The failure of standard output, if it failed.
    pub output: ErrorContext<'w>,
}

/// Prints on standard error what people should know of a run: why its command isn't done, if it
/// isn't, and what to do, in one line; whether a position was saved; and then what may surprise,
/// however the run ended.
pub fn explain<'w>(rt: &HostRuntime, ending: Option<&CommandError<'w>>, run: &RunContext<'w>) {
    match ending {
        None => explain_work_factor(rt, run),
        Some(CommandError::Usage(error)) => explain_usage(rt, error, &run.asked),
        Some(CommandError::Fault(error)) => {
            explain_fault(rt, error, run);
            explain_position(rt, run);
        }
        Some(CommandError::Unsaved(error, second)) => {
            explain_fault(rt, error, run);
            explain_unsaved(rt, second);
        }
    }
    explain_words_taken(rt, &run.asked);
    explain_files(rt, &run.notes);
    if !is_about_passphrase(ending) {
        explain_typing(rt, run);
    }
}

/// Returns whether the passphrase file was refused.
fn is_about_passphrase(ending: Option<&CommandError<'_>>) -> bool {
    match ending {
        Some(CommandError::Usage(error)) => error.usage() == Usage::BadPassphraseFile,
        _ => false,
    }
}
