//! The end of a decryption, and the position at which it can continue.

ghost use Rattle.std.specs.Prelude.{◌≡◌, ◌⊎◌, ◌≤◌, ◌<◌, Some, IfSome, option_map};
ghost use Rattle.age_cli_files.specs.{NotedSince, Does, Gave, reading_of};
ghost use Rattle.age_cli_args.specs.{option_text};
ghost use Rattle.age_cli_commands.specs.Left.{initial_position};
ghost use Rattle.age_cli_commands.specs.inner.Engines.{kept_for};
ghost use Rattle.age_cli_commands.specs.inner.{IsPlacedBy, earlier_of, to_outcome, own_of};

use crate::decrypt_command::EarlierOutput;
use crate::pending_stop::StopPoint;
use age_cli_files::{ErrorContext, FileError, FileSet};
use age_fault::FileFault;
use age_file_decrypt::{Checkpoints, Done, Stopped};
use age_file_position::{Position, PositionPolicy};
use age_io::Source;
use std::alloc::Global;

/// Returns the policy: positions are kept if one is to be saved.
pub(crate) fn positions_for(save: Option<&str>) -> PositionPolicy
    ensures { result ≡ kept_for (option_text save.entry) }
{
    match save {
        Some(_) => PositionPolicy::Kept,
        None => PositionPolicy::Dropped,
    }
}

/// Returns the position at which a decryption begins, if not at the start of the file.
pub(crate) fn initial_position<S: Source>(
    earlier: &Option<EarlierOutput<'_, S>>,
) -> Option<Position>
    ensures { result ≡ initial_position (option_map earlier_of earlier.now) }
{
    match earlier {
        Some(old) => Some(old.position),
        None => None,
    }
}

/// Returns the later of a position and the one at which its run started.
fn later_position(place: Position, start: Option<Position>) -> Position
    ensures { (result ≡ place × IfSome start (λ s. s.index ≤ result.index))
        ⊎ ((start ≡ Some result) × (place.index < result.index)) }
{
    match start {
        Some(start) => {
            if place.index < start.index {
                start
            } else {
                place
            }
        }
        None => place,
    }
}

/// Returns the position of a stopped run, if it has one.
fn stop_position(end: &Result<Done, Stopped>) -> Option<Position>
    ensures { result ≡ own_of end.now }
{
    match end {
        Ok(_) => None,
        Err(stopped) => stopped.position,
    }
}

/// Returns the position at which a decryption that ended so can continue, if `settled` bytes of its
/// output are certain. With marks this is the last position within these bytes, but none before the
/// start of the run, since that would replace a better one. Without marks it is the run's own
/// position.
pub(crate) fn resume_point(
    end: &Result<Done, Stopped>,
    marks: &Option<Checkpoints>,
    start: Option<Position>,
    settled: u64,
) -> StopPoint
    ensures placed { IsPlacedBy marks.now start settled (own_of end.now) result.position }
    ensures settled { result.settled ≡ settled }
{
    match marks {
        Some(marks) => StopPoint {
            position: Some(later_position(marks.position_within(settled), start)),
            settled,
        },
        None => StopPoint {
            position: stop_position(end),
            settled,
        },
    }
}

/// Returns the result of a decryption, without the number of bytes that it wrote.
pub(crate) fn to_outcome(end: &Result<Done, Stopped>) -> Result<(), FileFault>
    ensures { result ≡ to_outcome end.now }
{
    match end {
        Ok(_) => Ok(()),
        Err(stopped) => Err(stopped.fault),
    }
}

/// Adds a context to the fault of an engine: that of the output, if it couldn't be written; that of
/// the earlier output, if it couldn't be read; or else that of the input.
pub(crate) fn attach_context<'w>(
    end: Result<(), FileFault>,
    out: ErrorContext<'w>,
    earlier: ErrorContext<'w>,
    input: ErrorContext<'w>,
) -> Result<(), FileError<'w>>
    ensures { result ≡ end }
{
    match end {
        Ok(()) => Ok(()),
        Err(FileFault::Write) => Err(FileError::new(FileFault::Write, out)),
        Err(fault) => match earlier {
            ErrorContext::Failed(_) => Err(FileError::new(fault, earlier)),
            _ => Err(FileError::new(fault, input)),
        },
    }
}

/// Ends the reading of the earlier output, if there is one, and returns its context.
pub(crate) fn close_old<'w, F: FileSet<'w>>(
    files: &mut F,
    earlier: Option<EarlierOutput<'w, F::In>>,
) -> ErrorContext<'w>
    ensures does { Does (F.view files.old) (F.view files.new) }
    ensures over { IfSome earlier.entry (λ e. NotedSince (F.view files.old) (F.view files.new)
        (Gave (reading_of (F.In.view e.source)))) }
{
    match earlier {
        Some(old) => files.close_input(old.source),
        None => ErrorContext::Nothing,
    }
}
