//! The end of a command that stops, and its position, which is saved then.

ghost use Rattle.std.specs.Prelude.{◌≡◌};
ghost use Rattle.age_cli_files.specs.{NotedSince, Does};
ghost use Rattle.age_cli_args.specs.{option_text};
ghost use Rattle.age_cli_commands.specs.Effects.{Concluding, IsConcluded, MustSave};
ghost use Rattle.age_cli_commands.specs.Left.{stop_ending};
ghost use Rattle.age_cli_commands.specs.inner.{SavedPosition, encrypt_outcome};
ghost use Rattle.age_cli_commands.specs.declared.pending_stop.CommandFailure.TheVariants.{Ended};

use age_cli_common::{CommandError, UnsavedError, report_ending, report_fault};
use age_cli_files::{FileError, FileSet};
use age_fault::FileFault;
use age_file_encrypt::Written;
use age_file_position::Position;
use age_host_model::Durability;
use age_io::Sink;
use std::alloc::Global;

/// The position of a command that stopped, and how many bytes of OUT are certain.
#[derive(Clone, Copy)]
pub(crate) struct StopPoint {
    /// The position to save, if there is one.
    pub(crate) position: Option<Position>,
    /// The number of bytes that OUT holds for certain, if a position is to be saved.
    pub(crate) settled: u64,
}

impl StopPoint {
    /// Returns no position, for an encryption.
    pub(crate) fn without_position() -> StopPoint
        ensures { result ≡ record { position = None; settled = 0 } }
    {
        StopPoint {
            position: None,
            settled: 0,
        }
    }
}

/// Returns the result of an encryption, without the number of bytes that it wrote.
pub(crate) fn encrypt_outcome(sealed: Result<Written, FileFault>) -> Result<(), FileFault>
    ensures { result ≡ encrypt_outcome sealed }
{
    match sealed {
        Ok(_) => Ok(()),
        Err(fault) => Err(fault),
    }
}

/// Returns the position of a stopped run, if it should be saved. A position at chunk 0 is saved
/// only to a name that has no file, since `resume` from there does what `decrypt` does.
fn due_position<'w, F: FileSet<'w>>(
    files: &mut F,
    name: Option<&'w str>,
    position: Option<Position>,
) -> Option<Position>
    ensures does { Does (F.view files.old) (F.view files.new) }
    ensures due { MustSave (NotedSince (F.view files.old) (F.view files.new)) position
        (option_text name.entry) result }
{
    let (Some(to), Some(place)) = (name, position) else {
        return position;
    };
    if place.index > 0 {
        return position;
    }
    if files.is_absent(to) { position } else { None }
}

/// Saves a position, if there is one and a file for it. Fails with `Write` (27) if the position
/// lies beyond the `settled` bytes that OUT holds for certain.
pub(crate) fn save<'w, F: FileSet<'w>>(
    alloc: Global,
    files: &mut F,
    name: Option<&'w str>,
    position: Option<Position>,
    settled: u64,
    durability: Durability,
) -> Result<(), FileError<'w>>
    ensures { SavedPosition (option_text name.entry) settled position (F.view files.old) (F.view files.new) result }
{
    let (Some(name), Some(position)) = (name, position) else {
        return Ok(());
    };
    if position.old_len() > u128::from(settled) {
        return Err(FileError::from(FileFault::Write));
    }
    let text = position.text(alloc)?;
    files.replace(alloc, name, text.as_slice(), durability)
}

/// A command that stopped, and whose position is still to be saved.
#[derive(Drop)]
pub struct PendingStop<'w> {
    /// The fault.
    pub(crate) fault: FileError<'w>,
    /// The position, and how many bytes of OUT are certain.
    pub(crate) place: StopPoint,
    /// The name to which the position is saved, if any.
    pub(crate) save: Option<&'w str>,
    /// The choice whether that file is synced.
    pub(crate) durability: Durability,
}

/// The reason why a command isn't done, before it is reported.
#[derive(Drop)]
pub enum CommandFailure<'w> {
    /// The command ended, and has nothing left to do.
    Ended(CommandError<'w>),
    /// The command stopped, and its position is still to be saved.
    Stopped(PendingStop<'w>),
}

impl<'w> From<CommandError<'w>> for CommandFailure<'w> {
    ghost from_gives = { λ e u. u ≡ Ended e };

    fn from(ending: CommandError<'w>) -> CommandFailure<'w> {
        CommandFailure::Ended(ending)
    }
}

/// Saves the position of a stopped command.
fn save_stop<'w, F: FileSet<'w>>(
    alloc: Global,
    files: &mut F,
    stop: &PendingStop<'w>,
) -> Result<(), UnsavedError<'w>>
    ensures { IsConcluded stop.now (F.view files.old) (F.view files.new)
        (stop_ending stop.now.fault result) }
{
    let due = due_position(files, stop.save, stop.place.position);
    let settled = stop.place.settled;
    match save(alloc, files, stop.save, due, settled, stop.durability) {
        Ok(()) => Ok(()),
        Err(error) => Err(UnsavedError::new(error, due)),
    }
}

/// Reports a fault, and only then saves the position, since writing the position's file may block.
fn conclude_stop<'w, F: FileSet<'w>, E: Sink>(
    alloc: Global,
    files: &mut F,
    stop: PendingStop<'w>,
    faults: &mut E,
) -> CommandError<'w>
    ensures { IsConcluded stop.entry (F.view files.old) (F.view files.new) result }
{
    let told = report_fault(faults, stop.fault.fault());
    match save_stop(alloc, files, &stop) {
        Ok(()) => CommandError::Fault(stop.fault),
        Err(second) => {
            if told.is_err() {
                return CommandError::Unsaved(stop.fault, second);
            }
            let _ = report_fault(faults, second.fault());
            CommandError::Unsaved(stop.fault, second)
        }
    }
}

/// Reports to `faults` why a command isn't done, and returns its ending. If the command stopped,
/// saves its position after that, if it has one and a file for it, and the position isn't beyond
/// what OUT holds for certain.
pub fn conclude<'w, F: FileSet<'w>, E: Sink>(
    alloc: Global,
    files: &mut F,
    unfinished: CommandFailure<'w>,
    faults: &mut E,
) -> CommandError<'w>
    ensures { Concluding unfinished.entry (F.view files.old) (F.view files.new) result }
{
    match unfinished {
        CommandFailure::Ended(ending) => {
            report_ending(faults, &ending);
            ending
        }
        CommandFailure::Stopped(stop) => conclude_stop(alloc, files, stop, faults),
    }
}
