//! The command `resume`, which continues a decryption.

ghost use Rattle.std.specs.Prelude.{◌≡◌};
ghost use Rattle.age_cli_files.specs.{NotedSince, HasGivenAll};
ghost use Rattle.age_cli_args.specs.declared.request.Request.TheVariants.{Resume};
ghost use Rattle.age_file_position.specs.{position_text};
ghost use Rattle.age_cli_commands.specs.Effects.{Acts, HoldsAfter};
ghost use Rattle.age_cli_commands.specs.inner.Engines.{missing_at};
ghost use Rattle.age_cli_commands.specs.inner.{IsNewOld, OpensFiles};

use crate::decrypt_command::{
    DecryptFiles, DecryptJob, EarlierOutput, decrypt_ready, read_identity,
};
use crate::output::{Content, WritePlan, open_both, open_in};
use crate::pending_stop::CommandFailure;
use age_cli_args::{Paths, ProgressOption, Resuming};
use age_cli_common::{CommandError, read_file};
use age_cli_files::{FileSet, IfMissing, Purpose};
use age_fault::FileFault;
use age_file_position::Position;
use age_io::Meter;
use std::alloc::Global;

/// The greatest length of a position's file.
const POSITION_FILE_MAX: usize = 256;

/// Reads a position from a file.
fn read_position<'w, F: FileSet<'w>>(
    alloc: Global,
    files: &mut F,
    name: &'w str,
) -> Result<Position, CommandError<'w>>
    ensures { OpensFiles (F.view files.old) (F.view files.new)
        (λ p. HasGivenAll (NotedSince (F.view files.old) (F.view files.new)) name.now
        (position_text p)) result }
{
    let held = read_file(alloc, files, name, Purpose::Input, POSITION_FILE_MAX)?;
    match held {
        Some(text) => Ok(Position::read(text.as_slice())?),
        None => Err(CommandError::from(FileFault::BadPosition)),
    }
}

/// Returns the treatment of a missing earlier output. It counts as empty if the position has no
/// chunk before it, since a run that stops before its first chunk makes no output.
fn missing_at(position: &Position) -> IfMissing
    ensures { result ≡ missing_at position.now }
{
    if position.index == 0 {
        IfMissing::Empty
    } else {
        IfMissing::Fails
    }
}

/// Returns the purpose of the earlier output: a copy that is shown, if progress is.
fn copy_purpose(paths: &Paths<'_>) -> Purpose {
    match paths.progress {
        ProgressOption::Silent => Purpose::Input,
        ProgressOption::Shown => Purpose::ShownCopy,
    }
}

/// Reads the position, and then opens the earlier output.
fn open_earlier<'w, F: FileSet<'w>>(
    alloc: Global,
    files: &mut F,
    asked: &Resuming<'w>,
) -> Result<EarlierOutput<'w, F::In>, CommandError<'w>>
    ensures { OpensFiles (F.view files.old) (F.view files.new)
        (λ e. HasGivenAll (NotedSince (F.view files.old) (F.view files.new)) asked.now.position.now
        (position_text e.position) × (e.name.now ≡ asked.now.old.now)
        × ((F.In.view e.source).label ≡ e.name.now)
        × IsNewOld F.In.view F.size (NotedSince (F.view files.old) (F.view files.new)) e) result }
{
    let position = read_position(alloc, files, asked.position)?;
    let purpose = copy_purpose(&asked.decrypting.paths);
    let source = open_in(alloc, files, asked.old, missing_at(&position), purpose)?;
    Ok(EarlierOutput {
        position,
        name: asked.old,
        source,
    })
}

/// Runs the command `resume`. If it isn't done, pass the result to [`conclude`](crate::conclude),
/// which reports why and saves the position of a stop.
pub fn resume_file<'w, F: FileSet<'w>, P: Meter>(
    alloc: Global,
    files: &mut F,
    asked: &Resuming<'w>,
    progress: &mut P,
) -> Result<(), CommandFailure<'w>>
    ensures { HoldsAfter (Acts (Resume asked.now) (F.view files.old)) (F.view files.new) result }
{
    let wanted = &asked.decrypting;
    let writing = WritePlan {
        passphrase_file: wanted.identity.pass,
        other_secret_file: wanted.identity.shared,
        position: Some(asked.position),
        old: Some(asked.old),
        save: wanted.save,
        paths: wanted.paths,
        content: Content::Plaintext,
    };
    let identity = read_identity(alloc, files, wanted, &writing)?;
    let old = open_earlier(alloc, files, asked)?;
    let (source, out) = open_both(alloc, files, &writing)?;
    let earlier = Some(old);
    let outputs = DecryptFiles { earlier, out };
    let ready = DecryptJob {
        identity,
        source,
        outputs,
    };
    decrypt_ready(alloc, files, &writing, ready, progress)
}
