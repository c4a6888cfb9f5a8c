//! The input and the output of a command: how they are opened, and how the output is ended.

ghost use Rattle.std.specs.Prelude.{◌≡◌, [], true, is_some};
ghost use Rattle.age_cli_files.specs.{Found, Absent, Settled, Does, NotedSince};
ghost use Rattle.age_cli_args.specs.{option_text};
ghost use Rattle.age_host_model.specs.declared.options.ClobberOption.TheVariants.{Refused};
ghost use Rattle.age_cli_commands.specs.Effects.{HoldsAfter};
ghost use Rattle.age_cli_commands.specs.inner.{Concludes, EndsOut, IsLeft, LeavesOut, IsNewBy, OpensFiles};
ghost use Rattle.age_cli_commands.specs.inner.{OpensOut};

use crate::pending_stop::{CommandFailure, PendingStop, StopPoint};
use age_cli_args::{Paths, ProgressOption};
use age_cli_common::{CommandError, Usage, UsageError};
use age_cli_files::{ErrorContext, FileError, FileSet, IfMissing, Purpose};
use age_host_model::{ClobberOption, Durability};
use age_io::Meter;
use std::alloc::Global;

/// The contents of an output.
#[derive(Clone, Copy)]
pub(crate) enum Content {
    /// The decrypted plaintext, which may go to a terminal.
    Plaintext,
    /// An age file, whose bytes a terminal can't show.
    AgeFile,
}

/// The files of a command that writes one. Some of their names must differ: [`check_names`] says
/// which.
#[derive(Clone, Copy)]
pub(crate) struct WritePlan<'a> {
    /// The first file that is read before the input: that of the passphrase.
    pub(crate) passphrase_file: Option<&'a str>,
    /// The second file that is read before the input: that of the shared secret, or of the random
    /// bytes.
    pub(crate) other_secret_file: Option<&'a str>,
    /// The file of the position at which the command begins, which may be the file of `save`.
    pub(crate) position: Option<&'a str>,
    /// The earlier output.
    pub(crate) old: Option<&'a str>,
    /// The name to which the position is saved if the command stops.
    pub(crate) save: Option<&'a str>,
    /// The input and the output.
    pub(crate) paths: Paths<'a>,
    /// The contents that the output is to hold.
    pub(crate) content: Content,
}

/// Returns whether two names are given, and stand for one file.
fn are_one<'w, F: FileSet<'w>>(files: &mut F, one: Option<&'w str>, other: Option<&'w str>) -> bool
    ensures { F.view files.new ≡ F.view files.old }
{
    match one {
        Some(one) => match other {
            Some(other) => files.is_same(one, other),
            None => false,
        },
        None => false,
    }
}

/// Returns a name and one of the others, if both are given and stand for one file.
fn is_one_of<'w, F: FileSet<'w>>(
    files: &mut F,
    name: Option<&'w str>,
    others: &[Option<&'w str>],
) -> Option<(&'w str, Option<&'w str>)>
    ensures { F.view files.new ≡ F.view files.old }
{
    for other in others {
        if are_one(files, name, *other) {
            return Some((name.unwrap_or(""), *other));
        }
    }
    None
}

/// Returns two names that must differ and stand for one file: the output's and an input's; that of
/// `save`, and the output's or that of an input other than the position; or the earlier output's
/// and the input's.
fn named_twice<'w, F: FileSet<'w>>(
    files: &mut F,
    asked: &WritePlan<'w>,
) -> Option<(&'w str, Option<&'w str>)>
    ensures { F.view files.new ≡ F.view files.old }
{
    let WritePlan {
        passphrase_file,
        other_secret_file,
        position,
        old,
        ..
    } = *asked;
    let from = Some(asked.paths.from);
    let to = Some(asked.paths.to);
    let found = is_one_of(
        files,
        to,
        &[position, from, passphrase_file, other_secret_file, old],
    );
    if found.is_some() {
        return found;
    }
    let found = is_one_of(
        files,
        asked.save,
        &[to, from, passphrase_file, other_secret_file, old],
    );
    if found.is_some() {
        return found;
    }
    is_one_of(files, old, &[from])
}

/// Returns whether an output is a terminal that can't show what it is to hold.
fn is_age_file_on_terminal<'w, F: FileSet<'w>>(
    files: &mut F,
    out: &F::Out,
    content: Content,
) -> bool
    ensures { F.view files.new ≡ F.view files.old }
{
    match content {
        Content::AgeFile => files.is_terminal(out),
        Content::Plaintext => false,
    }
}

/// Returns the error if what was opened can't be the output: it is a terminal, which can't show an
/// age file, or it is that of standard error, which gets progress and faults.
fn find_refusal<'w, F: FileSet<'w>>(
    files: &mut F,
    out: &F::Out,
    asked: &WritePlan<'w>,
) -> Option<UsageError<'w>>
    ensures { F.view files.new ≡ F.view files.old }
{
    if is_age_file_on_terminal(files, out, asked.content) {
        return Some(UsageError::from(Usage::OutIsTerminal));
    }
    if files.is_for_faults(out) {
        let both = ErrorContext::Twice(asked.paths.to, Some("standard error"));
        return Some(UsageError::new(Usage::SameFile, both));
    }
    None
}

/// Fails if two names that must differ stand for one file, or two names of inputs for one stream.
pub(crate) fn check_names<'w, F: FileSet<'w>>(
    alloc: Global,
    files: &mut F,
    asked: &WritePlan<'w>,
) -> Result<(), CommandError<'w>>
    ensures { F.view files.new ≡ F.view files.old }
{
    if let Some((one, other)) = named_twice(files, asked) {
        let both = ErrorContext::Twice(one, other);
        return Err(CommandError::Usage(UsageError::new(Usage::SameFile, both)));
    }
    let WritePlan {
        passphrase_file,
        other_secret_file,
        position,
        old,
        ..
    } = *asked;
    Ok(files.check_streams(
        alloc,
        &[
            position,
            old,
            passphrase_file,
            other_secret_file,
            Some(asked.paths.from),
        ],
    )?)
}

/// Returns the meter if progress is to be shown, or `None`.
pub(crate) fn meter_for<'m, M: Meter>(paths: &Paths<'_>, meter: &'m mut M) -> Option<&'m mut M> {
    match paths.progress {
        ProgressOption::Silent => None,
        ProgressOption::Shown => Some(meter),
    }
}

/// Opens a file for reading.
pub(crate) fn open_in<'w, F: FileSet<'w>>(
    alloc: Global,
    files: &mut F,
    name: &'w str,
    missing: IfMissing,
    purpose: Purpose,
) -> Result<F::In, CommandError<'w>>
    ensures { OpensFiles (F.view files.old) (F.view files.new) (λ s. ((F.In.view s).supply.given ≡ [])
        × ((F.In.view s).label ≡ name.now) × NotedSince (F.view files.old) (F.view files.new)
        (Found missing name.now (F.In.view s).supply.left (F.size s))) result }
{
    Ok(files.open(alloc, name, missing, purpose)?)
}

/// Fails if the output exists and must be new.
pub(crate) fn check_new<'w, F: FileSet<'w>>(
    files: &mut F,
    paths: &Paths<'w>,
) -> Result<(), CommandError<'w>>
    ensures { F.view files.new ≡ F.view files.old }
{
    match paths.clobber {
        ClobberOption::Allowed => Ok(()),
        ClobberOption::Refused => Ok(files.check_absent(paths.to)?),
    }
}

/// Opens the output. Fails if it is an input or the file of `save`, or can't be the output for
/// another reason.
pub(crate) fn create_out<'w, F: FileSet<'w>>(
    alloc: Global,
    files: &mut F,
    asked: &WritePlan<'w>,
) -> Result<F::Out, CommandError<'w>>
    ensures { OpensOut asked.now.paths.to.now (F.view files.old) (F.view files.new)
        (λ o. ((F.Out.view o).taken.bytes ≡ [])
        × ((F.Out.view o).failed ≡ 0) × ((F.Out.view o).taken.label ≡ asked.now.paths.to.now)
        × (asked.now.paths.clobber ≡ Refused
        → NotedSince (F.view files.old) (F.view files.new) (Absent asked.now.paths.to.now))) result }
{
    let paths = &asked.paths;
    let out = files.create(alloc, paths.to, paths.clobber, paths.durability)?;
    match find_refusal(files, &out, asked) {
        Some(error) => {
            files.discard(out, paths.durability);
            Err(CommandError::Usage(error))
        }
        None => Ok(out),
    }
}

/// Prepares the file of `save`, if there is one. Fails if it is an input other than the file of the
/// position.
fn prepare_save<'w, F: FileSet<'w>>(
    alloc: Global,
    files: &mut F,
    asked: &WritePlan<'w>,
) -> Result<(), CommandError<'w>>
    ensures { F.view files.new ≡ F.view files.old }
{
    match asked.save {
        Some(save) => {
            let Paths {
                to,
                clobber,
                durability,
                ..
            } = asked.paths;
            let others = [asked.old, Some(to)];
            Ok(files.prepare(alloc, save, asked.position, &others, clobber, durability)?)
        }
        None => Ok(()),
    }
}

/// Opens the input, and then prepares the file of `save` and opens the output. Fails if one of
/// these is an input.
pub(crate) fn open_both<'w, F: FileSet<'w>>(
    alloc: Global,
    files: &mut F,
    asked: &WritePlan<'w>,
) -> Result<(F::In, F::Out), CommandError<'w>>
    ensures { OpensOut asked.now.paths.to.now (F.view files.old) (F.view files.new)
        (λ both. IsNewBy F.In.view F.Out.view F.size
        (NotedSince (F.view files.old) (F.view files.new)) asked.now.paths both.0 both.1) result }
{
    let source = open_in(
        alloc,
        files,
        asked.paths.from,
        IfMissing::Fails,
        Purpose::Input,
    )?;
    prepare_save(alloc, files, asked)?;
    let out = create_out(alloc, files, asked)?;
    Ok((source, out))
}

/// Closes the output of an engine that stopped: with what was written, or unchanged if nothing was.
pub(crate) fn close_after_stop<'w, F: FileSet<'w>>(
    files: &mut F,
    out: F::Out,
    durability: Durability,
)
    ensures { LeavesOut (F.Out.view out) (IsLeft durability (F.Out.view out))
        (F.view files.old) (F.view files.new) }
{
    let is_empty = files.is_empty(&out);
    if is_empty {
        files.discard(out, durability);
    } else {
        // What stopped the engine is reported, not that its output couldn't be closed either.
        let _ = files.close(out, durability);
    }
}

/// Returns how many bytes the output holds for certain, or 0 if no position is wanted. Waits for a
/// sync only if the engine stopped, so that otherwise closing the output finds each failure.
pub(crate) fn durable_len_at_end<'w, F: FileSet<'w>>(
    files: &mut F,
    out: &mut F::Out,
    asked: &WritePlan<'w>,
    is_stopped: bool,
) -> u64
    ensures does { Does (F.view files.old) (F.view files.new) }
    ensures same { F.Out.view out.new ≡ F.Out.view out.old }
    ensures certain { is_some (option_text asked.now.save) ≡ true
        → NotedSince (F.view files.old) (F.view files.new)
        (Settled asked.now.paths.durability (F.Out.view out.old).taken.bytes result) }
{
    if asked.save.is_none() {
        return 0;
    }
    if is_stopped {
        files.durable_len(out, asked.paths.durability)
    } else {
        files.known_durable_len(out, asked.paths.durability)
    }
}

/// Closes the output after the engine: complete, or as its stop leaves it. Returns the error of the
/// engine, or of closing the output.
fn close_output<'w, F: FileSet<'w>>(
    files: &mut F,
    out: F::Out,
    durability: Durability,
    engine: Result<(), FileError<'w>>,
) -> Result<(), FileError<'w>>
    ensures { EndsOut durability (F.Out.view out) engine.entry (F.view files.old) (F.view files.new) result }
{
    match engine {
        Ok(()) => files.close(out, durability),
        Err(error) => {
            close_after_stop(files, out, durability);
            Err(error)
        }
    }
}

/// Closes the output after the engine. If either failed, returns a stop, whose position `conclude`
/// is to save.
pub(crate) fn conclude_output<'w, F: FileSet<'w>>(
    files: &mut F,
    out: F::Out,
    asked: &WritePlan<'w>,
    place: StopPoint,
    engine: Result<(), FileError<'w>>,
) -> Result<(), CommandFailure<'w>>
    ensures { HoldsAfter (Concludes (option_text asked.now.save) asked.now.paths.durability
        (F.Out.view out) engine.entry place (F.view files.old)) (F.view files.new) result }
{
    match close_output(files, out, asked.paths.durability, engine) {
        Ok(()) => Ok(()),
        Err(error) => Err(CommandFailure::Stopped(PendingStop {
            fault: error,
            place,
            save: asked.save,
            durability: asked.paths.durability,
        })),
    }
}
