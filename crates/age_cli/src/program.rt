//! The program `age_tool` as a function of its arguments, files and streams.

ghost use Rattle.std.specs.Prelude.{◌≡◌, IfErr, IsOk, List, OnOk, Result};
ghost use Rattle.clap.specs.Words.{Text, kind_of};
ghost use Rattle.clap.specs.Walk.{texts};
ghost use Rattle.age_cli_commands.specs.Effects.{HoldsAfter};
ghost use Rattle.age_cli.specs.declared.error.RunError.{RunError};
ghost use Rattle.age_cli.specs.declared.error.RunError.TheVariants.{Ended};
ghost use Rattle.age_cli.specs.Runs.{IsApart, IsMadeBy, IsReadOf, Prints, Runs, status_by};
ghost use Rattle.age_cli.specs.inner.{DoesRequest, IsForOutput, IsRefusedBy, Obeys, ended_so};

use crate::error::RunError;
use crate::inspect_command::{report, report_file};
use crate::names::find_shared_name;
use age_cli_args::{Request, read_request};
use age_cli_commands::{CommandFailure, conclude, decrypt_file, encrypt_file, resume_file};
use age_cli_common::{CommandError, Usage, UsageError, put_bytes, report_ending};
use age_cli_drill::drill_file;
use age_cli_files::{ErrorContext, FileSet};
use age_fault::FileFault;
use age_io::{Meter, Sink, Source, flush_all};
use clap::Error;
use clap::error::ErrorKind;
use std::alloc::Global;

/// Prints help or the version to the output, if the parser's error is a request for that, as `clap`
/// has it. Fails with any other error.
fn answer<'w, O: Sink>(alloc: Global, error: Error, output: &mut O) -> Result<(), RunError<'w>>
    ensures asked { IsOk result → IsForOutput (kind_of error) }
    ensures refused { IfErr result (IsRefusedBy error) }
    ensures prints { OnOk result (Prints (O.view output.old) (O.view output.new)) }
    ensures quiet { (IsForOutput (kind_of error) → ⊥) → O.view output.new ≡ O.view output.old }
{
    match error.kind() {
        ErrorKind::OutOfMemory => Err(RunError::from(FileFault::Memory)),
        ErrorKind::DisplayHelp | ErrorKind::DisplayVersion => {
            let Ok(text) = error.to_string(alloc) else {
                return Err(RunError::from(FileFault::Memory));
            };
            if text.is_empty() {
                return Err(RunError::Words(error));
            }
            put_bytes(output, text.as_bytes())?;
            Ok(flush_all(output)?)
        }
        _ => Err(RunError::Words(error)),
    }
}

/// Converts the result of a command that saves no position.
fn to_command_result<'w>(done: Result<(), CommandError<'w>>) -> Result<(), CommandFailure<'w>>
    ensures { result ≡ ended_so done.entry }
{
    match done {
        Ok(()) => Ok(()),
        Err(ending) => Err(CommandFailure::Ended(ending)),
    }
}

/// Runs the requested command. If it stops, its position is still to be saved, by [`conclude`].
fn run_command<'w, F: FileSet<'w>, I: Source, O: Sink, P: Meter>(
    alloc: Global,
    request: &Request<'w>,
    files: &mut F,
    input: &mut I,
    output: &mut O,
    progress: &mut P,
) -> Result<(), CommandFailure<'w>>
    requires apart { IsApart request.now }
    ensures { (words : List Text) → IsMadeBy words request.now → HoldsAfter (λ after. DoesRequest words
        (record { files = F.view files.old; input = I.view input.old; output = O.view output.old })
        (record { files = after; input = I.view input.new; output = O.view output.new }))
        (F.view files.new) result }
{
    match request {
        Request::Inspect(Some(name)) => to_command_result(report_file(alloc, files, *name, output)),
        Request::Inspect(None) => to_command_result(report(alloc, None, input, output)),
        Request::Encrypt(asked) => encrypt_file(alloc, files, asked, progress),
        Request::Decrypt(asked) => decrypt_file(alloc, files, asked, progress),
        Request::Resume(asked) => resume_file(alloc, files, asked, progress),
        Request::Drill(asked) => to_command_result(drill_file(alloc, files, asked, output)),
    }
}

/// Reports why a command isn't done, and returns the error of the run.
fn refuse<'w, E: Sink>(ending: CommandError<'w>, faults: &mut E) -> RunError<'w>
    ensures { result ≡ Ended ending.entry }
{
    report_ending(faults, &ending);
    RunError::Ended(ending)
}

/// Runs the requested command. If it isn't done, reports why to `faults`, and saves its position,
/// if it has one. Refuses a request that gives one name to two files that must differ.
fn run_and_conclude<'w, F: FileSet<'w>, I: Source, O: Sink, E: Sink, P: Meter>(
    alloc: Global,
    request: &Request<'w>,
    files: &mut F,
    input: &mut I,
    output: &mut O,
    faults: &mut E,
    progress: &mut P,
) -> Result<(), RunError<'w>>
    ensures obeys { (words : List Text) → IsMadeBy words request.now → Obeys words
        (record { files = F.view files.old; input = I.view input.old; output = O.view output.old })
        (record { files = F.view files.new; input = I.view input.new; output = O.view output.new })
        result }
    ensures silent { OnOk result (E.view faults.new ≡ E.view faults.old) }
{
    if let Some(name) = find_shared_name(request) {
        let both = ErrorContext::Twice(name, Some(name));
        let refused = UsageError::new(Usage::SameFile, both);
        return Err(refuse(CommandError::Usage(refused), faults));
    }
    match run_command(alloc, request, files, input, output, progress) {
        Ok(()) => Ok(()),
        Err(unfinished) => Err(RunError::Ended(conclude(alloc, files, unfinished, faults))),
    }
}

/// Returns the exit status for the result of a run: 0 if all was done, 1 on a fault, 2 on a bad
/// command line.
pub fn status(ended: &Result<(), RunError<'_>>) -> u8
    ensures { result ≡ status_by ended.now }
{
    match ended {
        Ok(()) => 0,
        Err(RunError::Words(_) | RunError::Unread | RunError::Ended(CommandError::Usage(_))) => 2,
        Err(RunError::Ended(CommandError::Fault(_) | CommandError::Unsaved(_, _))) => 1,
    }
}

/// Reports a failure that isn't reported yet, and returns the result unchanged. Leaves words that
/// the parser refuses to the caller, who may know more to tell about them.
fn report_once<'w, E: Sink>(
    answered: Result<(), RunError<'w>>,
    faults: &mut E,
) -> Result<(), RunError<'w>>
    ensures same { result ≡ answered.entry }
    ensures silent { OnOk result (E.view faults.new ≡ E.view faults.old) }
{
    match answered {
        Ok(()) => Ok(()),
        Err(RunError::Words(error)) => Err(RunError::Words(error)),
        Err(RunError::Unread) => {
            let _ = send_line(faults, b"age_tool: bad command line\n");
            Err(RunError::Unread)
        }
        Err(RunError::Ended(ending)) => {
            report_ending(faults, &ending);
            Err(RunError::Ended(ending))
        }
    }
}

/// Writes a line, and flushes the sink.
fn send_line<E: Sink>(faults: &mut E, line: &[u8]) -> Result<(), FileFault> {
    put_bytes(faults, line)?;
    Ok(flush_all(faults)?)
}

/// Parses the arguments after the program's name. No arguments mean a report on the input.
pub fn read_words<'w>(alloc: Global, words: &'w [&'w str]) -> Result<Option<Request<'w>>, Error>
    ensures { IsReadOf (texts words.now) result }
{
    if words.is_empty() {
        return Ok(Some(Request::Inspect(None)));
    }
    read_request(alloc, words)
}

/// Runs the program on the arguments after its name, which [`read_words`] has parsed into `read`,
/// and returns why it failed, if it did. A fault is reported to `faults` in one line (two, if a
/// position couldn't be saved either). Words that the parser refuses aren't reported: that is left
/// to the caller.
///
/// Without words, or with `inspect`, reads the input to its end and writes the report; with
/// `inspect FILE` reads that file. `encrypt`, `decrypt` and `resume` read IN and write OUT. `drill`
/// delivers the payload of IN by a script, and writes a line for each line of it. Help goes to the
/// output if asked for.
///
/// After an encryption or a decryption that is done, over any set of files, OUT was closed with
/// exactly these bytes: the age file of what IN gave; or the plaintext whose age file IN gave, or,
/// if it was resumed, the earlier output and IN. If OUT is a regular file and the disk answers as
/// expected, it is at its path, and without `--no-sync` a power cut leaves nothing else there. If
/// the command isn't done, OUT was left as the contract says, and a position that was saved lies
/// within what OUT holds for certain.
///
/// With `--progress`, `progress` is given the length of IN, if the set of files knows it, the
/// number of bytes of each read, and the end of the reading, before a fault is reported.
pub fn run_words<'w, F: FileSet<'w>, I: Source, O: Sink, E: Sink, P: Meter>(
    alloc: Global,
    words: &'w [&'w str],
    read: Result<Option<Request<'w>>, Error>,
    files: &mut F,
    input: &mut I,
    output: &mut O,
    faults: &mut E,
    progress: &mut P,
) -> Result<(), RunError<'w>>
    requires read { IsReadOf (texts words.now) read }
    ensures runs { Runs (texts words.now)
        (record { files = F.view files.old; input = I.view input.old; output = O.view output.old })
        (record { files = F.view files.new; input = I.view input.new; output = O.view output.new })
        result }
    ensures silent { OnOk result (E.view faults.new ≡ E.view faults.old) }
{
    match read {
        Ok(Some(request)) => run_and_conclude(
            alloc, &request, files, input, output, faults, progress,
        ),
        Ok(None) => report_once(Err(RunError::Unread), faults),
        Err(error) => report_once(answer(alloc, error, output), faults),
    }
}

/// Writes the parser's text of an error, and flushes the sink.
fn send_words<E: Sink>(alloc: Global, error: &Error, faults: &mut E) -> Result<(), FileFault> {
    let text = error.to_string(alloc)?;
    send_line(faults, text.as_bytes())
}

/// Reports words that the parser refused, if it did.
fn report_words<'w, E: Sink>(alloc: Global, ended: &Result<(), RunError<'w>>, faults: &mut E)
    ensures { OnOk ended.now (E.view faults.new ≡ E.view faults.old) }
{
    match ended {
        Err(RunError::Words(error)) => {
            let _ = send_words(alloc, error, faults);
        }
        _ => {}
    }
}

/// Runs the program on the arguments after its name, and returns its exit status: 0 on success, 1
/// on a fault, 2 on a bad command line. Reports a failure to `faults`. [`run_words`] says what each
/// command does.
pub fn run<'w, F: FileSet<'w>, I: Source, O: Sink, E: Sink, P: Meter>(
    alloc: Global,
    words: &'w [&'w str],
    files: &mut F,
    input: &mut I,
    output: &mut O,
    faults: &mut E,
    progress: &mut P,
) -> u8
    ensures runs { (ended : Result (Unit {0}) RunError) × (result ≡ status_by ended)
        × Runs (texts words.now)
        (record { files = F.view files.old; input = I.view input.old; output = O.view output.old })
        (record { files = F.view files.new; input = I.view input.new; output = O.view output.new })
        ended }
    ensures silent { result ≡ 0 → E.view faults.new ≡ E.view faults.old }
{
    let read = read_words(alloc, words);
    let ended = run_words(alloc, words, read, files, input, output, faults, progress);
    report_words(alloc, &ended, faults);
    status(&ended)
}
