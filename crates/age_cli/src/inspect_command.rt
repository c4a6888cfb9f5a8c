//! The command `inspect`, which reports what a header says.

ghost use Rattle.std.specs.Prelude.{◌≡◌, IfOk, OnOk};
ghost use Rattle.age_cli_files.specs.{Does, NotedSince};
ghost use Rattle.age_cli.specs.{PrintsReport, ReportsFile};
ghost use Rattle.age_cli.specs.inner.{IsInspected};

use crate::print::format_report;
use age_cli_common::{CommandError, put_bytes};
use age_cli_files::{ErrorContext, FileError, FileSet, IfMissing, OpenError, OpenFault, Purpose};
use age_fault::FileFault;
use age_file_inspect::{Report, inspect, inspect_sized};
use age_io::{Sink, Source, flush_all};
use std::alloc::Global;

/// Inspects an input of this length. Reads it to its end if its length isn't known, or is 0, since
/// a file of length 0 may give bytes, as in `/proc`.
fn inspect_as<I: Source>(
    alloc: Global,
    length: Option<u64>,
    input: &mut I,
) -> Result<Report, FileFault>
    ensures ok { IfOk result (IsInspected length (I.view input.old).supply
        (I.view input.new).supply) }
    ensures named { (I.view input.new).label ≡ (I.view input.old).label }
{
    match length {
        Some(len) if len > 0 => inspect_sized(alloc, len, input),
        _ => inspect(alloc, input),
    }
}

/// Writes the report on an input of this length. Reads it to its end if its length isn't known.
pub(crate) fn report<'w, I: Source, O: Sink>(
    alloc: Global,
    length: Option<u64>,
    input: &mut I,
    output: &mut O,
) -> Result<(), CommandError<'w>>
    ensures done { OnOk result (PrintsReport
        (IsInspected length (I.view input.old).supply (I.view input.new).supply)
        (O.view output.old) (O.view output.new)) }
    ensures named { (I.view input.new).label ≡ (I.view input.old).label }
{
    let found = inspect_as(alloc, length, input)?;
    let text = format_report(alloc, &found)?;
    put_bytes(output, text.as_slice())?;
    Ok(flush_all(output)?)
}

/// Returns the ending of a command that couldn't open a file. `inspect` opens one file only, so one
/// that is in use was opened before the command.
fn unopened<'w>(error: &OpenError<'w>) -> CommandError<'w> {
    let fault = match error.fault() {
        OpenFault::Fault(fault) => fault,
        OpenFault::SameFile => FileFault::Read,
    };
    CommandError::Fault(FileError::new(fault, error.context()))
}

/// Returns the result of a report, with `context` for a fault that has none.
fn with_context<'w>(
    reported: Result<(), CommandError<'w>>,
    context: ErrorContext<'w>,
) -> Result<(), CommandError<'w>>
    ensures { result ≡ reported.entry }
{
    match reported {
        Ok(()) => Ok(()),
        Err(ending) => Err(ending.with_context(context)),
    }
}

/// Writes the report on the file of this name. If its length is known, reads nothing more once its
/// header is complete.
pub(crate) fn report_file<'w, F: FileSet<'w>, O: Sink>(
    alloc: Global,
    files: &mut F,
    name: &'w str,
    output: &mut O,
) -> Result<(), CommandError<'w>>
    ensures does { Does (F.view files.old) (F.view files.new) }
    ensures done { OnOk result (PrintsReport
        (ReportsFile (NotedSince (F.view files.old) (F.view files.new)) name.now)
        (O.view output.old) (O.view output.new)) }
{
    let mut source = match files.open(alloc, name, IfMissing::Fails, Purpose::Input) {
        Ok(source) => source,
        Err(error) => return Err(unopened(&error)),
    };
    let length = files.length(&source);
    let reported = report(alloc, length, &mut source, output);
    let context = files.close_input(source);
    with_context(reported, context)
}
