//! The line about a fault: why a run stopped, and what to do.

use crate::arguments::Arguments;
use crate::ending::RunContext;
use crate::failure_line::FailureLine;
use crate::line::File;
use crate::sentences::{Sentence, find_sentence};
use crate::work_factor::{WorkFactor, work_in};
use age_cli_args::Request;
use age_cli_files::{Action, ErrorContext, Failure, FileError, ReadSummary};
use age_fault::FileFault;
use std::fmt::{self, Display, Formatter};
use std::io::{self, Eprint};
use std::rt::HostRuntime;

/// Returns the context of a fault: its own, or else that of the standard stream from which it
/// comes.
fn find_context<'w>(error: &FileError<'w>, run: &RunContext<'w>) -> ErrorContext<'w> {
    match (error.context(), error.fault()) {
        (ErrorContext::Failed(failure), _) => ErrorContext::Failed(failure),
        (_, FileFault::Write) => run.output,
        (ErrorContext::Nothing, _) if matches!(run.asked, Request::Inspect(None)) => run.input,
        (context, _) => context,
    }
}

/// Prints in one line the system's message, or else what is wrong with which file, and what to do.
pub(crate) fn explain_fault<'w>(rt: &HostRuntime, error: &FileError<'w>, run: &RunContext<'w>) {
    let fault = error.fault();
    match (fault, find_context(error, run)) {
        (FileFault::Read | FileFault::Write, ErrorContext::Failed(failure)) => {
            let (line, more) = (FailureLine(failure), more_of_failure(failure, &run.asked));
            let _ = eprintln!(rt; "age_tool: {line}{more}");
        }
        (FileFault::Read | FileFault::Write, _) => {}
        (_, ErrorContext::Read(summary)) => explain_content(rt, fault, Some(summary), &run.asked),
        _ => explain_content(rt, fault, None, &run.asked),
    }
}

/// Prints what is wrong with a file's content, and what to do, or how much memory isn't to be had.
fn explain_content<'w>(
    rt: &HostRuntime,
    fault: FileFault,
    read: Option<ReadSummary<'w>>,
    asked: &Request<'w>,
) {
    let (number, arguments) = (fault.number(), Arguments::of(asked));
    let about = About(find_file(number, read, &arguments));
    if let Some(work) = find_work(number, read, asked) {
        explain_work(rt, number, about, work);
    } else if number == 8 && read.is_some_and(|it| it.bytes == 0) {
        explain_file(
            rt,
            fault,
            about,
            ("it is empty", "check where it comes from"),
        );
    } else if let Some(sentence) = find_sentence(fault, arguments.pass.is_some()) {
        explain_file(rt, fault, about, sentence);
    }
}

/// A file that a line is about, displayed with a colon, or nothing if there is no file.
#[derive(Clone, Copy)]
struct About<'w>(Option<&'w str>);

impl<'w> Display for About<'w> {
    fn fmt<W: fmt::Write>(&self, f: &mut Formatter<W>) -> fmt::Result {
        match self.0 {
            Some(name) => {
                File(name).fmt(f)?;
                f.write_str(": ")
            }
            None => Ok(()),
        }
    }
}

/// Returns the file that a fault is about, if it is about one.
fn find_file<'w>(
    number: u8,
    read: Option<ReadSummary<'w>>,
    arguments: &Arguments<'w>,
) -> Option<&'w str> {
    match number {
        23 | 30 => arguments.position,
        25 | 31 => arguments.old,
        28 if read.is_some_and(|it| work_in(&it.head).is_none()) => None,
        _ => read.map(|it| it.name),
    }
}

/// Returns the work factor that the line about a fault names, if it names one.
fn find_work(number: u8, read: Option<ReadSummary<'_>>, asked: &Request<'_>) -> Option<WorkFactor> {
    match (number, *asked) {
        (28, Request::Encrypt(it)) => Some(WorkFactor::Allowed(it.log.min(22) as u8)),
        (28, _) if Arguments::of(asked).pass.is_none() => None,
        (11 | 28, _) => work_in(&read?.head),
        _ => None,
    }
}

/// Prints what is wrong with a file, at which line or chunk, and what to do.
fn explain_file(rt: &HostRuntime, fault: FileFault, about: About<'_>, sentence: Sentence) {
    let (number, (what, to_do)) = (fault.number(), sentence);
    let _ = match find_place(fault) {
        Some((unit, place)) => eprintln!(rt;
            "age_tool: {about}{what} at {unit} {place}: {to_do} (age_tool help {number})"
        ),
        None => eprintln!(rt; "age_tool: {about}{what}: {to_do} (age_tool help {number})"),
    };
}

/// Returns the line of the header, or the chunk of the payload, that the line about a fault names.
fn find_place(fault: FileFault) -> Option<(&'static str, u64)> {
    match (fault.number(), fault.place()?) {
        (3..=6 | 8, line) if line > 1 => Some(("line", line)),
        (17..=20, chunk) => Some(("chunk", chunk)),
        _ => None,
    }
}

/// Prints how much memory a passphrase takes that isn't to be had; or, for a file whose work factor
/// is above the limit, which limit would do, if one would.
fn explain_work(rt: &HostRuntime, number: u8, about: About<'_>, work: WorkFactor) {
    let _ = match work {
        _ if number == 28 => {
            eprintln!(rt; "age_tool: {about}out of memory: {work} (age_tool help 28)")
        }
        WorkFactor::Allowed(log) => eprintln!(rt;
            "age_tool: {about}{work}; if you trust the file, retry with --max-log {log} (age_tool help 11)"
        ),
        WorkFactor::TooHigh => eprintln!(rt; "age_tool: {about}{work} (age_tool help 11)"),
    };
}

/// Returns what to add to the system's message.
fn more_of_failure(failure: Failure<'_>, asked: &Request<'_>) -> &'static str {
    let (kind, name) = (failure.error.kind(), Some(failure.name));
    let arguments = Arguments::of(asked);
    match failure.action {
        Action::CreateNewOverEmpty => { "; it is empty: a run that was killed may have left it" }
        Action::Read if arguments.input == name => match *asked {
            Request::Decrypt(_) | Request::Resume(_) => {
                "; without another copy, agefile salvage saves what still opens"
            }
            _ => "",
        },
        Action::Open if kind == io::ErrorKind::NotFound && arguments.pass == name => {
            "; --pass takes the name of a file that holds the passphrase"
        }
        Action::Open if kind == io::ErrorKind::NotFound && arguments.shared == name => {
            "; --shared takes the name of a file that holds the shared secret"
        }
        Action::Open if kind == io::ErrorKind::IsADirectory => match *asked {
            Request::Encrypt(_) => "; to encrypt a folder, pack it first, as by tar",
            _ => "",
        },
        Action::Save if is_of_folder(kind) => "; name a file in a folder of your own",
        _ => "",
    }
}

/// Returns whether an error is about the folder in which a file was to be made.
fn is_of_folder(kind: io::ErrorKind) -> bool {
    matches!(
        kind,
        io::ErrorKind::PermissionDenied
            | io::ErrorKind::ReadOnlyFilesystem
            | io::ErrorKind::InvalidFilename
    )
}
