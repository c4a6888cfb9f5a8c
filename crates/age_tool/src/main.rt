//! The program `age_tool`, which reads and writes age files.
//!
//! It passes its arguments, the files of the system and its standard streams to
//! [`age_cli::run_words`], prints what people should know of the result, and exits with its status.
//! It answers `help N` and `help NAME`, about a fault, itself.
#![tactic(auto)]

use age_cli::{RunError, read_words, run_words, status};
use age_cli_args::Request;
use age_cli_hints::{
    RunContext, explain, explain_fused_help_flag, explain_refusal, find_fault_help,
    find_fused_help_flag,
};
use age_cli_messages::{LineStyle, ProgressLine, announce_reading, report_non_utf8};
use age_host::{HostFiles, HostOut, RecordingStream};
use age_io::{Reading, Writing};
use clap::Error;
use std::alloc::Global;
use std::io::{self, Eprint, IsTerminal};
use std::process::ExitCode;

/// Returns the arguments of the program. Fails if memory runs out, or if one of them isn't UTF-8.
fn read_args(rt: &HostRuntime) -> io::Result<Vec<String>> {
    Ok(std::env::args(rt)?.collect(rt.alloc())?)
}

/// Returns the arguments after the program's name.
fn arguments_after_name<'a>(alloc: Global, args: &'a [String]) -> io::Result<Vec<&'a str>> {
    let mut words = Vec::new(alloc);
    for arg in args.iter().skip(1) {
        words.push(arg.as_str())?;
    }
    Ok(words)
}

/// Reports that memory ran out, and returns status 1.
fn out_of_memory(rt: &HostRuntime) -> ExitCode {
    let _ = eprintln!(rt; "age_tool: 28 Memory");
    ExitCode::from(1)
}

/// Reports that the command line can't be read, and returns the status.
fn report_unreadable(rt: &HostRuntime, error: &io::Error) -> ExitCode {
    if error.kind() == io::ErrorKind::OutOfMemory {
        return out_of_memory(rt);
    }
    let _ = eprintln!(rt; "age_tool: bad command line");
    report_non_utf8(rt);
    ExitCode::from(2)
}

/// Returns the style of progress: one line of a terminal, or a few lines of a log.
fn progress_style(rt: &HostRuntime) -> LineStyle {
    if rt.stderr().is_terminal() {
        LineStyle::Rewritten
    } else {
        LineStyle::Separate
    }
}

/// Prints what a fault means, and returns the status.
fn print_fault_help(rt: &HostRuntime, row: &str) -> ExitCode {
    match println!(rt; "{row}") {
        Ok(()) => ExitCode::SUCCESS,
        Err(_) => {
            let _ = eprintln!(rt; "age_tool: 27 Write");
            ExitCode::from(1)
        }
    }
}

/// Returns the request of the arguments. If they make none, returns one that names no file.
fn request_or_placeholder<'w>(read: &Result<Option<Request<'w>>, Error>) -> Request<'w> {
    match read {
        Ok(Some(asked)) => *asked,
        _ => Request::Inspect(None),
    }
}

/// Reports why the parser of command lines refuses the words, and returns the status.
fn report_refusal(rt: &HostRuntime, words: &[&str], error: &Error) -> ExitCode {
    match explain_refusal(rt, words, error) {
        Ok(()) => ExitCode::from(2),
        Err(_) => out_of_memory(rt),
    }
}

/// Runs the command that the words ask for, over the files of the system and the standard streams,
/// prints what people should know of the result, and returns the status.
fn run_arguments<'w>(rt: &HostRuntime, words: &'w [&'w str]) -> ExitCode {
    if words.is_empty() {
        announce_reading(rt);
    }
    let parsed = read_words(rt.alloc(), words);
    let asked = request_or_placeholder(&parsed);
    let mut files = HostFiles::new(rt);
    let mut input = Reading::new(RecordingStream::new(rt.reader()));
    let mut output = Writing::new(RecordingStream::new(io::writer(rt)));
    let mut faults = HostOut::faults(rt);
    let mut progress = ProgressLine::new(Writing::new(rt.stderr()), progress_style(rt), rt);
    let result = run_words(
        rt.alloc(),
        words,
        parsed,
        &mut files,
        &mut input,
        &mut output,
        &mut faults,
        &mut progress,
    );
    let error = match &result {
        Ok(()) => None,
        Err(RunError::Words(refusal)) => return report_refusal(rt, words, refusal),
        Err(RunError::Unread) => return ExitCode::from(2),
        Err(RunError::Ended(error)) => Some(error),
    };
    let run = RunContext {
        asked,
        notes: files.notes(),
        input: input.inner().context(),
        output: output.inner().context(),
    };
    explain(rt, error, &run);
    ExitCode::from(status(&result))
}

/// Runs the program, and returns its exit status.
fn main(rt: HostRuntime) -> ExitCode {
    let args = match read_args(&rt) {
        Ok(args) => args,
        Err(error) => return report_unreadable(&rt, &error),
    };
    match arguments_after_name(rt.alloc(), args.as_slice()) {
        Ok(words) => match (
            find_fault_help(words.as_slice()),
            find_fused_help_flag(words.as_slice()),
        ) {
            (Some(row), _) => print_fault_help(&rt, row),
            (None, Some(word)) => {
                explain_fused_help_flag(&rt, word);
                ExitCode::from(2)
            }
            (None, None) => run_arguments(&rt, words.as_slice()),
        },
        Err(error) => report_unreadable(&rt, &error),
    }
}
