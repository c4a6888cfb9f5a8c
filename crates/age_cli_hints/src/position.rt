//! The lines about a position: whether it was saved, and how to resume from it.

use crate::arguments::{Arguments, keeps_outputs};
use crate::ending::RunContext;
use crate::failure_line::FailureLine;
use crate::line::Again;
use age_cli_args::Request;
use age_cli_common::UnsavedError;
use age_cli_files::ErrorContext;
use age_cli_messages::Escaped;
use age_fault::FileFault;
use std::fs;
use std::io::Eprint;
use std::os::unix::fs::FileTypeExt;
use std::rt::HostRuntime;

/// Prints where the position was saved and how to resume from there, or that none was saved
/// although `--save` was given.
pub(crate) fn explain_position(rt: &HostRuntime, run: &RunContext<'_>) {
    let arguments = Arguments::of(&run.asked);
    let output = arguments.output.unwrap_or("");
    match run.notes.saved {
        // (The program can't say where standard output went.)
        Some(saved) if is_output_stream(output) || is_kept(rt, output) => {
            explain_resume(rt, saved, &run.asked);
        }
        Some(saved) => {
            let (saved, output) = (Escaped(saved.as_bytes()), Escaped(output.as_bytes()));
            let _ = eprintln!(rt;
                "age_tool: position saved in {saved}, but resume needs the output, which went to {output}"
            );
        }
        None if arguments.save.is_some() => {
            let _ = eprintln!(rt; "age_tool: no position was saved");
        }
        None => {}
    }
}

/// Returns whether a name is one of standard output.
fn is_output_stream(name: &str) -> bool {
    name == "/dev/stdout" || name == "/dev/fd/1" || name == "/proc/self/fd/1"
}

/// Returns whether what was written to a name can be read back: to a regular file or a block
/// device, not to a pipe or another device. Returns `true` if the stat fails. (A position may
/// belong to a file that wasn't made.)
fn is_kept(rt: &HostRuntime, name: &str) -> bool {
    match fs::metadata(rt, name) {
        Ok(found) => found.is_file() || found.file_type().is_block_device(),
        Err(_) => true,
    }
}

/// Prints how to resume from a position that was saved, by a command for a shell. A word takes the
/// place of what the shell can't open later.
fn explain_resume(rt: &HostRuntime, saved: &str, asked: &Request<'_>) {
    let arguments = Arguments::of(asked);
    let (option, key) = key_again(&arguments);
    // (A pipe or a device doesn't hold the position.)
    let position = Again(Some(saved).filter(|it| is_kept(rt, *it)), "POSITION");
    let old = Again(arguments.output, "OLD");
    let no_clobber = if keeps_outputs(asked) {
        " --no-clobber"
    } else {
        ""
    };
    let input = Again(arguments.input, "IN");
    let saved = Escaped(saved.as_bytes());
    let _ = eprintln!(rt;
        "age_tool: position saved in {saved}; to go on from there: age_tool resume \
         --position {position} --old {old} {option} {key}{no_clobber} {input} NEW"
    );
    let _ = eprintln!(rt;
        "age_tool: resume reads only the rest of IN; if IN is on a fast disk, decrypting again is quicker"
    );
}

/// Returns the identity option of a command that resumes, and its value: those of this command. A
/// file key isn't shown.
fn key_again<'w>(arguments: &Arguments<'w>) -> (&'static str, Again<'w>) {
    if arguments.pass.is_some() {
        ("--pass", Again(arguments.pass, "FILE"))
    } else if arguments.shared.is_some() {
        ("--shared", Again(arguments.shared, "FILE"))
    } else {
        ("--file-key", Again(None, "HEX"))
    }
}

/// Prints why a position couldn't be saved, and how to put it into another file.
pub(crate) fn explain_unsaved(rt: &HostRuntime, error: &UnsavedError<'_>) {
    if let ErrorContext::Failed(failure) = error.context()
        && error.fault() == FileFault::Write
    {
        let line = FailureLine(failure);
        let _ = eprintln!(rt; "age_tool: {line}");
    }
    if let Some(position) = error.position()
        && let Ok(text) = position.text(rt.alloc())
        && let Ok(line) = str::from_utf8(text.as_slice())
    {
        let line = line.trim_ascii_end();
        let _ = eprintln!(rt; "age_tool: to save the position elsewhere: echo '{line}' > FILE");
    }
}
