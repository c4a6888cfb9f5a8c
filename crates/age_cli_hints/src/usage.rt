//! The line about a command line that the parser accepts, and that is wrong.

use crate::arguments::{ArgumentRoles, Arguments};
use age_cli_args::Request;
use age_cli_common::{Usage, UsageError};
use age_cli_files::ErrorContext;
use age_cli_messages::{Escaped, EscapedLineStart};
use std::io::Eprint;
use std::rt::HostRuntime;

/// Prints which files were the same, or what is wrong with one that was refused.
pub(crate) fn explain_usage(rt: &HostRuntime, error: &UsageError<'_>, asked: &Request<'_>) {
    let arguments = Arguments::of(asked);
    match (error.usage(), error.context()) {
        (Usage::SameFile, ErrorContext::Twice(name, None)) => explain_used(rt, name, &arguments),
        (Usage::SameFile, ErrorContext::Twice(name, Some(other))) => {
            explain_twice(rt, name, other, &arguments);
        }
        (Usage::BadFileKey, _) => {
            let _ = eprintln!(rt; "age_tool: --file-key takes 32 hexadecimal digits");
        }
        (Usage::BadPassphraseFile, ErrorContext::Holds(name, len)) => {
            explain_file(rt, name, passphrase_error(len));
        }
        (Usage::BadSharedFile, ErrorContext::Holds(name, len)) => explain_length(rt, name, len, 64),
        (Usage::BadRandomFile, ErrorContext::Holds(name, len)) => explain_length(rt, name, len, 48),
        (Usage::GiveOneIdentity | Usage::GiveClearOrPass, _) => explain_choice(rt, &arguments),
        (usage, _) => explain_drill(rt, usage, &arguments),
    }
}

/// Prints what is wrong with a script, or with the file that is drilled.
fn explain_drill(rt: &HostRuntime, usage: Usage, arguments: &Arguments<'_>) {
    let script = arguments.script.unwrap_or("");
    match usage {
        Usage::ScriptTooLong => {
            explain_file(
                rt,
                script,
                "it has more than 1,000 lines or 1,048,576 bytes",
            );
        }
        Usage::PayloadTooLong => {
            let name = arguments.input.unwrap_or("");
            explain_file(rt, name, "its payload has more than 16,777,216 bytes");
        }
        Usage::BadScriptLine(line) => {
            let script = EscapedLineStart(script.as_bytes());
            let _ = eprintln!(rt;
                "age_tool: {script}:{line}: no line of a script, or it reaches past the payload's end"
            );
        }
        _ => {}
    }
}

/// Prints that a name leads to another file of the command.
fn explain_used(rt: &HostRuntime, name: &str, arguments: &Arguments<'_>) {
    let or_new = if arguments.save == Some(name) {
        " or the .new file beside it"
    } else {
        ""
    };
    let name = EscapedLineStart(name.as_bytes());
    let _ = eprintln!(rt; "age_tool: {name}{or_new} is another file of this command too");
}

/// Prints which two names lead to one file, or which options and operands have the same name.
fn explain_twice<'w>(rt: &HostRuntime, name: &'w str, other: &str, arguments: &Arguments<'w>) {
    let shown = Escaped(other.as_bytes());
    if name == other {
        let arguments = *arguments;
        let roles = ArgumentRoles { arguments, name };
        let _ = eprintln!(rt; "age_tool: {roles} are the same file: {shown}");
    } else {
        let name = EscapedLineStart(name.as_bytes());
        let _ = eprintln!(rt; "age_tool: {name} and {shown} are the same file");
    }
}

/// Prints what is wrong with a file that was read.
fn explain_file(rt: &HostRuntime, name: &str, what: &str) {
    let name = EscapedLineStart(name.as_bytes());
    let _ = eprintln!(rt; "age_tool: {name}: {what}");
}

/// Prints that one of several options must be given.
fn explain_choice(rt: &HostRuntime, arguments: &Arguments<'_>) {
    let what = if arguments.have_key() {
        "only one of them can be given"
    } else {
        "none of them was given; --pass takes the name of a file that holds the passphrase"
    };
    let _ = eprintln!(rt; "age_tool: {what}");
}

/// Returns what is wrong with a passphrase file of `len` bytes.
fn passphrase_error(len: Option<usize>) -> &'static str {
    match len {
        Some(0) => "it is empty",
        Some(1) => "it holds nothing but a newline",
        _ => "it holds more than 65,536 bytes",
    }
}

/// Prints what is wrong with a file that should have `wanted` bytes.
fn explain_length(rt: &HostRuntime, name: &str, len: Option<usize>, wanted: u64) {
    let name = EscapedLineStart(name.as_bytes());
    let _ = match len {
        None => eprintln!(rt; "age_tool: {name}: it holds more than {wanted} bytes"),
        Some(len) => eprintln!(rt; "age_tool: {name}: it holds {len} of {wanted} bytes"),
    };
}
