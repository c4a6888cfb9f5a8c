//! The lines about what may surprise in a run, however it ended.

use crate::arguments::{Arguments, has_idle_limit};
use crate::ending::RunContext;
use crate::line::File;
use crate::work_factor::work_alone;
use age_cli_args::Request;
use age_cli_files::ErrorContext;
use age_cli_messages::{Escaped, Notes};
use std::io::{Eprint, IsTerminal};
use std::rt::HostRuntime;

/// Warns of a word that means something else to other programs, and of an option that does nothing.
pub(crate) fn explain_words_taken(rt: &HostRuntime, asked: &Request<'_>) {
    if Arguments::of(asked).have("-") {
        let _ = eprintln!(rt;
            "age_tool: - is a file of that name: the standard streams are /dev/stdin and /dev/stdout"
        );
    }
    if has_idle_limit(asked) {
        let _ = eprintln!(rt; "age_tool: --max-log does nothing without --pass");
    }
}

/// Prints what may surprise in a file that was read or written.
pub(crate) fn explain_files(rt: &HostRuntime, notes: &Notes<'_>) {
    if let Some(name) = notes.cut_off {
        let file = File(name);
        let _ = eprintln!(rt; "age_tool: {file}: it shrank while it was being read");
    }
    if let Some(name) = notes.moved {
        let name = Escaped(name.as_bytes());
        let _ = eprintln!(rt; "age_tool: OUT was moved: {name} is another file now, or gone");
    }
    if let Some(name) = notes.unwaited {
        let file = File(name);
        let _ = eprintln!(rt;
            "age_tool: {file}: the file system can't sync it: it may not be on the disk yet"
        );
    }
}

/// Prints what can't be typed in a passphrase with which a file is encrypted.
pub(crate) fn explain_typing(rt: &HostRuntime, run: &RunContext<'_>) {
    if let Request::Encrypt(asked) = run.asked
        && let Some(what) = run.notes.typing.untypable()
    {
        let name = Escaped(asked.pass.as_bytes());
        let _ = eprintln!(rt;
            "age_tool: the passphrase in {name} has {what}, which can't be typed when age asks for it"
        );
    }
}

/// Prints how much memory an inspected file asks for, if standard error is a terminal and a
/// passphrase can open the file.
pub(crate) fn explain_work_factor(rt: &HostRuntime, run: &RunContext<'_>) {
    let read = match run.asked {
        Request::Inspect(None) => run.input,
        Request::Inspect(Some(_)) => run.notes.last_read,
        _ => return,
    };
    if rt.stderr().is_terminal()
        && let ErrorContext::Read(summary) = read
        && let Some(work) = work_alone(&summary.head)
    {
        let _ = eprintln!(rt; "age_tool: {work}");
    }
}
