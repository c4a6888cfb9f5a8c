//! The line about a failed action on a file, with the system's message.

use age_cli_messages::{Escaped, EscapedLineStart};
use age_host_model::{Action, Failure};
use arrayvec::ArrayString;
use std::fmt::{self, Formatter, Write};
use std::io;

/// Returns the words before the file's name, and those after it.
fn describe_action(action: Action) -> (&'static str, &'static str) {
    match action {
        Action::Open => ("open ", ""),
        Action::Read => ("read ", ""),
        Action::Create | Action::CreateNew | Action::CreateNewOverEmpty => ("create ", ""),
        Action::Write => ("write ", ""),
        Action::Sync => ("write ", " to disk"),
        Action::Save => ("save the position to ", ""),
    }
}

/// A failed action on a file, displayed in a line.
#[derive(Clone, Copy)]
pub(crate) struct FailureLine<'w>(pub(crate) Failure<'w>);

impl<'w> fmt::Display for FailureLine<'w> {
    fn fmt<W: fmt::Write>(&self, f: &mut Formatter<W>) -> fmt::Result {
        let Failure {
            action,
            name,
            error,
        } = self.0;
        if matches!(action, Action::CreateNew | Action::CreateNewOverEmpty) {
            let name = EscapedLineStart(name.as_bytes());
            return write!(f, "{name} exists, and --no-clobber was given");
        }
        let (before, after) = describe_action(action);
        let name = Escaped(name.as_bytes());
        write!(f, "can't {before}{name}{after}: ")?;
        show_error(error, f)
    }
}

/// Returns the system's words for a kind that `std` names in its own words.
fn kind_text(kind: io::ErrorKind) -> Option<&'static str> {
    match kind {
        io::ErrorKind::NotFound => Some("No such file or directory"),
        io::ErrorKind::AlreadyExists => Some("this run uses the file"),
        io::ErrorKind::NotADirectory => Some("Not a directory"),
        io::ErrorKind::IsADirectory => Some("Is a directory"),
        io::ErrorKind::FilesystemLoop => Some("Too many levels of symbolic links"),
        io::ErrorKind::Unsupported => Some("Operation not supported"),
        io::ErrorKind::ResourceBusy => Some("another program holds its lock"),
        io::ErrorKind::WriteZero => Some("no byte was taken"),
        _ => None,
    }
}

/// Shows the system's message, without the number that `std` puts after it.
fn show_error<W: fmt::Write>(error: io::Error, f: &mut Formatter<W>) -> fmt::Result {
    if error.raw_os_error().is_none()
        && let Some(text) = kind_text(error.kind())
    {
        return f.write_str(text);
    }
    let mut text = ArrayString::<320>::new();
    write!(text, "{error}")?;
    match text.as_str().split_once(" (os error ") {
        Some((words, _)) => f.write_str(words),
        None => f.write_str(text.as_str()),
    }
}
