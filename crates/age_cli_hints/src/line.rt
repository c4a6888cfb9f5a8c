//! Names in lines for people.

use crate::quoted::Quoted;
use age_cli_messages::EscapedLineStart;
use std::fmt::{self, Display, Formatter};

/// A file at the beginning of the line about it, displayed by its name. Standard input has the
/// empty name.
#[derive(Clone, Copy)]
pub(crate) struct File<'a>(pub(crate) &'a str);

impl<'a> Display for File<'a> {
    fn fmt<W: fmt::Write>(&self, f: &mut Formatter<W>) -> fmt::Result {
        if self.0.is_empty() {
            f.write_str("standard input")
        } else {
            EscapedLineStart(self.0.as_bytes()).fmt(f)
        }
    }
}

/// A name for a shell, or the word in its place if no later command can open the file.
#[derive(Clone, Copy)]
pub(crate) struct Again<'a>(pub(crate) Option<&'a str>, pub(crate) &'static str);

impl<'a> Display for Again<'a> {
    fn fmt<W: fmt::Write>(&self, f: &mut Formatter<W>) -> fmt::Result {
        match self.0 {
            Some(name) if !is_of_this_run(name) => Quoted(name).fmt(f),
            _ => f.write_str(self.1),
        }
    }
}

/// Returns whether a name leads to a stream or a descriptor that only this run has.
fn is_of_this_run(name: &str) -> bool {
    name.starts_with("/dev/fd/")
        || name.starts_with("/proc/self/fd/")
        || name.starts_with("/dev/std")
}
