//! The log of a set of files, for contracts: what came of each call.

ghost use Rattle.std.specs.Prelude.{◌≡◌, List, []};
ghost use Rattle.age_cli_files.specs.FileSet.{Outcome};
ghost use Rattle.age_cli_files.specs.inner.Coding.{coded_outcomes};

use crate::file_set::IfMissing;
use age_host_model::{ClobberOption, Durability};
use age_io::{AsGhost, ByteTrace, GhostValue};
use std::marker::Model;

/// An entry of the log of a set of files.
#[derive(Clone, Copy)]
pub enum FileEvent<'a> {
    /// A file was opened under this name, or an empty one if a missing one counts so. The trace is
    /// what it has to give, if contracts see that, and the number its length, if the set can say.
    Found(IfMissing, &'a str, Option<&'a ByteTrace>, Option<u64>),
    /// A file was created under this name. No file had the name, if an existing one was to be
    /// refused.
    Created(ClobberOption, &'a str),
    /// No file had this name.
    Absent(&'a str),
    /// Something had this name, or may have had it.
    Present(&'a str),
    /// The reading of a file is over: its name, and the bytes that it gave. The flag says whether
    /// the last read that did not fail found its end.
    Gave(&'a ByteTrace, &'a ByteTrace, bool),
    /// An output that took these bytes holds so many of them for certain: on the disk, if that was
    /// asked for.
    Settled(Durability, &'a ByteTrace, u64),
    /// A file was given contents in place of its old ones: its name, and the bytes.
    Put(&'a ByteTrace, &'a ByteTrace),
}

/// A log to be kept: empty, or a known one and one entry more.
#[derive(Clone, Copy)]
enum LogUpdate<'a, 'b> {
    Nothing,
    More(&'a GhostValue<EventTrace>, FileEvent<'b>),
}

/// A list of entries, as contracts see it. No value of it exists.
#[derive(Drop)]
struct EventTrace {}

impl Model for EventTrace {
    ghost Value = { List Outcome };

    ghost coded = { coded_outcomes };

    ghost view = { λ _. [] };
}

impl AsGhost<EventTrace> for LogUpdate<'_, '_> {
    ghost use Rattle.age_cli_files.specs.inner.Notes.{outcomes_of};

    ghost shows = { outcomes_of };
}

/// The log of a set of files: what came of each call, in order. Ghost: no bytes at run time.
#[derive(Drop)]
pub struct EventLog {
    seen: GhostValue<EventTrace>,
}

impl Model for EventLog {
    ghost Value = { List Outcome };

    ghost coded = { coded_outcomes };

    ghost view = { λ log. log.seen.value };
}

impl EventLog {
    ghost use Rattle.age_cli_files.specs.Notes.{once_done};

    /// Creates an empty log.
    pub fn new() -> EventLog
        ensures { result ≡ [] }
    {
        EventLog {
            seen: GhostValue::of(&LogUpdate::Nothing),
        }
    }

    /// Appends an entry to the log.
    pub fn note(&mut self, doing: FileEvent<'_>)
        ensures { self.new ≡ once_done doing.entry self.old }
    {
        self.seen = GhostValue::of(&LogUpdate::More(&self.seen, doing));
    }
}
