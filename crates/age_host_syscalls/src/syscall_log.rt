//! Notes of the calls that were made, and of how many failed, for contracts.

ghost use Rattle.std.specs.Prelude.{◌≡◌, ◌+◌, [], ◌∷◌, List, ℕ};
ghost use Rattle.std.specs.Coded.{coded_list};
ghost use Rattle.age_host_model.specs.Calls.{FileCall};
ghost use Rattle.age_host_syscalls.specs.inner.Calls.{coded_call};

use crate::sync_support::SyncUnsupported;
use age_host_model::FileKind;
use age_host_paths::DevIno;
use age_io::{AsGhost, ByteTrace, GhostValue};
use std::marker::Model;

/// A call to note.
#[derive(Clone, Copy)]
pub(crate) enum Syscall<'a> {
    Made(&'a str, DevIno),
    Opened(&'a str, DevIno, FileKind),
    Wrote(DevIno, u64, &'a [u8]),
    Cut(DevIno, u64),
    Indeterminate(DevIno),
    Synced(DevIno),
    Unsyncable(DevIno, &'a SyncUnsupported),
    Closed(DevIno),
    Locked(DevIno),
    Unlockable(DevIno),
    Removed(&'a str),
    SyncedNames(&'a str),
    UnsyncableNames(&'a str),
}

/// A list of calls to be kept: none, a known list, or that and one call more.
#[derive(Clone, Copy)]
enum LogUpdate<'a, 'b> {
    Nothing,
    All(&'a GhostValue<SyscallTrace>),
    More(&'a GhostValue<SyscallTrace>, Syscall<'b>),
}

/// A list of calls, as contracts see it. No value of it exists.
#[derive(Drop)]
struct SyscallTrace {}

impl Model for SyscallTrace {
    ghost Value = { List FileCall };

    ghost coded = { coded_list coded_call };

    ghost view = { λ _. [] };
}

impl AsGhost<SyscallTrace> for LogUpdate<'_, '_> {
    ghost use Rattle.age_host_syscalls.specs.inner.Notes.{calls_of};

    ghost shows = { calls_of };
}

/// The calls that were made, the newest first. Ghost: no bytes at run time.
#[derive(Drop)]
pub(crate) struct SyscallLog {
    seen: GhostValue<SyscallTrace>,
}

impl Model for SyscallLog {
    ghost Value = { List FileCall };

    ghost coded = { coded_list coded_call };

    ghost view = { λ calls. calls.seen.value };
}

impl SyscallLog {
    ghost use Rattle.age_host_syscalls.specs.inner.Notes.{file_call_of};

    /// Returns an empty list.
    pub(crate) fn new() -> SyscallLog
        ensures { result ≡ [] }
    {
        SyscallLog {
            seen: GhostValue::of(&LogUpdate::Nothing),
        }
    }

    /// Returns a copy of the list, to continue from.
    pub(crate) fn again(&self) -> SyscallLog
        ensures { result ≡ self.now }
    {
        SyscallLog {
            seen: GhostValue::of(&LogUpdate::All(&self.seen)),
        }
    }

    /// Notes that a call was made.
    pub(crate) fn note(&mut self, word: &Syscall<'_>)
        ensures { self.new ≡ file_call_of word.now ∷ self.old }
    {
        self.seen = GhostValue::of(&LogUpdate::More(&self.seen, *word));
    }
}

/// The number of calls that failed. Ghost: no bytes at run time.
#[derive(Drop)]
pub(crate) struct FailedCalls {
    tape: ByteTrace,
}

impl Model for FailedCalls {
    ghost use Rattle.std.specs.Prelude.{ℕ, length};

    ghost Value = { ℕ };

    ghost view = { λ failed. length failed.tape };
}

impl FailedCalls {
    /// Returns a count of 0.
    pub(crate) fn new() -> FailedCalls
        ensures { result ≡ 0 }
    {
        FailedCalls {
            tape: ByteTrace::new(),
        }
    }

    /// Counts one more failed call.
    pub(crate) fn note(&mut self)
        ensures { self.new ≡ self.old + 1 }
    {
        self.tape.note(&[0]);
    }
}
