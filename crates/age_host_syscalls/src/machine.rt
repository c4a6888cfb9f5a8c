//! The system calls that write a file, each noted where it is made. Proofs assume nothing about
//! what they do.

ghost use Rattle.std.specs.Prelude.{◌≡◌, ◌+◌, ◌≤◌, ◌<◌, [], ◌∷◌, take, length, IfOk, OnOk, OnErr, MatchOption};
ghost use Rattle.age_host_model.specs.Calls.{Made, Opened, Wrote, Cut, Indeterminate, Synced, Unsyncable, Closed, Locked};
ghost use Rattle.age_host_model.specs.Calls.{Unlockable, Removed, SyncedNames, UnsyncableNames, MayHave, Waited};
ghost use Rattle.age_host_model.specs.Calls.{CountsFailure};
ghost use Rattle.age_host_paths.specs.{number_of};

use crate::calls;
use crate::file::{
    ExpectedStat, FileStat, HostFile, OUTPUT_MODE, close_copy, fstat, lock, made_file, sync_folder,
    sync_readable_folder, verify_unchanged, write_at,
};
use crate::sync_support::wait_for;
use crate::syscall_log::{FailedCalls, Syscall, SyscallLog};
use age_host_model::FileKind;
use age_host_paths::is_at;
use std::io;
use std::rt::HostRuntime;

/// A handle to make system calls for one file, which notes each of them.
///
/// Contracts see which calls were made, and which file each one was about. A call that fails has
/// changed nothing, or what it changes if it succeeds, and nobody can tell which.
#[derive(Drop)]
pub struct Machine {
    rt: HostRuntime,
    // The calls that were made, the newest first, and the number of those that failed.
    calls: SyscallLog,
    failed: FailedCalls,
    // Whether a file system was unable to sync a file.
    is_unwaited: bool,
}

impl Machine {
    ghost use Rattle.age_host_syscalls.specs.inner.{file_call_of};

    /// Returns a machine that has made no call.
    pub fn new(rt: &HostRuntime) -> Machine
        ensures { (result.calls ≡ []) × (result.failed ≡ 0) }
    {
        Machine {
            rt: *rt,
            calls: SyscallLog::new(),
            failed: FailedCalls::new(),
            is_unwaited: false,
        }
    }

    /// Returns a copy with the same calls, none of which counts as failed.
    pub fn again(&self) -> Machine
        ensures { (result.calls ≡ self.now.calls) × (result.failed ≡ 0) }
    {
        Machine {
            rt: self.rt,
            calls: self.calls.again(),
            failed: FailedCalls::new(),
            is_unwaited: self.is_unwaited,
        }
    }

    /// Returns whether a file system was unable to sync a file.
    pub fn is_unwaited(&self) -> bool {
        self.is_unwaited
    }

    /// Counts a call that failed, and returns its error.
    fn fail(&mut self, error: io::Error) -> io::Error
        ensures calls { self.new.calls ≡ self.old.calls }
        ensures failed { self.new.failed ≡ self.old.failed + 1 }
    {
        self.failed.note();
        error
    }

    /// Counts a failed call after which the file may hold anything, and returns its error.
    fn note_indeterminate(&mut self, file: &HostFile, error: io::Error) -> io::Error
        ensures calls { self.new.calls ≡ Indeterminate (number_of file.now.node) ∷ self.old.calls }
        ensures failed { self.new.failed ≡ self.old.failed + 1 }
    {
        self.calls.note(&Syscall::Indeterminate(file.node()));
        self.fail(error)
    }

    /// Notes the first call if it was made, and the second if the system has no way to make it.
    /// Counts a failure.
    fn note_either(
        &mut self,
        made: &Syscall<'_>,
        cant: &Syscall<'_>,
        was_made: io::Result<bool>,
    ) -> io::Result<()>
        ensures ok { OnOk result (Waited (file_call_of made.now) (file_call_of cant.now)
            self.old.calls self.new.calls) }
        ensures err { OnErr result (self.new.calls ≡ self.old.calls) }
        ensures counted { CountsFailure result self.old.failed self.new.failed }
    {
        match was_made {
            Ok(true) => self.calls.note(made),
            Ok(false) => self.calls.note(cant),
            Err(error) => return Err(self.fail(error)),
        }
        Ok(())
    }

    /// Makes an empty output at a path where nothing exists, not even a link, and opens it. Each
    /// write to it goes to its end.
    pub fn make_output(&mut self, path: &str) -> io::Result<HostFile>
        ensures ok { IfOk result (λ f. self.new.calls ≡ Made path.now (number_of f.node) ∷ self.old.calls) }
        ensures err { OnErr result (self.new.calls ≡ self.old.calls) }
        ensures counted { CountsFailure result self.old.failed self.new.failed }
    {
        let made = calls::make_to_append(&self.rt, path, OUTPUT_MODE);
        match made_file(&self.rt, made, path) {
            Ok(file) => {
                self.calls.note(&Syscall::Made(path, file.node()));
                Ok(file)
            }
            Err(error) => Err(self.fail(error)),
        }
    }

    /// Opens the file to which a name leads, without truncating it, and returns its kind too, or
    /// `None` if the name leads to nothing. `path` is the one at the end of the name's links.
    pub fn open(&mut self, name: &str, path: &str) -> io::Result<Option<(HostFile, FileKind)>>
        ensures ok { IfOk result (λ found. MatchOption found (self.new.calls ≡ self.old.calls)
            (λ f. self.new.calls ≡ Opened path.now (number_of f.0.node) f.1 ∷ self.old.calls)) }
        ensures err { OnErr result (self.new.calls ≡ self.old.calls) }
        ensures counted { CountsFailure result self.old.failed self.new.failed }
    {
        match HostFile::open(&self.rt, name, path) {
            Ok(Some((file, kind))) => {
                self.calls.note(&Syscall::Opened(path, file.node(), kind));
                Ok(Some((file, kind)))
            }
            Ok(None) => Ok(None),
            Err(error) => Err(self.fail(error)),
        }
    }

    /// Returns the length of a file, and whether it has a name (`fstat`).
    pub fn fstat(&self, file: &HostFile) -> io::Result<FileStat> {
        fstat(file.file())
    }

    /// Fails if a file's length isn't as expected, or its name is gone.
    pub fn verify_unchanged(&mut self, file: &HostFile, shape: &ExpectedStat) -> io::Result<()>
        ensures same { self.new.calls ≡ self.old.calls }
        ensures counted { CountsFailure result self.old.failed self.new.failed }
    {
        match verify_unchanged(file.file(), shape) {
            Ok(()) => Ok(()),
            Err(error) => Err(self.fail(error)),
        }
    }

    /// Locks a file for this run until it is ended, if the file system has locks. Fails if another
    /// run has the lock.
    pub fn lock(&mut self, file: &HostFile) -> io::Result<()>
        ensures ok { OnOk result (Waited (Locked (number_of file.now.node))
            (Unlockable (number_of file.now.node)) self.old.calls self.new.calls) }
        ensures err { OnErr result (self.new.calls ≡ self.old.calls) }
        ensures counted { CountsFailure result self.old.failed self.new.failed }
    {
        let (made, cant) = (
            Syscall::Locked(file.node()),
            Syscall::Unlockable(file.node()),
        );
        self.note_either(&made, &cant, lock(file.file()))
    }

    /// Tries to lock a file, and returns whether this run has the lock.
    pub fn try_lock(&self, file: &HostFile) -> bool {
        matches!(file.file().try_lock(), Ok(()))
    }

    /// Writes some bytes to a file at an offset, and returns their number.
    pub fn write(&mut self, file: &HostFile, at: u64, bytes: &[u8]) -> io::Result<usize>
        ensures bound { IfOk result (λ n. n ≤ length bytes.now) }
        ensures some { IfOk result (λ n. 0 < length bytes.now → 0 < n) }
        ensures ok { IfOk result (λ n. self.new.calls
            ≡ Wrote (number_of file.now.node) at (take n bytes.now) ∷ self.old.calls) }
        ensures err { OnErr result (self.new.calls ≡ Indeterminate (number_of file.now.node) ∷ self.old.calls) }
        ensures counted { CountsFailure result self.old.failed self.new.failed }
    {
        match write_at(&self.rt, file.file(), at, bytes) {
            Ok(n) => {
                self.calls
                    .note(&Syscall::Wrote(file.node(), at, &bytes[..n]));
                Ok(n)
            }
            Err(error) => Err(self.note_indeterminate(file, error)),
        }
    }

    /// Truncates a file to `len` bytes.
    pub fn truncate(&mut self, file: &HostFile, len: u64) -> io::Result<()>
        ensures ok { OnOk result (self.new.calls ≡ Cut (number_of file.now.node) len ∷ self.old.calls) }
        ensures err { OnErr result (self.new.calls ≡ Indeterminate (number_of file.now.node) ∷ self.old.calls) }
        ensures counted { CountsFailure result self.old.failed self.new.failed }
    {
        match calls::truncate(file.file(), len) {
            Ok(()) => {
                self.calls.note(&Syscall::Cut(file.node(), len));
                Ok(())
            }
            Err(error) => Err(self.note_indeterminate(file, error)),
        }
    }

    /// Syncs a file, if its file system can.
    pub fn sync(&mut self, file: &HostFile) -> io::Result<()>
        ensures ok { OnOk result (Waited (Synced (number_of file.now.node))
            (Unsyncable (number_of file.now.node)) self.old.calls self.new.calls) }
        ensures err { OnErr result (self.new.calls ≡ Indeterminate (number_of file.now.node) ∷ self.old.calls) }
        ensures counted { CountsFailure result self.old.failed self.new.failed }
    {
        match wait_for(file.file()) {
            Ok(None) => {
                self.calls.note(&Syscall::Synced(file.node()));
                Ok(())
            }
            Ok(Some(cant)) => {
                self.calls.note(&Syscall::Unsyncable(file.node(), &cant));
                self.is_unwaited = true;
                Ok(())
            }
            Err(error) => Err(self.note_indeterminate(file, error)),
        }
    }

    /// Duplicates the descriptor of a file and closes the duplicate (`dup`, `close`), since the
    /// system reports failed writes at any close. The file stays open.
    pub fn close(&mut self, file: &HostFile) -> io::Result<()>
        ensures ok { OnOk result (self.new.calls ≡ Closed (number_of file.now.node) ∷ self.old.calls) }
        ensures err { OnErr result (self.new.calls ≡ Indeterminate (number_of file.now.node) ∷ self.old.calls) }
        ensures counted { CountsFailure result self.old.failed self.new.failed }
    {
        match close_copy(&self.rt, file.file()) {
            Ok(()) => {
                self.calls.note(&Syscall::Closed(file.node()));
                Ok(())
            }
            Err(error) => Err(self.note_indeterminate(file, error)),
        }
    }

    /// Syncs the folder of a path, so that its names are on the disk, if its file system can.
    pub fn sync_names(&mut self, path: &str) -> io::Result<()>
        ensures ok { OnOk result (Waited (SyncedNames path.now) (UnsyncableNames path.now)
            self.old.calls self.new.calls) }
        ensures err { OnErr result (self.new.calls ≡ self.old.calls) }
        ensures counted { CountsFailure result self.old.failed self.new.failed }
    {
        let synced = sync_folder(&self.rt, path);
        self.note_either(
            &Syscall::SyncedNames(path),
            &Syscall::UnsyncableNames(path),
            synced,
        )
    }

    /// Syncs the folder of a path like [`sync_names`](Machine::sync_names), for a name that another
    /// program made. A folder that can't be read counts as one that can't be synced.
    pub fn sync_readable_names(&mut self, path: &str) -> io::Result<()>
        ensures ok { OnOk result (Waited (SyncedNames path.now) (UnsyncableNames path.now)
            self.old.calls self.new.calls) }
        ensures err { OnErr result (self.new.calls ≡ self.old.calls) }
        ensures counted { CountsFailure result self.old.failed self.new.failed }
    {
        let synced = sync_readable_folder(&self.rt, path);
        self.note_either(
            &Syscall::SyncedNames(path),
            &Syscall::UnsyncableNames(path),
            synced,
        )
    }

    /// Removes what is at a path, unless another file than this one is there by now.
    pub fn remove(&mut self, file: &HostFile, path: &str)
        ensures calls { MayHave (Removed path.now) self.old.calls self.new.calls }
        ensures counted { self.old.failed ≤ self.new.failed }
    {
        if is_at(&self.rt, file.file(), path) {
            match calls::remove(&self.rt, path) {
                Ok(()) => self.calls.note(&Syscall::Removed(path)),
                Err(_) => self.failed.note(),
            }
        }
    }
}
