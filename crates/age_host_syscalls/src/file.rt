//! Files that are open for writing. Proofs assume nothing about what the system shows of them.

ghost use Rattle.std.specs.Prelude.{◌≡◌, ◌<◌, length, true, false, IsOk, IfOk, IfErr};
ghost use Rattle.std.specs.Io.{WritesAtMost};
ghost use Rattle.age_host_syscalls.specs.inner.Locks.{SaysNoLocks, HasNoLocks};

use crate::calls;
use crate::retry::{TRIES, is_to_retry, too_many_tries};
use crate::sync_support::sync;
use age_host_model::FileKind;
use age_host_paths::{DevIno, is_at, parent_folder, stat};
use std::fs::{self, File, Metadata, TryLockError};
use std::io;
use std::os::fd::AsRawFd;
use std::os::unix::fs::MetadataExt;
use std::rt::HostRuntime;

/// The mode of a new output, before the umask.
pub(crate) const OUTPUT_MODE: u32 = 0o666;

/// The highest descriptor of a standard stream.
const STREAM_MAX: i32 = 2;

/// Moves a file to a descriptor above 2. If the program was started with a standard stream closed,
/// the next file opened would take its place, and output meant for the stream would go there.
pub fn above_stdio(file: File) -> io::Result<File> {
    if file.as_raw_fd() > STREAM_MAX {
        Ok(file)
    } else {
        file.try_clone()
    }
}

/// Moves a file that was made at a path to a descriptor above 2, as [`above_stdio`] does. Removes
/// the file if that fails, unless another file is at the path by then.
pub fn move_above_stdio(rt: &HostRuntime, made: File, path: &str) -> io::Result<File> {
    if made.as_raw_fd() > STREAM_MAX {
        return Ok(made);
    }
    let moved = made.try_clone();
    if moved.is_err() && is_at(rt, &made, path) {
        let _ = calls::remove(rt, path);
    }
    moved
}

/// Syncs the folder of a path, so that its names are on the disk. Returns `false` if the file
/// system can't sync it. Fails if the folder can't be opened.
pub fn sync_folder(rt: &HostRuntime, path: &str) -> io::Result<bool> {
    sync(&File::open(rt, parent_folder(path))?)
}

/// Opens a file for writing without truncating it, or returns `None` if it doesn't exist. A file
/// that is removed just before is made again, since this opens with `O_CREAT`: only then does the
/// system refuse somebody else's file or pipe in a sticky folder, if it protects these.
fn open_to_write(rt: &HostRuntime, name: &str) -> io::Result<Option<File>> {
    match stat(rt, name)? {
        Some(_) => Ok(Some(calls::open_or_make(rt, name, OUTPUT_MODE)?)),
        None => Ok(None),
    }
}

/// Returns whether two files were made at different times, as far as the system shows that. Inode
/// numbers don't tell, since the next file may get the number of a removed one.
fn has_newer_birth_time(before: &Metadata, now: &Metadata) -> bool {
    matches!((before.created(), now.created()), (Ok(before), Ok(now)) if before != now)
}

/// Returns whether opening a file has made it, since the file that was seen before is gone. That
/// one held something; this one is empty, no other run has locked it, and its path leads to it.
fn was_recreated(rt: &HostRuntime, before: io::Result<Metadata>, file: &File, path: &str) -> bool {
    let (Ok(before), Ok(now)) = (before, file.metadata()) else {
        return false;
    };
    let is_another = DevIno::of(&before) != DevIno::of(&now) || has_newer_birth_time(&before, &now);
    let was_emptied = before.is_file() && before.len() > 0 && now.len() == 0;
    is_another && was_emptied && file.try_lock().is_ok() && is_at(rt, file, path)
}

/// Returns whether an error says that a folder can't be read.
fn is_out_of_reach(error: &io::Error) -> bool {
    matches!(
        error.kind(),
        io::ErrorKind::PermissionDenied | io::ErrorKind::NotFound
    )
}

/// Syncs the folder of a path like [`sync_folder`], but also returns `false` if the folder can't be
/// read.
pub(crate) fn sync_readable_folder(rt: &HostRuntime, path: &str) -> io::Result<bool> {
    match File::open(rt, parent_folder(path)) {
        Ok(folder) => sync(&folder),
        Err(error) if is_out_of_reach(&error) => Ok(false),
        Err(error) => Err(error),
    }
}

/// The length of an open file, and whether it still has a name, as `fstat` tells.
#[derive(Clone, Copy)]
pub struct FileStat {
    /// True if the file has a name.
    pub is_named: bool,
    /// The length in bytes.
    pub len: u64,
}

/// The length that a file should have, and whether it should have a name. If it differs, another
/// program has changed the file.
#[derive(Clone, Copy)]
pub struct ExpectedStat {
    /// The length in bytes.
    pub len: u64,
    /// True if the file may be longer than `len`.
    pub may_be_longer: bool,
    /// True if the length shows how much was written to the file.
    pub has_length: bool,
    /// True if the file should have a name.
    pub is_named: bool,
}

/// Returns the length of a file, and whether it has a name (`fstat`).
pub(crate) fn fstat(file: &File) -> io::Result<FileStat> {
    let now = file.metadata()?;
    Ok(FileStat {
        is_named: now.nlink() > 0,
        len: now.len(),
    })
}

/// Fails if another program has removed a file or changed its length. Syncs a file of the wrong
/// length first, since a file system that takes bytes before there is room for them, as NFS does,
/// says why only then.
pub(crate) fn verify_unchanged(file: &File, shape: &ExpectedStat) -> io::Result<()> {
    let now = fstat(file)?;
    let is_right = now.len == shape.len || (shape.may_be_longer && now.len > shape.len);
    if shape.is_named && !now.is_named {
        Err(io::Error::other("it was removed meanwhile"))
    } else if shape.has_length && !is_right {
        sync(file)?;
        Err(io::Error::other("another program changed its length"))
    } else {
        Ok(())
    }
}

/// The number of the error `ENOLCK` (no locks available), which has no kind in `std`.
const NO_LOCKS: i32 = 37;

/// Returns whether an error says that a file system has no locks. A file system whose locks fail,
/// as when its server can't be reached, gives another error: another run may have locked the file
/// there.
fn has_no_locks(error: &io::Error) -> bool
    ensures { result ≡ true → SaysNoLocks error.now }
{
    match error.kind() {
        io::ErrorKind::InvalidInput | io::ErrorKind::Unsupported => true,
        _ => error.raw_os_error() == Some(NO_LOCKS),
    }
}

/// Returns whether the system gave a lock, by its answer, or `false` if it has no locks for the
/// file. Fails if another run has the lock.
fn is_locked(answer: Result<(), TryLockError>) -> io::Result<bool>
    ensures given { IfOk result (λ it. it ≡ true → IsOk answer) }
    ensures cant { IfOk result (λ it. it ≡ false → IfErr answer HasNoLocks) }
{
    match answer {
        Ok(()) => Ok(true),
        Err(TryLockError::WouldBlock) => Err(io::Error::new(
            io::ErrorKind::ResourceBusy,
            "another run writes to it",
        )),
        Err(TryLockError::Error(error)) if has_no_locks(&error) => Ok(false),
        Err(TryLockError::Error(error)) => Err(error),
    }
}

/// Locks a regular file for this run while it is open. Returns `false` if it isn't a regular file
/// or its file system has no locks. Fails if another run has the lock.
pub fn lock(file: &File) -> io::Result<bool> {
    if !file.metadata()?.is_file() {
        return Ok(false);
    }
    is_locked(file.try_lock())
}

/// Closes a second descriptor of a file, so that the file system reports failed writes. The file
/// stays open.
pub fn close_copy(rt: &HostRuntime, file: &File) -> io::Result<()> {
    calls::close(rt, file.try_clone()?)
}

/// A file that is open for writing, with its device and inode.
#[derive(Drop)]
pub struct HostFile {
    file: File,
    node: DevIno,
    // True if the file had a name when it was opened.
    is_named: bool,
}

impl HostFile {
    /// Creates a `HostFile` of an open file, and returns the kind of the file too.
    pub(crate) fn of(file: File) -> io::Result<(HostFile, FileKind)> {
        let found = file.metadata()?;
        let node = DevIno::of(&found);
        let is_named = found.nlink() > 0;
        let kind = if found.is_file() {
            FileKind::Regular(is_named)
        } else {
            FileKind::Device
        };
        let file = HostFile {
            file,
            node,
            is_named,
        };
        Ok((file, kind))
    }

    /// Opens a file for writing without truncating it, or returns `None` if it doesn't exist, or no
    /// longer does. A file that opening has made is removed again, if that is noticed.
    pub(crate) fn open(
        rt: &HostRuntime,
        name: &str,
        path: &str,
    ) -> io::Result<Option<(HostFile, FileKind)>> {
        let before = fs::metadata(rt, name);
        match open_to_write(rt, name)? {
            Some(file) => {
                let file = above_stdio(file)?;
                if was_recreated(rt, before, &file, path) && calls::remove(rt, path).is_ok() {
                    return Ok(None);
                }
                Ok(Some(HostFile::of(file)?))
            }
            None => Ok(None),
        }
    }

    /// Returns the file's device and inode, by which calls about it are noted.
    pub fn node(&self) -> DevIno
        ensures { result ≡ self.now.node }
    {
        self.node
    }

    /// Returns the open file.
    pub fn file(&self) -> &File {
        &self.file
    }

    /// Returns whether the file had a name when it was opened.
    pub fn is_named(&self) -> bool {
        self.is_named
    }

    /// Converts this into the open file.
    pub fn into_file(self) -> File {
        let HostFile { file, .. } = self;
        file
    }
}

/// Returns the file that a call has made at a path, if it has. Removes the file if it can't be
/// used.
pub(crate) fn made_file(
    rt: &HostRuntime,
    made: io::Result<File>,
    path: &str,
) -> io::Result<HostFile> {
    match HostFile::of(move_above_stdio(rt, made?, path)?) {
        Ok((file, _)) => Ok(file),
        Err(error) => {
            let _ = calls::remove(rt, path);
            Err(error)
        }
    }
}

/// Returns the error of a write that took no byte.
fn no_byte() -> io::Error {
    io::Error::new(io::ErrorKind::WriteZero, "failed to write whole buffer")
}

/// Writes some bytes to a file at an offset, and returns their number: at least 1, unless there are
/// none. Retries a call that was interrupted, or whose descriptor wasn't ready.
pub fn write_at(rt: &HostRuntime, file: &File, at: u64, bytes: &[u8]) -> io::Result<usize>
    ensures bound { WritesAtMost result bytes.now }
    ensures some { IfOk result (λ n. 0 < length bytes.now → 0 < n) }
{
    for _ in 0..TRIES {
        match calls::write_at(file, bytes, at) {
            Ok(0) if !bytes.is_empty() => return Err(no_byte()),
            Err(error) if is_to_retry(rt, &error) => {}
            written => return written,
        }
    }
    Err(too_many_tries())
}
