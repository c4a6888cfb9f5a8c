//! A temporary file, which is renamed over the file beside it.

use age_host_model::Durability;
use age_host_paths::{is_at, lstat};
use age_host_syscalls::{above_stdio, calls, close_copy, lock, move_above_stdio, sync, write_at};
use std::alloc::Global;
use std::fs::{self, File, Metadata};
use std::io;
use std::os::unix::fs::{FileExt, MetadataExt};
use std::rt::HostRuntime;

/// The mode of a position. Only its owner may use it, since it holds digests of the plaintext,
/// against which guesses can be tried.
const MODE: u32 = 0o600;

/// The first contents of a temporary file: at least as many bytes as the longest position has, so
/// that a full disk can't refuse these.
const BLANKS: [u8; 256] = [b' '; 256];

/// A temporary file. It is removed when it is dropped, unless it was renamed.
pub(crate) struct TempFile {
    rt: HostRuntime,
    path: String,
    file: File,
}

impl Drop for TempFile {
    fn drop(self) {
        let TempFile { rt, path, file } = self;
        if is_at(&rt, &file, path.as_str()) {
            let _ = calls::remove(&rt, path.as_str());
        }
    }
}

impl TempFile {
    /// Makes the temporary file at a path where nothing is, or takes over the one that a killed run
    /// left there. The file holds blanks then, is locked, and only its owner may use it. Fails if
    /// anything else is there, or if another run has locked it.
    pub(crate) fn make(
        alloc: Global,
        rt: &HostRuntime,
        path: &str,
        durability: Durability,
    ) -> io::Result<TempFile> {
        let own = String::from_str(alloc, path)?;
        match calls::make(rt, path, MODE) {
            Ok(file) => {
                let made = TempFile {
                    rt: *rt,
                    path: own,
                    file: move_above_stdio(rt, file, path)?,
                };
                lock(&made.file)?;
                made.fill(&BLANKS, durability)?;
                Ok(made)
            }
            Err(error) if error.kind() == io::ErrorKind::AlreadyExists => Ok(TempFile {
                rt: *rt,
                path: own,
                file: take_left(rt, path)?,
            }),
            Err(error) => Err(error),
        }
    }

    /// Replaces the file's contents by these bytes, and syncs it if `durability` asks for that.
    /// Closes a second descriptor too, so that the file system reports failed writes.
    pub(crate) fn fill(&self, bytes: &[u8], durability: Durability) -> io::Result<()> {
        write_all(&self.rt, &self.file, bytes)?;
        calls::truncate(&self.file, bytes.len() as u64)?;
        if durability == Durability::Synced {
            sync(&self.file)?;
        }
        close_copy(&self.rt, &self.file)
    }

    /// Renames the file to a path, in place of what is there.
    pub(crate) fn replace(&self, path: &str) -> io::Result<()> {
        calls::rename(&self.rt, self.path.as_str(), path)
    }

    /// Renames the file to a path where nothing is, by a hard link, which never takes a file's
    /// place. On a file system without hard links, looks whether the path is free and then renames.
    pub(crate) fn link_to_new(&self, path: &str) -> io::Result<()> {
        if calls::link(&self.rt, self.path.as_str(), path).is_ok() {
            return calls::remove(&self.rt, self.path.as_str());
        }
        match lstat(&self.rt, path)? {
            None => self.replace(path),
            Some(_) => Err(came_meanwhile()),
        }
    }

    /// Returns whether the file is still at its path.
    pub(crate) fn is_there(&self) -> bool {
        is_at(&self.rt, &self.file, self.path.as_str())
    }

    /// Returns the open file.
    pub(crate) fn file(&self) -> &File {
        &self.file
    }
}

/// Returns the error for a file that appeared where another was, or none. Another run may have
/// saved it.
pub(crate) fn came_meanwhile() -> io::Error {
    io::Error::other("another program made it meanwhile")
}

/// Returns the error for what isn't known to be a file that a killed run left.
fn in_the_way() -> io::Error {
    io::Error::other("the .new file beside it exists; remove or rename it")
}

/// Writes all of these bytes, from the beginning of a file.
fn write_all(rt: &HostRuntime, file: &File, bytes: &[u8]) -> io::Result<()> {
    let mut at = 0;
    'parts: while at < bytes.len() {
        let n = write_at(rt, file, at as u64, &bytes[at..])?;
        at += n;
    }
    Ok(())
}

/// Opens the temporary file that a killed run left at a path, and locks it. A run locks it before
/// it is full, so one that is full and that nobody has locked is no other run's.
fn take_left(rt: &HostRuntime, path: &str) -> io::Result<File> {
    match lstat(rt, path)? {
        Some(found) if may_be_left(rt, &found) => {}
        _ => return Err(in_the_way()),
    }
    let file = above_stdio(calls::open_there(rt, path, true)?)?;
    if lock(&file)?
        && may_be_left(rt, &file.metadata()?)
        && holds_blanks(&file)?
        && is_at(rt, &file, path)
    {
        Ok(file)
    } else {
        Err(in_the_way())
    }
}

/// Returns whether a killed run may have left a file, by its metadata: a regular file of this user,
/// as long as the blanks, with one name.
fn may_be_left(rt: &HostRuntime, found: &Metadata) -> bool {
    let is_own = matches!(fs::metadata(rt, "/proc/self"), Ok(own) if own.uid() == found.uid());
    is_own && found.is_file() && found.nlink() == 1 && found.len() == BLANKS.len() as u64
}

/// Returns whether a file begins with the blanks.
fn holds_blanks(file: &File) -> io::Result<bool> {
    let mut held = [0; 256];
    let n = file.read_at(&mut held, 0)?;
    Ok(n == held.len() && held == BLANKS)
}
