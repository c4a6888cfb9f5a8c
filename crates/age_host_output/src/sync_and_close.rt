//! Syncing files that are written, and closing standard streams.

use age_host_paths::{StandardStream, is_on_disk};
use age_host_syscalls::calls::{close, open_there};
use age_host_syscalls::{above_stdio, sync};
use std::fs::File;
use std::io;
use std::rt::HostRuntime;

/// Syncs a file, if its bytes are on a disk and its file system can sync.
pub(crate) fn sync_file(file: &File) -> io::Result<()> {
    if is_on_disk(&file.metadata()?) {
        sync(file)?;
    }
    Ok(())
}

/// A second descriptor of the file behind a standard stream, by which the file is synced, since the
/// kit can't sync by the descriptor that was inherited. It is opened before anything is written,
/// since the system reports a failed write to each descriptor that was open then, and to no later
/// one.
#[derive(Drop)]
pub(crate) struct SyncHandle(Option<io::Result<File>>);

impl SyncHandle {
    /// Returns no descriptor, for a stream that is never synced.
    pub(crate) fn none() -> SyncHandle {
        SyncHandle(None)
    }

    /// Opens a second descriptor of the file behind a stream, if its bytes may be on a disk.
    pub(crate) fn of(rt: &HostRuntime, stream: StandardStream) -> SyncHandle {
        if stream.may_be_on_disk(rt) {
            SyncHandle(Some(open_either_way(rt, stream.path())))
        } else {
            SyncHandle(None)
        }
    }

    /// Returns whether the file couldn't be opened, as when it is another user's.
    pub(crate) fn is_missing(&self) -> bool {
        match &self.0 {
            Some(Err(_)) => true,
            _ => false,
        }
    }

    /// Syncs what went to the stream, if there is a descriptor for that. Fails if the file couldn't
    /// be opened.
    pub(crate) fn sync(&self) -> io::Result<()> {
        match &self.0 {
            Some(Ok(file)) => sync(file).map(|_| ()),
            Some(Err(error)) => Err(*error),
            None => Ok(()),
        }
    }
}

/// Opens a file for reading, or for writing if it can't be read.
fn open_either_way(rt: &HostRuntime, path: &str) -> io::Result<File> {
    match File::open(rt, path) {
        Ok(file) => above_stdio(file),
        Err(_) => above_stdio(open_there(rt, path, false)?),
    }
}

/// Closes a second descriptor of a stream, if its bytes may be on a disk. The first one stays open,
/// since the next file to be opened would take its place.
pub(crate) fn close_stream(rt: &HostRuntime, stream: StandardStream) -> io::Result<()> {
    if stream.may_be_on_disk(rt) {
        close(rt, stream.copy(rt)?)
    } else {
        Ok(())
    }
}
