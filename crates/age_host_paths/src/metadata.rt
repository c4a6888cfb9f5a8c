//! The identity of a file of any kind.

ghost use Rattle.age_host_paths.specs.Numbers.{NumbersAreApart};

use std::fs::{self, File, Metadata};
use std::io;
use std::os::unix::fs::MetadataExt;
use std::rt::HostRuntime;

/// The device and inode of a file, which identify it as long as it exists.
#[derive(Clone, Copy, PartialEq, Eq)]
pub struct DevIno {
    /// The number of the device that holds the file.
    pub device: u64,
    /// The number of the file on that device.
    pub inode: u64,
}

impl DevIno {
    /// Returns the device and inode in a file's metadata.
    pub fn of(metadata: &Metadata) -> DevIno {
        DevIno {
            device: metadata.dev(),
            inode: metadata.ino(),
        }
    }
}

/// Returns the metadata of what is at a path, without following a link, or `None` if nothing is
/// there (`lstat`).
pub fn lstat(rt: &HostRuntime, path: &str) -> io::Result<Option<Metadata>> {
    match fs::symlink_metadata(rt, path) {
        Ok(found) => Ok(Some(found)),
        Err(error) if error.kind() == io::ErrorKind::NotFound => Ok(None),
        Err(error) => Err(error),
    }
}

/// Returns the metadata of a file, following links, or `None` if there is none (`stat`).
pub fn stat(rt: &HostRuntime, name: &str) -> io::Result<Option<Metadata>> {
    match fs::metadata(rt, name) {
        Ok(found) => Ok(Some(found)),
        Err(error) if error.kind() == io::ErrorKind::NotFound => Ok(None),
        Err(error) => Err(error),
    }
}

/// Returns whether an open file is the one at a path, without following a link. Returns `false` if
/// either can't be looked at.
pub fn is_at(rt: &HostRuntime, file: &File, path: &str) -> bool {
    match (file.metadata(), lstat(rt, path)) {
        (Ok(own), Ok(Some(there))) => DevIno::of(&own) == DevIno::of(&there),
        _ => false,
    }
}

/// States that two files have the same number only if they are one file.
pub fn numbers_are_apart()
    ensures { NumbersAreApart }
{}
