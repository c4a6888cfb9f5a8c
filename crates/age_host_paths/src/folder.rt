//! The folder that a path leads into.

use crate::metadata::DevIno;
use std::path::{Path, PathBuf};
use std::rt::HostRuntime;
use std::{fs, io};

/// Returns the path of the folder that holds a path's file: `.` if the path names none.
pub fn parent_folder(path: &str) -> &str {
    match Path::new(path).parent() {
        Some(folder) if !folder.as_str().is_empty() => folder.as_str(),
        _ => ".",
    }
}

/// The identity of a folder.
#[derive(Drop)]
pub enum Folder {
    /// The folder's path, without links.
    Path(PathBuf),
    /// The folder's device and inode, if it has no such path, as when the path is longer than the
    /// system takes.
    Node(DevIno),
}

impl Folder {
    /// Returns the folder that a path leads into. Fails if that isn't known.
    pub fn of(rt: &HostRuntime, path: &str) -> io::Result<Folder> {
        match fs::canonicalize(rt, parent_folder(path)) {
            Ok(folder) => Ok(Folder::Path(folder)),
            Err(error) if error.kind() == io::ErrorKind::OutOfMemory => Err(error),
            Err(_) => Ok(Folder::Node(DevIno::of(&fs::metadata(rt, parent_folder(path))?))),
        }
    }

    fn is_same(&self, other: &Folder) -> bool {
        match (self, other) {
            (Folder::Path(one), Folder::Path(other)) => one.as_str() == other.as_str(),
            (Folder::Node(one), Folder::Node(other)) => one == other,
            _ => false,
        }
    }
}

/// Fails if the folder that was found before isn't the one that is found now. What is done there
/// next goes by its path again, so somebody who may rename the folder can still do so in between.
pub fn check_same(before: Option<&Folder>, now: io::Result<Option<Folder>>) -> io::Result<()> {
    match (before, now) {
        (Some(before), Ok(Some(now))) if before.is_same(&now) => Ok(()),
        (None, Ok(None)) => Ok(()),
        (_, Err(error)) if error.kind() == io::ErrorKind::OutOfMemory => Err(error),
        _ => Err(io::Error::other("its folder has changed")),
    }
}

/// Fails if no file can be made at a path, since it ends without a file name or its folder doesn't
/// exist.
pub fn check_place(rt: &HostRuntime, path: &str) -> io::Result<()> {
    if path.is_empty() || path.ends_with('/') {
        return Err(io::Error::from(io::ErrorKind::IsADirectory));
    }
    if fs::metadata(rt, parent_folder(path))?.is_dir() {
        Ok(())
    } else {
        Err(io::Error::from(io::ErrorKind::NotADirectory))
    }
}
