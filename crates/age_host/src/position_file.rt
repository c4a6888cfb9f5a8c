//! The file of a position, and where its name leads.

use crate::temp_file::{TempFile, came_meanwhile};
use age_host_model::Durability;
use age_host_paths::{
    DevIno, FileId, Folder, NameTarget, check_place, check_same, is_at, lstat, parent_folder,
    resolve, stat,
};
use age_host_syscalls::{above_stdio, calls, lock, sync_folder};
use std::alloc::Global;
use std::fs::{self, File};
use std::io;
use std::os::unix::fs::MetadataExt;
use std::path::{Path, PathBuf};
use std::rt::HostRuntime;

/// The bit of a folder's mode by which only the owners of files may rename or remove them.
const STICKY: u32 = 0o1000;

/// The target of a position's name. Nothing is made or changed yet.
#[derive(Drop)]
pub struct Location<'w> {
    name: &'w str,
    // The path at the end of all links, and that of the temporary file beside it.
    path: PathBuf,
    beside: String,
    // The file that is at the path.
    found: Option<File>,
    id: Option<FileId>,
}

impl<'w> Location<'w> {
    /// Follows a name's links to the file of a position. Fails unless they lead to a regular file
    /// that can be written, or to nothing in an existing folder.
    pub fn of(alloc: Global, rt: &HostRuntime, name: &'w str) -> io::Result<Location<'w>> {
        let NameTarget::Path(path) = resolve(alloc, rt, name)? else {
            return Err(no_regular_file());
        };
        let text = path.as_str();
        let beside = format!(in alloc; "{text}.new")?;
        let found = open_regular(rt, name, text)?;
        let id = match &found {
            Some(file) => FileId::of(&file.metadata()?),
            None => None,
        };
        Ok(Location {
            name,
            path,
            beside,
            found,
            id,
        })
    }

    /// Returns the name of the position's file, as it was given.
    pub fn name(&self) -> &'w str {
        self.name
    }

    /// Returns the identity of the position's file, or `None` if none exists.
    pub fn id(&self) -> Option<FileId> {
        self.id
    }

    /// Returns whether the position's file exists and isn't empty.
    pub fn holds_bytes(&self) -> io::Result<bool> {
        match &self.found {
            Some(file) => Ok(file.metadata()?.len() > 0),
            None => Ok(false),
        }
    }

    /// Returns the identity of the file at the path of the temporary file, or `None` if none is
    /// there.
    pub fn beside_id(&self, rt: &HostRuntime) -> Option<FileId> {
        FileId::at(rt, self.beside.as_str())
    }

    /// Locks the position's file for this run, if one exists, and makes the temporary file beside
    /// it. Fails if another run has locked one of them, or if it can be seen that a rename would be
    /// refused.
    pub fn prepare(
        self,
        alloc: Global,
        rt: &HostRuntime,
        durability: Durability,
    ) -> io::Result<PositionFile<'w>> {
        let path = self.path.as_str();
        let folder = Folder::of(rt, path)?;
        if let Some(file) = &self.found {
            claim(rt, file, path)?;
        }
        let temp = TempFile::make(alloc, rt, self.beside.as_str(), durability)?;
        if let Some(file) = &self.found {
            check_replaceable(rt, file, temp.file(), path)?;
        }
        let prepared = PositionFile {
            rt: *rt,
            location: self,
            folder,
            temp,
        };
        prepared.check_folder()?;
        Ok(prepared)
    }
}

/// Returns the error for what can't be replaced by a rename.
fn no_regular_file() -> io::Error {
    io::Error::other("it is no regular file; name a file in a folder of your own")
}

/// Opens the regular file to which a name and its path lead, or returns `None` if they lead to
/// nothing and a file can be made there. Opens it for reading too, so that opening doesn't block on
/// a pipe that has come to its place.
fn open_regular(rt: &HostRuntime, name: &str, path: &str) -> io::Result<Option<File>> {
    match (stat(rt, name)?, lstat(rt, path)?) {
        (None, None) => {
            check_place(rt, path)?;
            Ok(None)
        }
        (Some(led), Some(there)) if led.is_file() && DevIno::of(&led) == DevIno::of(&there) => {
            Ok(Some(above_stdio(calls::open_there(rt, path, true)?)?))
        }
        _ => Err(no_regular_file()),
    }
}

/// Locks a file for this run. Fails if another run has the lock, or has put a file of its own in
/// its place before this lock, which wouldn't cover that one.
fn claim(rt: &HostRuntime, file: &File, path: &str) -> io::Result<()> {
    lock(file)?;
    if file.metadata()?.is_file() && is_at(rt, file, path) {
        Ok(())
    } else {
        Err(io::Error::from(io::ErrorKind::ResourceBusy))
    }
}

/// Fails if it can be seen that a temporary file can't be renamed over a file: that is a mount
/// point, or another user's in a folder where only the owners of files may rename them.
fn check_replaceable(rt: &HostRuntime, file: &File, temp: &File, path: &str) -> io::Result<()> {
    let (found, own) = (file.metadata()?, temp.metadata()?);
    if found.dev() != own.dev() {
        return Err(io::Error::other("it is a mount point; name a file in a folder of your own"));
    }
    let folder = fs::metadata(rt, parent_folder(path))?;
    let is_owner = own.uid() == 0 || found.uid() == own.uid() || folder.uid() == own.uid();
    if folder.mode() & STICKY != 0 && !is_owner {
        return Err(io::Error::other(
            "only its owner may replace it; name a file in a folder of your own",
        ));
    }
    Ok(())
}

/// The file of a position, with a temporary file beside it that is to be renamed over it. Both are
/// locked for this run as long as this exists.
#[derive(Drop)]
pub struct PositionFile<'w> {
    rt: HostRuntime,
    location: Location<'w>,
    folder: Folder,
    temp: TempFile,
}

impl<'w> PositionFile<'w> {
    /// Returns the name under which the position's file was prepared.
    pub fn name(&self) -> &'w str {
        self.location.name
    }

    /// Returns whether `id` is the position's file as it was found, or the temporary one.
    pub fn is(&self, id: Option<FileId>) -> bool {
        id.is_some() && (self.location.id == id || self.temp_id() == id)
    }

    /// Returns the identity of the temporary file, or `None` if its stat fails.
    pub fn temp_id(&self) -> Option<FileId> {
        match self.temp.file().metadata() {
            Ok(found) => FileId::of(&found),
            Err(_) => None,
        }
    }

    /// Returns whether `path` is the path of the position's file: both have the same file name and
    /// lead into the same folder.
    pub fn is_at(&self, path: &str) -> io::Result<bool> {
        if self.location.path.file_name() != Path::new(path).file_name() {
            return Ok(false);
        }
        match check_same(Some(&self.folder), Folder::of(&self.rt, path).map(Some)) {
            Ok(()) => Ok(true),
            Err(error) if error.kind() == io::ErrorKind::OutOfMemory => Err(error),
            Err(_) => Ok(false),
        }
    }

    /// Replaces the file by one of these bytes, and syncs it if `durability` asks for that. The
    /// file stays unchanged until the new one is complete, and if this fails before the rename.
    /// Fails if another file has come meanwhile, or if the path leads into another folder now.
    pub fn save(&self, alloc: Global, bytes: &[u8], durability: Durability) -> io::Result<()> {
        self.check_folder()?;
        if self.temp.is_there() {
            return self.put(&self.temp, bytes, durability);
        }
        let beside = self.location.beside.as_str();
        let again = TempFile::make(alloc, &self.rt, beside, durability)?;
        self.put(&again, bytes, durability)
    }

    /// Writes a temporary file, and renames it over the file.
    fn put(&self, temp: &TempFile, bytes: &[u8], durability: Durability) -> io::Result<()> {
        let path = self.location.path.as_str();
        temp.fill(bytes, durability)?;
        self.check_folder()?;
        match (&self.location.found, lstat(&self.rt, path)?) {
            (_, None) => temp.link_to_new(path)?,
            (Some(file), Some(_)) if is_at(&self.rt, file, path) => temp.replace(path)?,
            _ => return Err(came_meanwhile()),
        }
        if durability == Durability::Synced {
            sync_folder(&self.rt, path)?;
        }
        Ok(())
    }

    /// Fails if the file's path no longer leads into the same folder.
    fn check_folder(&self) -> io::Result<()> {
        let now = Folder::of(&self.rt, self.location.path.as_str());
        check_same(Some(&self.folder), now.map(Some))
    }
}
