//! The system calls that change a folder or a file. Each function makes one, and returns the
//! system's answer.

ghost use Rattle.std.specs.Io.{WritesAtMost};

use std::fs::{self, File};
use std::io::{self, Write};
use std::os::unix::fs::{FileExt, OpenOptionsExt};
use std::rt::HostRuntime;
use std_io::io::last_error;

/// A file name of more than 255 bytes, which no folder can hold. Its stat always fails.
const TOO_LONG: &str =
    "/too-long-a-name-too-long-a-name-too-long-a-name-too-long-a-name-too-long-a-name\
    -too-long-a-name-too-long-a-name-too-long-a-name-too-long-a-name-too-long-a-name\
    -too-long-a-name-too-long-a-name-too-long-a-name-too-long-a-name-too-long-a-name\
    -too-long-a-name-too-long-a-name-too-long-a-name-too-long-a-name-too-long-a-name";

/// Closes a descriptor, which may be one of several for an open file, and returns the system's
/// answer. A file system that stores a file only when it is closed reports a failure here, and
/// nowhere else.
///
/// `std` closes what is dropped and loses the answer, but the system keeps the reason for its last
/// failure (`errno`). So a stat is made to fail first, and if the reason is a different one after
/// the close, the close failed. Only a close that failed because a name is too long would go
/// unnoticed.
pub fn close<D: Drop>(rt: &HostRuntime, descriptor: D) -> io::Result<()> {
    let _ = fs::metadata(rt, TOO_LONG);
    let before = last_error().raw_os_error();
    drop(descriptor);
    let after = last_error();
    if after.raw_os_error() == before {
        Ok(())
    } else {
        Err(after)
    }
}

/// Syncs a file: its bytes and its metadata (`fsync`).
pub fn sync_whole(file: &File) -> io::Result<()> {
    file.sync_all()
}

/// Truncates a file to `len` bytes, or extends it (`ftruncate`).
pub fn truncate(file: &File, len: u64) -> io::Result<()> {
    file.set_len(len)
}

/// Writes some bytes to a file at an offset, without moving its position (`pwrite`), and returns
/// their number. A file that can't seek, such as some of those in `/proc`, gets them at its
/// position.
pub fn write_at(file: &File, bytes: &[u8], at: u64) -> io::Result<usize>
    ensures { WritesAtMost result bytes.now }
{
    match file.write_at(bytes, at) {
        Err(error) if error.kind() == io::ErrorKind::NotSeekable => {
            file.try_clone()?.write(bytes)
        }
        written => written,
    }
}

/// Makes a file at a path where nothing exists, not even a link, and opens it for writing
/// (`O_EXCL`).
pub fn make(rt: &HostRuntime, path: &str, mode: u32) -> io::Result<File> {
    let mut options = File::options();
    options
        .write(true)
        .create_new(true)
        .mode(mode)
        .open(rt, path)
}

/// Makes a file at a path where nothing exists, not even a link, and opens it to append: each write
/// goes to its end (`O_EXCL` and `O_APPEND`).
pub fn make_to_append(rt: &HostRuntime, path: &str, mode: u32) -> io::Result<File> {
    let mut options = File::options();
    options
        .append(true)
        .create_new(true)
        .mode(mode)
        .open(rt, path)
}

/// Opens a file for writing, without truncating it. Makes it if it doesn't exist, as when it has
/// just been removed (`O_CREAT`).
pub fn open_or_make(rt: &HostRuntime, name: &str, mode: u32) -> io::Result<File> {
    let mut options = File::options();
    options.write(true).create(true).mode(mode).open(rt, name)
}

/// Opens an existing file for writing, and for reading too if `is_read`. With both, opening a pipe
/// doesn't block.
pub fn open_there(rt: &HostRuntime, name: &str, is_read: bool) -> io::Result<File> {
    let mut options = File::options();
    options.read(is_read).write(true).open(rt, name)
}

/// Renames a file, in place of any file that has the new name (`rename`).
pub fn rename(rt: &HostRuntime, from: &str, to: &str) -> io::Result<()> {
    fs::rename(rt, from, to)
}

/// Gives a file a second name, which must not exist yet, by a hard link (`link`).
pub fn link(rt: &HostRuntime, from: &str, to: &str) -> io::Result<()> {
    fs::hard_link(rt, from, to)
}

/// Removes a name of a file (`unlink`).
pub fn remove(rt: &HostRuntime, path: &str) -> io::Result<()> {
    fs::remove_file(rt, path)
}
