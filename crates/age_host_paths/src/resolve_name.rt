//! The resolution of a name: to a standard stream, or to a file over all links.

ghost use Rattle.std.specs.Prelude.{◌≡◌, ◌<◌, ◌^◌, IfOk, is_some, false};
ghost use Rattle.age_host_paths.specs.Places.{IsItself};
ghost use Rattle.age_host_paths.specs.declared.resolve_name.FileId.TheVariants.{File};

use crate::metadata::{DevIno, stat};
use age_io::ByteTrace;
use std::alloc::Global;
use std::fs::{self, Metadata};
use std::io;
use std::os::fd::{AsFd, OwnedFd};
use std::os::unix::fs::{FileTypeExt, MetadataExt};
use std::path::PathBuf;
use std::rt::HostRuntime;

/// A stream that the program was started with.
#[derive(Clone, Copy)]
pub enum StandardStream {
    /// Standard input.
    Input,
    /// Standard output.
    Output,
    /// Standard error.
    Faults,
}

impl StandardStream {
    /// Returns the stream that a name such as `/dev/stdin` means, or `None` for any other name.
    fn named(name: &str) -> Option<StandardStream> {
        match name {
            "/dev/stdin" | "/dev/fd/0" | "/proc/self/fd/0" => Some(StandardStream::Input),
            "/dev/stdout" | "/dev/fd/1" | "/proc/self/fd/1" => Some(StandardStream::Output),
            "/dev/stderr" | "/dev/fd/2" | "/proc/self/fd/2" => Some(StandardStream::Faults),
            _ => None,
        }
    }

    /// Returns the path at which the system shows the file behind the stream.
    pub fn path(self) -> &'static str {
        match self {
            StandardStream::Input => "/proc/self/fd/0",
            StandardStream::Output => "/proc/self/fd/1",
            StandardStream::Faults => "/proc/self/fd/2",
        }
    }

    /// Returns a second descriptor of the stream. Fails if the program was started without this
    /// stream.
    pub fn copy(self, rt: &HostRuntime) -> io::Result<OwnedFd> {
        match self {
            StandardStream::Input => rt.stdin().as_fd().try_clone_to_owned(),
            StandardStream::Output => rt.stdout().as_fd().try_clone_to_owned(),
            StandardStream::Faults => rt.stderr().as_fd().try_clone_to_owned(),
        }
    }

    /// Fails if the program was started without this stream. Duplicates the descriptor only if
    /// necessary, since closing a duplicate tells some file systems that all is written.
    pub fn check(self, rt: &HostRuntime) -> io::Result<()> {
        if !matches!(stat(rt, self.path()), Ok(Some(_))) {
            self.copy(rt)?;
        }
        Ok(())
    }

    /// Returns whether the stream leads to a file whose bytes are on a disk. Returns `true` if the
    /// system doesn't show that.
    pub fn may_be_on_disk(self, rt: &HostRuntime) -> bool {
        match stat(rt, self.path()) {
            Ok(Some(metadata)) => is_on_disk(&metadata),
            _ => true,
        }
    }
}

/// The target of a name.
#[derive(Drop)]
pub enum NameTarget {
    /// A stream that the program was started with.
    Stream(StandardStream),
    /// A path that isn't a link, and at which a file may or may not exist.
    Path(PathBuf),
}

/// The answer of the system that a name is a link. Only [`NameTargetName::of`], which asks, makes
/// one, so the path of a name differs from the name only if the system said so.
#[derive(Clone, Copy)]
pub struct SymlinkWitness(());

/// A name and its target.
#[derive(Drop)]
pub struct NameTargetName<'w> {
    /// The name, as it was given.
    pub name: &'w str,
    /// The target, at the end of all links.
    pub to: NameTarget,
    /// The answer of the system that the name is a link, if it is one.
    pub link: Option<SymlinkWitness>,
}

/// The largest number of links that are followed, which is that of the system.
const LINKS_MAX: usize = 40;

impl<'w> NameTargetName<'w> {
    /// Follows the links of a name to its target. Proofs assume nothing about which names are
    /// links, nor where these lead.
    pub fn of(alloc: Global, rt: &HostRuntime, name: &'w str) -> io::Result<NameTargetName<'w>>
        ensures named { IfOk result (λ l. l.name.now ≡ name.now) }
        ensures at { IfOk result (λ l. is_some l.link ≡ false → IsItself name.now l.to) }
    {
        let mut path = PathBuf::from_str(alloc, name)?;
        let mut link = None;
        'links: for _ in 0..=LINKS_MAX {
            if let Some(stream) = StandardStream::named(path.as_str()) {
                return Ok(NameTargetName {
                    name,
                    to: NameTarget::Stream(stream),
                    link,
                });
            }
            let Some(target) = follow_link(alloc, rt, &path)? else {
                return Ok(NameTargetName {
                    name,
                    to: NameTarget::Path(path),
                    link,
                });
            };
            path = target;
            link = Some(SymlinkWitness(()));
        }
        Err(io::Error::from(io::ErrorKind::FilesystemLoop))
    }
}

/// Follows a name's links to a standard stream or a path.
pub fn resolve(alloc: Global, rt: &HostRuntime, name: &str) -> io::Result<NameTarget> {
    Ok(NameTargetName::of(alloc, rt, name)?.to)
}

/// Returns the target of a link, or `None` for what isn't a link.
fn follow_link(alloc: Global, rt: &HostRuntime, path: &PathBuf) -> io::Result<Option<PathBuf>> {
    match fs::read_link(rt, path.as_str()) {
        Ok(target) => match path.parent() {
            Some(folder) => Ok(Some(folder.join(alloc, target.as_str())?)),
            None => Ok(Some(target)),
        },
        Err(error) if error.kind() == io::ErrorKind::OutOfMemory => Err(error),
        Err(_) => Ok(None),
    }
}

/// The identity of a file, whatever its names.
#[derive(Clone, Copy, PartialEq, Eq)]
pub enum FileId {
    /// A regular file or a pipe, by its device and inode.
    File(DevIno),
    /// A block device, by its number.
    Block(u64),
}

impl FileId {
    /// Returns the identity of the file with this metadata, or `None` for a terminal or another
    /// character device, and for a socket, since what is written to one is never read from it
    /// again.
    pub fn of(metadata: &Metadata) -> Option<FileId> {
        let kind = metadata.file_type();
        if kind.is_block_device() {
            Some(FileId::Block(metadata.rdev()))
        } else if kind.is_file() || kind.is_fifo() {
            Some(FileId::of_node(DevIno::of(metadata)))
        } else {
            None
        }
    }

    /// Returns the identity of a regular file or a pipe.
    pub fn of_node(node: DevIno) -> FileId
        ensures known { result ≡ File node }
        ensures fits { node.inode < 2 ^ 64 }
    {
        FileId::File(node)
    }

    /// Returns the identity of the file to which a name leads, or `None` if it leads to none. Fails
    /// if the stat fails, since nobody knows then which file it is.
    pub fn file_id_at(rt: &HostRuntime, name: &str) -> io::Result<Option<FileId>> {
        match stat(rt, name)? {
            Some(found) => Ok(FileId::of(&found)),
            None => Ok(None),
        }
    }

    /// Returns the identity of a file like [`file_id_at`](FileId::file_id_at), but `None` if the
    /// stat fails.
    pub fn at(rt: &HostRuntime, name: &str) -> Option<FileId> {
        FileId::file_id_at(rt, name).unwrap_or(None)
    }

    /// Returns the identity of the file to which an open stream leads. Fails if the system doesn't
    /// show that, as when `/proc` doesn't exist, since what is read could be overwritten.
    pub fn of_open_stream(rt: &HostRuntime, stream: StandardStream) -> io::Result<Option<FileId>> {
        match stat(rt, stream.path())? {
            Some(found) => Ok(FileId::of(&found)),
            None => Err(io::Error::other("/proc doesn't show where it leads")),
        }
    }
}

/// Returns whether `id` is the file to which standard error leads.
pub fn is_for_faults(rt: &HostRuntime, id: Option<FileId>) -> bool {
    id.is_some() && id == FileId::at(rt, StandardStream::Faults.path())
}

/// The identity of a stream, which gives each of its bytes once, whatever its names.
#[derive(Clone, Copy, PartialEq, Eq)]
pub enum StreamId {
    /// Standard input, from its current position, if it leads to what others can open too, such as
    /// a regular file.
    Input,
    /// A terminal, or another device that is read byte by byte, by its number.
    Device(u64),
    /// A pipe, a socket or another file of their kind, by its device and inode.
    Pipe(DevIno),
}

/// The number of `/dev/tty`, a second name of the terminal of this program.
const CONTROLLING_TERMINAL: u64 = 0x500;

impl StreamId {
    /// Returns the stream to which a name leads, before it is opened, or `None` for what can be
    /// read twice. Fails if memory runs out.
    pub fn at(alloc: Global, rt: &HostRuntime, name: &str) -> io::Result<Option<StreamId>> {
        match resolve(alloc, rt, name) {
            Ok(NameTarget::Path(_)) => Ok(StreamId::found(rt, name)),
            Ok(NameTarget::Stream(StandardStream::Input)) => Ok(Some(StreamId::of_input(rt))),
            Err(error) if error.kind() == io::ErrorKind::OutOfMemory => Err(error),
            _ => Ok(None),
        }
    }

    /// Returns the stream behind standard input.
    fn of_input(rt: &HostRuntime) -> StreamId {
        match StreamId::found(rt, StandardStream::Input.path()) {
            Some(id) => id,
            None => StreamId::Input,
        }
    }

    /// Returns the stream at a path, or `None` if what is there can be read twice or can't be
    /// looked at.
    fn found(rt: &HostRuntime, path: &str) -> Option<StreamId> {
        match stat(rt, path) {
            Ok(Some(found)) => StreamId::of(&found),
            _ => None,
        }
    }

    fn of(metadata: &Metadata) -> Option<StreamId> {
        let kind = metadata.file_type();
        if kind.is_file() || kind.is_dir() || kind.is_block_device() {
            None
        } else if kind.is_char_device() {
            StreamId::of_device(metadata.rdev())
        } else {
            Some(StreamId::Pipe(DevIno::of(metadata)))
        }
    }

    /// Returns the stream of a character device, or `None` for one without an end or a state:
    /// `/dev/null`, `zero`, `full`, `random` and `urandom`.
    fn of_device(number: u64) -> Option<StreamId> {
        match number {
            0x103 | 0x105 | 0x107 | 0x108 | 0x109 => None,
            _ => Some(StreamId::Device(number)),
        }
    }

    /// Returns whether two streams are one, as far as the system shows.
    pub fn is_same(self, other: StreamId) -> bool {
        match (self, other) {
            (StreamId::Device(CONTROLLING_TERMINAL), StreamId::Device(device))
            | (StreamId::Device(device), StreamId::Device(CONTROLLING_TERMINAL)) => {
                // (By their major numbers memory, tapes and devices without a kind of their own, as a
                // generator of random bytes, are no terminals.)
                !matches!(device >> 8 & 0xfff, 1 | 9 | 10)
            }
            _ => self == other,
        }
    }
}

/// Returns whether the bytes of a file are on a disk: those of a regular file or a block device.
pub fn is_on_disk(metadata: &Metadata) -> bool {
    let kind = metadata.file_type();
    kind.is_file() || kind.is_block_device()
}

/// Returns whether a file is a pipe or a socket, so that nobody knows who has what is written to
/// it.
pub fn is_pipe_or_socket(metadata: &Metadata) -> bool {
    let kind = metadata.file_type();
    kind.is_fifo() || kind.is_socket()
}

/// Returns whether a file is the system's random device, `/dev/random` or `/dev/urandom`.
pub fn is_random(metadata: &Metadata) -> bool {
    metadata.file_type().is_char_device() && matches!(metadata.rdev(), 0x108 | 0x109)
}

/// Returns a trace of these bytes, for contracts. Ghost: no bytes at run time.
pub fn trace_bytes(bytes: &[u8]) -> ByteTrace
    ensures { result ≡ bytes.now }
{
    let mut trace = ByteTrace::new();
    trace.note(bytes);
    trace
}
