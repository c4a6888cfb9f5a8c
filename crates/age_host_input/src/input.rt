//! A file that is read, or standard input.

ghost use Rattle.std.specs.Prelude.{◌≡◌, ◌≤◌, [], ◌∷◌, ◌++◌, IfOk, OnErr, false};
ghost use Rattle.std.specs.Io.{ReadsAtMost};
ghost use Rattle.age_io.specs.{ReadConsumes};
ghost use Rattle.age_cli_files.specs.{Gave, reading_of};
ghost use Rattle.age_host_input.specs.{IsFresh, as_source};
ghost use Rattle.age_host_input.specs.inner.{supply_of};

use age_cli_files::{Action, ErrorContext, EventLog, Failure, FileEvent, IfMissing, ReadSummary};
use age_cli_messages::TypeableScan;
use age_host_paths::{
    FileId, NameTarget, NameTargetName, StandardStream, is_on_disk, is_random, trace_bytes,
};
use age_host_syscalls::{TRIES, above_stdio, is_to_retry, too_many_tries};
use age_io::{ByteTrace, Failed, FailureCount, Source};
use std::alloc::Global;
use std::fs::{File, Metadata};
use std::io::{self, Read, Seek, SeekFrom};
use std::marker::Model;
use std::rt::{HostRuntime, Stdin};

/// The name of the system's random device. What is read under it must not be a file that somebody
/// filled, since two runs would take the same keys from it.
const RANDOM: &str = "/dev/urandom";

/// The open file or stream behind an input.
#[derive(Drop)]
enum InputHandle {
    /// A file that was opened.
    File(File),
    /// Standard input, from its current position.
    Input(Stdin),
    /// A file that doesn't exist.
    Nothing,
}

impl InputHandle {
    /// Reads some bytes, and notes them. Retries a call that was interrupted, or whose descriptor
    /// wasn't ready.
    fn read(
        &mut self,
        rt: &HostRuntime,
        into: &mut [u8],
        given: &mut ByteTrace,
        is_at_end: &mut bool,
    ) -> io::Result<usize>
        ensures bound { ReadsAtMost result into.new }
        ensures notes { ReadConsumes (supply_of given.old is_at_end.old)
            (supply_of given.new is_at_end.new) result into.new }
    {
        for _ in 0..TRIES {
            match self.read_once(into, given, is_at_end) {
                Err(error) if is_to_retry(rt, &error) => {}
                read => return read,
            }
        }
        Err(too_many_tries())
    }

    /// Reads some bytes by one call, and notes them. Proofs assume nothing about the call.
    fn read_once(
        &mut self,
        into: &mut [u8],
        given: &mut ByteTrace,
        is_at_end: &mut bool,
    ) -> io::Result<usize>
        ensures bound { ReadsAtMost result into.new }
        ensures notes { ReadConsumes (supply_of given.old is_at_end.old)
            (supply_of given.new is_at_end.new) result into.new }
        ensures err { OnErr result ((given.new ≡ given.old) × (is_at_end.new ≡ is_at_end.old)) }
    {
        let n = match self {
            InputHandle::File(file) => file.read(into)?,
            InputHandle::Input(input) => input.read(into)?,
            InputHandle::Nothing => 0,
        };
        given.note(&into[..n]);
        *is_at_end = n == 0 && !into.is_empty();
        Ok(n)
    }

    /// Skips bytes of a file on a disk, and returns their number. Skips none of a stream, or of a
    /// file that can't seek.
    fn skip(&mut self, most: u64) -> u64
        ensures { result ≤ most }
    {
        match self {
            InputHandle::File(file) => skip_in(file, most).unwrap_or(0),
            _ => 0,
        }
    }
}

/// Skips bytes of a file by one call (`lseek`), and returns their number. Doesn't go beyond the end
/// that a regular file has now. A block device refuses to go beyond its end, and stays where it is.
fn skip_in(file: &mut File, most: u64) -> io::Result<u64>
    ensures { IfOk result (λ n. n ≤ most) }
{
    let now = file.metadata()?;
    if !is_on_disk(&now) {
        return Ok(0);
    }
    let to_come = match read_len(&now) {
        Some(len) => len.saturating_sub(file.stream_position()?),
        None => most,
    };
    let n = most.min(to_come).min(i64::MAX as u64);
    file.seek(SeekFrom::Current(n as i64))?;
    Ok(n)
}

/// Returns whether a file is at its end, by its length.
fn is_at_end(file: &mut File) -> bool {
    match (file.stream_position(), file.metadata()) {
        (Ok(at), Ok(now)) => at >= now.len(),
        _ => false,
    }
}

/// Fails if what was found is a folder, or isn't the random device although the name is.
fn check_found(name: &str, found: &Metadata) -> io::Result<()> {
    if found.is_dir() {
        Err(io::Error::from(io::ErrorKind::IsADirectory))
    } else if name == RANDOM && !is_random(found) {
        Err(io::Error::other("it isn't the system's random device"))
    } else {
        Ok(())
    }
}

/// Returns the length of a regular file, or `None` for another kind.
fn read_len(metadata: &Metadata) -> Option<u64> {
    if metadata.is_file() {
        Some(metadata.len())
    } else {
        None
    }
}

/// A file that is read, or standard input, under its name on the command line. It keeps the number
/// of bytes that it gave, the first of them, and the last error, for what people are told.
///
/// Contracts see the bytes that it gave or skipped, and none that are to come; how many reads have
/// failed, whether the last one did, and whether the last that did not found the end; and which
/// file it is.
#[derive(Drop)]
pub struct HostIn<'w> {
    rt: HostRuntime,
    name: &'w str,
    handle: InputHandle,
    // The number of bytes that a regular file still has to give.
    left: Option<u64>,
    failures: FailureCount,
    given: ByteTrace,
    is_at_end: bool,
    // The identity of the file, if that is known.
    id: Option<FileId>,
    // What people are told: how much the file gave, and why a read has failed.
    summary: ReadSummary<'w>,
    error: Option<io::Error>,
    typing: Option<TypeableScan>,
    is_cut_off: bool,
}

impl<'w> Model for HostIn<'w> {
    ghost use Rattle.age_host_input.specs.{InputView};

    ghost Value = { InputView };

    ghost view = { λ s. record {
      name = s.name.now;
      failed = s.failures.count;
      failing = s.failures.last;
      given = s.given;
      is_at_end = s.is_at_end;
      size = s.left;
      id = s.id;
    } };
}

impl<'w> HostIn<'w> {
    /// Opens the file or stream to which a name leads. Standard output, standard error and folders
    /// can't be read. A file that doesn't exist is read as an empty one, if `missing` says so.
    pub fn open(
        alloc: Global,
        rt: &HostRuntime,
        name: &'w str,
        missing: IfMissing,
    ) -> io::Result<HostIn<'w>>
        ensures { IfOk result (IsFresh name.now) }
    {
        let NameTargetName { name, to, .. } = NameTargetName::of(alloc, rt, name)?;
        let opened = match to {
            NameTarget::Stream(stream) => HostIn::open_stream(rt, name, stream),
            NameTarget::Path(_) => HostIn::open_path(rt, name),
        };
        match opened {
            Err(error) if missing == IfMissing::Empty && error.kind() == io::ErrorKind::NotFound =>
                { Ok(HostIn::new(rt, name, InputHandle::Nothing, Some(0), None)) }
            opened => opened,
        }
    }

    fn new(
        rt: &HostRuntime,
        name: &'w str,
        handle: InputHandle,
        left: Option<u64>,
        id: Option<FileId>,
    ) -> HostIn<'w>
        ensures fresh { IsFresh name.now result }
        ensures same { result.id ≡ id }
    {
        HostIn {
            rt: *rt,
            name,
            handle,
            left,
            failures: FailureCount::none(),
            given: ByteTrace::new(),
            is_at_end: false,
            id,
            summary: ReadSummary::none(name),
            error: None,
            typing: None,
            is_cut_off: false,
        }
    }

    /// Returns the identity of the file, if that is known.
    pub fn id(&self) -> Option<FileId>
        ensures { result ≡ self.now.id }
    {
        self.id
    }

    /// Returns how many bytes a regular file still has to give, by its length when it was opened.
    pub fn length(&self) -> Option<u64>
        ensures { result ≡ self.now.size }
    {
        self.left
    }

    /// Notes in the log that the reading of the file is over, and what it gave.
    pub fn log_to(&self, log: &mut EventLog)
        ensures { log.new ≡ log.old ++ Gave (reading_of (as_source self.now)) ∷ [] }
    {
        let name = trace_bytes(self.name.as_bytes());
        log.note(FileEvent::Gave(&name, &self.given, self.is_at_end));
    }

    /// Returns how much the file gave, or why a read has failed.
    pub fn context(&self) -> ErrorContext<'w> {
        match self.error {
            Some(error) => ErrorContext::Failed(Failure {
                action: Action::Read,
                name: self.name,
                error,
            }),
            None => ErrorContext::Read(self.summary),
        }
    }

    /// Returns the name of the file, as the command line gives it.
    pub fn name(&self) -> &'w str {
        self.name
    }

    /// Returns whether the file became shorter while it was read.
    pub fn is_cut_off(&self) -> bool {
        self.is_cut_off
    }

    /// Starts a check whether what the file gives can be typed, as a passphrase.
    pub fn watch_typing(&mut self)
        ensures { self.new ≡ self.old }
    {
        self.typing = Some(TypeableScan::new());
    }

    /// Returns the check that [`watch_typing`](HostIn::watch_typing) has started, if it was called.
    pub fn typing(&self) -> Option<TypeableScan> {
        self.typing
    }

    /// Counts what a read gave, and notes if the file ended early because it was truncated. A file
    /// that the system makes up, as in `/proc`, may end before the length that it shows, and isn't
    /// noted.
    fn note_pulled(&mut self, pulled: &[u8])
        ensures { self.new ≡ record self.old { size = self.new.size } }
    {
        self.summary.count(pulled);
        if let Some(typing) = self.typing {
            self.typing = Some(typing.after(pulled));
        }
        let Some(left) = &mut self.left else {
            return;
        };
        *left = left.saturating_sub(pulled.len() as u64);
        if let InputHandle::File(file) = &mut self.handle
            && pulled.is_empty()
            && *left > 0
            && is_at_end(file)
        {
            self.is_cut_off = true;
        }
    }

    fn open_stream(
        rt: &HostRuntime,
        name: &'w str,
        stream: StandardStream,
    ) -> io::Result<HostIn<'w>>
        ensures { IfOk result (IsFresh name.now) }
    {
        let StandardStream::Input = stream else {
            return Err(io::Error::from(io::ErrorKind::Unsupported));
        };
        stream.check(rt)?;
        let id = FileId::of_open_stream(rt, stream)?;
        Ok(HostIn::new(rt, name, InputHandle::Input(rt.stdin()), None, id))
    }

    fn open_path(rt: &HostRuntime, name: &'w str) -> io::Result<HostIn<'w>>
        ensures { IfOk result (IsFresh name.now) }
    {
        let file = above_stdio(File::open(rt, name)?)?;
        let metadata = file.metadata()?;
        check_found(name, &metadata)?;
        let (left, id) = (read_len(&metadata), FileId::of(&metadata));
        Ok(HostIn::new(rt, name, InputHandle::File(file), left, id))
    }

    fn read(&mut self, into: &mut [u8]) -> io::Result<usize>
        ensures bound { ReadsAtMost result into.new }
        ensures notes { ReadConsumes (as_source self.old).supply (as_source self.new).supply result
            into.new }
        ensures counted { (self.new.failed ≡ self.old.failed)
            × (self.new.failing ≡ self.old.failing) }
        ensures same { self.new.name ≡ self.old.name }
    {
        self.handle
            .read(&self.rt, into, &mut self.given, &mut self.is_at_end)
    }
}

impl<'w> Source for HostIn<'w> {
    ghost view = { as_source };

    fn pull(&mut self, into: &mut [u8]) -> Result<usize, Failed> {
        let pulled = match self.read(into) {
            Ok(n) => {
                self.note_pulled(&into[..n]);
                Ok(n)
            }
            Err(error) => {
                self.error = Some(error);
                Err(Failed)
            }
        };
        self.failures.note(pulled)
    }

    fn skip(&mut self, most: u64) -> u64 {
        let n = self.handle.skip(most);
        self.given.note_unread(n);
        if let Some(left) = &mut self.left {
            *left = left.saturating_sub(n);
        }
        n
    }

    fn failures(&self) -> u64 {
        self.failures.count
    }
}
