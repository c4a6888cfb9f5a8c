//! A set of files in memory.

ghost use Rattle.std.specs.Prelude.{◌≡◌, ◌↔◌, ◌⊎◌, ◌++◌, ◌∷◌, ◌<◌, ◌≤◌, IsTrue, [], true, Some, None, OnOk};
ghost use Rattle.std.specs.Prelude.{OnErr, IfOk, IsErrOf, IsOk, IfErr, IsOkUnless, Contains, is_some};
ghost use Rattle.std.specs.Prelude.{option_map, length, false};
ghost use Rattle.age_io.specs.Taken.{WriteAppends, Keeps};
ghost use Rattle.age_memory.specs.{Puts, Pulls, Flushes, holds, memory_supply};
ghost use Rattle.age_io.specs.{ReadConsumes};
ghost use Rattle.age_cli_memory.specs.{entry_of, empty_with, full_with, PutsEntry, held_by};
ghost use Rattle.age_cli_files.specs.{IsMemoryOr};
ghost use Rattle.age_cli_files.specs.{Found, Gave};
ghost use Rattle.age_cli_files.specs.{Settled, opened_as, looked_as, made_as, put_as};
ghost use Rattle.age_cli_memory.specs.{ended_with, size_in};
ghost use Rattle.age_cli_memory.specs.{shown_in, shown_out, seen_in, MemFails, AreTrue};
ghost use Rattle.age_cli_files.specs.{reading_of};
ghost use Rattle.age_cli_files.specs.declared.file_set.OpenFault.TheVariants.{Fault};
ghost use Rattle.age_host_model.specs.declared.options.ClobberOption.TheVariants.{Refused};

use crate::entry::{MemEntry, Name, find_bytes, put_entry};
use age_cli_files::{EventLog, FileError, FileEvent, FileSet, IfMissing, OpenError, Purpose};
use age_fault::FileFault;
use age_host_model::{ClobberOption, Durability, ErrorContext};
use age_io::{ByteTrace, Bytes, Failed, Memory, Sink, Source};
use age_memory::{MemSink, MemSource};
use std::alloc::{AllocError, Global};
use std::marker::Model;

/// A set of files in memory, with the names that can't be written, and the number of bytes that a
/// written file can hold. Contracts see all of that.
#[derive(Drop)]
pub struct MemFiles {
    entries: Vec<MemEntry>,
    refused: Vec<Name>,
    room: usize,
    log: EventLog,
    ended: Option<MemEnded>,
}

/// A record of an ended file in memory, for contracts.
#[derive(Drop)]
struct MemEnded {
    took: ByteTrace,
    is_closed: bool,
}

impl Model for MemEnded {
    ghost use Rattle.std.specs.Prelude.{None, [], false};
    ghost use Rattle.age_host_model.specs.{EndedFile};

    ghost Value = { EndedFile };

    ghost view = { λ e. record {
      took = e.took;
      is_closed = e.is_closed;
      file = None;
      is_link = false;
      calls = [];
      failed = 0;
    } };
}

impl Model for MemFiles {
    ghost use Rattle.age_cli_memory.specs.{Shelf, AreTrue};

    ghost Value = { Shelf };

    ghost view = { λ f. record {
      entries = f.entries.items;
      refused = f.refused.items;
      room = f.room;
      outcomes = f.log;
      ended = f.ended;
    } };

    ghost invariant = { λ f. AreTrue f.entries.items f.log };
}

/// A file in memory that is read. Contracts see its name and its source.
#[derive(Drop)]
pub struct MemIn {
    name: Name,
    source: MemSource,
}

impl Model for MemIn {
    ghost use Rattle.std.specs.Prelude.{ℕ, List};
    ghost use Rattle.age_memory.specs.{Feeding};

    ghost Value = { List ℕ × Feeding };

    ghost view = { λ i. (i.name, i.source) };
}

impl Source for MemIn {
    ghost view = { shown_in };

    fn pull(&mut self, into: &mut [u8]) -> Result<usize, Failed>
        ensures bound { IfOk result (λ n. n ≤ length into.new) }
        ensures bytes { ReadConsumes
            (memory_supply self.old.1.given self.old.1.left self.old.1.is_at_end)
            (memory_supply self.new.1.given self.new.1.left self.new.1.is_at_end) result into.new }
        ensures named { self.new.0 ≡ self.old.0 }
        ensures plan { Pulls self.old.1 (length into.new) result self.new.1 }
    {
        self.source.pull(into)
    }

    fn failures(&self) -> u64 {
        self.source.failures()
    }
}

/// A file in memory that is written. Contracts see its name and its sink.
#[derive(Drop)]
pub struct MemOut {
    name: Name,
    sink: MemSink,
}

impl Model for MemOut {
    ghost use Rattle.std.specs.Prelude.{ℕ, List};
    ghost use Rattle.age_memory.specs.{Holding};

    ghost Value = { List ℕ × Holding };

    ghost view = { λ o. (o.name, o.sink) };
}

impl Sink for MemOut {
    ghost view = { shown_out };

    fn put(&mut self, from: &[u8]) -> Result<usize, Failed>
        ensures bound { IfOk result (λ n. (n ≤ length from.now) × (0 < length from.now → 0 < n)) }
        ensures bytes { WriteAppends (holds self.old.1.held) (holds self.new.1.held) result from.now }
        ensures named { self.new.0 ≡ self.old.0 }
        ensures plan { Puts self.old.1 from.now result self.new.1 }
    {
        self.sink.put(from)
    }

    fn flush(&mut self) -> Result<(), Failed>
        ensures settled { OnOk result (self.new.1.flushed ≡ true) }
        ensures bytes { Keeps (holds self.old.1.held) (holds self.new.1.held) }
        ensures named { self.new.0 ≡ self.old.0 }
        ensures plan { Flushes self.old.1 result self.new.1 }
    {
        self.sink.flush()
    }

    fn failures(&self) -> u64 {
        self.sink.failures()
    }
}

impl MemFiles {
    /// Creates a set without files. A file that is written can hold `room` bytes.
    pub fn new(alloc: Global, room: usize) -> MemFiles
        ensures { result ≡ record {
          entries = [];
          refused = [];
          room = room;
          outcomes = [];
          ended = None;
        } }
    {
        MemFiles {
            entries: Vec::new(alloc),
            refused: Vec::new(alloc),
            room,
            log: EventLog::new(),
            ended: None,
        }
    }

    /// Adds a file, in place of any file of its name. If memory runs out, nothing changes.
    pub fn put(&mut self, alloc: Global, name: &str, bytes: Vec<u8>) -> Result<(), Memory>
        ensures puts { PutsEntry name.now bytes.items result self.old.entries self.new.entries }
        ensures kept { self.new ≡ record self.old {
          entries = self.new.entries;
          outcomes = self.old.outcomes ++ put_as name.now bytes.items result;
        } }
    {
        let name = Name::new(alloc, name).map_err(|_| Memory)?;
        self.put_noted(name, Bytes::from_vec(bytes))
            .map_err(|_| Memory)
    }

    /// Stores bytes under a name, and notes that.
    fn put_noted(&mut self, name: Name, bytes: Bytes) -> Result<(), AllocError>
        ensures puts { PutsEntry name bytes result self.old.entries self.new.entries }
        ensures there { is_some (entry_of self.old.entries name) ≡ true → IsOk result }
        ensures kept { self.new ≡ record self.old {
          entries = self.new.entries;
          outcomes = self.old.outcomes ++ put_as name bytes result;
        } }
    {
        let (mut own, mut put) = (ByteTrace::new(), ByteTrace::new());
        own.note(name.as_str().as_bytes());
        put.note(bytes.as_slice());
        put_entry(&mut self.entries, name, bytes)?;
        self.log.note(FileEvent::Put(&own, &put));
        Ok(())
    }

    /// Returns the bytes of a file, if it exists.
    pub fn get(&self, name: &str) -> Option<&[u8]>
        ensures { option_map (λ s. s.now) result ≡ entry_of self.now.entries name.now }
    {
        find_bytes(self.entries.as_slice(), name)
    }

    /// States that the bytes stored under each name are those that came of what was done.
    pub fn is_kept(&self)
        ensures { AreTrue self.now.entries self.now.outcomes }
    {
        let _room = self.room;
    }

    /// Notes that the reading of a file is over.
    fn log_reading(&mut self, source: &MemIn)
        ensures { self.new ≡ record self.old {
          outcomes = self.old.outcomes ++ Gave (reading_of (shown_in source.now)) ∷ [];
        } }
    {
        let (mut name, mut given) = (ByteTrace::new(), ByteTrace::new());
        name.note(source.name.as_str().as_bytes());
        given.note(source.source.given());
        self.log
            .note(FileEvent::Gave(&name, &given, source.source.is_at_end()));
    }

    /// Makes each later attempt to create or replace a file of this name fail with `Write` (27). If
    /// memory runs out, nothing changes.
    pub fn refuse(&mut self, alloc: Global, name: &str) -> Result<(), Memory>
        ensures ok { OnOk result
            (self.new ≡ record self.old { refused = self.old.refused ++ name.now ∷ [] }) }
        ensures err { OnErr result (self.new ≡ self.old) }
    {
        let Ok(name) = Name::new(alloc, name) else {
            return Err(Memory);
        };
        match self.refused.push(name) {
            Ok(()) => Ok(()),
            Err(_) => Err(Memory),
        }
    }
}

impl MemEnded {
    /// Creates the record of a sink that was closed or discarded.
    fn of(sink: &MemSink, is_closed: bool) -> MemEnded
        ensures { result ≡ ended_with sink.now.held is_closed }
    {
        let mut took = ByteTrace::new();
        took.note(sink.bytes());
        MemEnded { took, is_closed }
    }
}

/// Notes that a file was found, with what it has to give.
fn note_found(
    log: &mut EventLog,
    missing: IfMissing,
    name: &str,
    left: Option<&ByteTrace>,
    size: Option<u64>,
)
    ensures { log.new ≡ log.old ++ Found missing name.now (option_map (λ t. t.now) left.entry) size ∷ [] }
{
    log.note(FileEvent::Found(missing, name, left, size));
}

fn is_refused(refused: &[Name], name: &str) -> bool
    ensures { IsTrue result ↔ Contains refused.now name.now }
{
    refused.iter().any(|r| r.as_str() == name)
}

/// Returns the bytes to be read under a name.
fn bytes_held<'a>(entries: &'a [MemEntry], name: &str, missing: IfMissing) -> Option<&'a [u8]>
    ensures { option_map (λ s. s.now) result ≡ held_by missing (entry_of entries.now name.now) }
{
    match missing {
        IfMissing::Fails => find_bytes(entries, name),
        IfMissing::Empty => match find_bytes(entries, name) {
            Some(bytes) => Some(bytes),
            None => Some(&[]),
        },
    }
}

/// Returns whether a file has the name and may not be replaced.
fn is_kept(entries: &[MemEntry], name: &str, clobber: ClobberOption) -> bool
    ensures { IsTrue result
        ↔ ((clobber ≡ Refused) × (is_some (entry_of entries.now name.now) ≡ true)) }
{
    match clobber {
        ClobberOption::Allowed => false,
        ClobberOption::Refused => find_bytes(entries, name).is_some(),
    }
}

/// Returns a source of a copy of these bytes.
fn make_source(alloc: Global, bytes: &[u8]) -> Result<MemSource, FileFault>
    ensures made { IfOk result (λ s. s ≡ full_with bytes.now) }
    ensures memory { OnErr result (result ≡ Err FileFault.Memory) }
{
    Ok(MemSource::new(bytes.to_vec(alloc)?, usize::MAX, None))
}

/// Returns a file to be read, with this name and a copy of these bytes.
fn new_in(alloc: Global, name: &str, bytes: &[u8]) -> Result<MemIn, FileFault>
    ensures made { IfOk result (λ s. s ≡ (name.now, full_with bytes.now)) }
    ensures memory { OnErr result (result ≡ Err FileFault.Memory) }
{
    let name = Name::new(alloc, name)?;
    let source = make_source(alloc, bytes)?;
    Ok(MemIn { name, source })
}

/// Returns an empty file to be written, of this name.
fn new_out(alloc: Global, name: &str, room: usize) -> Result<MemOut, FileFault>
    ensures made { IfOk result (λ o. o ≡ (name.now, empty_with room)) }
    ensures memory { OnErr result (result ≡ Err FileFault.Memory) }
{
    let sink = MemSink::new(alloc, room, usize::MAX, None)?;
    let name = Name::new(alloc, name)?;
    Ok(MemOut { name, sink })
}

/// Returns an empty file to be written, of this name. Fails with `Write` (27) if the name is one of
/// `refused`, or if it has a file that may not be replaced.
fn open_out<'w>(
    alloc: Global,
    refused: &[Name],
    name: &str,
    room: usize,
    is_kept: bool,
) -> Result<MemOut, OpenError<'w>>
    ensures made { IfOk result (λ o. o ≡ (name.now, empty_with room)) }
    ensures refused { IsErrOf result (Fault FileFault.Write)
        ↔ (Contains refused.now name.now ⊎ IsTrue is_kept) }
    ensures faults { IfErr result (MemFails FileFault.Write) }
{
    if is_kept || is_refused(refused, name) {
        return Err(OpenError::new(FileFault::Write, ErrorContext::Nothing));
    }
    Ok(new_out(alloc, name, room)?)
}

impl<'w> FileSet<'w> for MemFiles {
    type In = MemIn;

    type Out = MemOut;

    ghost view = { seen_in };

    ghost size = { size_in };

    ghost file = { λ _. None };

    /// Returns whether two names are equal: only then they stand for one file.
    fn is_same(&mut self, one: &'w str, other: &'w str) -> bool
        ensures same { self.new ≡ self.old }
        ensures equal { result ≡ true ↔ (one.now ≡ other.now) }
    {
        one == other
    }

    /// Succeeds, since no file in memory is a stream.
    fn check_streams(
        &mut self,
        _alloc: Global,
        _names: &[Option<&'w str>],
    ) -> Result<(), OpenError<'w>>
        ensures same { self.new ≡ self.old }
        ensures ok { IsOk result }
    {
        Ok(())
    }

    /// Opens a copy of a file's bytes. If no file has the name, fails with `Read` (26), or opens an
    /// empty copy, as `missing` says.
    fn open(
        &mut self,
        alloc: Global,
        name: &'w str,
        missing: IfMissing,
        _purpose: Purpose,
    ) -> Result<MemIn, OpenError<'w>>
        ensures kept { self.new ≡ record self.old {
          outcomes = self.old.outcomes ++ opened_as shown_in size_in missing name.now result;
        } }
        ensures found { IfOk result (λ s. (s ≡ (name.now, full_with s.1.left))
            × (held_by missing (entry_of self.old.entries name.now) ≡ Some s.1.left)) }
        ensures missing { IsErrOf result (Fault FileFault.Read)
            ↔ (held_by missing (entry_of self.old.entries name.now) ≡ None) }
        ensures faults { IfErr result (MemFails FileFault.Read) }
    {
        let Some(bytes) = bytes_held(self.entries.as_slice(), name, missing) else {
            return Err(OpenError::new(FileFault::Read, ErrorContext::Nothing));
        };
        let mut left = ByteTrace::new();
        left.note(bytes);
        let size = Some(bytes.len() as u64);
        let source = new_in(alloc, name, bytes)?;
        note_found(&mut self.log, missing, name, Some(&left), size);
        Ok(source)
    }

    /// Returns exactly how many bytes are still to come.
    fn length(&self, source: &MemIn) -> Option<u64>
        ensures { result ≡ Some (length source.now.1.left) }
    {
        Some(source.source.remaining() as u64)
    }

    fn close_input(&mut self, source: MemIn) -> ErrorContext<'w>
        ensures over { self.new ≡ record self.old {
          outcomes = self.old.outcomes ++ Gave (reading_of (shown_in source)) ∷ [];
        } }
    {
        self.log_reading(&source);
        ErrorContext::Nothing
    }

    /// Succeeds, and does nothing. A name that can't be written is refused when it is replaced.
    fn prepare(
        &mut self,
        _alloc: Global,
        _name: &'w str,
        _spared: Option<&'w str>,
        _others: &[Option<&'w str>],
        _clobber: ClobberOption,
        _durability: Durability,
    ) -> Result<(), OpenError<'w>>
        ensures ok { IsOk result }
        ensures same { self.new ≡ self.old }
    {
        Ok(())
    }

    /// Creates a file of at most `room` bytes, which is stored when it is closed. Fails with
    /// `Write` (27) exactly if the name is one that can't be written, or has a file and `clobber`
    /// refuses existing files.
    fn create(
        &mut self,
        alloc: Global,
        name: &'w str,
        clobber: ClobberOption,
        _durability: Durability,
    ) -> Result<MemOut, OpenError<'w>>
        ensures made { IfOk result (λ o. o ≡ (name.now, empty_with self.old.room)) }
        ensures refused { IsErrOf result (Fault FileFault.Write)
            ↔ (Contains self.old.refused name.now ⊎ ((clobber ≡ Refused)
            × (is_some (entry_of self.old.entries name.now) ≡ true))) }
        ensures kept { self.new ≡ record self.old {
          outcomes = self.old.outcomes ++ made_as clobber name.now result;
        } }
        ensures faults { IfErr result (MemFails FileFault.Write) }
    {
        let is_kept = is_kept(self.entries.as_slice(), name, clobber);
        let out = open_out(alloc, self.refused.as_slice(), name, self.room, is_kept);
        if let Ok(_) = out {
            self.log.note(FileEvent::Created(clobber, name));
        }
        out
    }

    /// Fails with `Write` (27) exactly if a file has the name.
    fn check_absent(&mut self, name: &'w str) -> Result<(), OpenError<'w>>
        ensures refused { IsErrOf result (Fault FileFault.Write)
            ↔ (is_some (entry_of self.old.entries name.now) ≡ true) }
        ensures same { self.new ≡ self.old }
        ensures faults { IfErr result (MemFails FileFault.Write) }
    {
        if self.get(name).is_none() {
            return Ok(());
        }
        Err(OpenError::new(FileFault::Write, ErrorContext::Nothing))
    }

    /// Returns whether no file has the name.
    fn is_absent(&mut self, name: &'w str) -> bool
        ensures absent { result ≡ true ↔ (entry_of self.old.entries name.now ≡ None) }
        ensures kept { self.new ≡ record self.old {
          outcomes = self.old.outcomes ++ looked_as name.now result;
        } }
    {
        if find_bytes(self.entries.as_slice(), name).is_some() {
            self.log.note(FileEvent::Present(name));
            return false;
        }
        self.log.note(FileEvent::Absent(name));
        true
    }

    /// Returns `false`, since no file in memory is that of standard error.
    fn is_for_faults(&mut self, _out: &MemOut) -> bool
        ensures same { self.new ≡ self.old }
        ensures none { result ≡ false }
    {
        false
    }

    /// Returns `false`, since no file in memory is a terminal.
    fn is_terminal(&mut self, _out: &MemOut) -> bool
        ensures same { self.new ≡ self.old }
        ensures none { result ≡ false }
    {
        false
    }

    fn is_empty(&self, out: &MemOut) -> bool {
        out.sink.bytes().is_empty()
    }

    /// Returns the number of all bytes that the sink took.
    fn durable_len(&mut self, out: &mut MemOut, durability: Durability) -> u64
        ensures kept { self.new ≡ record self.old {
          outcomes = self.old.outcomes ++ Settled durability out.old.1.held result ∷ [];
        } }
        ensures same { out.new ≡ out.old }
        ensures all { result ≡ length out.old.1.held }
    {
        self.known_durable_len(out, durability)
    }

    /// Returns the number of all bytes that the sink took.
    fn known_durable_len(&mut self, out: &MemOut, durability: Durability) -> u64
        ensures kept { self.new ≡ record self.old {
          outcomes = self.old.outcomes ++ Settled durability out.now.1.held result ∷ [];
        } }
        ensures all { result ≡ length out.now.1.held }
    {
        let mut took = ByteTrace::new();
        took.note(out.sink.bytes());
        let size = out.sink.bytes().len() as u64;
        self.log.note(FileEvent::Settled(durability, &took, size));
        size
    }

    /// Stores what the sink took under its name. Allocates nothing if a file of that name exists.
    fn close(&mut self, out: MemOut, _durability: Durability) -> Result<(), FileError<'w>>
        ensures puts { PutsEntry out.0 out.1.held result self.old.entries self.new.entries }
        ensures there { is_some (entry_of self.old.entries out.0) ≡ true → IsOk result }
        ensures faults { IsOkUnless result FileFault.Write }
        ensures kept { self.new ≡ record self.old {
          entries = self.new.entries;
          outcomes = self.old.outcomes ++ put_as out.0 out.1.held result;
          ended = Some (ended_with out.1.held true);
        } }
    {
        let MemOut { name, sink } = out;
        self.ended = Some(MemEnded::of(&sink, true));
        match self.put_noted(name, Bytes::from_vec(sink.into_bytes())) {
            Ok(()) => Ok(()),
            Err(_) => Err(FileError::from(FileFault::Write)),
        }
    }

    /// Returns no reason, since a put of a file in memory fails only if the file is full.
    fn reason(&self, _out: &MemOut) -> ErrorContext<'w> {
        ErrorContext::Nothing
    }

    /// Drops what the sink took.
    fn discard(&mut self, out: MemOut, _durability: Durability)
        ensures kept { self.new ≡ record self.old {
          ended = Some (ended_with out.1.held false);
        } }
    {
        self.ended = Some(MemEnded::of(&out.sink, false));
        let _dropped = out;
    }

    /// Stores bytes under a name. Fails with `Write` (27) exactly if the name is one that can't be
    /// written, or if there are more bytes than a file can hold.
    fn replace(
        &mut self,
        alloc: Global,
        name: &'w str,
        bytes: &[u8],
        _durability: Durability,
    ) -> Result<(), FileError<'w>>
        ensures puts { PutsEntry name.now bytes.now result self.old.entries self.new.entries }
        ensures refused { IsErrOf result FileFault.Write
            ↔ (Contains self.old.refused name.now ⊎ (self.old.room < length bytes.now)) }
        ensures faults { IfErr result (IsMemoryOr FileFault.Write) }
        ensures kept { self.new ≡ record self.old {
          entries = self.new.entries;
          outcomes = self.old.outcomes ++ put_as name.now bytes.now result;
        } }
    {
        if is_refused(self.refused.as_slice(), name) || bytes.len() > self.room {
            return Err(FileError::from(FileFault::Write));
        }
        let copy = bytes.to_vec(alloc)?;
        Ok(self.put(alloc, name, copy)?)
    }
}
