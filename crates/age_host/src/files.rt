//! The set of the files of a system.

ghost use Rattle.std.specs.Prelude.{◌≡◌, ◌≤◌, ◌∷◌, ◌++◌, [], true, None, Some, Ok, Err, IfOk, length, IfErr};
ghost use Rattle.std.specs.Prelude.{IfSome, Contains};
ghost use Rattle.age_fault.specs.declared.fault.FileFault.TheVariants.{Read, Write, Memory};
ghost use Rattle.age_cli_files.specs.{IsMemoryOr, OpenFails, Settled, opened_as, made_as, put_as};
ghost use Rattle.age_host_paths.specs.declared.resolve_name.FileId.{FileId};
ghost use Rattle.age_host_input.specs.{IsFresh, as_source};
ghost use Rattle.age_host_output.specs.{as_sink};
ghost use Rattle.age_host.specs.{IsApart, HasAll};
ghost use Rattle.age_host_model.specs.declared.options.ClobberOption.TheVariants.{Refused};
ghost use Rattle.age_host_model.specs.declared.options.Durability.TheVariants as wait;

use crate::in_use::{
    admit_out, check_location, failed, find_alias, is_named, keep_stream, register_input, to_fault,
};
use crate::position_file::{Location, PositionFile};
use age_cli_files::{
    Action, ErrorContext, EventLog, Failure, FileError, FileEvent, FileSet, IfMissing, OpenError,
    Purpose,
};
use age_cli_messages::{Notes, announce_copying, announce_passphrase, announce_sync};
use age_fault::FileFault;
use age_host_input::HostIn;
use age_host_model::{ClobberOption, Durability};
use age_host_output::{CloseRecord, HostOut};
use age_host_paths::{FileId, StreamId, lstat, trace_bytes};
use age_io::Sink;
use std::alloc::Global;
use std::io;
use std::rt::HostRuntime;

/// The files of a system, named by their paths. `/dev/stdin`, `/dev/stdout`, `/dev/stderr` and
/// their names under `/dev/fd` and `/proc/self/fd` are the streams that the program was started
/// with.
///
/// Two regular files or pipes are one if they have the same device and inode, and two block devices
/// if they have the same number. Character devices and sockets that are written aren't compared. A
/// stream gives each of its bytes once, and is opened only once for reading: a pipe, a socket, a
/// terminal and the like, and standard input, whatever that is.
///
/// Contracts see what was done with the files and what came of that, and which bytes were read and
/// put.
#[derive(Drop)]
pub struct HostFiles<'r, 'w> {
    rt: &'r HostRuntime,
    open: Vec<FileId>,
    streams: Vec<StreamId>,
    prepared: Vec<PositionFile<'w>>,
    log: EventLog,
    // The record of the file that was ended last.
    ended: Option<CloseRecord>,
    // The output, under its name as it was given.
    output: Output<'w>,
    notes: Notes<'w>,
}

/// The name of the output, and whether it may replace an existing file.
#[derive(Clone, Copy)]
struct Output<'w> {
    name: &'w str,
    clobber: ClobberOption,
}

impl<'r, 'w> HostFiles<'r, 'w> {
    /// Creates the set, with no file opened.
    pub fn new(rt: &'r HostRuntime) -> HostFiles<'r, 'w> {
        HostFiles {
            rt,
            open: Vec::new(rt.alloc()),
            streams: Vec::new(rt.alloc()),
            prepared: Vec::new(rt.alloc()),
            log: EventLog::new(),
            ended: None,
            output: Output {
                name: "",
                clobber: ClobberOption::Allowed,
            },
            notes: Notes::new(),
        }
    }

    /// Returns what may surprise people in these files, and is no error.
    pub fn notes(&self) -> Notes<'w> {
        self.notes
    }

    /// Adds the stream to which a name leads, if it is one, to those in use. Fails if it is in use
    /// already. This comes before the stream is opened, which may block.
    fn admit_stream(&mut self, alloc: Global, name: &'w str) -> Result<(), OpenError<'w>>
        ensures kept { (self.new.log ≡ self.old.log) × (self.new.ended ≡ self.old.ended) }
        ensures open { self.new.open ≡ self.old.open }
        ensures faults { IfErr result (OpenFails Read) }
    {
        match StreamId::at(alloc, self.rt, name) {
            Ok(Some(stream)) => keep_stream(&mut self.streams, stream, name),
            Ok(None) => Ok(()),
            Err(error) => Err(failed(FileFault::Read, Action::Open, name, error)),
        }
    }

    /// Opens a file for reading, and adds it to those in use. Tells people about a passphrase or a
    /// copy, by `purpose`.
    fn admit_in(
        &mut self,
        alloc: Global,
        name: &'w str,
        missing: IfMissing,
        purpose: Purpose,
    ) -> Result<HostIn<'w>, OpenError<'w>>
        ensures begun { IfOk result (IsFresh name.now) }
        ensures known { IfOk result (λ s. IfSome s.id (Contains self.new.open.items)) }
        ensures before { HasAll self.old.open.items self.new.open.items }
        ensures kept { (self.new.log ≡ self.old.log) × (self.new.ended ≡ self.old.ended) }
        ensures faults { IfErr result (OpenFails Read) }
    {
        self.admit_stream(alloc, name)?;
        match HostIn::open(alloc, self.rt, name, missing) {
            Ok(mut file) => {
                register_input(&mut self.open, file.id())?;
                match purpose {
                    Purpose::Passphrase => {
                        announce_passphrase(self.rt, name);
                        file.watch_typing();
                    }
                    Purpose::ShownCopy => announce_copying(self.rt, name, file.length()),
                    Purpose::Input => {}
                }
                Ok(file)
            }
            Err(error) => Err(failed(FileFault::Read, Action::Open, name, error)),
        }
    }

    /// Adds a file that was opened for writing to those in use, and locks it. Fails if it is in use
    /// already.
    fn admit_created(
        &mut self,
        name: &'w str,
        clobber: ClobberOption,
        opened: io::Result<HostOut>,
    ) -> Result<HostOut, OpenError<'w>>
        ensures same { IfOk result (λ o. opened ≡ Ok o) }
        ensures apart { IfOk result (IsApart self.old.open.items) }
        ensures kept { (self.new.log ≡ self.old.log) × (self.new.ended ≡ self.old.ended) }
        ensures faults { IfErr result (OpenFails Write) }
    {
        let out = match opened {
            Ok(out) => out,
            Err(error) => return Err(refusal(self.rt, name, clobber, error)),
        };
        let prepared = self.prepared.as_slice();
        admit_out(&mut self.open, prepared, name, &out)?;
        match out.claim(self.rt) {
            Ok(out) => Ok(out),
            Err(error) => Err(failed(FileFault::Write, Action::Write, name, error)),
        }
    }

    /// Fails if a name leads to the same stream as one of the others.
    fn check_stream(
        &self,
        alloc: Global,
        others: &[Option<&'w str>],
        name: &'w str,
    ) -> Result<(), OpenError<'w>>
        ensures { IfErr result (OpenFails Memory) }
    {
        match find_alias(alloc, self.rt, others, name) {
            Ok(Some(other)) => Err(OpenError::same_file(other, Some(name))),
            Ok(None) => Ok(()),
            Err(error) => Err(failed(FileFault::Memory, Action::Open, name, error)),
        }
    }

    /// Fails if two of these names lead to one stream.
    fn check_each(&self, alloc: Global, names: &[Option<&'w str>]) -> Result<(), OpenError<'w>>
        ensures { IfErr result (OpenFails Memory) }
    {
        for i in 0..names.len() {
            if let Some(name) = names[i] {
                self.check_stream(alloc, &names[..i], name)?;
            }
        }
        Ok(())
    }

    /// Follows the name of a position to its file. If `clobber` refuses existing files, fails for
    /// one that holds something, unless it is the spared one.
    fn locate(
        &self,
        alloc: Global,
        name: &'w str,
        spared: Option<FileId>,
        clobber: ClobberOption,
    ) -> io::Result<Location<'w>> {
        let location = Location::of(alloc, self.rt, name)?;
        let is_kept = clobber == ClobberOption::Refused && location.id() != spared;
        if is_kept && location.holds_bytes()? {
            return Err(io::Error::other("it exists, and --no-clobber was given"));
        }
        Ok(location)
    }

    /// Prepares the file of a position to be replaced, which may be open if it is that of `spared`:
    /// the position that this command reads.
    fn prepare_named(
        &self,
        alloc: Global,
        name: &'w str,
        spared: Option<&'w str>,
        others: &[Option<&'w str>],
        clobber: ClobberOption,
        durability: Durability,
    ) -> Result<PositionFile<'w>, OpenError<'w>>
        ensures { IfErr result (OpenFails Write) }
    {
        let spared = match spared {
            Some(spared) => match FileId::file_id_at(self.rt, spared) {
                Ok(id) => id,
                Err(error) => return Err(unsaved(name, error)),
            },
            None => None,
        };
        let location = match self.locate(alloc, name, spared, clobber) {
            Ok(location) => location,
            Err(error) => return Err(unsaved(name, error)),
        };
        check_location(self.rt, self.open.as_slice(), &location, spared, others)?;
        match location.prepare(alloc, self.rt, durability) {
            // (another name may lead there only now that the temporary file exists)
            Ok(prepared) if is_named(self.rt, others, prepared.temp_id()) => {
                Err(OpenError::same_file(name, None))
            }
            Ok(prepared) => Ok(prepared),
            Err(error) => Err(unsaved(name, error)),
        }
    }

    /// Replaces the file of a name, as it was prepared, or else as it is found now.
    fn replace_named(
        &self,
        alloc: Global,
        name: &'w str,
        bytes: &[u8],
        durability: Durability,
    ) -> io::Result<()> {
        match self.prepared.iter().find(|p| p.name() == name) {
            Some(prepared) => prepared.save(alloc, bytes, durability),
            None => {
                let location = self.locate(alloc, name, None, ClobberOption::Allowed)?;
                if check_location(self.rt, self.open.as_slice(), &location, None, &[]).is_err() {
                    return Err(io::Error::from(io::ErrorKind::AlreadyExists));
                }
                let prepared = location.prepare(alloc, self.rt, durability)?;
                prepared.save(alloc, bytes, durability)
            }
        }
    }
}

/// Returns the error that no position can be saved to a file.
fn unsaved<'w>(name: &'w str, error: io::Error) -> OpenError<'w>
    ensures { OpenFails Write result }
{
    failed(FileFault::Write, Action::Save, name, error)
}

/// Returns the error that a file can't be written.
fn refusal<'w>(
    rt: &HostRuntime,
    name: &'w str,
    clobber: ClobberOption,
    error: io::Error,
) -> OpenError<'w>
    ensures { OpenFails Write result }
{
    failed(
        FileFault::Write,
        refused(rt, name, clobber, error),
        name,
        error,
    )
}

/// Returns the action that failed, for a file that can't be opened or made.
fn refused(rt: &HostRuntime, name: &str, clobber: ClobberOption, error: io::Error) -> Action {
    let is_there = error.kind() == io::ErrorKind::AlreadyExists;
    // (if it may be overwritten, another run has just made it)
    if !is_there || clobber == ClobberOption::Allowed {
        opening(rt, name)
    } else if is_empty_at(rt, name) {
        Action::CreateNewOverEmpty
    } else {
        Action::CreateNew
    }
}

/// Returns whether opening `name` as an output creates a file or writes an existing one.
fn opening(rt: &HostRuntime, name: &str) -> Action {
    match lstat(rt, name) {
        Ok(None) => Action::Create,
        _ => Action::Write,
    }
}

/// Returns whether an empty regular file has this name.
fn is_empty_at(rt: &HostRuntime, name: &str) -> bool {
    matches!(lstat(rt, name), Ok(Some(found)) if found.is_file() && found.len() == 0)
}

// A method with a clause of its own repeats the trait's that the search can't prove. This set doesn't
// show what a file that is opened has to give.
impl<'r, 'w> FileSet<'w> for HostFiles<'r, 'w> {
    type In = HostIn<'w>;

    type Out = HostOut;

    ghost view = { λ f. record { outcomes = f.log; ended = f.ended } };

    ghost size = { λ s. s.size };

    ghost file = { λ o. o.file };

    /// Returns whether two names lead to one file, so that no link destroys what is read.
    fn is_same(&mut self, one: &'w str, other: &'w str) -> bool {
        if one == other {
            return true;
        }
        let id = FileId::at(self.rt, one);
        id.is_some() && id == FileId::at(self.rt, other)
    }

    fn check_streams(
        &mut self,
        alloc: Global,
        names: &[Option<&'w str>],
    ) -> Result<(), OpenError<'w>> {
        self.check_each(alloc, names)
    }

    fn open(
        &mut self,
        alloc: Global,
        name: &'w str,
        missing: IfMissing,
        purpose: Purpose,
    ) -> Result<HostIn<'w>, OpenError<'w>>
        ensures came { self.new.log ≡ self.old.log ++ opened_as as_source (λ s. s.size) missing name.now result }
        ensures unended { self.new.ended ≡ self.old.ended }
        ensures begun { IfOk result (λ s. s.given ≡ []) }
        ensures named { IfOk result (λ s. s.name ≡ name.now) }
        ensures faults { IfErr result (OpenFails Read) }
        ensures known { IfOk result (λ s. IfSome s.id (Contains self.new.open.items)) }
        ensures before { HasAll self.old.open.items self.new.open.items }
    {
        let opened = self.admit_in(alloc, name, missing, purpose);
        if let Ok(source) = &opened {
            self.log
                .note(FileEvent::Found(missing, name, None, source.length()));
        }
        opened
    }

    /// Returns how many bytes a regular file still has to give, or `None` for standard input and
    /// other kinds.
    fn length(&self, source: &HostIn<'w>) -> Option<u64> {
        source.length()
    }

    fn close_input(&mut self, source: HostIn<'w>) -> ErrorContext<'w> {
        source.log_to(&mut self.log);
        if source.is_cut_off() {
            self.notes.cut_off = Some(source.name());
        }
        if let Some(typing) = source.typing() {
            self.notes.typing = typing;
        }
        self.notes.last_read = source.context();
        self.notes.last_read
    }

    fn prepare(
        &mut self,
        alloc: Global,
        name: &'w str,
        spared: Option<&'w str>,
        others: &[Option<&'w str>],
        clobber: ClobberOption,
        durability: Durability,
    ) -> Result<(), OpenError<'w>> {
        let prepared = self.prepare_named(alloc, name, spared, others, clobber, durability)?;
        match self.prepared.push(prepared) {
            Ok(()) => Ok(()),
            Err(_) => Err(OpenError::from(FileFault::Memory)),
        }
    }

    fn create(
        &mut self,
        alloc: Global,
        name: &'w str,
        clobber: ClobberOption,
        durability: Durability,
    ) -> Result<HostOut, OpenError<'w>>
        ensures came { self.new.log ≡ self.old.log ++ made_as clobber name.now result }
        ensures unended { self.new.ended ≡ self.old.ended }
        ensures begun { IfOk result (λ o. (o.took ≡ []) × (o.failed ≡ 0)) }
        ensures named { IfOk result (λ o. o.name ≡ name.now) }
        ensures apart { IfOk result (IsApart self.old.open.items) }
        ensures unmade { IfOk result (λ o. clobber ≡ Refused → o.unmade ≡ Some name.now) }
        ensures faults { IfErr result (OpenFails Write) }
    {
        let opened = match clobber {
            ClobberOption::Allowed => HostOut::open(alloc, self.rt, name, durability),
            ClobberOption::Refused => HostOut::create_later(alloc, self.rt, name, durability),
        };
        let out = self.admit_created(name, clobber, opened);
        if out.is_ok() {
            self.output = Output { name, clobber };
            self.log.note(FileEvent::Created(clobber, name));
        }
        out
    }

    fn check_absent(&mut self, name: &'w str) -> Result<(), OpenError<'w>> {
        if !matches!(lstat(self.rt, name), Ok(Some(_))) {
            return Ok(());
        }
        let error = io::Error::from(io::ErrorKind::AlreadyExists);
        Err(refusal(self.rt, name, ClobberOption::Refused, error))
    }

    /// Returns whether nothing has the name. Returns `false` if that can't be looked at.
    fn is_absent(&mut self, name: &'w str) -> bool {
        let is_absent = matches!(lstat(self.rt, name), Ok(None));
        self.log.note(if is_absent {
            FileEvent::Absent(name)
        } else {
            FileEvent::Present(name)
        });
        is_absent
    }

    fn is_for_faults(&mut self, out: &HostOut) -> bool {
        out.is_for_faults(self.rt)
    }

    fn is_terminal(&mut self, out: &HostOut) -> bool {
        out.is_terminal()
    }

    fn is_empty(&self, out: &HostOut) -> bool {
        out.is_empty()
    }

    fn durable_len(&mut self, out: &mut HostOut, durability: Durability) -> u64
        ensures came { self.new.log ≡ self.old.log ++ Settled durability out.old.took result ∷ [] }
        ensures unended { self.new.ended ≡ self.old.ended }
        ensures same { as_sink out.new ≡ as_sink out.old }
        ensures most { result ≤ length out.old.took }
        ensures stored { durability ≡ wait.Synced → result ≤ out.new.settled }
    {
        let size = out.durable_len(self.rt, durability);
        self.log
            .note(FileEvent::Settled(durability, out.took(), size));
        size
    }

    fn known_durable_len(&mut self, out: &HostOut, durability: Durability) -> u64
        ensures came { self.new.log ≡ self.old.log ++ Settled durability out.now.took result ∷ [] }
        ensures unended { self.new.ended ≡ self.old.ended }
        ensures most { result ≤ length out.now.took }
        ensures stored { result ≤ out.now.settled }
    {
        let size = out.known_durable_len(self.rt, durability);
        self.log
            .note(FileEvent::Settled(durability, out.took(), size));
        size
    }

    fn close(&mut self, out: HostOut, durability: Durability) -> Result<(), FileError<'w>> {
        let id = out.id();
        // (what has no id is on no disk)
        if durability == Durability::Synced && id.is_some() {
            announce_sync(self.rt, self.notes.last_read);
        }
        let name = self.output.name;
        let label = trace_bytes(out.name().as_bytes());
        let (ended, closed) = out.close(self.rt, durability);
        if closed.is_ok() {
            if id.is_some() && matches!(FileId::file_id_at(self.rt, name), Ok(seen) if seen != id) {
                self.notes.moved = Some(name);
            }
            if ended.is_unwaited() {
                self.notes.unwaited = Some(name);
            }
            self.log.note(FileEvent::Put(&label, ended.took()));
        }
        self.ended = Some(ended);
        match closed {
            Ok(()) => Ok(()),
            Err(error) => {
                let action = match durability {
                    Durability::Synced => Action::Sync,
                    Durability::Buffered => Action::Write,
                };
                let failure = Failure {
                    action,
                    name,
                    error,
                };
                Err(FileError::new(FileFault::Write, ErrorContext::Failed(failure)))
            }
        }
    }

    fn reason(&self, out: &HostOut) -> ErrorContext<'w> {
        if out.failures() == 0 {
            return ErrorContext::Nothing;
        }
        let Output { name, clobber } = self.output;
        let error = out.error();
        let action = if out.unmade().is_some() {
            refused(self.rt, name, clobber, error)
        } else {
            Action::Write
        };
        ErrorContext::Failed(Failure {
            action,
            name,
            error,
        })
    }

    fn discard(&mut self, out: HostOut, durability: Durability) {
        self.ended = Some(out.discard(self.rt, durability));
    }

    fn replace(
        &mut self,
        alloc: Global,
        name: &'w str,
        bytes: &[u8],
        durability: Durability,
    ) -> Result<(), FileError<'w>>
        ensures came { self.new.log ≡ self.old.log ++ put_as name.now bytes.now result }
        ensures unended { self.new.ended ≡ self.old.ended }
        ensures faults { IfErr result (IsMemoryOr Write) }
    {
        match self.replace_named(alloc, name, bytes, durability) {
            Ok(()) => {
                self.notes.saved = Some(name);
                let (label, put) = (trace_bytes(name.as_bytes()), trace_bytes(bytes));
                self.log.note(FileEvent::Put(&label, &put));
                Ok(())
            }
            Err(error) => {
                let failure = Failure {
                    action: Action::Save,
                    name,
                    error,
                };
                let fault = to_fault(error, FileFault::Write);
                Err(FileError::new(fault, ErrorContext::Failed(failure)))
            }
        }
    }
}
