//! A file that is written, or a standard stream.

ghost use Rattle.std.specs.Prelude.{◌≡◌, ◌↔◌, ◌≤◌, ◌<◌, [], ◌∷◌, ◌++◌, None, Some, true, false, ℕ, List};
ghost use Rattle.std.specs.Prelude.{length, is_some, is_ok, is_err, IfOk, IfSome, OnOk, OnErr, MatchResult};
ghost use Rattle.std.specs.Prelude.{string_bytes, option_map};
ghost use Rattle.std.specs.Io.{WritesAtMost};
ghost use Rattle.age_io.specs.{one_more};
ghost use Rattle.age_host_model.specs.declared.options.Durability.TheVariants as wait;
ghost use Rattle.age_io.specs.Taken.{WriteAppends, Keeps};
ghost use Rattle.age_host_model.specs.{Opened, Closes, Discards};
ghost use Rattle.age_host_paths.specs.{number_of};
ghost use Rattle.age_host_output.specs.Outputs.{IsNew, KeepsFile, Stays, HasNode, as_sink};
ghost use Rattle.age_host_output.specs.Targets.{regular_of, out_file_of, unmade_of, IsAtOutName};
ghost use Rattle.age_host_output.specs.Targets.{IsTaking, IsPaced};
ghost use Rattle.age_host_output.specs.inner.{part_of, TargetGoes};

use crate::closing::{
    CloseRecord, OutputRecord, close_file, close_unwritten, discard_file, unlogged,
};
use crate::device::Device;
use crate::sync_and_close::{SyncHandle, close_stream};
use crate::target::{OutputName, OutputTarget, claimed, create_missing};
use age_host_model::{Durability, FileKind, OpenOutcome};
use age_host_paths::{
    FileId, NameTarget, NameTargetName, StandardStream, check_place, is_for_faults, lstat,
};
use age_host_syscalls::calls::close;
use age_host_syscalls::{HostFile, Machine, Out};
use age_io::{ByteTrace, Failed, FailureCount, Sink};
use std::alloc::Global;
use std::io::{self, IsTerminal};
use std::marker::Model;
use std::rt::HostRuntime;

/// The number of bytes written and synced, and whether to sync while writing.
#[derive(Clone, Copy)]
struct SyncSchedule {
    // The number of bytes that were written, and that number at the last sync.
    taken: u64,
    settled: u64,
    // Whether to sync while writing.
    durability: Durability,
    // The error of a sync that failed. The system reports it only once, so a later sync proves
    // nothing.
    indeterminate: Option<io::Error>,
}

impl SyncSchedule {
    /// Returns the state before the first write.
    fn new() -> SyncSchedule
        ensures { IsPaced result [] }
    {
        SyncSchedule {
            taken: 0,
            settled: 0,
            durability: Durability::Buffered,
            indeterminate: None,
        }
    }

    /// Syncs what was written. Once a sync has failed, each later one fails.
    fn reach_disk(&mut self, target: &mut OutputTarget) -> io::Result<()>
        ensures settled { OnOk result (self.new.settled ≡ self.new.taken) }
        ensures more { (took : List ℕ) → IsPaced self.old took → self.old.settled ≤ self.new.settled }
        ensures goes { TargetGoes target.old target.new true [] }
        ensures paced { (took : List ℕ) → IsPaced self.old took → IsPaced self.new took }
    {
        if let Some(error) = self.indeterminate {
            return Err(error);
        }
        let reached = target.reach_disk();
        match reached {
            Ok(()) => self.settled = self.taken,
            Err(error) => self.indeterminate = Some(error),
        }
        reached
    }

    /// Returns whether all that was written is stored: it is synced, if necessary now, and closing
    /// a second descriptor reports no failure.
    fn sync_and_check_close(&mut self, rt: &HostRuntime, target: &mut OutputTarget) -> bool
        ensures stored { result ≡ true → self.new.taken ≤ self.new.settled }
        ensures more { (took : List ℕ) → IsPaced self.old took → self.old.settled ≤ self.new.settled }
        ensures goes { TargetGoes target.old target.new true [] }
        ensures paced { (took : List ℕ) → IsPaced self.old took → IsPaced self.new took }
    {
        if self.taken > self.settled && self.reach_disk(target).is_err() {
            return false;
        }
        target.close_copy(rt).is_ok()
    }

    /// Syncs what was written, if it is time to before more is written.
    fn sync_if_due(&mut self, target: &mut OutputTarget) -> io::Result<()>
        ensures goes { TargetGoes target.old target.new true [] }
        ensures paced { (took : List ℕ) → IsPaced self.old took → IsPaced self.new took }
    {
        if self.durability == Durability::Buffered || !is_sync_due(self.taken, self.settled) {
            return Ok(());
        }
        self.reach_disk(target)
    }
}

/// Writes some bytes to a target, and returns their number. Syncs earlier ones first, if it is time
/// to.
fn write_paced(
    rt: &HostRuntime,
    target: &mut OutputTarget,
    pace: &mut SyncSchedule,
    from: &[u8],
    forwarded: &mut ByteTrace,
) -> io::Result<usize>
    ensures bound { WritesAtMost result from.now }
    ensures forwarded { regular_of target.old ≡ None
        → forwarded.new ≡ forwarded.old ++ part_of result from.now }
    ensures goes { TargetGoes target.old target.new (is_ok result) (part_of result from.now) }
    ensures paced { (took : List ℕ) → IsPaced pace.old took
        → IsPaced pace.new (took ++ part_of result from.now) }
{
    pace.sync_if_due(target)?;
    let n = target.write(rt, from, forwarded)?;
    pace.taken = pace.taken.saturating_add(n as u64);
    Ok(n)
}

/// Notes what a put took, or keeps its error.
fn note_put(
    took: &mut ByteTrace,
    error: &mut io::Error,
    put: io::Result<usize>,
    from: &[u8],
) -> Result<usize, Failed>
    requires { WritesAtMost put from.now }
    ensures took { took.new ≡ took.old ++ part_of put from.now }
    ensures bound { IfOk result (λ n. (n ≤ length from.now) × (0 < length from.now → 0 < n)) }
    ensures ok { IfOk result (λ n. put ≡ Ok n) }
    ensures err { OnErr result (part_of put from.now ≡ []) }
{
    match put {
        Ok(n) if n > 0 || from.is_empty() => {
            took.note(&from[..n]);
            Ok(n)
        }
        other => {
            *error = to_error(other);
            Err(Failed)
        }
    }
}

/// Writes some bytes to a target, and returns their number. Makes its file before the first byte.
fn write_made(
    rt: &HostRuntime,
    name: &str,
    target: &mut OutputTarget,
    id: &mut Option<FileId>,
    pace: &mut SyncSchedule,
    from: &[u8],
    forwarded: &mut ByteTrace,
) -> io::Result<usize>
    ensures bound { WritesAtMost result from.now }
    ensures keeps { Stays (unmade_of target.old) (unmade_of target.new) (out_file_of target.old)
        (out_file_of target.new) id.old id.new }
    ensures made { IfOk result (λ n. 0 < n → unmade_of target.new ≡ None) }
    ensures node { IfSome (regular_of target.old) (λ o. HasNode id.old o.file)
        → IfSome (regular_of target.new) (λ o. HasNode id.new o.file) }
    ensures taking { (before after : ℕ) (took : List ℕ) → IsTaking (regular_of target.old) before took
        → IfSome (unmade_of target.old) (λ _. took ≡ [])
        → (after ≡ 0 → (before ≡ 0) × (is_ok result ≡ true))
        → IsTaking (regular_of target.new) after (took ++ part_of result from.now) }
    ensures forwarded { (took : List ℕ) → (regular_of target.old ≡ None → forwarded.old ≡ took)
        → regular_of target.new ≡ None → forwarded.new ≡ took ++ part_of result from.now }
    ensures paced { (took : List ℕ) → IsPaced pace.old took
        → IsPaced pace.new (took ++ part_of result from.now) }
{
    if from.is_empty() {
        return Ok(0);
    }
    create_missing(rt, name, target, id)?;
    write_paced(rt, target, pace, from, forwarded)
}

/// A file that is written, or standard output or error. An existing regular file keeps its bytes
/// until a put takes some. One that doesn't exist yet is made then, or by the flush, so a run that
/// stops before leaves nothing.
///
/// Contracts see the bytes that it took, but not what it holds; how many puts have failed, and
/// whether the last call did.
#[derive(Drop)]
pub struct HostOut {
    rt: HostRuntime,
    name: OutputName,
    target: OutputTarget,
    // The identity of the file, if that is known.
    id: Option<FileId>,
    failures: FailureCount,
    // The error of the last put or flush that failed.
    error: io::Error,
    pace: SyncSchedule,
    took: ByteTrace,
    // The bytes that a device or a stream took, noted as they were written.
    forwarded: ByteTrace,
}

impl Model for HostOut {
    ghost use Rattle.age_host_output.specs.Outputs.{OutputView, HasNode};
    ghost use Rattle.std.specs.Prelude.{◌≡◌, [], None, IfSome, string_bytes, is_some};
    ghost use Rattle.age_host_output.specs.Targets.{regular_of, out_file_of, unmade_of, IsAtOutName, IsTaking};
    ghost use Rattle.age_host_output.specs.Targets.{IsPaced};

    ghost Value = { OutputView };

    ghost view = { λ s. record {
      name = string_bytes s.name.text;
      is_link = is_some s.name.link;
      failed = s.failures.count;
      failing = s.failures.last;
      took = s.took;
      settled = s.pace.settled;
      file = out_file_of s.target;
      unmade = unmade_of s.target;
      id = s.id;
    } };

    ghost invariant = { λ s. IsTaking (regular_of s.target) s.failures.count s.took
        × (IfSome (regular_of s.target) (λ o. HasNode s.id o.file) × (IsPaced s.pace s.took
        × ((regular_of s.target ≡ None → s.forwarded ≡ s.took)
        × (IfSome (unmade_of s.target) (λ _. s.took ≡ [])
        × IsAtOutName s.name (out_file_of s.target) (unmade_of s.target))))) };
}

/// The first number of bytes that are written between two syncs. Later ones are as many as were
/// synced so far, up to [`SYNC_EVERY_MOST`], so that a stop seldom loses more than half of the file.
const SYNC_EVERY_LEAST: u64 = 1 << 24;

/// The largest number of bytes that are written between two syncs.
const SYNC_EVERY_MOST: u64 = 1 << 30;

/// Returns whether it is time for a sync before more is written.
fn is_sync_due(taken: u64, settled: u64) -> bool {
    taken.saturating_sub(settled) >= settled.min(SYNC_EVERY_MOST).max(SYNC_EVERY_LEAST)
}

/// Ends a device or a stream: syncs it if `durability` asks for that, and closes it in any case.
fn finish_stream(
    rt: &HostRuntime,
    mut target: OutputTarget,
    mut pace: SyncSchedule,
    durability: Durability,
) -> io::Result<()>
    ensures made { OnOk result (unmade_of target ≡ None) }
{
    let reached = match durability {
        Durability::Synced => pace.reach_disk(&mut target),
        Durability::Buffered => Ok(()),
    };
    let closed = match target {
        OutputTarget::File(_) => Ok(()),
        OutputTarget::Unmade(_) => Err(io::Error::from(io::ErrorKind::NotFound)),
        OutputTarget::Device(Device { file, .. }) => close(rt, file.into_file()),
        OutputTarget::Output(..) => close_stream(rt, StandardStream::Output),
        OutputTarget::Faults(..) => close_stream(rt, StandardStream::Faults),
    };
    reached?;
    closed
}

impl HostOut {
    fn new(rt: &HostRuntime, name: OutputName, target: OutputTarget, id: Option<FileId>) -> HostOut
        requires taking { IsTaking (regular_of target) 0 [] }
        requires node { IfSome (regular_of target) (λ o. HasNode id o.file) }
        requires at { IsAtOutName name (out_file_of target) (unmade_of target) }
        ensures fresh { IsNew result }
        ensures named { result.name ≡ string_bytes name.text }
        ensures file { (result.file ≡ out_file_of target) × (result.unmade ≡ unmade_of target) }
    {
        HostOut {
            rt: *rt,
            name,
            target,
            id,
            failures: FailureCount::none(),
            error: io::Error::from(io::ErrorKind::Other),
            pace: SyncSchedule::new(),
            took: ByteTrace::new(),
            forwarded: ByteTrace::new(),
        }
    }

    /// Returns the error of the last put or flush that failed.
    pub fn error(&self) -> io::Error {
        self.error
    }

    /// Returns standard error, for messages. Puts fail if the program was started without it.
    pub fn faults(rt: &HostRuntime) -> HostOut
        ensures { IsNew result }
    {
        let target = OutputTarget::Faults(rt.stderr(), SyncHandle::none());
        HostOut::new(rt, OutputName::own(String::new(rt.alloc())), target, None)
    }

    /// Opens the file or stream to which a name leads, without truncating it. A file that doesn't
    /// exist is made later, by the first put or the flush. Fails for standard input. If
    /// `durability` asks for a sync, the file is synced every 16 MiB to 1 GiB, so that a failure is
    /// seen early, and [`durable_len`](HostOut::durable_len) can tell what is certain.
    pub fn open(
        alloc: Global,
        rt: &HostRuntime,
        name: &str,
        durability: Durability,
    ) -> io::Result<HostOut>
        ensures fresh { IfOk result IsNew }
        ensures named { IfOk result (λ o. o.name ≡ name.now) }
    {
        let NameTargetName { name, to, link } = NameTargetName::of(alloc, rt, name)?;
        let text = String::from_str(alloc, name)?;
        let mut out = match to {
            NameTarget::Path(path) => {
                HostOut::open_at(alloc, rt, OutputName { text, link }, path.as_str())?
            }
            NameTarget::Stream(stream) => HostOut::of_stream(rt, text, stream)?,
        };
        if out.target.can_reach_disk() {
            out.pace.durability = durability;
        }
        Ok(out)
    }

    /// Returns a file that is to be made. Fails if anything has the name, even a link. Syncs while
    /// it is written as [`open`](HostOut::open) does.
    pub fn create_later(
        alloc: Global,
        rt: &HostRuntime,
        name: &str,
        durability: Durability,
    ) -> io::Result<HostOut>
        ensures fresh { IfOk result IsNew }
        ensures named { IfOk result (λ o. o.name ≡ name.now) }
        ensures unmade { IfOk result (λ o. o.unmade ≡ Some name.now) }
    {
        if lstat(rt, name)?.is_some() {
            return Err(io::Error::from(io::ErrorKind::AlreadyExists));
        }
        let own = OutputName::own(String::from_str(alloc, name)?);
        let mut out = HostOut::unmade_at(rt, own, String::from_str(alloc, name)?)?;
        out.pace.durability = durability;
        Ok(out)
    }

    /// Opens the file at the end of a name's links, which is to be made if it doesn't exist.
    fn open_at(alloc: Global, rt: &HostRuntime, name: OutputName, path: &str) -> io::Result<HostOut>
        requires { is_some name.link ≡ false → path.now ≡ string_bytes name.text }
        ensures fresh { IfOk result IsNew }
        ensures named { IfOk result (λ o. o.name ≡ string_bytes name.text) }
    {
        let own = String::from_str(alloc, path)?;
        let mut machine = Machine::new(rt);
        match machine.open(name.text.as_str(), own.as_str())? {
            Some(opened) => HostOut::of_opened(rt, machine, opened, name, own),
            None => HostOut::unmade_at(rt, name, own),
        }
    }

    /// Returns a file that is to be made, at a path that holds neither a file nor a link.
    fn unmade_at(rt: &HostRuntime, name: OutputName, path: String) -> io::Result<HostOut>
        requires { is_some name.link ≡ false → string_bytes path ≡ string_bytes name.text }
        ensures fresh { IfOk result IsNew }
        ensures named { IfOk result (λ o. o.name ≡ string_bytes name.text) }
        ensures unmade { IfOk result (λ o. o.unmade ≡ Some (string_bytes path)) }
    {
        check_place(rt, path.as_str())?;
        Ok(HostOut::new(rt, name, OutputTarget::Unmade(path), None))
    }

    /// Creates an output of a file that was opened for writing. What is written to a regular file
    /// replaces what it holds.
    fn of_opened(
        rt: &HostRuntime,
        machine: Machine,
        opened: (HostFile, FileKind),
        name: OutputName,
        path: String,
    ) -> io::Result<HostOut>
        requires at { is_some name.link ≡ false → string_bytes path ≡ string_bytes name.text }
        requires unfailed { machine.failed ≡ 0 }
        requires opened { machine.calls
            ≡ Opened (string_bytes path) (number_of opened.0.node) opened.1 ∷ [] }
        ensures fresh { IfOk result IsNew }
        ensures named { IfOk result (λ o. o.name ≡ string_bytes name.text) }
    {
        let (file, kind) = opened;
        let FileKind::Regular(is_waited) = kind else {
            let id = FileId::of(&file.file().metadata()?);
            let device = OutputTarget::Device(Device { file, machine });
            return Ok(HostOut::new(rt, name, device, id));
        };
        let opening = OpenOutcome::Found {
            is_named: file.is_named(),
            is_waited,
        };
        let id = Some(FileId::of_node(file.node()));
        let out = Out::new(machine, file, path, opening);
        Ok(HostOut::new(rt, name, OutputTarget::File(out), id))
    }

    /// Returns a standard stream, to be written from its current position. Fails for standard
    /// input.
    pub fn of_stream(rt: &HostRuntime, name: String, stream: StandardStream) -> io::Result<HostOut>
        ensures fresh { IfOk result IsNew }
        ensures named { IfOk result (λ o. o.name ≡ string_bytes name) }
    {
        let target = OutputTarget::of_stream(rt, stream)?;
        let id = FileId::of_open_stream(rt, stream)?;
        Ok(HostOut::new(rt, OutputName::own(name), target, id))
    }

    /// Locks a regular file for this run. Fails if another run has the lock, or if the name no
    /// longer leads to the file, as when another run that had made it has removed it.
    pub fn claim(self, rt: &HostRuntime) -> io::Result<HostOut>
        ensures { IfOk result (λ o. o ≡ self) }
    {
        let target = claimed(rt, self.target, self.id, self.name.text.as_str())?;
        Ok(HostOut { target, ..self })
    }

    /// Returns the name under which the file was opened or made.
    pub fn name(&self) -> &str
        ensures { result.now ≡ self.now.name }
    {
        self.name.text.as_str()
    }

    /// Returns the bytes that the file took. Ghost: no bytes at run time.
    pub fn took(&self) -> &ByteTrace
        ensures { result.now ≡ self.now.took }
    {
        &self.took
    }

    /// Returns the identity of the file, if that is known.
    pub fn id(&self) -> Option<FileId>
        ensures same { result ≡ self.now.id }
        ensures node { IfSome self.now.file (HasNode self.now.id) }
    {
        self.id
    }

    /// Returns the path at which the file is to be made, if it doesn't exist yet.
    pub fn unmade(&self) -> Option<&str>
        ensures { option_map (λ s. s.now) result ≡ self.now.unmade }
    {
        match &self.target {
            OutputTarget::Unmade(path) => Some(path.as_str()),
            _ => None,
        }
    }

    /// Returns whether this is standard error, or the file to which that leads.
    pub fn is_for_faults(&self, rt: &HostRuntime) -> bool {
        match &self.target {
            OutputTarget::Faults(..) => true,
            _ => is_for_faults(rt, self.id),
        }
    }

    /// Returns whether the file is a terminal.
    pub fn is_terminal(&self) -> bool
        ensures { result ≡ true → self.now.file ≡ None }
    {
        match &self.target {
            OutputTarget::File(_) | OutputTarget::Unmade(_) => false,
            OutputTarget::Device(device) => device.file.file().is_terminal(),
            OutputTarget::Output(output, _) => output.is_terminal(),
            OutputTarget::Faults(faults, _) => faults.is_terminal(),
        }
    }

    /// Returns whether the file has taken no byte so far.
    pub fn is_empty(&self) -> bool
        ensures { result ≡ true ↔ (self.now.took ≡ []) }
    {
        self.pace.taken == 0
    }

    /// Returns how many of the bytes that the file took are certainly stored: on the disk, if
    /// `durability` asks for that and the file system can sync. Syncs if necessary. After a sync
    /// that failed, only what earlier syncs covered is counted. A file that was truncated or
    /// removed has fewer. The last bytes that went into a pipe aren't counted.
    pub fn durable_len(&mut self, rt: &HostRuntime, durability: Durability) -> u64
        ensures same { self.new ≡ record self.old { settled = self.new.settled } }
        ensures most { result ≤ length self.old.took }
        ensures stored { durability ≡ wait.Synced → result ≤ self.new.settled }
    {
        let before = self.pace.settled;
        let held = match durability {
            Durability::Synced
                if self.pace.taken > 0 && !self.pace.sync_and_check_close(rt, &mut self.target) => {
                before.min(self.target.length_by_name(rt))
            }
            _ => self.pace.taken,
        };
        self.target.count_certain(rt, held)
    }

    /// Returns how many bytes are certainly stored, like [`durable_len`](HostOut::durable_len), but by
    /// what earlier syncs have shown, and 0 if `durability` asks for none. Makes no sync, which
    /// might take a failure away that `close` is to find.
    pub fn known_durable_len(&self, rt: &HostRuntime, durability: Durability) -> u64
        ensures most { result ≤ length self.now.took }
        ensures stored { result ≤ self.now.settled }
    {
        match durability {
            Durability::Synced => {
                let held = self.pace.settled.min(self.target.length_by_name(rt));
                self.target.count_certain(rt, held)
            }
            Durability::Buffered => 0,
        }
    }

    /// Returns whether puts were tried, none took a byte, and the file is unchanged. Returns
    /// `false` for a standard stream.
    fn all_puts_failed(&self) -> bool
        ensures { result ≡ true
            → (0 < self.now.failed) × ((self.now.took ≡ []) × (self.now.unmade ≡ None)) }
    {
        if self.failures.count == 0 || !self.is_empty() {
            return false;
        }
        match &self.target {
            OutputTarget::File(out) => out.is_untouched(),
            OutputTarget::Device(_) => true,
            _ => false,
        }
    }

    /// Ends the file with what was written, and closes it in any case. Returns the record of that,
    /// and the result. If each put failed, the file is unchanged. Fails if the file wasn't made.
    pub fn close(self, rt: &HostRuntime, durability: Durability) -> (CloseRecord, io::Result<()>)
        ensures closes { Closes durability self.file (as_sink self) result.1 result.0 }
        ensures made { OnOk result.1 (self.unmade ≡ None) }
    {
        let all_puts_failed = self.all_puts_failed();
        let HostOut {
            name,
            target,
            failures,
            pace,
            took,
            ..
        } = self;
        let tally = OutputRecord {
            name,
            failures,
            took,
        };
        match target {
            OutputTarget::File(out) if all_puts_failed => close_unwritten(out, tally, durability),
            OutputTarget::File(out) => close_file(out, tally, durability),
            other => {
                let record = unlogged(rt, &other, tally.took, true);
                let ended = if all_puts_failed {
                    Ok(())
                } else {
                    finish_stream(rt, other, pace, durability)
                };
                (record, ended)
            }
        }
    }

    /// Ends the file unchanged, if nothing was written. Removes a file that a failed put has made,
    /// if it is still empty. Returns the record of that.
    pub fn discard(self, rt: &HostRuntime, durability: Durability) -> CloseRecord
        ensures discards { Discards self.file (as_sink self) result }
    {
        let HostOut {
            name,
            target,
            failures,
            took,
            ..
        } = self;
        let tally = OutputRecord {
            name,
            failures,
            took,
        };
        match target {
            OutputTarget::File(out) => discard_file(out, tally, durability),
            other => unlogged(rt, &other, tally.took, false),
        }
    }
}

/// Returns the error of a put that took no byte.
fn to_error(put: io::Result<usize>) -> io::Error {
    match put {
        Ok(_) => io::Error::from(io::ErrorKind::WriteZero),
        Err(error) => error,
    }
}

impl Sink for HostOut {
    ghost view = { as_sink };

    fn put(&mut self, from: &[u8]) -> Result<usize, Failed>
        ensures bound { IfOk result (λ n. (n ≤ length from.now) × (0 < length from.now → 0 < n)) }
        ensures bytes { WriteAppends (as_sink self.old).taken (as_sink self.new).taken result from.now }
        ensures counted { MatchResult result (λ _. self.new.failed ≡ self.old.failed)
            (λ _. self.new.failed ≡ one_more self.old.failed) }
        ensures last { self.new.failing ≡ is_err result }
        ensures same { KeepsFile self.old self.new }
        ensures made { IfOk result (λ n. 0 < n → self.new.unmade ≡ None) }
    {
        let put = write_made(
            &self.rt,
            self.name.text.as_str(),
            &mut self.target,
            &mut self.id,
            &mut self.pace,
            from,
            &mut self.forwarded,
        );
        let taken = note_put(&mut self.took, &mut self.error, put, from);
        self.failures.note(taken)
    }

    /// Makes a file that doesn't exist yet. There is no buffer to write out.
    fn flush(&mut self) -> Result<(), Failed>
        ensures flushed { OnOk result ((as_sink self.new).flushed ≡ true) }
        ensures bytes { Keeps (as_sink self.old).taken (as_sink self.new).taken }
        ensures counted { MatchResult result (λ _. self.new.failed ≡ self.old.failed)
            (λ _. self.new.failed ≡ one_more self.old.failed) }
        ensures last { self.new.failing ≡ is_err result }
        ensures same { KeepsFile self.old self.new }
    {
        let name = self.name.text.as_str();
        let made = create_missing(&self.rt, name, &mut self.target, &mut self.id);
        if let Err(error) = made {
            self.error = error;
        }
        self.failures.note(made.map_err(|_| Failed))
    }

    fn failures(&self) -> u64 {
        self.failures.count
    }
}
