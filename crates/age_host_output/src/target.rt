//! The target of an output: a regular file, a device or a standard stream.

ghost use Rattle.std.specs.Prelude.{◌≡◌, ◌≤◌, ◌<◌, ◌++◌, [], None, true, IfOk, IfSome, OnOk, OnErr, is_ok};
ghost use Rattle.std.specs.Prelude.{ℕ, List, string_bytes};
ghost use Rattle.std.specs.Io.{WritesAtMost};
ghost use Rattle.age_host_model.specs.{text_of};
ghost use Rattle.age_host_output.specs.Outputs.{HasNode, Stays};
ghost use Rattle.age_host_output.specs.Targets.{regular_of, out_file_of, unmade_of, IsTaking};
ghost use Rattle.age_host_output.specs.inner.{part_of, TargetGoes};

use crate::device::Device;
use crate::sync_and_close::{SyncHandle, sync_file};
use age_host_model::OpenOutcome;
use age_host_paths::{FileId, StandardStream, SymlinkWitness, is_pipe_or_socket, stat};
use age_host_syscalls::calls::close;
use age_host_syscalls::{Machine, Out, TRIES, is_to_retry, too_many_tries};
use age_io::ByteTrace;
use std::io::{self, Write};
use std::os::fd::AsFd;
use std::rt::{HostRuntime, Stderr, Stdout};
use std::{fs, mem};

/// The number of bytes that a pipe took and that aren't counted as certain, since the pipe and its
/// reader may hold them: a network connection holds megabytes.
const PIPE_SLACK: u64 = 4 << 20;

/// The name of an output, and the system's answer if it is a link.
#[derive(Drop)]
pub(crate) struct OutputName {
    pub(crate) text: String,
    pub(crate) link: Option<SymlinkWitness>,
}

impl OutputName {
    /// Returns a name that is the path itself, since no link is followed from it.
    pub(crate) fn own(text: String) -> OutputName
        ensures { (string_bytes result.text ≡ string_bytes text) × (result.link ≡ None) }
    {
        OutputName { text, link: None }
    }
}

/// The target of an output's bytes.
#[derive(Drop)]
pub(crate) enum OutputTarget {
    /// A regular file that was opened or made.
    File(Out),
    /// A file that is to be made at this path, before the first byte is written.
    Unmade(String),
    /// A pipe or a device that was opened.
    Device(Device),
    /// Standard output, from its current position, and the descriptor by which it is synced.
    Output(Stdout, SyncHandle),
    /// Standard error, from its current position, and the descriptor by which it is synced.
    Faults(Stderr, SyncHandle),
}

/// Writes some bytes, by one call, to what isn't a regular file, and notes what it took. Proofs
/// assume nothing about the call.
fn write_once<W: Write>(to: &mut W, from: &[u8], forwarded: &mut ByteTrace) -> io::Result<usize>
    ensures bound { WritesAtMost result from.now }
    ensures notes { forwarded.new ≡ forwarded.old ++ part_of result from.now }
    ensures err { OnErr result (forwarded.new ≡ forwarded.old) }
{
    let n = to.write(from)?;
    forwarded.note(&from[..n]);
    Ok(n)
}

/// Writes some bytes to what isn't a regular file, and returns their number. Retries a call that
/// was interrupted, or whose descriptor wasn't ready.
fn write_to<W: Write>(
    rt: &HostRuntime,
    to: &mut W,
    from: &[u8],
    forwarded: &mut ByteTrace,
) -> io::Result<usize>
    ensures bound { WritesAtMost result from.now }
    ensures notes { forwarded.new ≡ forwarded.old ++ part_of result from.now }
{
    for _ in 0..TRIES {
        match write_once(to, from, forwarded) {
            Err(error) if is_to_retry(rt, &error) => {}
            written => return written,
        }
    }
    Err(too_many_tries())
}

impl OutputTarget {
    /// Returns a standard stream as a target, from its current position. Fails for standard input.
    pub(crate) fn of_stream(rt: &HostRuntime, stream: StandardStream) -> io::Result<OutputTarget>
        ensures { IfOk result (λ t. (regular_of t ≡ None) × (unmade_of t ≡ None)) }
    {
        stream.check(rt)?;
        match stream {
            StandardStream::Input => Err(io::Error::from(io::ErrorKind::Unsupported)),
            StandardStream::Output => Ok(OutputTarget::Output(
                rt.stdout(),
                SyncHandle::of(rt, stream),
            )),
            StandardStream::Faults => Ok(OutputTarget::Faults(
                rt.stderr(),
                SyncHandle::of(rt, stream),
            )),
        }
    }

    /// Writes some bytes, and returns their number. Notes what anything but a regular file took.
    pub(crate) fn write(
        &mut self,
        rt: &HostRuntime,
        from: &[u8],
        forwarded: &mut ByteTrace,
    ) -> io::Result<usize>
        ensures bound { WritesAtMost result from.now }
        ensures goes { TargetGoes self.old self.new (is_ok result) (part_of result from.now) }
        ensures forwarded { regular_of self.old ≡ None
            → forwarded.new ≡ forwarded.old ++ part_of result from.now }
    {
        match self {
            OutputTarget::File(_) if from.is_empty() => Ok(0),
            OutputTarget::File(out) => out.put(from),
            OutputTarget::Unmade(_) => Err(io::Error::from(io::ErrorKind::NotFound)),
            OutputTarget::Device(device) => write_to(rt, &mut device.file.file(), from, forwarded),
            OutputTarget::Output(output, _) => write_to(rt, output, from, forwarded),
            OutputTarget::Faults(faults, _) => write_to(rt, faults, from, forwarded),
        }
    }

    /// Syncs what was written.
    pub(crate) fn reach_disk(&mut self) -> io::Result<()>
        ensures { TargetGoes self.old self.new true [] }
    {
        match self {
            OutputTarget::File(out) => out.sync_written(),
            OutputTarget::Unmade(_) => Ok(()),
            OutputTarget::Device(device) => sync_file(device.file.file()),
            OutputTarget::Output(_, witness) => witness.sync(),
            OutputTarget::Faults(_, witness) => witness.sync(),
        }
    }

    /// Closes a second descriptor of the target, if one can be made, since some file systems store
    /// a file only when one is closed, and say only then that they can't.
    pub(crate) fn close_copy(&self, rt: &HostRuntime) -> io::Result<()> {
        let copy = match self {
            OutputTarget::File(out) => out.file().file().as_fd().try_clone_to_owned(),
            OutputTarget::Unmade(_) | OutputTarget::Device(_) => return Ok(()),
            OutputTarget::Output(..) => StandardStream::Output.copy(rt),
            OutputTarget::Faults(..) => StandardStream::Faults.copy(rt),
        };
        match copy {
            Ok(copy) => close(rt, copy),
            Err(_) => Ok(()),
        }
    }

    /// Returns the length of the file to which the target's name leads, or 0 if there is none.
    pub(crate) fn length_by_name(&self, rt: &HostRuntime) -> u64 {
        let path = match self {
            OutputTarget::File(out) => out.path(),
            OutputTarget::Unmade(_) => return 0,
            OutputTarget::Device(_) => return u64::MAX,
            OutputTarget::Output(..) => StandardStream::Output.path(),
            OutputTarget::Faults(..) => StandardStream::Faults.path(),
        };
        match stat(rt, path) {
            Ok(Some(found)) => found.len(),
            _ => 0,
        }
    }

    /// Returns how many of `held` bytes the target holds for certain: at most the file's length,
    /// and of a pipe all but the last [`PIPE_SLACK`], which may be on their way to its reader.
    pub(crate) fn count_certain(&self, rt: &HostRuntime, held: u64) -> u64
        ensures { result ≤ held }
    {
        let found = match self {
            OutputTarget::File(out) => return held.min(out.room()),
            OutputTarget::Unmade(_) => return 0,
            OutputTarget::Device(device) => device.file.file().metadata(),
            OutputTarget::Output(..) => fs::metadata(rt, StandardStream::Output.path()),
            OutputTarget::Faults(..) => fs::metadata(rt, StandardStream::Faults.path()),
        };
        match found {
            Ok(metadata) if is_pipe_or_socket(&metadata) => held.saturating_sub(PIPE_SLACK),
            Ok(metadata) if metadata.is_file() => held.min(metadata.len()),
            _ => held,
        }
    }

    /// Returns whether the target can be synced. A target that can't is written in full before that
    /// is reported.
    pub(crate) fn can_reach_disk(&self) -> bool {
        match self {
            OutputTarget::File(_) | OutputTarget::Unmade(_) | OutputTarget::Device(_) => true,
            OutputTarget::Output(_, witness) | OutputTarget::Faults(_, witness) =>
                !witness.is_missing(),
        }
    }
}

/// Locks a regular file for this run, and fails if its name doesn't lead to it then.
fn lock_output(rt: &HostRuntime, out: &mut Out, id: Option<FileId>, name: &str) -> io::Result<()>
    ensures same { (out.new.file ≡ out.old.file) × (out.new.is_indeterminate ≡ out.old.is_indeterminate) }
    ensures text { text_of out.new.calls ≡ text_of out.old.calls }
    ensures sound { OnOk result (out.new.failed ≡ out.old.failed) }
{
    out.claim()?;
    match FileId::file_id_at(rt, name) {
        Ok(seen) if seen == id => Ok(()),
        Ok(_) => Err(io::Error::from(io::ErrorKind::NotFound)),
        Err(error) => Err(error),
    }
}

/// Returns the target, with its regular file locked for this run. Fails if the name no longer leads
/// to that file.
pub(crate) fn claimed(
    rt: &HostRuntime,
    target: OutputTarget,
    id: Option<FileId>,
    name: &str,
) -> io::Result<OutputTarget>
    ensures file { IfOk result (λ t. out_file_of t ≡ out_file_of target) }
    ensures unmade { IfOk result (λ t. unmade_of t ≡ unmade_of target) }
    ensures taking { IfOk result (λ t. (failed : ℕ) (took : List ℕ)
        → IsTaking (regular_of target) failed took → IsTaking (regular_of t) failed took) }
{
    match target {
        OutputTarget::File(mut out) => {
            lock_output(rt, &mut out, id, name)?;
            Ok(OutputTarget::File(out))
        }
        other => Ok(other),
    }
}

/// Makes the file of a target that doesn't exist yet, and locks it for this run. Fails if something
/// has appeared at its path, or if its name doesn't lead to it. A file that was made stays.
pub(crate) fn create_missing(
    rt: &HostRuntime,
    name: &str,
    target: &mut OutputTarget,
    id: &mut Option<FileId>,
) -> io::Result<()>
    ensures keeps { Stays (unmade_of target.old) (unmade_of target.new) (out_file_of target.old)
        (out_file_of target.new) id.old id.new }
    ensures made { OnOk result (unmade_of target.new ≡ None) }
    ensures node { IfSome (regular_of target.old) (λ o. HasNode id.old o.file)
        → IfSome (regular_of target.new) (λ o. HasNode id.new o.file) }
    ensures none { regular_of target.new ≡ None → regular_of target.old ≡ None }
    ensures taking { OnOk result ((failed : ℕ) (took : List ℕ)
        → IsTaking (regular_of target.old) failed took
        → IfSome (unmade_of target.old) (λ _. took ≡ []) → IsTaking (regular_of target.new) failed took) }
    ensures failing { OnErr result ((failed : ℕ) (took : List ℕ) → 0 < failed
        → IfSome (unmade_of target.old) (λ _. took ≡ []) → IsTaking (regular_of target.new) failed took) }
{
    let OutputTarget::Unmade(path) = target else {
        return Ok(());
    };
    let mut machine = Machine::new(rt);
    let file = machine.make_output(path.as_str())?;
    let own = mem::replace(path, String::new(rt.alloc()));
    *id = Some(FileId::of_node(file.node()));
    let mut out = Out::new(machine, file, own, OpenOutcome::New);
    let taken = lock_output(rt, &mut out, *id, name);
    *target = OutputTarget::File(out);
    taken
}
