//! The end of an output: its file is closed with what was written, or discarded.

ghost use Rattle.std.specs.Prelude.{◌≡◌, ◌<◌, [], None, Some, false};
ghost use Rattle.age_host_model.specs.{Closes, Discards, TouchesItself};
ghost use Rattle.age_host_output.specs.Targets.{regular_of};
ghost use Rattle.age_host_output.specs.inner.{opening_calls};
ghost use Rattle.age_host_output.specs.inner.Closing.{WasWritten, tally_sink};

use crate::target::{OutputName, OutputTarget};
use age_host_model::Durability;
use age_host_paths::{DevIno, SymlinkWitness, trace_bytes};
use age_host_syscalls::{Machine, Out};
use age_io::{ByteTrace, FailureCount};
use std::io;
use std::marker::Model;
use std::rt::HostRuntime;

/// The identity of a regular file that was ended, for contracts.
#[derive(Drop)]
struct ClosedFileId {
    path: ByteTrace,
    node: DevIno,
    is_made: bool,
}

impl Model for ClosedFileId {
    ghost use Rattle.age_host_model.specs.{OutFile};
    ghost use Rattle.age_host_paths.specs.{number_of};

    ghost Value = { OutFile };

    ghost view = { λ w. record {
      path = w.path;
      number = number_of w.node;
      is_made = w.is_made;
    } };
}

impl ClosedFileId {
    /// Returns the identity of an output's file.
    fn of(out: &Out) -> ClosedFileId
        ensures { result ≡ out.now.file }
    {
        let (path, file, is_made) = out.file_identity();
        ClosedFileId {
            path: trace_bytes(path.as_bytes()),
            node: file.node(),
            is_made,
        }
    }
}

/// A record of what was done to a file that was ended, for contracts.
#[derive(Drop)]
pub struct CloseRecord {
    took: ByteTrace,
    // Whether the file was closed with what was written, and not discarded.
    is_closed: bool,
    which: Option<ClosedFileId>,
    // The system's answer that the name is a link, if it is one.
    link: Option<SymlinkWitness>,
    machine: Machine,
}

impl Model for CloseRecord {
    ghost use Rattle.age_host_model.specs.{EndedFile};
    ghost use Rattle.std.specs.Prelude.{is_some};

    ghost Value = { EndedFile };

    ghost view = { λ e. record {
      took = e.took;
      is_closed = e.is_closed;
      file = e.which;
      is_link = is_some e.link;
      calls = e.machine.calls;
      failed = e.machine.failed;
    } };
}

impl CloseRecord {
    /// Returns the bytes that the sink took. Ghost: no bytes at run time.
    pub fn took(&self) -> &ByteTrace
        ensures { result.now ≡ self.now.took }
    {
        &self.took
    }

    /// Returns whether the file system was unable to sync the file.
    pub fn is_unwaited(&self) -> bool {
        self.machine.is_unwaited()
    }
}

/// The name of an output, the number of its failed puts, and what it took.
#[derive(Drop)]
pub(crate) struct OutputRecord {
    pub(crate) name: OutputName,
    pub(crate) failures: FailureCount,
    pub(crate) took: ByteTrace,
}

/// Ends a regular file with what was written, and closes it. Returns the record of that, and the
/// result.
pub(crate) fn close_file(
    out: Out,
    tally: OutputRecord,
    durability: Durability,
) -> (CloseRecord, io::Result<()>)
    requires { WasWritten out tally }
    ensures { Closes durability (Some out.file) (tally_sink tally) result.1 result.0 }
{
    let which = Some(ClosedFileId::of(&out));
    let age_host_syscalls::CloseOutcome { end, machine, .. } = out.end(durability);
    let ended = CloseRecord {
        took: tally.took,
        is_closed: true,
        which,
        link: tally.name.link,
        machine,
    };
    (ended, end)
}

/// Ends a regular file to which nothing was written, and leaves it unchanged.
pub(crate) fn discard_file(out: Out, tally: OutputRecord, durability: Durability) -> CloseRecord
    requires { WasWritten out tally }
    ensures { Discards (Some out.file) (tally_sink tally) result }
{
    let which = Some(ClosedFileId::of(&out));
    let machine = out.discard(durability);
    CloseRecord {
        took: tally.took,
        is_closed: false,
        which,
        link: tally.name.link,
        machine,
    }
}

/// Ends a regular file to which each put failed, and leaves it unchanged. The record says that it
/// was closed.
pub(crate) fn close_unwritten(
    out: Out,
    tally: OutputRecord,
    durability: Durability,
) -> (CloseRecord, io::Result<()>)
    requires written { WasWritten out tally }
    requires failed { (0 < tally.failures.count) × (tally.took ≡ []) }
    ensures { Closes durability (Some out.file) (tally_sink tally) result.1 result.0 }
{
    let mut ended = discard_file(out, tally, durability);
    ended.is_closed = true;
    (ended, Ok(()))
}

/// Returns the record of a device or a stream that was ended. At most the call that opened it is in
/// the record.
pub(crate) fn unlogged(
    rt: &HostRuntime,
    target: &OutputTarget,
    took: ByteTrace,
    is_closed: bool,
) -> CloseRecord
    requires { regular_of target.now ≡ None }
    ensures is { result ≡ record {
      took = took;
      is_closed = is_closed;
      file = None;
      is_link = false;
      calls = opening_calls target.now;
      failed = 0;
    } }
    ensures within { TouchesItself result }
{
    let machine = match target {
        OutputTarget::Device(device) => device.machine.again(),
        _ => Machine::new(rt),
    };
    CloseRecord {
        took,
        is_closed,
        which: None,
        link: None,
        machine,
    }
}
