//! The files and streams that are in use, so that none is used twice.

ghost use Rattle.std.specs.Prelude.{◌≡◌, true, Some, Err, IfErr, OnOk, IfSome, Contains};
ghost use Rattle.age_fault.specs.declared.fault.FileFault.TheVariants.{Read, Write, Memory};
ghost use Rattle.age_cli_files.specs.{IsMemoryOr, OpenFails};
ghost use Rattle.age_cli_files.specs.declared.file_set.OpenFault.TheVariants.{SameFile};
ghost use Rattle.age_host.specs.{IsApart, HasAll};
ghost use Rattle.age_host_paths.specs.declared.resolve_name.FileId.{FileId};

use crate::position_file::{Location, PositionFile};
use age_cli_files::{Action, ErrorContext, Failure, OpenError};
use age_fault::FileFault;
use age_host_output::HostOut;
use age_host_paths::{FileId, StreamId, is_for_faults};
use std::alloc::Global;
use std::io;
use std::rt::HostRuntime;

/// Adds a stream to those in use. Fails if it is in use already.
pub(crate) fn keep_stream<'w>(
    kept: &mut Vec<StreamId>,
    stream: StreamId,
    name: &'w str,
) -> Result<(), OpenError<'w>>
    ensures { IfErr result (OpenFails Read) }
{
    if kept.iter().any(|other| other.is_same(stream)) {
        return Err(OpenError::same_file(name, None));
    }
    Ok(kept.push(stream).map_err(|_| FileFault::Memory)?)
}

/// Returns whether two names lead to one stream.
fn is_one_stream(alloc: Global, rt: &HostRuntime, one: &str, other: &str) -> io::Result<bool> {
    let one = StreamId::at(alloc, rt, one)?;
    let other = StreamId::at(alloc, rt, other)?;
    Ok(matches!((one, other), (Some(one), Some(other)) if one.is_same(other)))
}

/// Returns one of the other names that leads to the same stream as `name`, if one does.
pub(crate) fn find_alias<'n>(
    alloc: Global,
    rt: &HostRuntime,
    others: &[Option<&'n str>],
    name: &str,
) -> io::Result<Option<&'n str>> {
    for other in others.iter() {
        if let Some(other) = *other
            && is_one_stream(alloc, rt, other, name)?
        {
            return Ok(Some(other));
        }
    }
    Ok(None)
}

/// Returns whether this run has opened the file.
pub(crate) fn is_known(opened: &[FileId], id: Option<FileId>) -> bool
    ensures { (one : FileId) → id ≡ Some one → Contains opened.now one → result ≡ true }
{
    match id {
        Some(id) => opened.contains(&id),
        None => false,
    }
}

/// Returns whether one of these names leads to the file.
pub(crate) fn is_named(rt: &HostRuntime, names: &[Option<&str>], id: Option<FileId>) -> bool {
    for name in names.iter() {
        if let Some(name) = *name
            && id.is_some()
            && FileId::at(rt, name) == id
        {
            return true;
        }
    }
    false
}

/// Fails if the file of a position was opened, unless it is the spared one, or is that of standard
/// error. Fails too if what is at the path of its temporary file is one of those, or has one of the
/// other names.
pub(crate) fn check_location<'w>(
    rt: &HostRuntime,
    opened: &[FileId],
    location: &Location<'w>,
    spared: Option<FileId>,
    others: &[Option<&'w str>],
) -> Result<(), OpenError<'w>>
    ensures { IfErr result (λ e. e ≡ SameFile) }
{
    let (name, id, beside) = (location.name(), location.id(), location.beside_id(rt));
    if is_for_faults(rt, id) {
        return Err(OpenError::same_file(name, Some("standard error")));
    }
    let is_open = id != spared && is_known(opened, id);
    let is_beside = is_known(opened, beside) || is_for_faults(rt, beside);
    if is_open || is_beside || is_named(rt, others, beside) {
        return Err(OpenError::same_file(name, None));
    }
    Ok(())
}

/// Adds a file to those that were opened.
pub(crate) fn register_input(opened: &mut Vec<FileId>, id: Option<FileId>) -> Result<(), FileFault>
    ensures memory { IfErr result (λ fault. fault ≡ Memory) }
    ensures known { OnOk result (IfSome id (Contains opened.new.items)) }
    ensures before { HasAll opened.old.items opened.new.items }
{
    if let Some(id) = id {
        opened.push(id)?;
    }
    Ok(())
}

/// Adds a file that was opened for writing to those that were opened. Fails if it is one of them
/// already.
fn register_output<'w>(
    opened: &mut Vec<FileId>,
    id: Option<FileId>,
    name: &'w str,
) -> Result<(), OpenError<'w>>
    ensures same { (one : FileId) → id ≡ Some one → Contains opened.old.items one → result ≡ Err SameFile }
    ensures faults { IfErr result (OpenFails Write) }
{
    if is_known(opened.as_slice(), id) {
        return Err(OpenError::same_file(name, None));
    }
    Ok(register_input(opened, id)?)
}

/// Returns the name of the prepared file that is the output, or will be once the output is made, if
/// there is one. Fails if memory runs out.
fn find_prepared<'w>(prepared: &[PositionFile<'w>], out: &HostOut) -> io::Result<Option<&'w str>> {
    for one in prepared.iter() {
        let is_same = match out.unmade() {
            Some(path) => one.is_at(path)?,
            None => one.is(out.id()),
        };
        if is_same {
            return Ok(Some(one.name()));
        }
    }
    Ok(None)
}

/// Returns the error of an action on a file: `fault`, unless memory ran out.
pub(crate) fn failed<'w>(
    fault: FileFault,
    action: Action,
    name: &'w str,
    error: io::Error,
) -> OpenError<'w>
    ensures { OpenFails fault result }
{
    let context = ErrorContext::Failed(Failure {
        action,
        name,
        error,
    });
    OpenError::new(to_fault(error, fault), context)
}

/// Returns the fault of an error: `Memory` (28) if memory ran out, and `other` for anything else.
pub(crate) fn to_fault(error: io::Error, other: FileFault) -> FileFault
    ensures { IsMemoryOr other result }
{
    if error.kind() == io::ErrorKind::OutOfMemory {
        FileFault::Memory
    } else {
        other
    }
}

/// Adds the file of an output to those that were opened. Fails if it was opened or prepared before,
/// with both names, if the other one is known.
pub(crate) fn admit_out<'w>(
    opened: &mut Vec<FileId>,
    prepared: &[PositionFile<'w>],
    name: &'w str,
    out: &HostOut,
) -> Result<(), OpenError<'w>>
    ensures apart { OnOk result (IsApart opened.old.items out.now) }
    ensures faults { IfErr result (OpenFails Write) }
{
    match find_prepared(prepared, out) {
        Ok(None) => register_output(opened, out.id(), name),
        Ok(Some(other)) => Err(OpenError::same_file(other, Some(name))),
        Err(error) => Err(failed(FileFault::Write, Action::Write, name, error)),
    }
}
