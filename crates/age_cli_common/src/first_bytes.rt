//! The first bytes of a source or a file.

ghost use Rattle.std.specs.Prelude.{◌≡◌, ◌^◌, ◌<◌, ◌≤◌, [], OnOk, IfOk, IfErr, IfSome};
ghost use Rattle.age_cli_files.specs.{IsMemoryOr, OpenFails, Does, NotedSince, HasGivenAll};
ghost use Rattle.age_fault.specs.declared.fault.FileFault.TheVariants.{Read};
ghost use Rattle.age_io.specs.{Consumes, IsAtEnd};
ghost use Rattle.age_cli_common.specs.{AreFirst};
ghost use Rattle.age_cli_common.specs.inner.{IsPiece};

use crate::identity::PASSPHRASE_FILE_MAX;
use age_cli_files::{FileSet, IfMissing, OpenError, Purpose};
use age_fault::FileFault;
use age_io::Source;
use std::alloc::Global;

/// The largest number of bytes that are read at once.
const ROOM: usize = 4096;

/// Reads at most `most` bytes to the beginning of a buffer, and returns their number.
fn pull_some<S: Source>(
    source: &mut S,
    buffer: &mut [u8; ROOM],
    most: usize,
) -> Result<usize, FileFault>
    requires some { 0 < most }
    requires room { most ≤ 4096 }
    ensures piece { IfOk result (λ n.
        IsPiece (S.view source.old).supply (S.view source.new).supply most n buffer.new) }
    ensures fault { IfErr result (λ f. f ≡ Read) }
    ensures named { (S.view source.new).label ≡ (S.view source.old).label }
{
    match source.pull(&mut buffer[..most]) {
        Ok(n) => Ok(n),
        Err(_) => Err(FileFault::Read),
    }
}

/// Reads `most` bytes into an empty vector, or fewer if the source ends first. Reads no byte beyond
/// them. After a fault, the vector holds what was read before it.
pub fn fill_first<S: Source>(
    source: &mut S,
    held: &mut Vec<u8>,
    most: usize,
) -> Result<(), FileFault>
    requires { held.old.items ≡ [] }
    ensures first { OnOk result
        (AreFirst (S.view source.old).supply (S.view source.new).supply most held.new.items) }
    ensures faults { IfErr result (IsMemoryOr Read) }
    ensures named { (S.view source.new).label ≡ (S.view source.old).label }
{
    let mut buffer = [0; ROOM];
    'pieces: while held.len() < most {
        let n = pull_some(source, &mut buffer, (most - held.len()).min(ROOM))?;
        if n == 0 {
            return Ok(());
        }
        held.extend_from_slice(&buffer[..n])?;
    }
    Ok(())
}

/// Returns the first `most` bytes of a source, or fewer if it ends first. Reads no byte beyond
/// them.
pub fn read_first<S: Source>(
    alloc: Global,
    source: &mut S,
    most: usize,
) -> Result<Vec<u8>, FileFault>
    ensures first { IfOk result
        (λ v. AreFirst (S.view source.old).supply (S.view source.new).supply most v.items) }
    ensures faults { IfErr result (IsMemoryOr Read) }
    ensures named { (S.view source.new).label ≡ (S.view source.old).label }
{
    // A vector that grows leaves copies behind, so the one for a passphrase's file never grows.
    let mut held = Vec::with_capacity(alloc, most.min(PASSPHRASE_FILE_MAX + 1))?;
    fill_first(source, &mut held, most)?;
    Ok(held)
}

/// Reads a source to its end, or returns `None` if it has more than `most` bytes (below 2^32).
/// Reads at most `most + 1` bytes.
pub fn read_up_to<S: Source>(
    alloc: Global,
    source: &mut S,
    most: usize,
) -> Result<Option<Vec<u8>>, FileFault>
    requires { most < 2 ^ 32 }
    ensures all { IfOk result (λ o. IfSome o
        (λ v. Consumes (S.view source.old).supply (S.view source.new).supply v.items
        × IsAtEnd (S.view source.new).supply)) }
    ensures faults { IfErr result (IsMemoryOr Read) }
    ensures named { (S.view source.new).label ≡ (S.view source.old).label }
{
    let first = read_first(alloc, source, most + 1)?;
    if first.len() > most {
        return Ok(None);
    }
    Ok(Some(first))
}

/// Opens a file, reads it to its end and closes it. Returns `None` if it has more than `most` bytes
/// (below 2^32). Reads at most `most + 1` bytes.
pub fn read_file<'w, F: FileSet<'w>>(
    alloc: Global,
    files: &mut F,
    name: &'w str,
    purpose: Purpose,
    most: usize,
) -> Result<Option<Vec<u8>>, OpenError<'w>>
    requires { most < 2 ^ 32 }
    ensures does { Does (F.view files.old) (F.view files.new) }
    ensures given { IfOk result (λ o. IfSome o (λ v.
        HasGivenAll (NotedSince (F.view files.old) (F.view files.new)) name.now v.items)) }
    ensures faults { IfErr result (OpenFails Read) }
{
    let mut source = files.open(alloc, name, IfMissing::Fails, purpose)?;
    let read = read_up_to(alloc, &mut source, most);
    let context = files.close_input(source);
    match read {
        Ok(held) => Ok(held),
        Err(fault) => Err(OpenError::new(fault, context)),
    }
}
