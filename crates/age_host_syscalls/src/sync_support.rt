//! The sync of a file, and whether its file system can sync.

ghost use Rattle.std.specs.Prelude.{◌≡◌, None, Err, IsOk, IfOk, IfSome, true};
ghost use Rattle.std_io.specs.IoError.{error_kind};
ghost use Rattle.age_host_syscalls.specs.inner.Locks.{is_of_no_wait};

use crate::calls;
use std::fs::File;
use std::io;

/// The answer of a file system that can't sync a file. Only the code that asked it makes one, so no
/// file is noted as one that can't be synced unless the system said so.
#[derive(Drop)]
pub(crate) struct SyncUnsupported {
    error: io::Error,
    ghost said: { is_of_no_wait (error_kind error) ≡ true },
}

/// Returns `None` if a file was synced, by the system's answer, or that answer if the file system
/// can't sync. Fails with any other error, as from a file system that became read-only after a file
/// was written: its disk failed.
fn why_unwaited(answer: io::Result<()>) -> io::Result<Option<SyncUnsupported>>
    ensures waited { IfOk result (λ it. it ≡ None → IsOk answer) }
    ensures cant { IfOk result (λ it. IfSome it (λ c. answer ≡ Err c.error)) }
{
    match answer {
        Ok(()) => Ok(None),
        Err(error) => match error.kind() {
            io::ErrorKind::InvalidInput | io::ErrorKind::Unsupported => {
                Ok(Some(SyncUnsupported { error }))
            }
            _ => Err(error),
        },
    }
}

/// Syncs a file, and returns the system's answer if the file system can't sync.
pub(crate) fn wait_for(file: &File) -> io::Result<Option<SyncUnsupported>> {
    why_unwaited(calls::sync_whole(file))
}

/// Syncs a file. Returns `false` if its file system can't sync.
pub fn sync(file: &File) -> io::Result<bool> {
    Ok(wait_for(file)?.is_none())
}
