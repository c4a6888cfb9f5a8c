//! An example of a decryption in memory.

ghost use Rattle.std.specs.Prelude.{◌≡◌, ℕ, List, [], MatchResult, false};
ghost use Rattle.age_memory.specs.{memory_supply};
ghost use Rattle.age_file.specs.{IsUndamagedFile, StopsOutside};

use age_file::{FileFault, MemSink, MemSource, decrypt, undamaged_is_written};
use age_keys::Unlock;
use std::alloc::Global;

/// The most bytes that a pull or a put moves.
const STEP: usize = 65_536;

/// Returns the plaintext of an age file in memory, or the fault. A fault of the file returns no
/// bytes at all, so nobody takes a truncated plaintext for a complete one.
///
/// If the file is that of some plaintext, which the unlocker opens, and undamaged, the result is
/// that plaintext, or one of the faults that have nothing to do with the file. A plaintext is
/// shorter than its file, so the file's length is enough room.
pub fn open_bytes<U: Unlock>(alloc: Global, unlock: &U, file: Vec<u8>) -> Result<Vec<u8>, FileFault>
    ensures undamaged { (text : List ℕ)
        → IsUndamagedFile (U.allows unlock.now) (U.refuses unlock.now)
        (memory_supply [] file.items false) text
        → MatchResult result (λ v. v.items ≡ text) StopsOutside }
{
    undamaged_is_written::<U>();
    let mut sink = MemSink::new(alloc, file.len(), STEP, None)?;
    let mut source = MemSource::new(file, STEP, None);
    match decrypt(alloc, unlock, &mut source, &mut sink) {
        Ok(_) => Ok(sink.into_bytes()),
        Err(stopped) => Err(stopped.fault),
    }
}
