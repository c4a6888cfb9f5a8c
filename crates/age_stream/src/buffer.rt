//! The buffer in which a block is sealed or opened.
ghost use Rattle.std.specs.Prelude.{◌≡◌, ◌+◌, ◌≤◌, ◌++◌, length};
ghost use Rattle.age_chunk.specs.{block_length};

use arrayvec::ArrayVec;

/// Appends bytes to a buffer that has room for them.
pub(crate) fn push_bytes<const SEALED: usize>(buffer: &mut ArrayVec<u8, SEALED>, bytes: &[u8])
    requires room { length buffer.old.items + length bytes.now ≤ SEALED }
    requires limit { SEALED ≤ block_length }
    ensures { buffer.new.items ≡ buffer.old.items ++ bytes.now }
{
    // there is room
    let _ = buffer.try_extend_from_slice(bytes);
}
