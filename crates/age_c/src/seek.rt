//! The seek to a chunk of a payload.

ghost use Rattle.std.specs.Prelude.{◌<◌};
ghost use Rattle.age_chunk.specs.{chunk_limit};
ghost use Rattle.age_c.specs.{GoesTo};

use crate::reader::Reader;

/// Sets a reader to the beginning of a chunk, as one that was given nothing.
pub(crate) fn go_to(reader: &mut Reader, chunk: u64)
    requires { chunk < chunk_limit }
    ensures { GoesTo chunk reader.old reader.new }
{
    reader.chunk = chunk;
    reader.state = 1;
    reader.fault_chunk = 0;
}
