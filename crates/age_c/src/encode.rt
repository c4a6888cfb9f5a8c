//! The C functions that begin a file that is encoded. They forget what the stream had of another
//! file.

ghost use Rattle.std.specs.Prelude.{◌≡◌};
ghost use Rattle.age_c.specs.{Begins, BeginsFileFrom, BeginsFileWith, IsStartCall, IsKeyCall};
ghost use Rattle.age_c.specs.{RefusesLines};

use crate::seal::seal_passphrase;
use crate::seal_key::seal_key;
use crate::write_stream::WriteStream;
use std::alloc::Global;

/// Empties a stream, and marks it as given up.
fn forget(stream: &mut WriteStream)
    ensures empty { stream.new.held ≡ 0 }
    ensures shut { stream.new.writer.state ≡ 0 }
{
    stream.held = 0;
    stream.writer.state = 0;
}

/// Begins a file under a passphrase of 1 to 65,536 bytes, with a work factor of 1 to 22, in a
/// stream. Writes the header and the payload nonce to `out`, which has room for 256 bytes or more.
/// `random` is 48 new random bytes: the file key, the stanza's salt and the payload nonce. Forgets
/// what the stream had, in any case.
#[unsafe(no_mangle)]
pub extern "C" fn age_c_encode_passphrase(
    alloc: Global,
    pass: &[u8],
    work: u32,
    random: &[u8],
    out: &mut [u8],
    written: &mut usize,
    stream: &mut WriteStream,
) -> u32
    ensures { Begins (IsStartCall pass.now work random.now out.old)
        (BeginsFileFrom pass.now work random.now) (λ answer. answer ≡ 28) stream.new result
        written.new out.old out.new }
{
    forget(stream);
    seal_passphrase(alloc, pass, work, random, out, written, &mut stream.writer)
}

/// Begins a file whose file key the caller has wrapped, in a stream. Writes the header and the
/// payload nonce to `out`, which has room for 256 bytes more than `stanzas` has, or more. `stanzas`
/// has the lines of the header between the first and the last, and `random` 32 new random bytes:
/// the file key and the payload nonce. Refuses lines that no header can have with 3, and a scrypt
/// stanza beside another with 9. Forgets what the stream had, in any case.
#[unsafe(no_mangle)]
pub extern "C" fn age_c_encode_key(
    alloc: Global,
    stanzas: &[u8],
    random: &[u8],
    out: &mut [u8],
    written: &mut usize,
    stream: &mut WriteStream,
) -> u32
    ensures { Begins (IsKeyCall stanzas.now random.now out.old)
        (BeginsFileWith stanzas.now random.now) (RefusesLines stanzas.now) stream.new result
        written.new out.old out.new }
{
    forget(stream);
    seal_key(alloc, stanzas, random, out, written, &mut stream.writer)
}
