//! The beginning of a file under a passphrase.

ghost use Rattle.std.specs.Prelude.{◌≡◌, ◌↔◌, IsTrue};
ghost use Rattle.age_c.specs.{Answers, CanSeal, IsStartCall, WritesOrRefuses, BeginsFileFrom};

use crate::MISUSED;
use crate::blocks::put;
use crate::sealing::{begin_writer, passphrase_front};
use crate::writer::Writer;
use age_chunk::CHUNK_LIMIT;
use age_keys::{FileRandom, Passphrase, RANDOM_LEN};
use std::alloc::Global;

/// The room that a call needs for the header and the payload nonce, in bytes, apart from given
/// stanzas.
pub(crate) const FRONT: usize = 256;

/// The number of the fault of a file that would have more chunks than a payload can have.
pub(crate) const TOO_MANY_CHUNKS: u32 = 22;

/// Returns whether a writer can be used.
pub(crate) fn can_be_used(writer: &Writer) -> bool
    ensures { IsTrue result ↔ CanSeal writer.now }
{
    writer.state == 1 && writer.chunk < CHUNK_LIMIT
}

/// Begins a file under a passphrase of 1 to 65,536 bytes, with a work factor of 1 to 22, and writes
/// its header and the payload nonce to `out`, which has room for 256 bytes or more. `random` is 48
/// new random bytes: the file key, the stanza's salt and the payload nonce.
#[tactic(auto, using(crate::proofs::mac_holds))]
pub(crate) fn seal_passphrase(
    alloc: Global,
    pass: &[u8],
    work: u32,
    random: &[u8],
    out: &mut [u8],
    written: &mut usize,
    writer: &mut Writer,
) -> u32
    ensures { Answers (IsStartCall pass.now work random.now out.old)
        (WritesOrRefuses (BeginsFileFrom pass.now work random.now) (λ answer. answer ≡ 28) writer.old)
        writer.old writer.new result written.new out.old out.new }
{
    *written = 0;
    let Some(random) = random.as_array::<RANDOM_LEN>() else {
        return MISUSED;
    };
    if Passphrase::new(pass, work).is_none() || out.len() < FRONT {
        return MISUSED;
    }
    let random = FileRandom::of(random);
    match passphrase_front(alloc, &random, pass, work) {
        Ok(front) => {
            *written = put(front.as_slice(), out);
            *writer = begin_writer(&random.file_key, &random.payload_nonce);
            0
        }
        Err(fault) => fault.number(),
    }
}
