//! Functions that seal a whole plaintext.
ghost use Rattle.std.specs.Prelude.{◌≡◌, ◌-◌, ◌≤◌, ◌<◌, ◌+◌, ◌*◌, ◌/◌, ◌^◌, length, IfSome, IfNone};
ghost use Rattle.std.specs.Prelude.{vec_capacity};
ghost use Rattle.age_chunk.specs.{chunk_count, block_length};
ghost use Rattle.age_stream.specs.Sealer.{AppendsPayload, SealsPayload, seal_fault_number, seal_fault_place};
ghost use Rattle.age_stream.specs.inner.{SealsWithin};
ghost use Rattle.age_stream.specs.declared.whole_text.SealFault.TheVariants as refusals;
ghost use Rattle.age_chunk.specs.{tag_length, text_length};

use crate::replay::push_lent;
use crate::sealer::Sealer;
use age_chunk::{ChunkBox, StreamFault, TAG_LEN};
use std::alloc::{AllocError, Global};
use thiserror::Error;

/// The error of sealing a plaintext.
#[derive(Clone, Copy, Debug, PartialEq, Eq, Error)]
pub enum SealFault {
    /// The plaintext has more chunks than a payload can have.
    #[error("{0}")]
    Stream(StreamFault),
    /// Memory ran out.
    #[error("out of memory")]
    Memory,
}

impl SealFault {
    /// Returns the fault's number in the list of all faults (docs/FAULTS.md): 22 if the plaintext
    /// has too many chunks, 28 if memory ran out.
    pub fn number(&self) -> u8
        ensures { result ≡ seal_fault_number self.now }
    {
        match self {
            SealFault::Stream(fault) => fault.number(),
            SealFault::Memory => 28,
        }
    }

    /// Returns the number of the chunk, from 0, at which the sealer refused, or `None` if memory
    /// ran out.
    pub fn place(&self) -> Option<u64>
        ensures { result ≡ seal_fault_place self.now }
    {
        match self {
            SealFault::Stream(fault) => fault.place(),
            SealFault::Memory => None,
        }
    }
}

impl From<AllocError> for SealFault {
    ghost from_gives = { λ _ e. e ≡ refusals.Memory };

    fn from(_e: AllocError) -> SealFault {
        SealFault::Memory
    }
}

impl From<StreamFault> for SealFault {
    ghost from_gives = { λ fault e. e ≡ refusals.Stream fault };

    fn from(e: StreamFault) -> SealFault {
        SealFault::Stream(e)
    }
}

/// Returns the payload of a plaintext: its chunks of `SEALED - TAG_LEN` bytes, each sealed at its
/// nonce, one after the other (<https://c2sp.org/age#payload>). Fails as [`seal_into`] does.
/// Requires `SEALED` from 17 to 65,552.
pub fn seal_all<B: ChunkBox, const SEALED: usize>(
    alloc: Global,
    key: &B,
    text: &[u8],
) -> Result<Vec<u8>, SealFault>
    requires least { tag_length < SEALED }
    requires most { SEALED ≤ block_length }
    ensures { SealsPayload (B.sealing key.now) (B.opening key.now) (text_length SEALED) text.now
        result }
{
    let mut out = Vec::new(alloc);
    seal_into::<B, SEALED>(key, text, &mut out)?;
    Ok(out)
}

/// Appends the payload of a plaintext, in chunks of `SEALED - TAG_LEN` bytes, to `out`. Fails, and
/// then appends nothing, if memory runs out or the plaintext has more than 2^48 chunks. Memory is
/// allocated once, before anything is sealed, and only if there is no room for the payload.
/// Requires `SEALED` from 17 to 65,552.
pub fn seal_into<B: ChunkBox, const SEALED: usize>(
    key: &B,
    text: &[u8],
    out: &mut Vec<u8>,
) -> Result<(), SealFault>
    requires least { tag_length < SEALED }
    requires most { SEALED ≤ block_length }
    ensures { AppendsPayload (B.sealing key.now) (text_length SEALED) text.now
        out.old.items (vec_capacity out.old - length out.old.items) result out.new.items }
{
    let Some(len) = payload_len(text.len(), SEALED - TAG_LEN) else {
        return Err(SealFault::Memory);
    };
    out.reserve(len)?;
    let before = out.len();
    if let Err(fault) = seal_within::<B, SEALED>(key, text, out) {
        out.truncate(before);
        return Err(SealFault::Stream(fault));
    }
    Ok(())
}

/// Appends the payload of a plaintext to `out`, which has room for it, so that no memory is
/// requested.
fn seal_within<B: ChunkBox, const SEALED: usize>(
    key: &B,
    text: &[u8],
    out: &mut Vec<u8>,
) -> Result<(), StreamFault>
    requires least { tag_length < SEALED }
    requires most { SEALED ≤ block_length }
    requires room { length out.old.items
        + (length text.now + chunk_count (text_length SEALED) text.now * tag_length)
        ≤ vec_capacity out.old }
    ensures { SealsWithin (B.sealing key.now) (text_length SEALED) text.now
        out.old.items result out.new.items }
{
    let mut sealer = Sealer::<B, SEALED>::new(key);
    let mut at = 0;
    while at < text.len() {
        let step = sealer.feed(&text[at..])?;
        push_lent(out, step.chunk);
        at += step.taken;
    }
    push_lent(out, Some(sealer.finish()?));
    Ok(())
}

/// Returns the length of the payload of a plaintext of `text_len` bytes, in chunks of `chunk_len`
/// bytes, or `None` if it exceeds any memory.
fn payload_len(text_len: usize, chunk_len: usize) -> Option<usize>
    requires { 0 < chunk_len }
    ensures len { IfSome result
        (λ len. len ≡ text_len + ((text_len - 1) / chunk_len + 1) * tag_length) }
    ensures long { IfNone result
        (2 ^ 64 ≤ text_len + ((text_len - 1) / chunk_len + 1) * tag_length) }
{
    let count = text_len.saturating_sub(1) / chunk_len;
    count
        .checked_add(1)?
        .checked_mul(TAG_LEN)?
        .checked_add(text_len)
}
