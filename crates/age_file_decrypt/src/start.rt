//! The reading of a file up to its payload, and the skipping of blocks that were opened before.

ghost use Rattle.std.specs.Prelude.{◌≡◌, ◌+◌, ◌-◌, ◌≤◌, ℕ, List, [], ◌++◌, length, take, min};
ghost use Rattle.std.specs.Prelude.{IfOk, IfErr, OnOk};
ghost use Rattle.age_file_decrypt.specs.Decrypts.{StartFails};
ghost use Rattle.age_file_input.specs.{view_of_reader, SameReader, Passes};
ghost use Rattle.age_file_decrypt.specs.inner.{HasSome, Dries, NonceFails, TakesNonce, StartsAt};
ghost use Rattle.age_file_decrypt.specs.inner.{SkipsBlocks};
ghost use Rattle.age_chunk.specs.{block_length};
ghost use Rattle.age_file_input.specs.{pull_room};

use age_chunk::PAYLOAD_NONCE_LEN;
use age_fault::FileFault;
use age_file_input::{Reader, read_head};
use age_file_position::file_id;
use age_io::Source;
use age_keys::{FileKey, KeyFault, Steps, Unlock, open_header};
use age_stanza::Header;
use age_stream::{BLOCK_LEN, StreamFault, StreamKind};
use std::alloc::Global;

/// The key and nonce that open a file's payload, with the file's id.
#[derive(Drop)]
pub(crate) struct Unlocked {
    pub(crate) key: FileKey,
    pub(crate) nonce: [u8; PAYLOAD_NONCE_LEN],
    // identifies the file: see `file_id`
    pub(crate) id: [u8; 32],
}

/// An unlocker that its owner keeps.
#[derive(Drop)]
pub(crate) struct BorrowedUnlock<'a, U: Unlock> {
    pub(crate) unlock: &'a U,
}

impl<'a, U: Unlock> Unlock for BorrowedUnlock<'a, U> {
    ghost allows = { λ lent. U.allows lent.unlock.now };

    ghost refuses = { λ lent. U.refuses lent.unlock.now };

    ghost most_steps = { λ lent. U.most_steps lent.unlock.now };

    fn unlock(
        &self,
        alloc: Global,
        header: &Header,
        steps: &mut Steps,
    ) -> Result<FileKey, KeyFault> {
        self.unlock.unlock(alloc, header, steps)
    }
}

/// Fills the buffer by a pull if it is empty. The end of input is the fault `at_end`.
pub(crate) fn need_bytes<S: Source>(
    reader: &mut Reader<'_, S>,
    at_end: FileFault,
) -> Result<(), FileFault>
    ensures some { OnOk result (HasSome (view_of_reader S.view reader.old)
        (view_of_reader S.view reader.new)) }
    ensures none { IfErr result (Dries at_end (view_of_reader S.view reader.old)
        (view_of_reader S.view reader.new) []) }
    ensures same { SameReader S.view reader.old reader.new }
{
    if reader.intake.bytes().is_empty() && !reader.intake.refill(reader.source)? {
        return Err(at_end);
    }
    Ok(())
}

/// Skips the bytes in the buffer, and then as many bytes of the source as it can skip, at most
/// `most` bytes in all. Returns their number.
fn skip_some<S: Source>(reader: &mut Reader<'_, S>, most: u128) -> u128
    ensures bound { result ≤ most }
    ensures skipped { (bytes : List ℕ) × (length bytes ≡ result)
        × Passes (view_of_reader S.view reader.old) (view_of_reader S.view reader.new) bytes }
    ensures same { SameReader S.view reader.old reader.new }
{
    let n = most.min(reader.intake.bytes().len() as u128);
    reader.intake.use_front(n as usize);
    if n == most {
        return n;
    }
    let more = (most - n).min(u128::from(u64::MAX)) as u64;
    n + u128::from(reader.intake.skip(reader.source, more))
}

/// Skips `blocks` blocks without opening them, and without reading them as far as the source can
/// skip.
pub(crate) fn skip_blocks<S: Source>(
    reader: &mut Reader<'_, S>,
    blocks: u64,
) -> Result<(), FileFault>
    ensures skipped { SkipsBlocks block_length blocks (view_of_reader S.view reader.old)
        (view_of_reader S.view reader.new) result }
    ensures same { SameReader S.view reader.old reader.new }
{
    let all = u128::from(blocks) * BLOCK_LEN as u128;
    let mut left = all - skip_some(reader, all);
    'pieces: while left > 0 {
        let cut = StreamFault {
            kind: StreamKind::Truncated,
            chunk: ((all - left) / BLOCK_LEN as u128) as u64,
        };
        need_bytes(reader, FileFault::Stream(cut))?;
        let n = left.min(reader.intake.bytes().len() as u128);
        reader.intake.use_front(n as usize);
        left -= n;
    }
    Ok(())
}

/// Copies as many bytes as there is room for after the first `have`, and returns their number.
fn copy_some(from: &[u8], into: &mut [u8; PAYLOAD_NONCE_LEN], have: usize) -> usize
    requires { have ≤ 16 }
    ensures count { result ≡ min (16 - have) (length from.now) }
    ensures bytes { take (have + result) into.new ≡ take have into.old ++ take result from.now }
{
    let n = (PAYLOAD_NONCE_LEN - have).min(from.len());
    into[have..have + n].copy_from_slice(&from[..n]);
    n
}

/// Reads the payload nonce.
fn take_nonce<S: Source>(reader: &mut Reader<'_, S>) -> Result<[u8; PAYLOAD_NONCE_LEN], FileFault>
    requires { length reader.old.intake.now.bytes ≤ pull_room }
    ensures found { IfOk result (TakesNonce (view_of_reader S.view reader.old)
        (view_of_reader S.view reader.new)) }
    ensures fails { IfErr result (NonceFails (view_of_reader S.view reader.old)
        (view_of_reader S.view reader.new)) }
    ensures same { SameReader S.view reader.old reader.new }
{
    let mut nonce = [0; PAYLOAD_NONCE_LEN];
    let mut have = 0;
    'parts: while have < PAYLOAD_NONCE_LEN {
        need_bytes(reader, FileFault::NonceCut)?;
        let n = copy_some(reader.intake.bytes(), &mut nonce, have);
        reader.intake.use_front(n);
        have += n;
    }
    Ok(nonce)
}

/// Reads a file up to its payload: the header, which is opened, and the payload nonce. The unlocker
/// is dropped before the nonce is read.
pub(crate) fn start<U: Unlock + Drop, S: Source>(
    alloc: Global,
    unlock: U,
    reader: &mut Reader<'_, S>,
) -> Result<Unlocked, FileFault>
    requires { (reader.old.intake.now.bytes ≡ []) × (reader.old.intake.now.pulls ≡ 0) }
    ensures found { IfOk result (StartsAt (U.allows unlock) (S.view reader.old.source.now)
        (view_of_reader S.view reader.new)) }
    ensures fails { IfErr result (StartFails (U.allows unlock) (U.refuses unlock)
        (S.view reader.old.source.now) (S.view reader.new.source.now)) }
    ensures same { SameReader S.view reader.old reader.new }
{
    let head = read_head(alloc, reader)?;
    let key = open_header(alloc, &head.header, &unlock, &mut Steps::new())?;
    drop(unlock);
    let nonce = take_nonce(reader)?;
    let id = file_id(head.digest, &nonce);
    Ok(Unlocked { key, nonce, id })
}
