//! The sealer of a payload: plaintext in, sealed chunks out.
ghost use Rattle.std.specs.Prelude.{◌≡◌, ◌+◌, ◌<◌, ◌≤◌, [], length, OnOk, None, IsNone, true, false};
ghost use Rattle.std.specs.Borrow.{sem};
ghost use Rattle.std.specs.Io.BufRead.{Rests};
ghost use Rattle.age_chunk.specs.{tag_length, text_length, nonce_bytes, chunk_limit, block_length};

use crate::buffer::push_bytes;
use crate::step::Step;
use age_chunk::{CHUNK_LIMIT, ChunkBox, StreamFault, StreamKind, TAG_LEN, nonce_of};
use arrayvec::ArrayVec;
use std::marker::Model;

/// The state of a sealer.
#[derive(Drop)]
struct SealerState<'k, B: ChunkBox, const SEALED: usize> {
    key: &'k B,
    /// The plaintext of the chunk that is open, or its block until the next call.
    buffer: ArrayVec<u8, SEALED>,
    /// The next chunk's first byte, while the block is lent.
    beside: Option<u8>,
    index: u64,
    failed: bool,
    finished: bool,
    ghost sizes: { (tag_length < SEALED) × (SEALED ≤ block_length) },
    ghost room: { finished ≡ false → IsNone beside → length buffer.items ≤ text_length SEALED },
    ghost limit: { index < chunk_limit },
}

impl<'k, B: ChunkBox, const SEALED: usize> SealerState<'k, B, SEALED> {
    ghost use Rattle.age_stream.specs.Sealer.{held_text, too_many};
    ghost use Rattle.age_stream.specs.inner.{Steps, SealerSealsLast};

    /// Empties the buffer if its block was lent, and begins it with the byte in `beside`.
    fn reclaim(&mut self)
        ensures held { held_text self.new ≡ held_text self.old }
        ensures buffer { self.new.buffer.items ≡ held_text self.old }
        ensures beside { self.new.beside ≡ None }
        ensures same { (self.new.index ≡ self.old.index) × (self.new.key ≡ self.old.key)
            × (self.new.failed ≡ self.old.failed) × (self.new.finished ≡ self.old.finished) }
    {
        if let Some(byte) = self.beside {
            self.buffer.clear();
            self.buffer.push(byte);
            self.beside = None;
        }
    }

    /// Returns the fault of a plaintext that has too many chunks.
    fn refusal(&self) -> StreamFault
        ensures { result ≡ too_many self.now.index }
    {
        StreamFault {
            kind: StreamKind::TooManyChunks,
            chunk: self.index,
        }
    }

    /// Takes the beginning of a piece. Returns the number of bytes taken, and whether the buffer
    /// now has a sealed block.
    fn advance(&mut self, piece: &[u8]) -> Result<(usize, bool), StreamFault>
        requires { self.old.finished ≡ false }
        ensures { Steps B.sealing self.old piece.now result self.new }
    {
        if self.failed {
            return Err(self.refusal());
        }
        if piece.is_empty() {
            return Ok((0, false));
        }
        self.reclaim();
        let room = SEALED - TAG_LEN - self.buffer.len();
        if room > 0 {
            let taken = room.min(piece.len());
            push_bytes(&mut self.buffer, &piece[..taken]);
            return Ok((taken, false));
        }
        if self.index == CHUNK_LIMIT - 1 {
            self.failed = true;
            return Err(self.refusal());
        }
        seal_in(self.key, self.index, false, &mut self.buffer);
        self.beside = Some(piece[0]);
        self.index += 1;
        Ok((1, true))
    }

    /// Seals the plaintext in the buffer as the last chunk, in place.
    fn close(&mut self) -> Result<(), StreamFault>
        requires { self.old.finished ≡ false }
        ensures last { SealerSealsLast self.old result self.new }
        ensures block { OnOk result (self.new.buffer.items
            ≡ B.sealing self.old.key.now (nonce_bytes self.old.index true) (held_text self.old)) }
    {
        if self.failed {
            return Err(self.refusal());
        }
        self.reclaim();
        seal_in(self.key, self.index, true, &mut self.buffer);
        self.finished = true;
        Ok(())
    }
}

/// A sealer of a plaintext that comes in pieces, however they are split
/// (<https://c2sp.org/age#payload>). It lends the blocks of the payload. A full chunk is sealed
/// once a byte after it came, since only then it isn't the last.
///
/// `SEALED` is the length of a full block in bytes, from 17 to 65,552
/// ([`BLOCK_LEN`](crate::BLOCK_LEN), which age files have). docs/LIBRARY.md has an example,
/// `seal_to`. Contracts see the key, the plaintext of the chunk that is open, its number, and
/// whether the sealer was refused or finished.
#[derive(Drop)]
pub struct Sealer<'k, B: ChunkBox, const SEALED: usize> {
    state: SealerState<'k, B, SEALED>,
}

impl<'k, B: ChunkBox, const SEALED: usize> Model for Sealer<'k, B, SEALED> {
    ghost use Rattle.age_stream.specs.Sealer.{SealerView, sealer_view};

    ghost Value = { SealerView B };

    ghost view = { λ s. sealer_view s.state };
}

impl<'k, B: ChunkBox, const SEALED: usize> Sealer<'k, B, SEALED> {
    ghost use Rattle.age_stream.specs.Sealer.{Takes, IsTaken, Finishes, IsFinished};
    ghost use Rattle.age_stream.specs.Rows.{sealer_row};

    /// Makes a sealer that was given nothing yet. Requires `SEALED` from 17 to 65,552. Allocates
    /// nothing.
    pub fn new(key: &'k B) -> Self
        requires least { tag_length < SEALED }
        requires most { SEALED ≤ block_length }
        ensures { result
            ≡ record { key = key.now; held = []; index = 0; failed = false; finished = false } }
    {
        Sealer {
            state: SealerState {
                key,
                buffer: ArrayVec::new(),
                beside: None,
                index: 0,
                failed: false,
                finished: false,
            },
        }
    }

    /// Returns whether the last chunk was sealed. Then nothing more may be fed.
    pub fn is_finished(&self) -> bool
        ensures { result ≡ self.now.finished }
    {
        self.state.finished
    }

    /// Returns whether a byte was refused. Then each call is refused with the same fault.
    pub fn has_failed(&self) -> bool
        ensures { result ≡ self.now.failed }
    {
        self.state.failed
    }

    /// Returns the number of the chunk that is open, which is the number of blocks lent before it.
    pub fn index(&self) -> u64
        ensures index { result ≡ self.now.index }
        ensures limit { result < chunk_limit }
    {
        self.state.index
    }

    /// Returns the number of bytes in the buffer: the plaintext of the open chunk, or the last
    /// chunk's block once it was sealed.
    pub fn held_len(&self) -> usize
        ensures len { result ≡ length self.now.held }
        ensures fits { result ≤ SEALED }
    {
        if self.state.beside.is_some() {
            1
        } else {
            self.state.buffer.len()
        }
    }

    /// Takes bytes of the plaintext: as many as the open chunk has room for, or one byte after a
    /// chunk that is full. That byte begins the next chunk, and the full one is sealed as not the
    /// last and lent. Takes nothing from an empty piece.
    ///
    /// Fails with [`TooManyChunks`](StreamKind::TooManyChunks) if a byte would need chunk number
    /// [`CHUNK_LIMIT`], and so does each call after that. Requires that the sealer [isn't
    /// finished](Sealer::is_finished).
    pub fn feed(&mut self, piece: &[u8]) -> Result<Step<'_>, StreamFault>
        requires { self.old.finished ≡ false }
        // The sealer, once the loan has ended.
        ensures* after { sem 𝓛 (Rests (sealer_row B.row SEALED.row B.ChunkBox) self.entry
            (IsTaken (text_length SEALED) self.old piece.now result)) }
        ensures takes { Takes B.sealing SEALED self.old piece.now result }
    {
        let (taken, full) = self.state.advance(piece)?;
        let reached = self.state.index;
        if !full {
            return Ok(Step {
                taken,
                index: reached,
                chunk: None,
            });
        }
        Ok(Step {
            taken,
            index: reached,
            chunk: Some(self.state.buffer.as_slice()),
        })
    }

    /// Seals the plaintext in the buffer as the last chunk, and lends its block. Fails only if a
    /// [`feed`](Sealer::feed) failed, with the same fault. Requires that the sealer [isn't
    /// finished](Sealer::is_finished).
    pub fn finish(&mut self) -> Result<&[u8], StreamFault>
        requires { self.old.finished ≡ false }
        // The sealer, once the loan has ended.
        ensures* after { sem 𝓛 (Rests (sealer_row B.row SEALED.row B.ChunkBox) self.entry
            (IsFinished (text_length SEALED) self.old result)) }
        ensures finishes { Finishes B.sealing SEALED self.old result }
    {
        self.state.close()?;
        Ok(self.state.buffer.as_slice())
    }
}

/// Appends room for the tag to the plaintext in the buffer, and seals it in place.
fn seal_in<B: ChunkBox, const SEALED: usize>(
    key: &B,
    index: u64,
    last: bool,
    buffer: &mut ArrayVec<u8, SEALED>,
)
    requires room { length buffer.old.items + tag_length ≤ SEALED }
    requires limit { SEALED ≤ block_length }
    ensures { buffer.new.items ≡ B.sealing key.now (nonce_bytes index last) buffer.old.items }
{
    push_bytes(buffer, &[0; TAG_LEN]);
    key.seal_at(&nonce_of(index, last), buffer.as_mut_slice());
}
