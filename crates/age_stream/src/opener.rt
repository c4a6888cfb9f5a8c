//! The opener of a payload: sealed chunks in, plaintext out.
ghost use Rattle.std.specs.Prelude.{◌≡◌, ◌≢◌, ◌+◌, ◌-◌, ◌<◌, ◌≤◌, [], length, take, IfOk, Some, None, true};
ghost use Rattle.std.specs.Prelude.{false, if◌then◌else◌, nat_lt, ◌==◌, ◌&&◌};
ghost use Rattle.std.specs.Bool.{OnTrue, OnFalse};
ghost use Rattle.std.specs.Borrow.{sem};
ghost use Rattle.std.specs.Io.BufRead.{Rests};
ghost use Rattle.age_chunk.specs.{tag_length, text_length, nonce_bytes, chunk_limit, chunk_length};
ghost use Rattle.age_chunk.specs.{block_length};
ghost use Rattle.age_stream.specs.declared.step.Status.TheVariants.{Open};

use crate::buffer::push_bytes;
use crate::step::{Status, Step};
use age_chunk::{CHUNK_LIMIT, ChunkBox, StreamFault, StreamKind, TAG_LEN, nonce_of};
use arrayvec::ArrayVec;
use std::marker::Model;

/// The state of an opener.
#[derive(Drop)]
struct OpenerState<'k, B: ChunkBox, const SEALED: usize> {
    key: &'k B,
    // the bytes of the unfinished block; if lent, bytes that belong to no unfinished block, such as
    // the plaintext that the last call lent
    buffer: ArrayVec<u8, SEALED>,
    lent: bool,
    index: u64,
    status: Status,
    ghost sizes: { (tag_length < SEALED) × (SEALED ≤ block_length) },
    ghost limit: { index < chunk_limit },
    ghost room: { status ≡ Open → lent ≡ false → length buffer.items < SEALED },
    // only an open block is held
    ghost closed: { status ≢ Open → (if lent then [] else buffer.items) ≡ [] },
}

impl<'k, B: ChunkBox, const SEALED: usize> OpenerState<'k, B, SEALED> {
    ghost use Rattle.age_stream.specs.Segment.{failed};
    ghost use Rattle.age_stream.specs.inner.{one_block, IsTried, TakesNone, OpenerAdvances};
    ghost use Rattle.age_stream.specs.inner.{OpenerEndsAs, end_of_open, end_of_closed};
    ghost use Rattle.age_stream.specs.Opener.{held_bytes};

    /// Empties the buffer if its plaintext was lent.
    fn reclaim(&mut self)
        ensures buffer { self.new.buffer.items ≡ held_bytes self.old }
        ensures lent { self.new.lent ≡ false }
        ensures same { (self.new.index ≡ self.old.index) × (self.new.key ≡ self.old.key)
            × (self.new.status ≡ self.old.status) }
    {
        if self.lent {
            self.buffer.clear();
            self.lent = false;
        }
    }

    /// Opens the block in the buffer, as one before the last or else as the last. Fails if it opens
    /// as neither.
    fn try_block(&mut self) -> Result<(), StreamFault>
        requires full { length self.old.buffer.items ≡ SEALED }
        requires open { self.old.status ≡ Status.Open }
        requires lent { self.old.lent ≡ true }
        ensures { IsTried
            (one_block (B.opening self.old.key.now) self.old.index self.old.buffer.items)
            self.old result self.new }
    {
        let index = self.index;
        if open_block(self.key, index, false, &mut self.buffer) {
            if index == CHUNK_LIMIT - 1 {
                return Err(self.fail(StreamKind::TooManyChunks));
            }
            self.index = index + 1;
            return Ok(());
        }
        if open_block(self.key, index, true, &mut self.buffer) {
            self.status = Status::LastSeen;
            return Ok(());
        }
        Err(self.fail(StreamKind::ChunkDamaged))
    }

    /// Appends as many bytes as the block has room for, and opens the block if it is full.
    fn take_open(&mut self, piece: &[u8]) -> Result<(usize, bool), StreamFault>
        requires { self.old.status ≡ Status.Open }
        ensures { OpenerAdvances B.sealing B.opening self.old piece.now result self.new }
    {
        self.reclaim();
        let room = SEALED - self.buffer.len();
        if piece.len() < room {
            push_bytes(&mut self.buffer, piece);
            return Ok((piece.len(), false));
        }
        push_bytes(&mut self.buffer, &piece[..room]);
        self.lent = true;
        self.try_block()?;
        Ok((room, true))
    }

    /// Refuses bytes, since no block is open.
    fn take_closed(&mut self, piece: &[u8]) -> Result<(usize, bool), StreamFault>
        requires { self.old.status ≢ Status.Open }
        ensures { TakesNone self.old piece.now result self.new }
    {
        match self.status {
            Status::Failed(fault) => Err(fault),
            _ => {
                if piece.is_empty() {
                    return Ok((0, false));
                }
                Err(self.fail(StreamKind::Trailing))
            }
        }
    }

    /// Takes the beginning of a piece. Returns the number of bytes taken, and whether the buffer
    /// now has a plaintext.
    fn advance(&mut self, piece: &[u8]) -> Result<(usize, bool), StreamFault>
        ensures { OpenerAdvances B.sealing B.opening self.old piece.now result self.new }
    {
        match self.status {
            Status::Open => self.take_open(piece),
            _ => self.take_closed(piece),
        }
    }

    /// Opens the bytes in the buffer as the last block.
    fn end_open(&mut self) -> Result<usize, StreamFault>
        requires { self.old.status ≡ Status.Open }
        ensures { OpenerEndsAs (end_of_open B.opening self.old) self.old result self.new }
    {
        self.reclaim();
        let len = self.buffer.len();
        if len == 0 {
            return Err(self.fail(StreamKind::Truncated));
        }
        if len < TAG_LEN {
            return Err(self.fail(StreamKind::ChunkCut));
        }
        if is_empty_last(len, self.index) {
            return Err(self.fail(StreamKind::EmptyLast));
        }
        if open_block(self.key, self.index, true, &mut self.buffer) {
            self.status = Status::Done;
            self.lent = true;
            return Ok(len - TAG_LEN);
        }
        Err(self.fail(StreamKind::ChunkDamaged))
    }

    /// Ends an opener without an open block.
    fn end_closed(&mut self) -> Result<usize, StreamFault>
        requires { self.old.status ≢ Status.Open }
        ensures { OpenerEndsAs (end_of_closed B.opening self.old) self.old result self.new }
    {
        if let Status::Failed(fault) = self.status {
            return Err(fault);
        }
        self.status = Status::Done;
        Ok(0)
    }

    /// Ends the opener, and returns the length of the last plaintext, at the beginning of the
    /// buffer.
    fn close(&mut self) -> Result<usize, StreamFault>
        ensures open { self.old.status ≡ Status.Open
            → OpenerEndsAs (end_of_open B.opening self.old) self.old result self.new }
        ensures closed { self.old.status ≢ Status.Open
            → OpenerEndsAs (end_of_closed B.opening self.old) self.old result self.new }
        ensures fits { IfOk result (λ len. len ≤ length self.new.buffer.items) }
    {
        match self.status {
            Status::Open => self.end_open(),
            _ => self.end_closed(),
        }
    }

    /// Fails for good: the bytes in the buffer belong to no unfinished block any more.
    fn fail(&mut self, kind: StreamKind) -> StreamFault
        ensures status { self.new.status ≡ failed kind self.old.index }
        ensures fault { Status.Failed result ≡ failed kind self.old.index }
        ensures same { (self.new.index ≡ self.old.index) × (self.new.key ≡ self.old.key)
            × (self.new.buffer ≡ self.old.buffer) × (self.new.lent ≡ true) }
    {
        let fault = StreamFault {
            kind,
            chunk: self.index,
        };
        self.status = Status::Failed(fault);
        self.lent = true;
        fault
    }
}

/// An opener of a payload that comes in pieces, however they are split
/// (<https://c2sp.org/age#payload>). It lends a plaintext only once its tag was checked. A full
/// block is tried at the nonce of a chunk that isn't the last, and then at the nonce of the last
/// one; the bytes left at the end of input are tried as the last alone.
///
/// `SEALED` is the length of a full block in bytes, from 17 to 65,552
/// ([`BLOCK_LEN`](crate::BLOCK_LEN), which age files have); each call that makes an opener requires
/// this. `feed_piece` in `age_file_decrypt/src/payload.rt` feeds complete pieces and writes the
/// plaintext that is lent.
///
/// Contracts see the key, the bytes of the block that is open, the chunk's number and the status.
/// All four follow from the bytes that were fed since the opener was made, and from the end of input.
#[derive(Drop)]
pub struct Opener<'k, B: ChunkBox, const SEALED: usize> {
    state: OpenerState<'k, B, SEALED>,
}

impl<'k, B: ChunkBox, const SEALED: usize> Model for Opener<'k, B, SEALED> {
    ghost use Rattle.age_stream.specs.Opener.{OpenerView, opener_view};

    ghost Value = { OpenerView B };

    ghost view = { λ o. opener_view o.state };
}

impl<'k, B: ChunkBox, const SEALED: usize> Opener<'k, B, SEALED> {
    ghost use Rattle.age_stream.specs.Segment.{fresh};
    ghost use Rattle.age_stream.specs.Opener.{Stands, has_failed, Feeds, IsFed, Ends, IsEnded};
    ghost use Rattle.age_stream.specs.Rows.{opener_row};

    /// Makes an opener of a complete payload. Allocates nothing.
    pub fn new(key: &'k B) -> Self
        requires least { tag_length < SEALED }
        requires most { SEALED ≤ block_length }
        ensures view { result
            ≡ record { key = key.now; held = []; index = 0; status = Status.Open } }
        ensures stands { Stands B.opening (text_length SEALED) result (fresh 0) }
    {
        Opener::at(key, 0)
    }

    /// Makes an opener of a payload from chunk `index` on, which is below [`CHUNK_LIMIT`].
    /// Allocates nothing.
    #[tactic(auto, using(crate::proofs::GoingLemmas::fresh_outcome, crate::proofs::GoingLemmas::fresh_rest))]
    pub fn at(key: &'k B, index: u64) -> Self
        requires least { tag_length < SEALED }
        requires most { SEALED ≤ block_length }
        requires limit { index < chunk_limit }
        ensures view { result
            ≡ record { key = key.now; held = []; index = index; status = Status.Open } }
        ensures stands { Stands B.opening (text_length SEALED) result (fresh index) }
    {
        Opener::between(key, index, Status::Open)
    }

    /// Makes an opener with an empty buffer at chunk `index`, which is below [`CHUNK_LIMIT`], with
    /// a status. It is for a caller that stores both itself between two calls. Allocates nothing.
    pub fn between(key: &'k B, index: u64, status: Status) -> Self
        requires least { tag_length < SEALED }
        requires most { SEALED ≤ block_length }
        requires limit { index < chunk_limit }
        ensures view { result
            ≡ record { key = key.now; held = []; index = index; status = status } }
    {
        Opener {
            state: OpenerState {
                key,
                buffer: ArrayVec::new(),
                lent: false,
                index,
                status,
            },
        }
    }

    /// Returns the number of the current chunk: the one that the opener started at, and one more
    /// for each chunk that was opened as not the last.
    pub fn index(&self) -> u64
        ensures index { result ≡ self.now.index }
        ensures limit { result < chunk_limit }
    {
        self.state.index
    }

    /// Returns the status: blocks may still come, the last one was opened, the input ended, or a
    /// call was refused.
    pub fn status(&self) -> Status
        ensures { result ≡ self.now.status }
    {
        self.state.status
    }

    /// Returns whether a call was refused. Then each call is refused with the same fault.
    pub fn has_failed(&self) -> bool
        ensures { result ≡ has_failed self.now.status }
    {
        matches!(self.state.status, Status::Failed(_))
    }

    /// Returns the number of bytes in the buffer of the block that is open: fewer than a block has,
    /// and 0 once no block is open.
    pub fn held_len(&self) -> usize
        ensures len { result ≡ length self.now.held }
        ensures below { result < SEALED }
        ensures fits { result ≤ block_length }
        ensures closed { self.now.status ≢ Open → result ≡ 0 }
    {
        if self.state.lent {
            0
        } else {
            self.state.buffer.len()
        }
    }

    /// Returns the length of a full chunk in bytes.
    pub(crate) fn chunk_len(&self) -> u64
        ensures len { result ≡ text_length SEALED }
        ensures most { result ≤ chunk_length }
        ensures sizes { (tag_length < SEALED) × (SEALED ≤ block_length) }
    {
        // names the state, so that the proof knows its bounds on SEALED
        let _ = &self.state.lent;
        (SEALED - TAG_LEN) as u64
    }

    /// Takes bytes of the payload, up to the end of the block that is open, and lends the plaintext
    /// of a block that is full. Takes nothing from an empty piece.
    ///
    /// Fails with [`ChunkDamaged`](StreamKind::ChunkDamaged) if a full block opens neither as its
    /// chunk nor as the last, with [`TooManyChunks`](StreamKind::TooManyChunks) if it opens as
    /// chunk number [`CHUNK_LIMIT`] less one and not the last, and with
    /// [`Trailing`](StreamKind::Trailing) if bytes come after the last chunk. After a refusal each
    /// call is refused with the same fault.
    pub fn feed(&mut self, piece: &[u8]) -> Result<Step<'_>, StreamFault>
        // The opener, once the loan has ended.
        ensures* after { sem 𝓛 (Rests (opener_row B.row SEALED.row B.ChunkBox) self.entry
            (IsFed B.sealing B.opening (text_length SEALED) self.old piece.now result)) }
        ensures feeds { Feeds B.opening SEALED self.old piece.now result }
    {
        let (taken, full) = self.state.advance(piece)?;
        let reached = self.state.index;
        if !full {
            return Ok(Step {
                taken,
                index: reached,
                chunk: None,
            });
        }
        let text = &self.state.buffer.as_slice()[..SEALED - TAG_LEN];
        Ok(Step {
            taken,
            index: reached,
            chunk: Some(text),
        })
    }

    /// Ends the input: opens the bytes in the buffer as the last chunk, and lends its plaintext,
    /// which is empty if the last chunk came before.
    ///
    /// Fails with [`Truncated`](StreamKind::Truncated) if the buffer is empty, with
    /// [`ChunkCut`](StreamKind::ChunkCut) if it has fewer bytes than a tag, and with
    /// [`EmptyLast`](StreamKind::EmptyLast) if it has a tag alone after other chunks, since a
    /// writer makes an empty chunk only for the empty plaintext. Fails with
    /// [`ChunkDamaged`](StreamKind::ChunkDamaged) if the bytes don't open. After a refusal each
    /// call is refused with the same fault.
    pub fn end(&mut self) -> Result<&[u8], StreamFault>
        // The opener, once the loan has ended.
        ensures* after { sem 𝓛 (Rests (opener_row B.row SEALED.row B.ChunkBox) self.entry
            (IsEnded B.sealing B.opening (text_length SEALED) self.old result)) }
        ensures ends { Ends B.opening SEALED self.old result }
    {
        let len = self.state.close()?;
        Ok(&self.state.buffer.as_slice()[..len])
    }
}

/// Opens the block in the buffer in place, and returns whether it opens.
fn open_block<B: ChunkBox, const SEALED: usize>(
    key: &B,
    index: u64,
    last: bool,
    buffer: &mut ArrayVec<u8, SEALED>,
) -> bool
    requires tag { tag_length ≤ length buffer.old.items }
    requires limit { SEALED ≤ block_length }
    ensures opened { OnTrue result (B.opening key.now (nonce_bytes index last) buffer.old.items
        ≡ Some (take (text_length (length buffer.old.items)) buffer.new.items)) }
    ensures closed { OnFalse result
        ((B.opening key.now (nonce_bytes index last) buffer.old.items ≡ None)
        × (buffer.new.items ≡ buffer.old.items)) }
    ensures len { length buffer.new.items ≡ length buffer.old.items }
{
    key.open_at(&nonce_of(index, last), buffer.as_mut_slice())
}

/// Returns whether `len` bytes at the end of input are a chunk without plaintext after others,
/// which no writer makes.
fn is_empty_last(len: usize, index: u64) -> bool
    ensures { result ≡ (len == tag_length && nat_lt 0 index) }
{
    len == TAG_LEN && index > 0
}
