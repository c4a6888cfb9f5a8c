//! The plaintext that a reader has after any deliveries.
ghost use Rattle.std.specs.Prelude.{◌≡◌, ◌+◌, ◌*◌, ◌^◌, ◌<◌, ◌≤◌, [], ◌++◌, length, vec_len};
ghost use Rattle.std.specs.Prelude.{vec_capacity, nat_lt, nat_le, ◌&&◌};
ghost use Rattle.std.specs.Bool.{OnTrue};
ghost use Rattle.age_stream.specs.Opener.{chunk_bytes};
ghost use Rattle.age_chunk.specs.{chunk_limit, block_length, tag_length, text_length};

use crate::delivery::Delivery;
use crate::opener::Opener;
use crate::step::Status;
use age_chunk::{CHUNK_LIMIT, ChunkBox, Memory, TAG_LEN};
use std::alloc::Global;
use std::marker::Model;

/// The result of a list of deliveries: the plaintext, and the state of the last segment.
#[derive(Drop)]
pub struct Drill {
    /// The plaintext that was released and kept.
    pub text: Vec<u8>,
    /// The status of the last segment's opener.
    pub status: Status,
    /// The number of the last segment's current chunk.
    pub index: u64,
    /// The number of restarts that were refused, saturating at `u64::MAX`.
    pub refused: u64,
}

/// The state of a replay.
#[derive(Drop)]
struct ReplayState<'k, B: ChunkBox, const SEALED: usize> {
    key: &'k B,
    opener: Opener<'k, B, SEALED>,
    text: Vec<u8>,
    refused: u64,
    ghost sizes: { (tag_length < SEALED) × (SEALED ≤ block_length) },
}

impl<'k, B: ChunkBox, const SEALED: usize> ReplayState<'k, B, SEALED> {
    ghost use Rattle.age_stream.specs.inner.{ReplayFeeds, Goes, Delivers, with_bytes};
    ghost use Rattle.age_stream.specs.Opener.{text_at_end, text_of_piece, whole_text};
    ghost use Rattle.age_stream.specs.Segment.{after_delivery};
    ghost use Rattle.age_stream.specs.declared.delivery.Delivery.TheVariants.{Piece, End, Restart};

    /// Feeds the beginning of a piece, and returns the number of bytes taken, or `None` if the
    /// opener refused it.
    fn feed_once(&mut self, piece: &[u8]) -> Option<usize>
        requires some { 0 < length piece.now }
        requires room { self.old.opener.status ≡ Status.Open → vec_len self.old.text
            + whole_text (text_length SEALED) (length self.old.opener.held + length piece.now)
            ≤ vec_capacity self.old.text }
        ensures { ReplayFeeds B.opening self.old piece.now result self.new }
    {
        match self.opener.feed(piece) {
            Ok(step) => {
                let taken = step.taken;
                push_lent(&mut self.text, step.chunk);
                Some(taken)
            }
            Err(_) => None,
        }
    }

    /// Feeds all of a piece. The text must have room for its plaintext.
    fn feed_all(&mut self, piece: &[u8])
        requires { self.old.opener.status ≡ Status.Open → vec_len self.old.text
            + whole_text (text_length SEALED) (length self.old.opener.held + length piece.now)
            ≤ vec_capacity self.old.text }
        ensures { Goes B.opening self.old self.new (λ s. with_bytes s piece.now) }
    {
        let mut at = 0;
        while at < piece.len() {
            match self.feed_once(&piece[at..]) {
                Some(taken) => at += taken,
                None => return,
            }
        }
    }

    /// Returns the most bytes of plaintext that a piece can release.
    fn piece_room(&self, piece: &[u8]) -> usize
        ensures { result ≡ text_of_piece (text_length SEALED) self.now.opener (length piece.now) }
    {
        match self.opener.status() {
            Status::Open => (self.opener.held_len() + piece.len()) / SEALED * (SEALED - TAG_LEN),
            _ => 0,
        }
    }

    /// Returns the number of bytes of plaintext that an end releases, if it releases any.
    fn last_chunk_room(&self) -> usize
        ensures { result ≡ text_at_end self.now.opener }
    {
        match self.opener.status() {
            Status::Open => self.opener.held_len().saturating_sub(TAG_LEN),
            _ => 0,
        }
    }

    /// Feeds a piece, after reserving room for its plaintext.
    fn take_piece(&mut self, piece: &[u8]) -> Result<(), Memory>
        ensures { Delivers B.opening self.old (Piece piece.entry) result self.new }
    {
        let room = self.piece_room(piece);
        self.text.reserve(room)?;
        self.feed_all(piece);
        Ok(())
    }

    /// Ends the opener. The text must have room for the last plaintext.
    fn finish_opener(&mut self)
        requires { vec_len self.old.text + text_at_end self.old.opener
            ≤ vec_capacity self.old.text }
        ensures { Goes B.opening self.old self.new
            (λ s. after_delivery (B.opening self.old.key.now) (text_length SEALED) s End) }
    {
        if let Ok(text) = self.opener.end() {
            push_text(&mut self.text, text);
        }
    }

    /// Ends the opener, after reserving room for the last plaintext.
    fn deliver_eof(&mut self) -> Result<(), Memory>
        ensures { Delivers B.opening self.old End result self.new }
    {
        let room = self.last_chunk_room();
        self.text.reserve(room)?;
        self.finish_opener();
        Ok(())
    }

    /// Returns whether the text has `k` full chunks, for a `k` below [`CHUNK_LIMIT`].
    fn reaches(&self, k: u64) -> bool
        ensures answer { result ≡ (nat_lt k chunk_limit
            && nat_le (k * text_length SEALED) (length self.now.text.items)) }
        ensures fits { OnTrue result (k * text_length SEALED < 2 ^ 64) }
    {
        k < CHUNK_LIMIT && k * self.opener.chunk_len() <= self.text.len() as u64
    }

    /// Starts again at chunk `k` if the text reaches it, and counts a refusal if it doesn't.
    fn restart(&mut self, k: u64)
        ensures { Goes B.opening self.old self.new
            (λ s. after_delivery (B.opening self.old.key.now) (text_length SEALED) s (Restart k)) }
    {
        if self.reaches(k) {
            self.text.truncate((k * self.opener.chunk_len()) as usize);
            self.opener = Opener::at(self.key, k);
        } else {
            self.refused = self.refused.saturating_add(1);
        }
    }

    /// Takes one delivery.
    fn deliver(&mut self, delivery: &Delivery<'_>) -> Result<(), Memory>
        ensures { Delivers B.opening self.old delivery.now result self.new }
    {
        match delivery {
            Delivery::Piece(piece) => self.take_piece(piece),
            Delivery::End => self.deliver_eof(),
            Delivery::Restart(k) => {
                self.restart(*k);
                Ok(())
            }
        }
    }
}

/// A reader that feeds deliveries to an opener, and keeps the plaintext that it released. A restart
/// truncates the plaintext to the chunks before it and makes a new opener. [`drill`](crate::drill)
/// gives a complete list of deliveries to a new replay.
///
/// `SEALED` is the length of a full block in bytes, from 17 to 65,552. Contracts see the key, the
/// opener of the current segment, the plaintext and the number of restarts that were refused.
#[derive(Drop)]
pub struct Replay<'k, B: ChunkBox, const SEALED: usize> {
    state: ReplayState<'k, B, SEALED>,
}

impl<'k, B: ChunkBox, const SEALED: usize> Model for Replay<'k, B, SEALED> {
    ghost use Rattle.age_stream.specs.Replay.{ReplayView, replay_view};

    ghost Value = { ReplayView B };

    ghost view = { λ r. replay_view r.state };
}

impl<'k, B: ChunkBox, const SEALED: usize> Replay<'k, B, SEALED> {
    ghost use Rattle.age_stream.specs.Replay.{Replays, TakesDelivery};

    /// Makes a replay that was given nothing yet. Requires `SEALED` from 17 to 65,552. Allocates
    /// nothing.
    #[tactic(auto, using(crate::proofs::GoingLemmas::fresh_outcome))]
    pub fn new(alloc: Global, key: &'k B) -> Self
        requires least { tag_length < SEALED }
        requires most { SEALED ≤ block_length }
        ensures key { result.key ≡ key.now }
        ensures nothing { Replays B.opening (text_length SEALED) result [] }
        ensures room { result.capacity ≡ 0 }
    {
        Replay {
            state: ReplayState {
                key,
                opener: Opener::new(key),
                text: Vec::new(alloc),
                refused: 0,
            },
        }
    }

    /// Returns the plaintext that was released and kept.
    pub fn text(&self) -> &[u8]
        ensures { result.now ≡ self.now.text }
    {
        self.state.text.as_slice()
    }

    /// Returns the status of the current segment's opener.
    pub fn status(&self) -> Status
        ensures { result ≡ self.now.opener.status }
    {
        self.state.opener.status()
    }

    /// Returns the number of the current segment's current chunk.
    pub fn index(&self) -> u64
        ensures { result ≡ self.now.opener.index }
    {
        self.state.opener.index()
    }

    /// Returns the number of restarts that were refused, saturating at `u64::MAX`.
    pub fn refused(&self) -> u64
        ensures { result ≡ self.now.refused }
    {
        self.state.refused
    }

    /// Converts the replay to its result, with the plaintext.
    pub(crate) fn into_drill(self) -> Drill
        ensures text { result.text.items ≡ self.entry.text }
        ensures status { result.status ≡ self.entry.opener.status }
        ensures index { result.index ≡ self.entry.opener.index }
        ensures refused { result.refused ≡ self.entry.refused }
    {
        let status = self.status();
        let index = self.index();
        let refused = self.refused();
        Drill {
            text: self.state.text,
            status,
            index,
            refused,
        }
    }

    /// Takes a delivery. Fails only if memory runs out, and then changes nothing.
    ///
    /// All bytes of a piece are taken, unless there is a fault, which then is the status. A restart
    /// at chunk k is refused if k is [`CHUNK_LIMIT`] or more, or if the plaintext has fewer than k
    /// full chunks.
    ///
    /// While no block opens except as the writer of a plaintext sealed it, the text is a prefix of
    /// that plaintext, and [`Done`](Status::Done) comes only with all of it.
    pub fn take(&mut self, delivery: &Delivery<'_>) -> Result<(), Memory>
        ensures { TakesDelivery B.sealing B.opening (text_length SEALED)
            self.old delivery.now result self.new }
    {
        self.state.deliver(delivery)
    }
}

/// Appends bytes to a plaintext that has room for them.
fn push_text(text: &mut Vec<u8>, bytes: &[u8])
    requires { vec_len text.old + length bytes.now ≤ vec_capacity text.old }
    ensures items { text.new.items ≡ text.old.items ++ bytes.now }
    ensures capacity { vec_capacity text.old ≤ vec_capacity text.new }
{
    // Within the capacity no memory is requested.
    let _ = text.extend_from_slice(bytes);
}

/// Appends the bytes that a call lent, if any, to a plaintext that has room for them.
pub(crate) fn push_lent(text: &mut Vec<u8>, chunk: Option<&[u8]>)
    requires { vec_len text.old + length (chunk_bytes chunk) ≤ vec_capacity text.old }
    ensures items { text.new.items ≡ text.old.items ++ chunk_bytes chunk.entry }
    ensures capacity { vec_capacity text.old ≤ vec_capacity text.new }
{
    if let Some(bytes) = chunk {
        push_text(text, bytes);
    }
}
