//! A buffer of bytes that were read from a source and not used yet.

ghost use Rattle.std.specs.Prelude.{◌≡◌, ◌≤◌, ℕ, List, [], length, drop, IfOk};
ghost use Rattle.age_file_input.specs.Pulls.{Passes, Refills, reader_view};
ghost use Rattle.age_file_input.specs.Headers.{pull_room};

use age_chunk::CHUNK_LEN;
use age_fault::FileFault;
use age_io::Source;
use std::alloc::{AllocError, Global};
use std::marker::Model;

/// The number of pulls that gave bytes after which a call decides that its sources never end.
const MOST_PULLS: u64 = 9_223_372_036_854_775_808;

/// The size of the buffer, and so the most bytes of one pull. It is a chunk's, so that a pull of a
/// plaintext that is encrypted fills a chunk.
const PULL_ROOM: usize = CHUNK_LEN;

/// A buffer of bytes that were read and not used yet. Counts the reads that gave some.
#[derive(Drop)]
pub struct InputBuffer {
    buffer: Vec<u8>,
    from: usize,
    to: usize,
    pulls: u64,
}

impl Model for InputBuffer {
    ghost use Rattle.age_file_input.specs.Buffer.{Unread};

    ghost Value = { Unread };

    ghost use Rattle.std.specs.Prelude.{◌≡◌, ◌≤◌, ◌^◌, length, drop, take};
    ghost use Rattle.age_file_input.specs.Headers.{pull_room};

    ghost view = { λ i. record {
      bytes = drop i.from (take i.to i.buffer.items);
      pulls = i.pulls;
    } };

    ghost invariant = { λ i. (i.from ≤ i.to) × (i.to ≤ pull_room)
        × (length i.buffer.items ≡ pull_room) × (i.pulls ≤ 2 ^ 63) };
}

impl InputBuffer {
    /// Makes an empty buffer. Its memory is allocated now.
    pub fn new(alloc: Global) -> Result<InputBuffer, AllocError>
        ensures { IfOk result (λ i. (i.bytes ≡ []) × (i.pulls ≡ 0)) }
    {
        let buffer = vec![in alloc; 0; PULL_ROOM]?;
        Ok(InputBuffer {
            buffer,
            from: 0,
            to: 0,
            pulls: 0,
        })
    }

    /// Continues the count of another source's pulls in this call.
    pub fn count_on(&mut self, other: &InputBuffer)
        ensures bytes { self.new.bytes ≡ self.old.bytes }
        ensures pulls { self.new.pulls ≡ other.now.pulls }
        ensures few { length other.now.bytes ≤ pull_room }
    {
        self.pulls = other.pulls;
    }

    /// Returns the bytes that weren't used yet.
    pub fn bytes(&self) -> &[u8]
        ensures bytes { result.now ≡ self.now.bytes }
        ensures most { length result.now ≤ pull_room }
    {
        &self.buffer[self.from..self.to]
    }

    /// Removes the first `n` bytes, which were used.
    pub fn use_front(&mut self, n: usize)
        requires { n ≤ length self.old.bytes }
        ensures bytes { self.new.bytes ≡ drop n self.old.bytes }
        ensures pulls { self.new.pulls ≡ self.old.pulls }
    {
        self.from += n;
    }

    /// Removes all bytes, which were used.
    pub fn use_all(&mut self)
        ensures bytes { self.new.bytes ≡ [] }
        ensures pulls { self.new.pulls ≡ self.old.pulls }
    {
        self.from = self.to;
    }

    /// Skips at most `most` bytes of the source, and returns the number skipped. They count as the
    /// fewest pulls that could have given them. The buffer must be empty.
    pub fn skip<S: Source>(&mut self, source: &mut S, most: u64) -> u64
        requires { self.old.bytes ≡ [] }
        ensures bound { result ≤ most }
        ensures skipped { (bytes : List ℕ) × (length bytes ≡ result)
            × Passes (reader_view (S.view source.old) self.old)
            (reader_view (S.view source.new) self.new) bytes }
        ensures none { self.new.bytes ≡ [] }
        ensures named { (S.view source.new).label ≡ (S.view source.old).label }
    {
        let pulls_left = MOST_PULLS - self.pulls;
        let n = source.skip(most.min(pulls_left.saturating_mul(PULL_ROOM as u64)));
        self.pulls += n.div_ceil(PULL_ROOM as u64);
        n
    }

    /// Fills the buffer, which must be empty, by one pull. Returns `false` at the end of input.
    /// Fails if the pull fails, or after 2^63 pulls.
    pub fn refill<S: Source>(&mut self, source: &mut S) -> Result<bool, FileFault>
        requires { self.old.bytes ≡ [] }
        ensures refills { Refills (reader_view (S.view source.old) self.old)
            (reader_view (S.view source.new) self.new) result }
        ensures named { (S.view source.new).label ≡ (S.view source.old).label }
    {
        if self.pulls == MOST_PULLS {
            return Err(FileFault::ReadNeverEnds);
        }
        self.from = 0;
        self.to = 0;
        match source.pull(self.buffer.as_mut_slice()) {
            Ok(0) => Ok(false),
            Ok(n) => {
                self.pulls += 1;
                self.to = n;
                Ok(true)
            }
            Err(_) => Err(FileFault::Read),
        }
    }
}
