//! Sources, which give bytes.

ghost use Rattle.std.specs.Prelude.{◌≡◌, ◌≤◌, ℕ, Bool, false, [], length, IfOk, MatchResult, is_err, List};
ghost use Rattle.age_io.specs.{ReadConsumes, Skips, one_more, SourceView};
ghost use Rattle.std.specs.Coded.{coded_ℕ, coded×, coded_bool, coded_list};

use crate::byte_trace::ByteTrace;
use crate::failed::Failed;
use crate::failures::FailureCount;
use std::io::Read;
use std::marker::Model;

/// A source of bytes, such as a file, a pipe or a vector. Code that reads pulls bytes from it, and
/// it counts the pulls that fail. docs/LIBRARY.md has an example, `Counted`.
pub trait Source {
    // The bytes that were given, and those that are still to come, if they are shown; how many pulls
    // have failed, and whether the last one did; and the name that the source goes by, so that a set
    // of files can say which file gave its bytes.
    ghost view: { Self → SourceView };

    /// Copies the next bytes to the beginning of a slice, and returns their number: 0 only at the
    /// end of input, or if the slice is empty. A pull that fails moves no bytes.
    fn pull(&mut self, into: &mut [u8]) -> Result<usize, Failed>
        ensures bound { IfOk result (λ n. n ≤ length into.new) }
        ensures bytes { ReadConsumes (view self.old).supply (view self.new).supply result
            into.new }
        ensures counted { MatchResult result
            (λ _. (view self.new).failed ≡ (view self.old).failed)
            (λ _. (view self.new).failed ≡ one_more (view self.old).failed) }
        ensures last { (view self.new).failing ≡ is_err result }
        ensures named { (view self.new).label ≡ (view self.old).label };

    /// Skips bytes to come without reading them, and returns their number: at most `most`, and 0 if
    /// the source can't skip or is at its end.
    fn skip(&mut self, most: u64) -> u64
        ensures bound { result ≤ most }
        ensures skipped { Skips (view self.old).supply (view self.new).supply result }
        ensures counted { (view self.new).failed ≡ (view self.old).failed }
        ensures last { (view self.new).failing ≡ (view self.old).failing }
        ensures named { (view self.new).label ≡ (view self.old).label }
    {
        0
    }

    /// Returns the number of pulls that have failed.
    fn failures(&self) -> u64
        ensures { result ≡ (view self.now).failed };
}

/// A source over one of std's readers. Contracts see the reader, the bytes that it gave, how many
/// pulls have failed, whether the last one did, and whether the last successful one found the end
/// of input. They also see the bytes to come, if the reader shows them; a file, a pipe or a
/// terminal doesn't.
#[derive(Drop)]
pub struct Reading<R: Read> {
    inner: R,
    failures: FailureCount,
    tape: ByteTrace,
    is_at_end: bool,
}

impl<R: Read> Model for Reading<R> {
    ghost Value = { R × ((ℕ × Bool) × (List ℕ × Bool)) };

    ghost coded = { coded× R.code (coded× (coded× coded_ℕ coded_bool)
        (coded× (coded_list coded_ℕ) coded_bool)) };

    ghost view = { λ s. (s.inner, ((s.failures.count, s.failures.last), (s.tape, s.is_at_end))) };
}

impl<R: Read> Reading<R> {
    /// Makes a source of the bytes that a reader still has to give.
    pub fn new(inner: R) -> Reading<R>
        ensures { result ≡ (inner, ((0, false), ([], false))) }
    {
        Reading {
            inner,
            failures: FailureCount::none(),
            tape: ByteTrace::new(),
            is_at_end: false,
        }
    }

    /// Returns the reader.
    pub fn inner(&self) -> &R
        ensures { result.now ≡ self.now.0 }
    {
        &self.inner
    }
}

impl<R: Read> Source for Reading<R> {
    ghost view = { λ s. record {
      supply = record {
        given = s.1.1.0;
        left = R.remaining s.0;
        is_at_end = s.1.1.1;
      };
      failed = s.1.0.0;
      failing = s.1.0.1;
      label = [];
    } };

    fn pull(&mut self, into: &mut [u8]) -> Result<usize, Failed> {
        let read = self.inner.read(into);
        if let Ok(n) = &read {
            self.tape.note(&into[..*n]);
            self.is_at_end = *n == 0 && !into.is_empty();
        }
        self.failures.note(read.map_err(|_| Failed))
    }

    fn failures(&self) -> u64 {
        self.failures.count
    }
}
