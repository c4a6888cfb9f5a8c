//! Sinks, which take bytes.

ghost use Rattle.std.specs.Prelude.{◌≡◌, ◌<◌, ◌≤◌, ℕ, [], length, true, IfOk, OnOk, MatchResult, Bool, List};
ghost use Rattle.std.specs.Prelude.{false, is_err};
ghost use Rattle.age_io.specs.Taken.{WriteAppends, Keeps};
ghost use Rattle.age_io.specs.{one_more, SinkView};
ghost use Rattle.std.specs.Coded.{coded_ℕ, coded×, coded_bool, coded_list};

use crate::byte_trace::ByteTrace;
use crate::failed::Failed;
use crate::failures::FailureCount;
use std::io::Write;
use std::marker::Model;

/// A sink for bytes, such as a file, a pipe or a vector. Code that writes puts bytes into it, and
/// it counts the calls that fail. docs/LIBRARY.md has an example, `CountingSink`.
pub trait Sink {
    // The bytes that were taken, and those that it holds, if they are shown, with the name that the
    // sink goes by, so that a set of files can say where its bytes end up; how many puts and flushes
    // have failed, and whether the last of them did; and whether what was taken was sent on, which
    // the next put may undo.
    ghost view: { Self → SinkView };

    /// Takes bytes from the beginning of a slice, and returns their number: at least 1, unless the
    /// slice is empty. A put that fails takes no bytes.
    fn put(&mut self, from: &[u8]) -> Result<usize, Failed>
        ensures bound { IfOk result (λ n. (n ≤ length from.now) × (0 < length from.now → 0 < n)) }
        ensures bytes { WriteAppends (view self.old).taken (view self.new).taken result from.now }
        ensures counted { MatchResult result
            (λ _. (view self.new).failed ≡ (view self.old).failed)
            (λ _. (view self.new).failed ≡ one_more (view self.old).failed) }
        ensures last { (view self.new).failing ≡ is_err result };

    /// Flushes the sink: sends on the bytes that it has taken.
    fn flush(&mut self) -> Result<(), Failed>
        ensures flushed { OnOk result ((view self.new).flushed ≡ true) }
        ensures bytes { Keeps (view self.old).taken (view self.new).taken }
        ensures counted { MatchResult result
            (λ _. (view self.new).failed ≡ (view self.old).failed)
            (λ _. (view self.new).failed ≡ one_more (view self.old).failed) }
        ensures last { (view self.new).failing ≡ is_err result };

    /// Returns the number of puts and flushes that have failed.
    fn failures(&self) -> u64
        ensures { result ≡ (view self.now).failed };
}

/// A sink over one of std's writers. A write that takes none of the bytes that it is given counts
/// as failed. Contracts see the writer, the bytes that it took, how many puts and flushes have
/// failed, and whether the last of them did. They also see the writer's contents, if it shows them;
/// a file, a pipe or a terminal doesn't.
#[derive(Drop)]
pub struct Writing<W: Write> {
    inner: W,
    failures: FailureCount,
    tape: ByteTrace,
}

impl<W: Write> Model for Writing<W> {
    ghost Value = { W × ((ℕ × Bool) × List ℕ) };

    ghost coded = { coded× W.code (coded× (coded× coded_ℕ coded_bool) (coded_list coded_ℕ)) };

    ghost view = { λ s. (s.inner, ((s.failures.count, s.failures.last), s.tape)) };
}

impl<W: Write> Writing<W> {
    /// Makes a sink that passes bytes on to a writer.
    pub fn new(inner: W) -> Writing<W>
        ensures { result ≡ (inner, ((0, false), [])) }
    {
        Writing {
            inner,
            failures: FailureCount::none(),
            tape: ByteTrace::new(),
        }
    }

    /// Returns the writer.
    pub fn inner(&self) -> &W
        ensures { result.now ≡ self.now.0 }
    {
        &self.inner
    }
}

impl<W: Write> Sink for Writing<W> {
    ghost view = { λ s. record {
      taken = record { bytes = s.1.1; contents = W.contents s.0; label = [] };
      failed = s.1.0.0;
      failing = s.1.0.1;
      flushed = true;
    } };

    fn put(&mut self, from: &[u8]) -> Result<usize, Failed> {
        let taken = match self.inner.write(from) {
            Ok(n) if n > 0 || from.is_empty() => Ok(n),
            _ => Err(Failed),
        };
        if let Ok(n) = &taken {
            self.tape.note(&from[..*n]);
        }
        self.failures.note(taken)
    }

    fn flush(&mut self) -> Result<(), Failed> {
        let flushed = self.inner.flush();
        self.failures.note(flushed.map_err(|_| Failed))
    }

    fn failures(&self) -> u64 {
        self.failures.count
    }
}
