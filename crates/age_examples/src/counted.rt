//! An example of a source.

ghost use Rattle.std.specs.Prelude.{ℕ};
ghost use Rattle.std.specs.Coded.{coded_ℕ, coded×};

use age_file::{Failed, Source};
use std::marker::Model;

/// A source that passes on the bytes of another and counts them, as a progress bar needs. Contracts
/// see the other source and the count.
#[derive(Drop)]
pub struct Counted<S: Source> {
    inner: S,
    count: u64,
}

impl<S: Source> Model for Counted<S> {
    ghost Value = { S × ℕ };

    ghost coded = { coded× S.code coded_ℕ };

    ghost view = { λ s. (s.inner, s.count) };
}

impl<S: Source> Counted<S> {
    ghost use Rattle.std.specs.Prelude.{◌≡◌};

    /// Wraps a source, with a count of 0.
    pub fn new(inner: S) -> Counted<S>
        ensures { result ≡ (inner, 0) }
    {
        Counted { inner, count: 0 }
    }

    /// Returns the number of bytes given or skipped, saturating at `u64::MAX`.
    pub fn count(&self) -> u64
        ensures { result ≡ self.now.1 }
    {
        self.count
    }
}

impl<S: Source> Source for Counted<S> {
    ghost view = { λ s. S.view s.0 };

    fn pull(&mut self, into: &mut [u8]) -> Result<usize, Failed> {
        let n = self.inner.pull(into)?;
        self.count = self.count.saturating_add(n as u64);
        Ok(n)
    }

    fn skip(&mut self, most: u64) -> u64 {
        let n = self.inner.skip(most);
        self.count = self.count.saturating_add(n);
        n
    }

    fn failures(&self) -> u64 {
        self.inner.failures()
    }
}
