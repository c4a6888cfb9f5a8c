//! A count of the calls of a source or a sink that failed.

ghost use Rattle.std.specs.Prelude.{◌≡◌, false, MatchResult, is_err};
ghost use Rattle.age_io.specs.{one_more};

use crate::failed::Failed;

/// A count of the calls of a source or a sink that failed, with whether the last one did.
#[derive(Clone, Copy, PartialEq, Eq)]
pub struct FailureCount {
    /// The number of failed calls, saturating at `u64::MAX`.
    pub count: u64,
    /// `true` if the last call failed.
    pub last: bool,
}

impl FailureCount {
    /// Returns a count of no failures, as before the first call.
    pub fn none() -> FailureCount
        ensures { result ≡ record { count = 0; last = false } }
    {
        FailureCount {
            count: 0,
            last: false,
        }
    }

    /// Counts a call if it failed, and returns its result.
    pub fn note<T>(&mut self, call: Result<T, Failed>) -> Result<T, Failed>
        ensures result { result ≡ call }
        ensures counted { MatchResult call (λ _. self.new.count ≡ self.old.count)
            (λ _. self.new.count ≡ one_more self.old.count) }
        ensures last { self.new.last ≡ is_err call }
    {
        self.last = call.is_err();
        if self.last {
            self.count = self.count.saturating_add(1);
        }
        call
    }
}
