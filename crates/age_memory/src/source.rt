//! A source in memory, with a pull that fails by plan.

ghost use Rattle.std.specs.Prelude.{◌≡◌, ◌<◌, ◌≤◌, [], length, take, IfOk, MatchResult, drop, false};
ghost use Rattle.age_io.specs.{ReadConsumes};
ghost use Rattle.age_memory.specs.{Feeding, Pulls, memory_supply};

use age_io::{Failed, FailureCount, Source};
use std::marker::Model;

/// A source in memory, with a pull that fails by plan. Contracts see the bytes that it gave and
/// those to come, the most bytes that a pull gives, the pull that fails, the numbers of pulls and
/// of failed ones, whether the last one failed, and whether the last successful one found the end
/// of input.
#[derive(Drop)]
pub struct MemSource {
    bytes: Vec<u8>,
    at: usize,
    step: usize,
    fail_call: Option<u64>,
    calls: u64,
    failures: FailureCount,
    is_at_end: bool,
}

impl Model for MemSource {
    ghost Value = { Feeding };

    ghost view = { λ s. record {
      given = take s.at s.bytes.items;
      left = drop s.at s.bytes.items;
      step = s.step;
      fail_call = s.fail_call;
      calls = s.calls;
      failures = s.failures.count;
      failing = s.failures.last;
      is_at_end = s.is_at_end;
    } };

    ghost invariant = { λ s. (s.at ≤ length s.bytes.items) × (0 < s.step) };
}

impl MemSource {
    /// Makes a source of these bytes, which gives at most `step` bytes a pull. `step` must be 1 or
    /// more. Pull `fail_call`, counted from 0, fails; later pulls work again.
    pub fn new(bytes: Vec<u8>, step: usize, fail_call: Option<u64>) -> MemSource
        requires { 0 < step }
        ensures { result ≡ record {
          given = [];
          left = bytes.items;
          step = step;
          fail_call = fail_call;
          calls = 0;
          failures = 0;
          failing = false;
          is_at_end = false;
        } }
    {
        MemSource {
            bytes,
            at: 0,
            step,
            fail_call,
            calls: 0,
            failures: FailureCount::none(),
            is_at_end: false,
        }
    }

    /// Returns the bytes given so far.
    pub fn given(&self) -> &[u8]
        ensures { result.now ≡ self.now.given }
    {
        &self.bytes[..self.at]
    }

    /// Returns whether the last pull failed.
    pub fn is_failing(&self) -> bool
        ensures { result ≡ self.now.failing }
    {
        self.failures.last
    }

    /// Returns whether the last successful pull found the end of input.
    pub fn is_at_end(&self) -> bool
        ensures { result ≡ self.now.is_at_end }
    {
        self.is_at_end
    }

    /// Returns the number of bytes to come.
    pub fn remaining(&self) -> usize
        ensures { result ≡ length self.now.left }
    {
        self.bytes[self.at..].len()
    }
}

/// Copies the first `n` bytes of a slice to the beginning of another.
fn copy_front(from: &[u8], into: &mut [u8], n: usize)
    requires from { n ≤ length from.now }
    requires into { n ≤ length into.old }
    ensures front { take n into.new ≡ take n from.now }
    ensures rest { drop n into.new ≡ drop n into.old }
{
    into[..n].copy_from_slice(&from[..n]);
}

impl Source for MemSource {
    ghost view = { λ s. record {
      supply = memory_supply s.given s.left s.is_at_end;
      failed = s.failures;
      failing = s.failing;
      label = [];
    } };

    /// Gives the next bytes. Leaves the slice unchanged past them, or entirely if it fails.
    fn pull(&mut self, into: &mut [u8]) -> Result<usize, Failed>
        ensures bound { IfOk result (λ n. n ≤ length into.new) }
        ensures bytes { ReadConsumes
            (memory_supply self.old.given self.old.left self.old.is_at_end)
            (memory_supply self.new.given self.new.left self.new.is_at_end) result into.new }
        ensures rest { MatchResult result (λ n. drop n into.new ≡ drop n into.old)
            (λ _. into.new ≡ into.old) }
        ensures plan { Pulls self.old (length into.new) result self.new }
    {
        let call = self.calls;
        self.calls = call.saturating_add(1);
        if self.fail_call == Some(call) {
            return self.failures.note(Err(Failed));
        }
        let n = self.step.min(into.len()).min(self.bytes.len() - self.at);
        let end = self.at + n;
        copy_front(&self.bytes[self.at..], into, n);
        self.at = end;
        self.is_at_end = n == 0 && !into.is_empty();
        self.failures.note(Ok(n))
    }

    fn failures(&self) -> u64 {
        self.failures.count
    }
}
