//! A sink in memory, with a limit and a call that fails by plan.

ghost use Rattle.std.specs.Prelude.{◌≡◌, ◌<◌, ◌≤◌, [], true, false, length, IfOk, OnOk, vec_capacity};
ghost use Rattle.age_io.specs.Taken.{WriteAppends, Keeps};
ghost use Rattle.age_memory.specs.{Holding, Puts, Flushes, holds};

use age_io::{Failed, FailureCount, Memory, Sink};
use std::alloc::Global;
use std::marker::Model;

/// A sink in memory, with a limit and a call that fails by plan. Contracts see its bytes, its
/// limit, the most bytes that a put takes, the call that fails, the numbers of calls and of failed
/// ones, whether the last one failed, and whether a flush came after the last put.
#[derive(Drop)]
pub struct MemSink {
    held: Vec<u8>,
    room: usize,
    step: usize,
    fail_call: Option<u64>,
    calls: u64,
    failures: FailureCount,
    flushed: bool,
}

impl Model for MemSink {
    ghost Value = { Holding };

    ghost view = { λ s. record {
      held = s.held.items;
      room = s.room;
      step = s.step;
      fail_call = s.fail_call;
      calls = s.calls;
      failures = s.failures.count;
      failing = s.failures.last;
      flushed = s.flushed;
    } };

    ghost invariant = { λ s. (length s.held.items ≤ s.room) × (s.room ≤ vec_capacity s.held)
        × (0 < s.step) };
}

impl MemSink {
    /// Makes an empty sink that holds at most `room` bytes, which are reserved now, and takes at
    /// most `step` bytes a put. `step` must be 1 or more. Puts and flushes are counted together
    /// from 0, and call `fail_call` fails; later calls work again.
    pub fn new(
        alloc: Global,
        room: usize,
        step: usize,
        fail_call: Option<u64>,
    ) -> Result<MemSink, Memory>
        requires { 0 < step }
        ensures { IfOk result (λ s. s ≡ record {
          held = [];
          room = room;
          step = step;
          fail_call = fail_call;
          calls = 0;
          failures = 0;
          failing = false;
          flushed = false;
        }) }
    {
        let held = Vec::with_capacity(alloc, room).map_err(|_| Memory)?;
        Ok(MemSink {
            held,
            room,
            step,
            fail_call,
            calls: 0,
            failures: FailureCount::none(),
            flushed: false,
        })
    }

    /// Returns the bytes that were put.
    pub fn bytes(&self) -> &[u8]
        ensures { result.now ≡ self.now.held }
    {
        self.held.as_slice()
    }

    /// Returns the bytes that were put, without a copy.
    pub fn into_bytes(self) -> Vec<u8>
        ensures { result.items ≡ self.held }
    {
        let MemSink { held, .. } = self;
        held
    }
}

impl Sink for MemSink {
    ghost view = { λ s. record {
      taken = holds s.held;
      failed = s.failures;
      failing = s.failing;
      flushed = s.flushed;
    } };

    fn put(&mut self, from: &[u8]) -> Result<usize, Failed>
        ensures bound { IfOk result (λ n. (n ≤ length from.now) × (0 < length from.now → 0 < n)) }
        ensures bytes { WriteAppends (holds self.old.held) (holds self.new.held) result from.now }
        ensures plan { Puts self.old from.now result self.new }
    {
        let call = self.calls;
        self.calls = call.saturating_add(1);
        let n = self.step.min(from.len()).min(self.room - self.held.len());
        if self.fail_call == Some(call) || (n == 0 && !from.is_empty()) {
            return self.failures.note(Err(Failed));
        }
        // The room was reserved.
        self.held.extend_from_slice(&from[..n]).unwrap();
        self.flushed = false;
        self.failures.note(Ok(n))
    }

    fn flush(&mut self) -> Result<(), Failed>
        ensures flushed { OnOk result (self.new.flushed ≡ true) }
        ensures bytes { Keeps (holds self.old.held) (holds self.new.held) }
        ensures plan { Flushes self.old result self.new }
    {
        let call = self.calls;
        self.calls = call.saturating_add(1);
        if self.fail_call == Some(call) {
            return self.failures.note(Err(Failed));
        }
        self.flushed = true;
        self.failures.note(Ok(()))
    }

    fn failures(&self) -> u64 {
        self.failures.count
    }
}
