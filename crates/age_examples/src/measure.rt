//! An example of a sink.

ghost use Rattle.std.specs.Prelude.{◌≡◌, [], None, true, false};

use age_file::{ByteTrace, Failed, Sink};

/// A sink that counts the bytes that it takes and keeps none of them, to learn how long something
/// will be.
#[derive(Drop)]
pub struct CountingSink {
    /// The number of bytes taken, saturating at `u64::MAX`.
    pub count: u64,
    took: ByteTrace,
}

impl CountingSink {
    /// Makes a sink with a count of 0.
    pub fn new() -> CountingSink
        ensures count { result.count ≡ 0 }
        ensures took { result.took ≡ [] }
    {
        CountingSink {
            count: 0,
            took: ByteTrace::new(),
        }
    }
}

impl Sink for CountingSink {
    ghost view = { λ m. record {
      taken = record { bytes = m.took; contents = None; label = [] };
      failed = 0;
      failing = false;
      flushed = true;
    } };

    fn put(&mut self, from: &[u8]) -> Result<usize, Failed> {
        self.count = self.count.saturating_add(from.len() as u64);
        self.took.note(from);
        Ok(from.len())
    }

    fn flush(&mut self) -> Result<(), Failed> {
        Ok(())
    }

    fn failures(&self) -> u64 {
        0
    }
}
