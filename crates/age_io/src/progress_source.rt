//! A source that reports to a meter how many bytes it gives.

ghost use Rattle.std.specs.Prelude.{◌≡◌};

use crate::failed::Failed;
use crate::meter::Meter;
use crate::source::Source;

/// A source that passes on the bytes of another one, and reports to a meter, if there is one, how
/// many bytes each pull gave. Contracts see the source alone.
#[derive(Drop)]
pub struct ProgressSource<'m, S: Source, M: Meter> {
    /// The source that gives the bytes.
    pub source: S,
    meter: Option<&'m mut M>,
}

impl<'m, S: Source, M: Meter> ProgressSource<'m, S, M> {
    /// Wraps a source, and tells the meter that a run begins. `length` is the number of bytes that
    /// the run reads, if that is known.
    pub fn new(source: S, meter: Option<&'m mut M>, length: Option<u64>) -> ProgressSource<'m, S, M>
        ensures { result.source ≡ source }
    {
        let mut metered = ProgressSource { source, meter };
        if let Some(meter) = &mut metered.meter {
            meter.begin(length);
        }
        metered
    }

    /// Tells the meter that the run is over.
    pub fn end(&mut self)
        ensures { self.new.source ≡ self.old.source }
    {
        if let Some(meter) = &mut self.meter {
            meter.end();
        }
    }
}

impl<'m, S: Source, M: Meter> Source for ProgressSource<'m, S, M> {
    ghost view = { λ s. S.view s.source };

    fn pull(&mut self, into: &mut [u8]) -> Result<usize, Failed> {
        let n = self.source.pull(into)?;
        if let Some(meter) = &mut self.meter {
            meter.advance(n as u64);
        }
        Ok(n)
    }

    fn skip(&mut self, most: u64) -> u64 {
        let n = self.source.skip(most);
        if let Some(meter) = &mut self.meter {
            meter.advance(n);
        }
        n
    }

    fn failures(&self) -> u64 {
        self.source.failures()
    }
}
