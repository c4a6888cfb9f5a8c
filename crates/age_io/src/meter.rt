//! The trait of meters, which are told the progress of a run.

/// A meter, which is told the progress of a run in bytes. No method returns anything, so code that
/// is generic over a meter can report to it, but never depend on it.
pub trait Meter {
    /// Notes that a run begins. `length` is the number of bytes that it reads, if that is known.
    fn begin(&mut self, length: Option<u64>);

    /// Notes that `bytes` more bytes were read or skipped.
    fn advance(&mut self, bytes: u64);

    /// Notes that the run is over.
    fn end(&mut self);
}
