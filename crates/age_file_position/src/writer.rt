//! A sink, with a count of how far a run has come.

use crate::run_progress::RunProgress;

/// A sink, with a count of how far the run that writes to it has come.
#[derive(Drop)]
pub struct Writer<'a, O> {
    /// The sink.
    pub sink: &'a mut O,
    /// The count of the run.
    pub tally: RunProgress,
}
