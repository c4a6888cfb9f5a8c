//! Sources, which give the bytes of age files, and sinks, which take them.
//!
//! Each [`Source`] and each [`Sink`] counts its failures. [`Reading`] and [`Writing`] are those
//! over std's readers and writers; those in memory stand in `age_memory`. A [`ProgressSource`]
//! source reports to a [`Meter`] how many bytes each pull gave. A [`List`] is what other crates
//! keep elements in. A [`ByteTrace`] shows contracts the bytes that were moved, and a
//! [`GhostValue`] any other value. Ghost: no bytes at run time.
#![tactic(auto)]

mod byte_trace;
mod failed;
mod failures;
mod ghost_value;
mod list;
mod meter;
mod progress_source;
mod put;
mod sink;
mod source;

pub use byte_trace::ByteTrace;
pub use failed::{Failed, Memory, WriteFailure};
pub use failures::FailureCount;
pub use ghost_value::{AsGhost, GhostValue};
pub use list::{Bytes, List};
pub use meter::Meter;
pub use progress_source::ProgressSource;
pub use put::{flush_all, write_all};
pub use sink::{Sink, Writing};
pub use source::{Reading, Source};
