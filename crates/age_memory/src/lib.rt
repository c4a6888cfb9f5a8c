//! Sources and sinks over memory, which fail at a call that is planned.
//!
//! A `MemSource` gives bytes, a `MemSink` takes them, and contracts see all of both. Callers who have
//! a whole file in memory use them, and tests, which plan a failure.
#![tactic(auto)]

mod sink;
mod source;

pub use sink::MemSink;
pub use source::MemSource;
