//! The inspection of a file: reports on it without opening it.
#![tactic(auto)]

mod inspection;
mod report;

pub use inspection::{inspect, inspect_sized};
pub use report::{Report, StanzaReport, StanzaReports};
