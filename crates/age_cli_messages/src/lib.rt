//! Messages for people while a run lasts: progress, and what takes long; the form of names in
//! lines; and notes for the lines that come after the run.
//!
//! A [`ProgressLine`] is a meter that shows how many bytes were read, on one line that it writes
//! over and over into a sink, or in the lines of a log. [`Notes`] has what may surprise in the
//! files of a run.
#![tactic(auto)]

mod announcing;
mod escaped;
mod line;
mod line_style;
mod notes;
mod progress_line;
mod text;
mod typeable;

pub use announcing::{
    announce_copying, announce_passphrase, announce_reading, announce_sync, report_non_utf8,
};
pub use escaped::{Escaped, EscapedLineStart};
pub use line::Size;
pub use line_style::LineStyle;
pub use notes::Notes;
pub use progress_line::ProgressLine;
pub use typeable::TypeableScan;
