//! The input of the engines of age files: a buffer of bytes that were read and not used yet, and
//! the header with which a file begins.
#![tactic(auto)]

mod buffer;
mod header;
mod reader;

pub use buffer::InputBuffer;
pub use header::{Head, read_head};
pub use reader::Reader;
