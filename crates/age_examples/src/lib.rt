//! Examples of the library crates, which `docs/LIBRARY.md` explains: a decryption in memory, an
//! unlocker, a source, a sink, and a sealer over a sink.
#![tactic(auto)]

mod counted;
mod either;
mod measure;
mod memory;
mod sealing;

pub use counted::Counted;
pub use either::Either;
pub use measure::CountingSink;
pub use memory::open_bytes;
pub use sealing::seal_to;
