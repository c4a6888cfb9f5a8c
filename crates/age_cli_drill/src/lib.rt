//! The command `drill`, which delivers a payload by a script, and prints after each line of it how
//! much plaintext the reader holds. Tests say what it prints, and why it is refused; its contract,
//! that it puts nothing.
#![tactic(auto)]

mod answers;
mod drill;
mod script;

pub use drill::drill_file;
