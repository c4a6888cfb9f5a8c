//! The errors of reading and writing age files: the numbered list of all faults, with those of
//! headers and keys, which their crates pass on. They have a crate of their own, so that crates
//! that read and write files needn't wait for the proofs of those that parse and open headers.
#![tactic(auto)]

mod fault;
mod head;
mod key;

pub use fault::FileFault;
pub use head::{HeadFault, HeadKind};
pub use key::KeyFault;
