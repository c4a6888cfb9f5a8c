//! The resolution of names: to a standard stream, or to a file over all links, with the folder that
//! holds it.
//!
//! Proofs assume nothing about what the system shows of a name, so this is only tested.
#![tactic(auto)]

mod folder;
mod metadata;
mod resolve_name;

pub use folder::{Folder, check_place, check_same, parent_folder};
pub use metadata::{DevIno, is_at, lstat, numbers_are_apart, stat};
pub use resolve_name::{
    FileId, NameTarget, NameTargetName, StandardStream, StreamId, SymlinkWitness, is_for_faults,
    is_on_disk, is_pipe_or_socket, is_random, resolve, trace_bytes,
};
