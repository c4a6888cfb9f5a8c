//! The common parts of the commands: the identity that opens a file (by the passphrase, file key or
//! shared secret that the options name), the first bytes of a source, and the ending of a command
//! with the lines that report it.
#![tactic(auto)]

mod command_error;
mod first_bytes;
mod identity;
mod identity_option;
mod put;
mod reporting;
mod secret;

pub use command_error::{CommandError, UnsavedError, Usage, UsageError};
pub use first_bytes::{fill_first, read_file, read_first, read_up_to};
pub use identity::Identity;
pub use identity_option::{IdentityOption, bad_passphrase_file, count_held, passphrase_in};
pub use put::put_bytes;
pub use reporting::{report_ending, report_fault};
pub use secret::OwnPassphrase;
