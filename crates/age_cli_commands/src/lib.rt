//! The commands that write OUT: `encrypt`, `decrypt` and `resume`, and how they end.
//!
//! [`encrypt_file`], [`decrypt_file`] and [`resume_file`] run one command each, once its arguments
//! are parsed. Each makes the identity or the secret, opens the files in a fixed order, runs its
//! engine, and leaves the output, and the position if it is to be saved, as its contract says,
//! whether it succeeds or stops. If it isn't done, [`conclude`] reports why, and returns an
//! `Ending`.
//!
//! The definitions of this crate say what each command does with files, done or stopped. `age_cli`
//! picks one by the arguments. Nothing of a drill is here, so `age_cli_drill` is proved beside it.
#![tactic(auto)]

mod decrypt_command;
mod encrypt_command;
mod output;
mod pending_stop;
mod resume_command;
mod stop_point;

pub use decrypt_command::decrypt_file;
pub use encrypt_command::encrypt_file;
pub use pending_stop::{CommandFailure, PendingStop, conclude};
pub use resume_command::resume_file;
