//! The command line of `age_tool`: its commands, their options and help, and the request that the
//! arguments make. [`list_commands`] has the commands, for the lines about arguments that are
//! refused.
#![tactic(auto)]

mod commands;
mod help;
mod reading;
mod request;

pub use commands::{Argument, ArgumentForm, Subcommand, find_command, list_commands};
pub use help::USAGE;
pub use reading::read_request;
pub use request::{
    Decrypting, Drilling, Encrypting, IdentityOptions, Paths, ProgressOption, Request, Resuming,
};
