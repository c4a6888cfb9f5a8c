//! The program `age_tool` as a function of its arguments, files and streams.
//!
//! [`run`] takes the arguments after the program's name, a set of files, the input, the output, a
//! sink for faults and a meter for progress, and returns the exit status: 0 on success, 1 on a
//! fault, 2 on a bad command line. [`run_words`] does the same and returns the error in place of
//! the status. Both are generic over all of these, so that their contract covers every input and
//! every set of files; the program passes in the files of the system.
//!
//! All names that a caller of `run` needs, or an implementation of a set of files, are exported
//! here. `inspect` is implemented here; `encrypt`, `decrypt` and `resume` are in
//! `age_cli_commands`, and
//! `drill` is in `age_cli_drill`.
#![tactic(auto)]

mod error;
mod inspect_command;
mod names;
mod print;
mod program;

pub use age_cli_args::Request;
pub use age_cli_common::{CommandError, UnsavedError, Usage, UsageError};
pub use age_cli_files::{
    Action, ErrorContext, Failure, FileError, FileSet, FirstBytes, IfMissing, OpenError, OpenFault,
    Purpose, ReadSummary,
};
pub use age_fault::FileFault;
pub use age_host_model::{ClobberOption, Durability};
pub use age_io::{Failed, Meter, Sink, Source};
pub use error::RunError;
pub use program::{read_words, run, run_words, status};
