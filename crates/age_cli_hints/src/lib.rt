//! Messages for people after a run: what its fault means and what to do, what the system answered,
//! and what may surprise; the messages about words that are refused; and the help on a fault.
//!
//! [`explain`] prints how a run ended, by its `Ending`, and [`explain_refusal`] why words are
//! refused, by the kind of the parser's error and the table of the commands. Only the program uses
//! this crate, so changing a sentence needs no proof except its own and the program's.
#![tactic(auto)]

mod arguments;
mod ending;
mod failure_line;
mod fault;
mod faults;
mod help;
mod line;
mod position;
mod quoted;
mod refusal;
mod sentences;
mod surprises;
mod tips;
mod usage;
mod words;
mod work_factor;

pub use ending::{RunContext, explain};
pub use help::find_fault_help;
pub use refusal::{explain_fused_help_flag, explain_refusal, find_fused_help_flag};
