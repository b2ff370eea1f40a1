//! The texts that a run prints: its trace, and its log.
#![tactic(auto)]

mod fault;
mod fields;
mod log;
mod names;
mod read;
mod tables;
mod text;
mod trace;

pub use fault::LogEnd;
pub use log::{log_bytes, log_of_parts, one_spelling};
pub use read::{Log, fields_are_the_text, into_log, one_outcome, read_log};
pub use text::{Ending, push_all, push_number};
pub use trace::{push_ending, trace_bytes};
