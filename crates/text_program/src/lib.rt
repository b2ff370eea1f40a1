//! The program of a text, and the lines that tell how a command ended.
#![tactic(auto)]

mod lines;
mod text;

pub use lines::{status_line, write_line};
pub use text::{one_outcome, program_of, refusal_line};
