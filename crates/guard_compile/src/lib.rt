//! Compiled code of a program.
#![tactic(auto)]

mod binders;
mod count;
mod layout;
mod mask;
mod names;
mod program;
mod write;

pub use program::{compile, top_names};
