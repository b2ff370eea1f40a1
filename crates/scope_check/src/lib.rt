//! The program that a tree stands for, or its first fault of scope or arity.
#![tactic(auto)]

mod block;
mod checks;
mod clashes;
mod fault;
mod naming;
mod translate;
mod words;

pub use checks::{check, one_outcome};
pub use fault::Fault;
