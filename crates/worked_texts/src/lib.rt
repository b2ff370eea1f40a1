//! Worked texts, each with the words that it is run with and what comes of it: data for the crates
//! of tests.
#![tactic(auto)]

mod case;
mod locations;
mod messages;
mod rounds;
mod small;
mod tables;

pub use case::{Case, Freely, QUIET};
pub use tables::{examples, runs, runs_and_examples, runs_in_rounds};
