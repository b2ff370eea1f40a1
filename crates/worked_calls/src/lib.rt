//! Calls of the whole program over memory, and what they left, as plain values: for crates of
//! tests.
#![tactic(auto)]

mod called;
mod ends;

pub use called::{Made, Outcome, call, call_case, call_into, call_through, ended_with};
pub use ends::{Ends, ends_of, sink_with, source_with};
