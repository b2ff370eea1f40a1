//! Tests of the judge of sorts, through the whole program: texts with each fault or none, and that
//! `alone` and `check` pass over sort lines.
#![tactic(auto)]

mod arguments;
#[cfg(test)]
mod called;
#[cfg(test)]
mod calls;
#[cfg(test)]
mod judged;
mod lines;
mod names;
#[cfg(test)]
mod passed_over;
mod refused;
mod sorted;
mod tables;

pub use tables::judged_texts;
