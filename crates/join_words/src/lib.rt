//! What the words of the command line ask for.
#![tactic(auto)]

mod answer;
mod line;
mod number;
mod read;

pub use answer::{Asked, By, Job, WordEnd};
pub use read::read_words;
