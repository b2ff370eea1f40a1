//! The book of a run: a program, and the events since its opening.
#![tactic(auto)]

mod all_causes;
mod binders;
mod book;
mod causes;
mod crossing;
mod search;

pub use binders::only_made_names_have_binders;
pub use book::{Book, Commit, Found};
pub use chem_causes::{Cause, Left, Lefts};
pub use crossing::book_crosses;
