//! Tests of books, of the texts of a run, of logs that are read back, and of rings.
#![tactic(auto)]

#[cfg(test)]
mod books;
#[cfg(test)]
mod calling;
#[cfg(test)]
mod reading;
#[cfg(test)]
mod rings;
#[cfg(test)]
mod texts;
