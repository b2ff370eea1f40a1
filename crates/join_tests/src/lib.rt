//! Tests of the whole program beside its runs: refused texts, words, faults of reads and writes,
//! logs, limits and terms, from the bytes read to the bytes written.
#![tactic(auto)]

#[cfg(test)]
mod cases;
#[cfg(test)]
mod expected;
#[cfg(test)]
mod faults;
#[cfg(test)]
mod hostile;
#[cfg(test)]
mod judging;
#[cfg(test)]
mod large;
#[cfg(test)]
mod lines;
#[cfg(test)]
mod refusals;
#[cfg(test)]
mod terms;
#[cfg(test)]
mod words;
