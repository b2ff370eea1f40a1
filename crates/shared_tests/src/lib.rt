//! Tests of the network of a run on threads: the calls on plain values that are made behind its
//! locks, whole turns with the end of their run, and the gate that holds two workers at once.
#![tactic(auto)]

#[cfg(test)]
mod cases;
#[cfg(test)]
mod counted;
#[cfg(test)]
mod gates;
#[cfg(test)]
mod passes;
#[cfg(test)]
mod plain;
#[cfg(test)]
mod rows;
#[cfg(test)]
mod runs;
#[cfg(test)]
mod texts;
