//! Tests of the plain program: worked numberings of openings and events, over terms built by hand.
#![tactic(auto)]

#[cfg(test)]
mod build;
#[cfg(test)]
mod events;
#[cfg(test)]
mod expect;
#[cfg(test)]
mod falls;
#[cfg(test)]
mod numbers;
#[cfg(test)]
mod openings;
#[cfg(test)]
mod solutions;
#[cfg(test)]
mod steps;
