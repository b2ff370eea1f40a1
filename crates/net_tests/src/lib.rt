//! Tests of networks: the worked texts, run through a network and a book side by side, whatever
//! comes next.
#![tactic(auto)]

#[cfg(test)]
mod both;
pub mod bringing;
#[cfg(test)]
mod forwarding;
pub mod linking;
#[cfg(test)]
mod links;
#[cfg(test)]
mod orders;
#[cfg(test)]
mod outside;
#[cfg(test)]
mod rounds;
#[cfg(test)]
mod worked;
