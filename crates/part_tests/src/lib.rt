//! Tests of the parts that sites are made of: status words, queues, the tree, packets, environments
//! and runs of code.
#![tactic(auto)]

#[cfg(test)]
mod crossing;
#[cfg(test)]
mod environments;
#[cfg(test)]
mod messages;
#[cfg(test)]
mod packets;
#[cfg(test)]
mod queues;
#[cfg(test)]
mod tree;
#[cfg(test)]
mod words;
