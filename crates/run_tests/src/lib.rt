//! Tests of the four runs through the top call: each worked text and example by every command, with
//! what is said of its log and its sorts; and what each of the runs has of its own.
#![tactic(auto)]

#[cfg(test)]
mod cases;
#[cfg(test)]
mod corpus;
#[cfg(test)]
mod expected;
#[cfg(test)]
mod free;
#[cfg(test)]
mod links;
#[cfg(test)]
mod printing;
#[cfg(test)]
mod reading;
#[cfg(test)]
mod ways;
