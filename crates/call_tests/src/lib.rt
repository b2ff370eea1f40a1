//! Tests of the four runs, called by themselves: from a program to its book and its text.
#![tactic(auto)]

#[cfg(test)]
mod calls;
