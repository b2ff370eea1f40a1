//! Tests of compiled code: texts with their code, as numbers worked out by hand.
#![tactic(auto)]

#[cfg(test)]
mod code;
#[cfg(test)]
mod tests;
