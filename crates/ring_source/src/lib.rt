//! The texts of ring programs.
#![tactic(auto)]

mod ring;

pub use ring::ring_text;
