//! One log, from its source to the sinks: whether it is that of a run, and why what is left is left.
#![tactic(auto)]

mod ask;
mod judge;
mod log;
mod told;

pub use ask::Ask;
pub use judge::judge_log;
