//! Whether a log is that of a run of its source, and why what a run left is left.
#![tactic(auto)]

mod answer;
mod judge;
mod laws;
mod left;
mod telling;

pub use answer::Verdict;
pub use judge::{into_verdict, verdict};
pub use laws::one_verdict;
pub use left::explain;
pub use telling::explain_bytes;
