//! One source, judged by the sorts that it declares: the command `sorts`.
#![tactic(auto)]

mod command;
mod laws;
mod told;

pub use command::judge_sorts;
pub use laws::one_verdict;
