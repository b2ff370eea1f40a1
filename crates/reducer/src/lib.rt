//! Reactions at one site: which one is ready, which event it is, and making it.
#![tactic(auto)]

mod choosing;
mod counts;
mod firing;
mod laws;
mod naming;
mod opened;
mod parts;
mod pick;
mod reacting;

pub use choosing::ready;
pub use counts::{births, sends};
pub use firing::may_fire;
pub use laws::reaction_is_one_event;
pub use naming::event_of;
pub use opened::{first_tree, opening};
pub use parts::{code_is_kept, guard_at};
pub use pick::Pick;
pub use reacting::{front_args, react};
