//! Locations that fail: a request to halt marks its location, and a request to detect a failure
//! goes on where its target is dead.
#![tactic(auto)]

mod deaths;
mod detecting;
mod halting;

pub use deaths::{dead_for, request_sees_death};
pub use detecting::detect;
pub use halting::{halt, halt_ready, request_can_halt};
