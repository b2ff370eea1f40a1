//! Locations that move: within the site that hosts them already, or from one site to another with
//! all that stands there.
#![tactic(auto)]

mod carrying;
mod leaving;
mod moving;
mod ready;

pub use carrying::{can_join, move_between};
pub use moving::move_within;
pub use ready::{leads_into, move_ready, request_can_go};
