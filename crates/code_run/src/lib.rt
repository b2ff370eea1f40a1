//! Compiled code, run as values: what a body, the opening of a site or one message makes. It
//! touches no site.
#![tactic(auto)]

mod body;
mod made;
mod naming;
mod posting;
mod running;

pub use made::{Post, Posts, Run};
pub use running::{message, open, run};
