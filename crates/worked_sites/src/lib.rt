//! Sites of worked texts, what they are made to do step by step, and what is seen of them: for
//! crates of tests. What a call needs is asked before it, so that no step ends the process.
#![tactic(auto)]

mod by_hand;
mod calls;
mod fault;
mod net;
mod shown;
mod steps;
mod texts;

pub use by_hand::take_in_at;
pub use fault::Fault;
pub use net::{Net, Pair, loc, net_of};
pub use shown::{Fact, Leaves, Look, packed};
pub use steps::{Change, Channel, Deed, Place, Step, go, moved_on, run, run_by_hand};
