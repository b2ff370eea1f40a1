//! Where the groups of a site lie: each with a queue for each of its channels, the index that finds
//! the queue of a channel, that of the guards that are covered, and the messages that no queue
//! takes.
#![tactic(auto)]

mod covering;
mod finding;
mod firsts;
mod forgetting;
mod least_guard;
mod level_masks;
mod more;
mod packing;
mod shelves;
mod testing;
mod told;
mod walking;

pub use least_guard::Search;
pub use more::{More, new_group, new_groups, told_by};
pub use packing::{copy_groups_at, copy_waiting_at};
pub use shelves::Shelves;
pub use testing::{
    Count, are_told_by, groups_are_drawn, is_drawn, same_counts, stuck_are_drawn, told_is_drawn,
};
pub use told::{NewGroup, Told};
pub use walking::{
    groups_are_there, in_groups, in_stuck, is_same, message_is_there, name_is_there,
    stuck_are_there,
};
