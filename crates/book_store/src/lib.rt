//! What a book keeps beside its plain lists, and what is found by it: older messages and requests,
//! and where to look for the next event.
#![tactic(auto)]

mod asking;
mod candidates;
mod crossing;
mod keys;
mod older;
mod possible;
mod store;
mod table;
mod waiting;

pub use asking::Asking;
pub use candidates::Candidates;
pub use crossing::store_crosses;
pub use keys::{Key, channel_of};
pub use older::{Older, first_older};
pub use possible::{atom_of, can_act, is_possible, is_ready};
pub use store::{Store, ready, settle_all, site_of, tidy};
pub use table::AtomTable;
pub use waiting::Waiting;
