//! What a site knows of all that it holds and names: limits within which it stands, by which its
//! tests need no walk over it; and the locations that it hosts, as a set.
#![tactic(auto)]

mod known;
mod places;
mod shapes;
mod within;

pub use known::{Known, note_all, note_home, note_laid, note_msg, note_request, only_root};
pub use places::{Places, locs_are_drawn};
pub use shapes::Shape;
pub use within::{is_beyond, levels_are_known, names_are_known, numbers_are_known};
