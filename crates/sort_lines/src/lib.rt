//! The sorts that the comments of a text declare, or the first fault of its sort lines.
#![tactic(auto)]

mod content;
mod laws;
mod lines;
mod names;
mod read;

pub use content::Content;
pub use laws::{content_is_read, lines_of_pieces, one_outcome};
pub use read::{SortEnd, read_sorts};
