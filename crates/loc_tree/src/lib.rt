//! Where locations are: the site that hosts each of them, and which are marked.
#![tactic(auto)]

mod laws;
mod tree;

pub use laws::{
    alive_is_live, birth_follows, dies_as_detect_needs, falls_as_fall_needs, holds_what_is_there,
    mark_follows, move_follows, moves_as_go_needs, number_is_of_root, roots_are_opened,
    roots_are_sites, sound_has_tree,
};
pub use tree::{LocTree, tree_is_kept};
