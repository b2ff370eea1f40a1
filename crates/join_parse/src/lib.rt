//! The tree of a text's tokens, the first token after which no sentence goes on, and the text of a
//! tree.
#![tactic(auto)]

mod bounds;
mod cursor;
mod leaf;
mod names;
mod parser;
mod print;
mod process;
mod program;
mod text;
mod tree;
mod word;

pub use parser::{beginnings, one_level, one_outcome, parse};
pub use print::print_tree;
pub use text::Tree;
pub use tree::{
    DefNode, DefTree, DefTrees, PlaceTree, PlaceTrees, ProcNode, ProcTree, ProcTrees,
    copy_definitions, copy_places, copy_processes,
};
pub use word::{
    Arg, Args, PatTree, PatTrees, SeenTree, SeenTrees, Word, Words, copy_args, copy_declarations,
    copy_patterns, copy_words,
};
