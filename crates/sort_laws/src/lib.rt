//! The sorts that a text declares, and the laws that each solution of a program that keeps them is
//! well sorted and holds no wrong atom.
#![tactic(auto)]

mod laws;
mod sorts;

pub use laws::{
    channels_are_owned, event_keeps_sorts, no_atom_is_wrong, opening_is_well_sorted,
    what_passes_is_sorted,
};
pub use sorts::{
    Entry, SortArg, SortArgs, SortDecl, SortDecls, SortUse, SortUses, Sorts, copy_decls, copy_uses,
};
