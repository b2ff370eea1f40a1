//! The sorts that a text declares, and whether the text keeps them.
#![tactic(auto)]

mod fault;
mod gather;
mod judged;
mod judging;
mod laws;
mod uses;
mod walk;

pub use judged::Judged;
pub use judging::judge;
pub use laws::{no_fault_no_wrong_atom, one_judgement};
pub use sort_laws::{SortArg, SortArgs, SortDecl, SortDecls, SortUse, SortUses, Sorts};
pub use sort_lines::{SortEnd, read_sorts};
