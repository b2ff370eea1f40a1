//! Compiled code of the join calculus and its environments: what the sites run in place of terms,
//! when it reads as a program, and the laws that running it is pouring that program.
#![tactic(auto)]

mod code;
mod env;
mod laws;

pub use code::{
    Block, Blocks, Bodies, Code, Guard, Guards, Instr, Instrs, Level, Levels, Locs, Mask, SiteCode,
    SiteCodes, Slot, Slots, copy_blocks, copy_bodies, copy_guards, copy_instrs, copy_levels,
};
pub use env::{Env, extend, lookup};
pub use laws::{
    opening_is_pouring, openings_lay_groups, reacting_is_pouring, reads_under_each,
    running_is_pouring, runs_lay_groups,
};
pub use status_words::Bits;
