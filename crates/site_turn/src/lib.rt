//! What a site does next, and doing it, on plain values: nothing here takes a lock, and a list of
//! sites occurs in their opening alone. The networks of rounds and of free threads stand on it.
#![tactic(auto)]

mod arriving;
mod asks;
mod crossing;
mod desk;
mod doing;
mod fitted;
mod kept;
mod next;
mod opening;
mod picks;
mod proposing;
mod shared;
mod stepping;
mod turn;

pub use arriving::{arrive, bring, read_text};
pub use asks::leads_to;
pub use crossing::{kept_site_crosses, kept_tree_goes_about, shared_code_goes_about};
pub use desk::{Desk, Post, Tools};
pub use fitted::Fitted;
pub use kept::{KeptSite, KeptTree};
pub use next::{Chosen, choose, least_met};
pub use opening::{OpenedSites, open_sites};
pub use picks::{add_births, react_by};
pub use proposing::{propose_chosen, propose_move, propose_pick};
pub use shared::{SharedCode, SharedTree};
pub use stepping::{Leading, Step, WideStep, act_here, act_wide, end_turn, passed_or};
pub use turn::{Made, Turn, no_effects};
