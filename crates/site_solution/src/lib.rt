//! What one root hosts: locations, groups of rules with a queue for each of their channels,
//! messages that no queue takes, and requests. What each call does is a function of what contracts
//! see of the site, by the definitions of `net_laws`, so that the laws of sites hold of it as they
//! are.
#![tactic(auto)]

mod apart;
mod asked;
mod coming;
mod commit;
mod effects;
mod laws;
mod parcels;
mod pouring;
mod site;

pub use coming::Taking;
pub use effects::Effects;
pub use laws::{births_keep_others, same_numbers_keep};
pub use pouring::BodyAt;
pub use site::{Site, site_is_kept};
pub use site_shelves::{Search, message_is_there};
