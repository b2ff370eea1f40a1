//! Queues of messages, gathered in groups, as linked cells of one slab, with status words that tell
//! which queues hold a message: the queues of join definitions (Le Fessant and Maranget, *Compiling
//! Join Patterns*, 1998).
#![tactic(auto)]

mod cells;
mod choosing;
mod groups;
mod rows;
mod walk;

pub use choosing::Selects;
pub use groups::Groups;
pub use rows::Idle;
pub use walk::Iter;
