//! Runs of a program: alone on one thread, in rounds on sites that are lent to workers, and by
//! workers that turn freely at sites behind locks.
#![tactic(auto)]

mod in_rounds;
mod on_threads;
mod one_thread;
mod outcome;
mod team;

pub use in_rounds::rounds;
pub use on_threads::{free, free_from_opening};
pub use one_thread::{alone, one_schedule};
pub use outcome::{Done, How};
pub use team::{FreeTeam, Team, Threaded};
