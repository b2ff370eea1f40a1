//! A network of sites, on one thread and in rounds.
#![tactic(auto)]

mod acting;
mod asking;
mod choice;
mod delivering;
mod drained;
mod events;
mod handing;
mod idle;
mod laws;
mod meeting;
mod moving;
mod net;
mod opening;
mod parts;
mod pieces;
mod plays;
mod reacting;
mod receiving;
mod round;
mod scheduling;
mod searching;
mod senders;
mod slots;
mod tracing;
mod turn;
mod turns;

pub use choice::{Choice, Choices};
pub use drained::{FlightFrom, FlightFroms};
pub use laws::{
    acts_lead, counts_rise, deliveries_fall, lists_replay, none_enabled_is_quiet, opened_play,
    reactions_bear_new,
};
pub use net::Net;
pub use plays::{PlayStop, Played};
pub use scheduling::{
    acts_are_one, lent_sites_have_turns, one_schedule_of_rounds, rounds_replay,
    schedules_of_rounds_are_one,
};
