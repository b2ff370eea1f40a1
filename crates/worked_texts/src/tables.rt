// The tables together. There are several, since the proof of a table takes as long as its square.

use crate::case::Case;
use crate::locations::{applet_to_harvest, hops, pool_to_sailor, tour_to_wreck};
use crate::messages::{
    bank_to_counter_2, barrier_to_broadcast, buffer_to_choice, counter_to_lock,
    election_to_tickets, philosophers_to_ring,
};
use crate::rounds::{falls_in_order, long_rounds, shares, steps, under_way};
use crate::small::{
    failures, falls, groups_and_rings, levels, limits, names, numbers, openings, scopes_and_moves,
};

/// Texts that are run, each with the words `alone --budget 10` unless it has others.
pub fn runs() -> [&'static [Case]; 9] {
    [
        openings(),
        failures(),
        scopes_and_moves(),
        names(),
        groups_and_rings(),
        limits(),
        numbers(),
        falls(),
        levels(),
    ]
}

/// Each program of `examples/`, run with the default budget.
pub fn examples() -> [&'static [Case]; 10] {
    [
        barrier_to_broadcast(),
        buffer_to_choice(),
        counter_to_lock(),
        philosophers_to_ring(),
        applet_to_harvest(),
        pool_to_sailor(),
        tour_to_wreck(),
        bank_to_counter_2(),
        election_to_tickets(),
        hops(),
    ]
}

/// The texts that are run, and then the examples.
pub fn runs_and_examples() -> [&'static [Case]; 19] {
    [
        openings(),
        failures(),
        scopes_and_moves(),
        names(),
        groups_and_rings(),
        limits(),
        numbers(),
        falls(),
        levels(),
        barrier_to_broadcast(),
        buffer_to_choice(),
        counter_to_lock(),
        philosophers_to_ring(),
        applet_to_harvest(),
        pool_to_sailor(),
        tour_to_wreck(),
        bank_to_counter_2(),
        election_to_tickets(),
        hops(),
    ]
}

/// Runs in rounds, and beside them those on one thread that differ, or that free threads may make
/// otherwise.
pub fn runs_in_rounds() -> [&'static [Case]; 5] {
    [
        shares(),
        under_way(),
        steps(),
        long_rounds(),
        falls_in_order(),
    ]
}
