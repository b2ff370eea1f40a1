//! What a site, a part of a solution and a network stand for, and the laws of their events: no
//! code, definitions and laws alone. What a call does at a site is a function of what contracts see
//! of that (`put`, `lay`, `pour_here`, `pack`, `remove`, `take_in`); a site is a part of a numbered
//! solution beside any other rules and atoms; and what a site or a network does is one event of
//! that solution, or none.
#![tactic(auto)]

mod laws;

pub use laws::{
    choice_is_one_event, choices_can_be_made, choices_replay, deliver_call, delivery_is_no_event,
    delivery_to_a_part, detect_call, detection_is_one_event, detection_of_a_part, detection_works,
    halt_call, halt_is_one_event, halt_of_a_part, lent_site_is_back, move_between_call,
    move_between_is_one_event, move_between_works, move_of_a_part, move_of_two_parts,
    move_within_call, move_within_is_one_event, move_within_works, network_runs,
    no_choice_is_quiet, opened_stands, openings_bear_new, parcel_carries, react_call,
    reaction_is_one_event, reaction_of_a_part, reaction_works, round_is_choices, rules_are_guards,
    run_fits, runs_are_guarded, start_stands, tops_are_of_sites,
};
