// What a network is made of, apart from its code.
use chem_model::Outs;
use loc_tree::LocTree;
use site_solution::Site;
use std::collections::VecDeque;
use wire_packet::Flight;

// The version of the program, the sites by their numbers, the tree, the observables so far and the
// packets under way. The observables are a list of pieces, so that a whole piece is added without
// memory where there is room for one. Packets leave from the front one by one, without a move of
// those behind; `under_way` is how many there are.
#[derive(Drop)]
pub(crate) struct Parts {
    pub(crate) version: u32,
    pub(crate) sites: Vec<Site>,
    pub(crate) tree: LocTree,
    pub(crate) trace: Vec<Outs>,
    pub(crate) flights: VecDeque<Flight>,
    pub(crate) under_way: u32,
}
