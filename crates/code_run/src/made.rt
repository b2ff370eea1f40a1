// What a run makes.
use chem_model::{Items, Outs};
use env_store::Locs;
use wire_packet::{GroupInsts, Request, Waiting};

/// What is posted: a message at a location, or a request.
#[derive(Debug, Drop)]
pub enum Post {
    Message(Waiting),
    Request(Request),
}

pub type Posts = Items<Post>;

/// What a run makes: the next number, and in order the locations born, the groups laid, the
/// messages and requests, and the observables.
#[derive(Drop)]
pub struct Run {
    pub next: u64,
    pub births: Locs,
    pub groups: GroupInsts,
    pub posts: Posts,
    pub outs: Outs,
}
