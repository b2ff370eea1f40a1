// What comes to a site, and what goes in its place.
use site_shelves::NewGroup;
use wire_packet::{Request, Waiting};

// What is to come to a site, beside locations: its new count, groups, messages and requests.
#[derive(Drop)]
pub(crate) struct Coming {
    pub(crate) next: u64,
    pub(crate) groups: Vec<NewGroup>,
    pub(crate) waiting: Vec<Waiting>,
    pub(crate) requests: Vec<Request>,
}

/// The fronts of some queues of a group, which go in turn, where there are any.
#[derive(Clone, Copy)]
pub struct Taking<'a> {
    pub group: u32,
    pub chans: &'a [u32],
}
