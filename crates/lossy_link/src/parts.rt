// What a network over links is made of.
use crate::lines::Lines;
use crate::wire::Wire;
use net_core::Net;

// The network, the frames on the wire, and the lines of the pairs.
#[derive(Drop)]
pub(crate) struct Parts {
    pub(crate) net: Net,
    pub(crate) wire: Wire,
    pub(crate) lines: Lines,
}
