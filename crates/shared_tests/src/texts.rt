// Texts, and names of a run.

use chem_model::{AtomId, Loc};

// The channel is 0.1 with its home 0.0, its rule 0.2, and the message of the opening 0.3.
pub const FIRST: &str = "observe out/1; site s [ x(u) => out(u) : x(s) ]";

// The location is 0.1, its channel 0.2 with the rule 0.3, and its request to go 0.4.
pub const MOVED: &str =
    "observe out/1; site a [ m[ k() => out(m) : go(b, k) ] : 0 ] site b [ none : 0 ]";

// The locations are 0.1 and 0.3, with the requests 0.6 and 0.8 to go. The target of the second one
// is no site.
pub const WITHIN: &str = "site a [ m[ k() => 0 : go(a, k) ] and n[ j() => 0 : go(m, j) ] : 0 ]";

// The opening of the first site sends a message to the second.
pub const SENT: &str = "observe out/1; site a [ none : x(a) ] site b [ x(u) => out(u) : 0 ]";

pub fn loc(site: u32, k: u64) -> Loc {
    Loc { site, k }
}

pub fn atom(site: u32, k: u64) -> AtomId {
    AtomId { site, k }
}
