// The code, the tree and the sites of a text. Locations, rules and ids are pairs of a site and a
// number there.

use crate::fault::Fault;
use crate::texts::{bear_tops, code_of, open_next, sites_of};
use chem_model::{AtomId, Loc, Memory};
use env_store::Code;
use loc_tree::LocTree;
use site_solution::Site;
use std::alloc::Global;
use wire_packet::Msg;

/// A site and a number: a location, a rule or an id.
pub type Pair = (u32, u64);

/// The location of a pair.
pub fn loc(pair: Pair) -> Loc {
    Loc {
        site: pair.0,
        k: pair.1,
    }
}

// The id of a pair.
pub(crate) fn atom(pair: Pair) -> AtomId {
    AtomId {
        site: pair.0,
        k: pair.1,
    }
}

/// The code of a text, where locations are, its sites, and the mail between them.
#[derive(Drop)]
pub struct Net {
    pub code: Box<Code>,
    pub tree: LocTree,
    pub sites: Vec<Site>,
    /// The messages that are on their way, the newest last.
    pub mail: Vec<Msg>,
}

// A text whose sites aren't opened.
fn closed(alloc: Global, text: &[u8]) -> Result<Box<Net>, Memory> {
    let code = code_of(alloc, text)?;
    let tree = LocTree::start(alloc, sites_of(&code))?;
    let net = Net {
        code,
        tree,
        sites: Vec::new(alloc),
        mail: Vec::new(alloc),
    };
    Ok(Box::new(alloc, net)?)
}

// The sites are opened in order.
fn open(alloc: Global, net: &mut Net) -> Result<(), Fault> {
    bear_tops(alloc, &mut net.tree, net.code.tops.as_slice())?;
    for number in 0..sites_of(&net.code) {
        open_next(alloc, &net.code, &net.tree, &mut net.sites, number)?;
    }
    Ok(())
}

/// A text whose sites are opened.
pub fn net_of(alloc: Global, text: &[u8]) -> Result<Box<Net>, Fault> {
    let mut net = closed(alloc, text)?;
    open(alloc, &mut net)?;
    Ok(net)
}

// A text of which only the first site is there, which hosts its root alone.
pub(crate) fn net_by_hand(alloc: Global, text: &[u8]) -> Result<Box<Net>, Memory> {
    let mut net = closed(alloc, text)?;
    let site = Site::empty(alloc, 0)?;
    net.sites.push(site)?;
    Ok(net)
}
