// What stands at a site, and what comes of a call, beside what is wanted.

use crate::by_hand::is_plain;
use crate::calls::{event_at, is_quiet};
use crate::fault::Fault;
use crate::net::{Pair, atom, loc};
use chem_model::{AtomId, Event, Items, Loc, Memory, Name, RuleId, Text};
use env_store::Code;
use failure::{dead_for, halt_ready};
use loc_tree::LocTree;
use migration::move_ready;
use router::{address, can_deliver};
use site_solution::{Effects, Search, Site};
use std::alloc::Global;
use wire_packet::{Ask, Msg, Packet, Parcel, Request, encode};

// ---- what comes of a call

/// What comes of a call.
#[derive(Clone, Copy)]
pub enum Leaves {
    Nothing,
    /// One message with this location is observed, and nothing else comes of it.
    Observed(Pair),
    /// One message with this number is observed, and nothing else comes of it.
    Counted(u64),
    /// So many messages go to other sites, so many are observed, and so many locations are born.
    Sizes([usize; 3]),
    /// One message goes to the site with this number, and nothing else comes of it.
    Sent(u32),
}

// So many messages go to other sites, so many are observed, and so many locations are born.
fn has_sizes(effects: &Effects, sizes: [usize; 3]) -> bool {
    effects.sends.len() == sizes[0]
        && effects.outs.len() == sizes[1]
        && effects.births.len() == sizes[2]
}

// The first that is observed is on the first observed name, with this name alone.
fn has_out(effects: &Effects, arg: Name) -> bool {
    match effects.outs.as_slice().first() {
        Some(out) => { out.on == 0 && out.args.as_slice() == [arg].as_slice() }
        None => false,
    }
}

// The first that goes to another site goes to this one.
fn has_target(effects: &Effects, target: u32) -> bool {
    match effects.sends.as_slice().first() {
        Some(flight) => flight.target == target,
        None => false,
    }
}

// Whether this comes of a call.
pub(crate) fn has_left(effects: &Effects, want: Leaves) -> bool {
    match want {
        Leaves::Nothing => has_sizes(effects, [0, 0, 0]),
        Leaves::Observed(place) => {
            has_sizes(effects, [0, 1, 0]) && has_out(effects, Name::Place(loc(place)))
        }
        Leaves::Counted(number) => {
            has_sizes(effects, [0, 1, 0]) && has_out(effects, Name::Num(number))
        }
        Leaves::Sizes(sizes) => has_sizes(effects, sizes),
        Leaves::Sent(target) => has_sizes(effects, [1, 0, 0]) && has_target(effects, target),
    }
}

// ---- what a site has

/// What a site has.
#[derive(Clone, Copy)]
pub enum Fact {
    /// How many numbers it has made.
    Made(u64),
    /// Whether it hosts a location.
    Hosts(Pair, bool),
    /// Whether it has a message or a request with this id.
    Holds(Pair, bool),
    /// Whether it has a request with this id.
    Requests(Pair, bool),
    /// The number of the request at this place, or none.
    RequestAt(u32, Option<u64>),
    /// A location asks to halt by the request with this id.
    AsksToHalt(Pair, Pair),
    /// The number of the front message of the first channel of the first group, or none.
    Front(Option<u64>),
    /// Whether the first group, of one channel, has a message there.
    Covered(bool),
    /// So many guards are noted as covered, and the site has limits.
    Upkeep(usize),
}

// The request at this place has this number, or there is none.
fn has_request_at(site: &Site, index: u32, want: Option<u64>) -> bool {
    match site.request_at(index) {
        Some(request) => want == Some(request.id.k),
        None => want.is_none(),
    }
}

// The request with this id asks that the location halts.
fn asks_to_halt(site: &Site, id: AtomId, place: Loc) -> bool {
    let want = Request {
        id,
        loc: place,
        ask: Ask::Halt,
    };
    site.request(&id) == Some(&want)
}

// The front message of the first channel of the first group has this number, or there is none.
fn has_front(site: &Site, want: Option<u64>) -> bool {
    if site.groups() == 0 || site.width(0) == 0 {
        return false;
    }
    match site.front(0, 0) {
        Some(msg) => want == Some(msg.id.k),
        None => want.is_none(),
    }
}

// Whether the first group, of one channel, has a message there.
fn is_covered(site: &Site, want: bool) -> bool {
    0 < site.groups() && site.width(0) == 1 && site.covered(0, &[1]) == want
}

// Whether this is so of a site.
pub(crate) fn has(site: &Site, fact: Fact) -> bool {
    match fact {
        Fact::Made(made) => site.made() == made,
        Fact::Hosts(place, want) => site.has(&loc(place)) == want,
        Fact::Holds(id, want) => site.has_atom(&atom(id)) == want,
        Fact::Requests(id, want) => site.request(&atom(id)).is_some() == want,
        Fact::RequestAt(index, want) => has_request_at(site, index, want),
        Fact::AsksToHalt(id, place) => asks_to_halt(site, atom(id), loc(place)),
        Fact::Front(want) => has_front(site, want),
        Fact::Covered(want) => is_covered(site, want),
        Fact::Upkeep(noted) => site.upkeep() == (noted, true),
    }
}

// ---- what a site shows

/// What a site shows beside the code and the tree.
#[derive(Clone, Copy)]
pub enum Look {
    /// The reaction of this rule with these atoms is ready.
    Waits(Pair, &'static [Pair]),
    /// Nothing is ready.
    Quiet,
    /// The index tells what is ready, without a walk.
    Knows,
    /// So many groups stand at a location, and these messages in the order of queues and then these
    /// requests in the order of their ids.
    Has(Pair, usize, &'static [Pair]),
    /// Whether a request to go may be met in a text of this version.
    MayGo(u32, Pair, bool),
    /// Whether a request to halt may be met.
    MayHalt(Pair, bool),
    /// Whether a request finds its location dead.
    FindsDead(Pair, bool),
    /// Whether a message without arguments may be delivered on a name.
    Takes(Name, bool),
}

// The atoms are these, in this order.
fn are_atoms(atoms: &[AtomId], pairs: &[Pair]) -> bool {
    if atoms.len() != pairs.len() {
        return false;
    }
    for (index, found) in atoms.iter().enumerate() {
        if pairs.get(index) != Some(&(found.site, found.k)) {
            return false;
        }
    }
    true
}

// The event is the reaction of this rule with these atoms.
fn is_reaction(event: &Option<Event>, rule: Pair, took: &[Pair]) -> bool {
    match event {
        Some(
            Event::React {
                rule: found,
                took: atoms,
            },
        ) => {
            *found
                == RuleId {
                    site: rule.0,
                    k: rule.1,
                }
                && are_atoms(atoms.as_slice(), took)
        }
        _ => false,
    }
}

// The reaction of this rule with these atoms is ready.
fn waits(
    alloc: Global,
    site: &Site,
    code: &Code,
    tree: &LocTree,
    rule: Pair,
    took: &[Pair],
) -> Result<bool, Fault> {
    let event = event_at(alloc, site, code, tree)?;
    Ok(is_reaction(&event, rule, took))
}

// The ids of the messages of a parcel, and then those of its requests.
fn ids(alloc: Global, parcel: &Parcel) -> Result<Items<AtomId>, Memory> {
    let mut ids = Items::new(alloc);
    for waiting in parcel.waiting.as_slice() {
        ids.push(waiting.msg.id)?;
    }
    for request in parcel.requests.as_slice() {
        ids.push(request.id)?;
    }
    Ok(ids)
}

// The parcel has so many groups, and the ids of its messages and requests are these.
fn packs(alloc: Global, parcel: &Parcel, groups: usize, atoms: &[Pair]) -> Result<bool, Memory> {
    let found = ids(alloc, parcel)?;
    Ok(parcel.groups.len() == groups && are_atoms(found.as_slice(), atoms))
}

// The same of what stands at a location.
fn has_at(
    alloc: Global,
    site: &Site,
    place: Loc,
    groups: usize,
    atoms: &[Pair],
) -> Result<bool, Memory> {
    let parcel = site.pack(alloc, &place)?;
    packs(alloc, &parcel, groups, atoms)
}

/// What stands at a location, as bytes.
pub fn packed(alloc: Global, site: &Site, place: Loc) -> Result<Text, Memory> {
    let parcel = site.pack(alloc, &place)?;
    encode(alloc, &Packet::Parcel(parcel))
}

// Whether a message without arguments may be delivered on a name.
fn takes(alloc: Global, site: &Site, tree: &LocTree, on: Name) -> bool {
    if !is_plain(on) {
        return false;
    }
    let msg = Msg {
        id: atom((7, 7)),
        on,
        args: Items::new(alloc),
    };
    can_deliver(site, tree, &msg)
}

// Whether a site shows this.
pub(crate) fn shows(
    alloc: Global,
    site: &Site,
    code: &Code,
    tree: &LocTree,
    look: Look,
) -> Result<bool, Fault> {
    match look {
        Look::Waits(rule, took) => waits(alloc, site, code, tree, rule, took),
        Look::Quiet => is_quiet(site, code, tree),
        Look::Knows => Ok(!matches!(site.least_covered(code, tree), Search::Unknown)),
        Look::Has(place, groups, atoms) => Ok(has_at(alloc, site, loc(place), groups, atoms)?),
        Look::MayGo(version, id, want) => {
            Ok(site.in_tree(tree) && move_ready(site, tree, version, &atom(id)) == want)
        }
        Look::MayHalt(id, want) => {
            Ok(site.in_tree(tree) && halt_ready(site, tree, &atom(id)) == want)
        }
        Look::FindsDead(id, want) => {
            Ok(site.in_tree(tree) && dead_for(site, tree, &atom(id)).is_some() == want)
        }
        Look::Takes(on, want) => Ok(takes(alloc, site, tree, on) == want),
    }
}

// ---- where locations are

// Whether this site hosts the location, and it is alive or not.
pub(crate) fn is_hosted(tree: &LocTree, place: Loc, root: u32, alive: bool) -> bool {
    tree.holds(&place) && tree.root(&place) == root && tree.alive(&place) == alive
}

// Whether messages to the location go to this site.
pub(crate) fn is_addressed(tree: &LocTree, place: Loc, target: u32) -> bool {
    tree.holds(&place) && address(tree, &place) == target
}
