// Packets that are handed out, and one that comes from outside.

use crate::both::{Both, Step, both_of};
use crate::bringing::{bring_back, drain_one};
use crate::forwarding::FORWARDED;
use chem_model::AtomId;
use net_core::{Choice, Net};
use std::alloc::Global;

// The site that sent the packet under way and the one to which it goes, where it is one alone.
fn way_of_one(alloc: Global, net: &mut Net) -> Option<(u32, u32)> {
    let first = drain_one(alloc, net)?;
    if net.flights() > 0 {
        return None;
    }
    Some((first.from, first.flight.target))
}

fn first_way(alloc: Global) -> Option<(u32, u32)> {
    let mut both = both_of(alloc, FORWARDED.as_bytes())?;
    way_of_one(alloc, &mut both.net)
}

// Whether the location moves, and the packet that was sent to it is delivered where it was.
fn move_and_deliver(alloc: Global, both: &mut Both) -> bool {
    let go = Choice::Move {
        atom: AtomId { site: 0, k: 6 },
    };
    let deliver = Choice::Deliver { flight: 0 };
    both.make(alloc, &go) == Step::Made && both.make(alloc, &deliver) == Step::Made
}

fn forwarded_way(alloc: Global) -> Option<(u32, u32)> {
    let mut both = both_of(alloc, FORWARDED.as_bytes())?;
    if !move_and_deliver(alloc, &mut both) {
        return None;
    }
    way_of_one(alloc, &mut both.net)
}

// A packet is from the site whose opening sent it, and once it is forwarded from the one that was
// its target.
#[test]
fn a_packet_is_handed_out_with_its_sender(rt: HostRuntime) {
    assert!(rt; first_way(rt.alloc()) == Some((1, 0)));
    assert!(rt; forwarded_way(rt.alloc()) == Some((0, 1)));
}

// Whether the packet comes from outside once the location has moved, and is then under way from
// the site to which it came.
fn brought_way(alloc: Global) -> Option<(u32, u32)> {
    let mut both = both_of(alloc, FORWARDED.as_bytes())?;
    let go = Choice::Move {
        atom: AtomId { site: 0, k: 6 },
    };
    if both.make(alloc, &go) != Step::Made || !bring_back(alloc, &mut both.net) {
        return None;
    }
    way_of_one(alloc, &mut both.net)
}

// Whether the packet comes from outside twice, to where the location was and to where it is, and
// all goes on as if it had been delivered.
fn is_brought(alloc: Global, both: &mut Both) -> bool {
    let go = Choice::Move {
        atom: AtomId { site: 0, k: 6 },
    };
    both.make(alloc, &go) == Step::Made
        && bring_back(alloc, &mut both.net)
        && bring_back(alloc, &mut both.net)
        && both.net.flights() == 0
        && make_next(alloc, both)
        && make_next(alloc, both)
        && both.agree(alloc)
        && both.net.next().is_none()
}

fn make_next(alloc: Global, both: &mut Both) -> bool {
    match both.net.next() {
        Some(choice) => both.make(alloc, &choice) == Step::Made,
        None => false,
    }
}

fn brought(alloc: Global) -> bool {
    match both_of(alloc, FORWARDED.as_bytes()) {
        Some(mut both) => is_brought(alloc, &mut both),
        None => false,
    }
}

// A packet from outside does what a delivery does: it goes on from the site to which it came, and
// is put where its home is.
#[test]
fn a_packet_from_outside_is_delivered(rt: HostRuntime) {
    assert!(rt; brought_way(rt.alloc()) == Some((0, 1)));
    assert!(rt; brought(rt.alloc()));
}
