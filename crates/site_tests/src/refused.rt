// A move whose memory may be refused. `bench/refused.sh` refuses each of its allocations in turn.

use chem_model::{Items, Memory, Text};
use loc_tree::LocTree;
use site_solution::Site;
use std::alloc::Global;
use std::process::Abort;
use std::test::Fail;
use worked_sites::{Fact, Fault, Look, Net, Pair, Place, Step, go, loc, moved_on, net_of, packed};

// The location that moves.
const M: Pair = (0, 1);

// The location is 0.1. There wait 0.7 on the channel that its process makes, and 0.8 and 0.9 on
// another; it asks to go by 0.10, to detect by 0.11 and to halt by 0.12. The continuation is 1.4.
fn traveller() -> &'static [u8] {
    b"observe out/1; \
      site a [ m[ p(u) | k() => out(u) : \
        def z(u) => out(u) in z(m) | p(b) | p(b) | go(b, k) | fail(a, k) | halt() ] : 0 ] \
      site b [ x() => 0 : x() ]"
}

// What stands at a location of a site, as bytes.
fn tell(alloc: Global, site: &Site, place: Pair, text: &mut Text) -> Result<(), Memory> {
    text.push(u8::from(site.has(&loc(place))))?;
    let bytes = packed(alloc, site, loc(place))?;
    text.extend_from_slice(bytes.as_slice())
}

// All that a site holds, as bytes.
fn tell_all(alloc: Global, site: &Site, text: &mut Text) -> Result<(), Memory> {
    tell(alloc, site, (0, 0), text)?;
    tell(alloc, site, M, text)?;
    tell(alloc, site, (1, 0), text)?;
    text.extend_from_slice(&site.made().to_be_bytes())
}

// Where the tree has a location, as bytes.
fn tell_place(tree: &LocTree, place: Pair, text: &mut Text) -> Result<(), Memory> {
    let place = loc(place);
    if tree.holds(&place) {
        text.extend_from_slice(&tree.root(&place).to_be_bytes())?;
        text.push(u8::from(tree.alive(&place)))?;
    }
    Ok(())
}

// All that the sites and the tree hold, as bytes.
fn tell_net(alloc: Global, net: &Net, text: &mut Text) -> Result<(), Memory> {
    for site in net.sites.iter() {
        tell_all(alloc, site, text)?;
    }
    tell_place(&net.tree, (0, 0), text)?;
    tell_place(&net.tree, M, text)?;
    tell_place(&net.tree, (1, 0), text)
}

// The same in a text of its own.
fn told(alloc: Global, net: &Net) -> Result<Text, Memory> {
    let mut text = Items::new(alloc);
    tell_net(alloc, net, &mut text)?;
    Ok(text)
}

// That nothing but memory was wanting.
fn expect_memory(rt: &impl Abort, fault: Fault) {
    assert_eq!(rt; fault, Fault::Memory);
}

// Whether the location is made to move.
fn goes(rt: &impl Abort, alloc: Global, net: &mut Net) -> bool {
    match moved_on(alloc, net, 0, (0, 10)) {
        Ok(effects) => {
            drop(effects);
            true
        }
        Err(fault) => {
            expect_memory(rt, fault);
            false
        }
    }
}

// Whether they hold the same as before.
fn is_told(alloc: Global, net: &Net, before: &[u8]) -> Result<bool, Memory> {
    let after = told(alloc, net)?;
    Ok(after.as_slice() == before)
}

// Whether the location moved; where memory ran out on the way, the sites and the tree are as they
// were.
fn has_moved(rt: &impl Abort, alloc: Global, net: &mut Net) -> Result<bool, Memory> {
    let before = told(alloc, net)?;
    let moved = goes(rt, alloc, net);
    let same = is_told(alloc, net, before.as_slice())?;
    assert!(rt; same == !moved);
    Ok(moved)
}

// It stands at the second site, with all that stood there.
const ALL_THERE: &[Step] = &[
    Step::Tree(Place::Stands(M, 1, true)),
    Step::Has(0, Fact::Hosts(M, false)),
    Step::See(0, Look::Has(M, 0, &[])),
    Step::See(
        1,
        Look::Has(M, 2, &[(0, 8), (0, 9), (1, 4), (0, 7), (0, 11), (0, 12)]),
    ),
];

fn all_there() -> &'static [Step] {
    ALL_THERE
}

// Whether the location moved, with all that stands there.
fn moves(rt: &impl Abort, alloc: Global) -> Result<bool, Fault> {
    let mut net = net_of(alloc, traveller())?;
    let moved = has_moved(rt, alloc, &mut net)?;
    if moved {
        go(alloc, &mut net, all_there())?;
    }
    Ok(moved)
}

// It says how it ended. Where all memory is there, the location moves.
#[test]
fn a_move_is_whole_or_not_made(rt: HostRuntime) -> Result<(), Fail> {
    let ended = match moves(&rt, rt.alloc()) {
        Ok(true) => "moved",
        Ok(false) => "as before",
        Err(fault) => {
            expect_memory(&rt, fault);
            "beside the move"
        }
    };
    println!(rt; "{ended}")?;
    Ok(())
}
