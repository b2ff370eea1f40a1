// Locations that move, halt and are found dead. The expected values were worked out by hand from
// the numbering and the format of packets.

use crate::expected::{go, run};
use chem_model::{Loc, Memory, Name, Text};
use std::alloc::Global;
use std::process::Abort;
use std::test::Fail;
use wire_packet::Parcel;
use worked_sites::{
    Change, Deed, Fact, Fault, Leaves, Look, Net, Pair, Place, Step, loc, net_of, packed,
    take_in_at,
};

// The location that moves.
const M: Pair = (0, 1);

// The location is 0.1, its channel 0.2 with the rule 0.3, and its request 0.4.
fn mover() -> &'static [u8] {
    b"observe out/1; site a [ m[ k() => out(m) : go(b, k) ] : 0 ] site b [ none : 0 ]"
}

// The location 0.1 with a group of level 1, the first channel 0.2 and the first rule 0.3.
fn parcel() -> &'static [u8] {
    &[
        2, 0, 0, 0, 0, 0, 0, 0, 0, 0, 0, 0, 1, 0, 0, 0, 1, 0, 0, 0, 1, 0, 0, 0, 0, 0, 0, 0, 0, 0,
        0, 0, 2, 0, 0, 0, 0, 0, 0, 0, 0, 0, 0, 0, 3, 0, 0, 0, 0, 0, 0, 0, 0, 0, 0, 0, 0,
    ]
}

// Its request is dropped.
const BEFORE_IT_IS_CARRIED: &[Step] = &[Step::Change(0, Change::Drops((0, 4)))];

fn before_it_is_carried() -> &'static [Step] {
    BEFORE_IT_IS_CARRIED
}

// It stands at the first site as these bytes.
fn expect_bytes(rt: &impl Abort, alloc: Global, net: &Net) -> Result<(), Memory> {
    let bytes = at_first(alloc, net)?;
    assert!(rt; bytes.as_slice() == parcel());
    Ok(())
}

// What stands there, as bytes.
fn at_first(alloc: Global, net: &Net) -> Result<Text, Memory> {
    match net.sites.get(0) {
        Some(from) => packed(alloc, from, loc(M)),
        None => Err(Memory),
    }
}

// A copy of what stands there.
fn parcel_of(alloc: Global, net: &Net) -> Result<Parcel, Memory> {
    match net.sites.get(0) {
        Some(from) => from.pack(alloc, &loc(M)),
        None => Err(Memory),
    }
}

// It is copied at the first site and taken in at the second one.
fn carries(alloc: Global, net: &mut Net) -> Result<(), Fault> {
    let parcel = parcel_of(alloc, net)?;
    match net.sites.get_mut(1) {
        Some(into) => take_in_at(alloc, into, &net.code, &parcel),
        None => Err(Fault::Unmet),
    }
}

const AFTER_IT_IS_CARRIED: &[Step] = &[
    Step::Has(1, Fact::Hosts(M, true)),
    Step::See(1, Look::Has(M, 1, &[])),
];

fn after_it_is_carried() -> &'static [Step] {
    AFTER_IT_IS_CARRIED
}

#[test]
fn a_location_in_a_parcel(rt: HostRuntime) -> Result<(), Fail> {
    let mut net = net_of(rt.alloc(), mover())?;
    go(&rt, rt.alloc(), &mut net, before_it_is_carried())?;
    expect_bytes(&rt, rt.alloc(), &net)?;
    carries(rt.alloc(), &mut net)?;
    go(&rt, rt.alloc(), &mut net, after_it_is_carried())?;
    Ok(())
}

// After the move the continuation is 1.1. A message that comes to the first site then follows.
const TO_THE_OTHER_SITE: &[Step] = &[
    Step::Across(0, (0, 4)),
    Step::Tree(Place::Stands(M, 1, true)),
    Step::Has(0, Fact::Hosts(M, false)),
    Step::See(1, Look::Has(M, 1, &[(1, 1)])),
    Step::Mail((7, 7), ((0, 2), M), None),
    Step::GoesOn(0, 1),
    Step::Arrives(1),
    Step::See(1, Look::Has(M, 1, &[(1, 1), (7, 7)])),
    Step::React(1, (0, 3), &[(1, 1)], Leaves::Observed(M)),
];

fn to_the_other_site() -> &'static [Step] {
    TO_THE_OTHER_SITE
}

#[test]
fn a_move_between_sites(rt: HostRuntime) -> Result<(), Fail> {
    run(&rt, rt.alloc(), mover(), to_the_other_site())
}

fn neighbours() -> &'static [u8] {
    b"site a [ m[ k() => 0 : go(a, k) ] and n[ j() => 0 : go(m, j) ] : 0 ]"
}

// The locations are 0.1 and 0.3, with the requests 0.6 and 0.8; the target of the second one is no
// site.
const TO_THE_PRESENT_HOST: &[Step] = &[
    Step::Make(0, Deed::Goes((0, 6)), Leaves::Nothing),
    Step::Tree(Place::Stands(M, 0, true)),
    Step::See(0, Look::Has(M, 1, &[(0, 9)])),
    Step::See(0, Look::Has((0, 3), 1, &[(0, 8)])),
    Step::See(0, Look::MayGo(1, (0, 8), false)),
    Step::React(0, (0, 5), &[(0, 9)], Leaves::Nothing),
];

fn to_the_present_host() -> &'static [Step] {
    TO_THE_PRESENT_HOST
}

#[test]
fn a_move_to_the_present_host(rt: HostRuntime) -> Result<(), Fail> {
    run(&rt, rt.alloc(), neighbours(), to_the_present_host())
}

fn watched() -> &'static [u8] {
    b"observe out/0; site a [ m[ k() => 0 : go(b, k) ] and d() => out() : fail(m, d) ] \
        site b [ none : 0 ]"
}

// The channel `d` is 0.1, the location 0.2, and the request 0.7 asks whether it is dead.
const DIES: &[Step] = &[
    Step::Tree(Place::Killed((0, 2))),
    Step::Make(0, Deed::Detects((0, 7)), Leaves::Nothing),
    Step::See(0, Look::Has((0, 0), 1, &[(0, 8)])),
    Step::React(0, (0, 4), &[(0, 8)], Leaves::Sizes([0, 1, 0])),
];

fn dies() -> &'static [Step] {
    DIES
}

#[test]
fn a_dead_location_is_detected(rt: HostRuntime) -> Result<(), Fail> {
    run(&rt, rt.alloc(), watched(), dies())
}

// The location is 0.1, with the channels 0.2 to 0.4 under the rule 0.5, and 0.6 and 0.7 under the
// rule 0.8 that its process makes. There wait 0.9 on `z`, and 0.10 and 0.11 on `p`; the requests
// are 0.12 and 0.13 to go, 0.14 to detect and 0.15 to halt. The site asks to halt by 0.16.
fn traveller() -> &'static [u8] {
    b"observe out/1; \
      site a [ m[ p(u) | k() | f() => out(u) : \
        def z(u) | g() => out(u) in \
        z(m) | p(b) | p(c) | go(b, k) | go(c, k) | fail(a, k) | halt() ] : halt() ] \
      site b [ none : 0 ] \
      site c [ none : 0 ]"
}

// The channel `f` of the location.
const F: Name = Name::Chan {
    site: 0,
    k: 4,
    home: Loc { site: 0, k: 1 },
};

// The location moves twice, with the continuations 1.1 and 2.1. A message that the first site
// sends after the first move is 0.17; it comes to the second site after the second move, and
// follows.
const TRAVELS: &[Step] = &[
    Step::Across(0, (0, 12)),
    Step::See(
        1,
        Look::Has(
            M,
            2,
            &[(0, 10), (0, 11), (1, 1), (0, 9), (0, 13), (0, 14), (0, 15)],
        ),
    ),
    Step::Make(0, Deed::Pours(F, None), Leaves::Sent(1)),
    Step::Across(1, (0, 13)),
    Step::GoesOn(1, 2),
    Step::Arrives(2),
    Step::Tree(Place::Stands(M, 2, true)),
    Step::See(
        2,
        Look::Has(
            M,
            2,
            &[
                (0, 10),
                (0, 11),
                (1, 1),
                (2, 1),
                (0, 17),
                (0, 9),
                (0, 14),
                (0, 15),
            ],
        ),
    ),
];

fn travels() -> &'static [Step] {
    TRAVELS
}

const REACTS_THERE: &[Step] = &[Step::React(
    2,
    (0, 5),
    &[(0, 10), (1, 1), (0, 17)],
    Leaves::Observed((1, 0)),
)];

fn reacts_there() -> &'static [Step] {
    REACTS_THERE
}

#[test]
fn a_location_moves_twice(rt: HostRuntime) -> Result<(), Fail> {
    let mut net = net_of(rt.alloc(), traveller())?;
    go(&rt, rt.alloc(), &mut net, travels())?;
    go(&rt, rt.alloc(), &mut net, reacts_there())?;
    Ok(())
}

// The first site halts, and not the location that moved away, which detects it by 2.2 and then
// halts itself.
const THE_FIRST_SITE_HALTS: &[Step] = &[
    Step::Change(0, Change::Halts((0, 16))),
    Step::Tree(Place::Stands((0, 0), 0, false)),
    Step::Tree(Place::Stands(M, 2, true)),
    Step::React(
        2,
        (0, 5),
        &[(0, 10), (1, 1), (0, 17)],
        Leaves::Observed((1, 0)),
    ),
    Step::Make(2, Deed::Detects((0, 14)), Leaves::Nothing),
    Step::See(
        2,
        Look::Has(M, 2, &[(0, 11), (2, 1), (2, 2), (0, 9), (0, 15)]),
    ),
    Step::Change(2, Change::Halts((0, 15))),
    Step::Tree(Place::Stands(M, 2, false)),
    Step::See(2, Look::Quiet),
];

fn the_first_site_halts() -> &'static [Step] {
    THE_FIRST_SITE_HALTS
}

#[test]
fn the_old_site_halts(rt: HostRuntime) -> Result<(), Fail> {
    let mut net = net_of(rt.alloc(), traveller())?;
    go(&rt, rt.alloc(), &mut net, travels())?;
    go(&rt, rt.alloc(), &mut net, the_first_site_halts())?;
    Ok(())
}
