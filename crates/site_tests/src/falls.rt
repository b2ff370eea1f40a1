// Locations that move into dead sites. The expected values were worked out by hand from the
// numbering.

use crate::expected::run;
use std::test::Fail;
use worked_sites::{Change, Deed, Fact, Leaves, Look, Pair, Place, Step};

// The location that falls.
const M: Pair = (0, 1);

// The location is 0.1, its channels 0.2 and 0.3 with the rule 0.4. There wait 0.5 on `p` and the
// requests 0.6 to go and 0.7 to halt. The other site halts by 1.1.
fn faller() -> &'static [u8] {
    b"version 2; observe out/1; \
        site a [ m[ p(u) | k() => out(u) : p(b) | go(b, k) | halt() ] : 0 ] \
        site b [ none : halt() ]"
}

// A message to the location is under way when it falls. It is sent on to the dead site, and waits
// there; the continuation doesn't come, nothing reacts, and nothing halts.
const FALLS: &[Step] = &[
    Step::See(0, Look::MayGo(2, (0, 6), true)),
    Step::Change(1, Change::Halts((1, 1))),
    Step::See(0, Look::MayGo(1, (0, 6), false)),
    Step::See(0, Look::MayGo(2, (0, 6), true)),
    Step::Mail((7, 7), ((0, 3), M), None),
    Step::Across(0, (0, 6)),
    Step::Tree(Place::Stands(M, 1, false)),
    Step::Has(0, Fact::Hosts(M, false)),
    Step::Has(1, Fact::Made(2)),
    Step::See(1, Look::Has(M, 1, &[(0, 5), (0, 7)])),
    Step::GoesOn(0, 1),
    Step::Arrives(1),
    Step::See(1, Look::Has(M, 1, &[(0, 5), (7, 7), (0, 7)])),
    Step::See(1, Look::Quiet),
    Step::See(1, Look::MayHalt((0, 7), false)),
];

fn falls() -> &'static [Step] {
    FALLS
}

#[test]
fn a_location_with_all_that_it_holds(rt: HostRuntime) -> Result<(), Fail> {
    run(&rt, rt.alloc(), faller(), falls())
}

// The channel `d` is 0.1 with the rule 0.4, the location 0.2, its request 0.6, and the request 0.7
// asks whether it is dead. The other site halts by 1.1.
fn watched() -> &'static [u8] {
    b"version 2; observe out/0; \
        site a [ m[ k() => out() : go(b, k) ] and d() => out() : fail(m, d) ] \
        site b [ none : halt() ]"
}

// The death is detected, by 0.8.
const IS_SEEN: &[Step] = &[
    Step::Change(1, Change::Halts((1, 1))),
    Step::See(0, Look::FindsDead((0, 7), false)),
    Step::Across(0, (0, 6)),
    Step::See(0, Look::FindsDead((0, 7), true)),
    Step::Make(0, Deed::Detects((0, 7)), Leaves::Nothing),
    Step::React(0, (0, 4), &[(0, 8)], Leaves::Sizes([0, 1, 0])),
    Step::See(0, Look::Quiet),
    Step::See(1, Look::Quiet),
];

fn is_seen() -> &'static [Step] {
    IS_SEEN
}

#[test]
fn a_fall_is_detected(rt: HostRuntime) -> Result<(), Fail> {
    run(&rt, rt.alloc(), watched(), is_seen())
}
