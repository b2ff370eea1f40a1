// The numbers that openings draw.

use crate::expect::{Fact, expect_after};
use crate::solutions::{a_place_that_leaves, a_place_that_sends, sites_that_tell};
use chem_model::{AtomId, Loc, Name, Placed, RuleId};

// The place `m` of the site `a`.
const M: Loc = Loc { site: 0, k: 1 };

fn with_a_place() -> &'static [Fact] {
    &[
        Fact::Counts(&[5, 1]),
        Fact::Lengths(3, 1, 1, 0),
        Fact::Place(
            2,
            Placed {
                loc: M,
                host: Some(Loc { site: 0, k: 0 }),
                marked: false,
            },
        ),
        Fact::Name(Name::Place(M), 1),
        Fact::Name(
            Name::Chan {
                site: 0,
                k: 2,
                home: M,
            },
            2,
        ),
        Fact::Name(Name::Place(Loc { site: 1, k: 0 }), 3),
        Fact::Rule(0, RuleId { site: 0, k: 3 }, M),
        Fact::Atom(0, AtomId { site: 0, k: 4 }, M),
    ]
}

// `site a [ m[ k() => out(m) : go(b, k) ] : 0 ] site b [ none : 0 ]`.
#[test]
fn two_sites_and_a_place(rt: HostRuntime) {
    expect_after(&rt, rt.alloc(), a_place_that_leaves(), &[], with_a_place());
}

fn told() -> &'static [Fact] {
    &[
        Fact::Counts(&[2, 2]),
        Fact::Lengths(4, 0, 0, 4),
        Fact::Out(0, Name::Place(Loc { site: 0, k: 1 })),
        Fact::Out(1, Name::Place(Loc { site: 0, k: 0 })),
        Fact::Out(2, Name::Place(Loc { site: 1, k: 1 })),
        Fact::Out(3, Name::Place(Loc { site: 1, k: 0 })),
    ]
}

// The trace is `m`, `a`, `n`, `b`: of each site first what its places pour, and then its process.
#[test]
fn the_order_of_an_opening(rt: HostRuntime) {
    expect_after(&rt, rt.alloc(), sites_that_tell(), &[], told());
}

// The place `n`.
const N: Loc = Loc { site: 0, k: 2 };

fn with_a_message() -> &'static [Fact] {
    &[
        Fact::Counts(&[6]),
        Fact::Lengths(3, 1, 1, 0),
        Fact::Name(
            Name::Chan {
                site: 0,
                k: 3,
                home: N,
            },
            3,
        ),
        Fact::Atom(0, AtomId { site: 0, k: 4 }, N),
        Fact::Rule(0, RuleId { site: 0, k: 5 }, N),
    ]
}

// `site s [ none : def m[ none : k() ] and n[ k() => 0 : 0 ] in 0 ]`: the message is put before
// the rule, at `n`.
#[test]
fn a_message_before_its_rule(rt: HostRuntime) {
    expect_after(&rt, rt.alloc(), a_place_that_sends(), &[], with_a_message());
}
