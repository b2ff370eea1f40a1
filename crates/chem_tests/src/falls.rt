// Moves into dead sites.

use crate::build::{Definition, NOTHING, Process, Site};
use crate::expect::{Fact, expect_in, expect_refused_in};
use crate::steps::Step;
use chem_model::{AtomId, Loc, Placed};

const A_FALL: &[Site] = &[
    (
        0,
        &[
            Definition::Place(1, &[Definition::Rule(2, &[], NOTHING)], Process::Go(4, 2)),
            Definition::Rule(3, &[], NOTHING),
        ],
        Process::Fail(1, 3),
    ),
    (4, &[], Process::Halt),
];

const HALTED: Step = Step::HaltOf(AtomId { site: 1, k: 1 });

// `site a [ m[ k() => 0 : go(b, k) ] and d() => 0 : fail(m, d) ] site b [ none : halt() ]`: the
// place falls with the site that has halted, its continuation doesn't come, and the fall is
// detected.
#[test]
fn a_fall(rt: HostRuntime) {
    let fallen = &[
        Fact::Counts(&[8, 2]),
        Fact::Lengths(3, 2, 1, 0),
        Fact::Place(
            2,
            Placed {
                loc: Loc { site: 0, k: 2 },
                host: Some(Loc { site: 1, k: 0 }),
                marked: false,
            },
        ),
        Fact::Atom(0, AtomId { site: 0, k: 7 }, Loc { site: 0, k: 0 }),
    ];
    let steps = &[HALTED, Step::Move(6)];
    expect_in(&rt, rt.alloc(), 2, A_FALL, steps, fallen);
    let told = &[Fact::Counts(&[9, 2]), Fact::Lengths(3, 2, 0, 0)];
    let steps = &[
        HALTED,
        Step::Move(6),
        Step::Detect(7),
        Step::React(4, AtomId { site: 0, k: 8 }),
    ];
    expect_in(&rt, rt.alloc(), 2, A_FALL, steps, told);
}

// In version 1 the request stays, and so does the one that waits for a failure.
#[test]
fn no_fall(rt: HostRuntime) {
    expect_refused_in(&rt, rt.alloc(), 1, A_FALL, &[HALTED, Step::Move(6)]);
    expect_refused_in(&rt, rt.alloc(), 1, A_FALL, &[HALTED, Step::Detect(7)]);
}

const BELOW_THE_DEAD: &[Site] = &[
    (
        0,
        &[Definition::Place(1, &[Definition::Rule(2, &[], NOTHING)], Process::Go(5, 2))],
        NOTHING,
    ),
    (
        4,
        &[Definition::Place(5, &[Definition::Rule(6, &[], NOTHING)], NOTHING)],
        Process::Halt,
    ),
];

// `site a [ m[ k() => 0 : go(n, k) ] : 0 ] site b [ n[ x() => 0 : 0 ] : halt() ]`: a dead location
// that is no root takes nobody in.
#[test]
fn no_fall_below_a_dead_root(rt: HostRuntime) {
    let steps = &[Step::HaltOf(AtomId { site: 1, k: 4 }), Step::Move(4)];
    expect_refused_in(&rt, rt.alloc(), 2, BELOW_THE_DEAD, steps);
}
