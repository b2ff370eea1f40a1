// The numbers that events draw, and events that aren't possible.

use crate::expect::{Fact, expect_after, expect_refused};
use crate::solutions::{
    a_place_that_halts, a_place_that_leaves, a_place_to_come, channels_to_come, nothing_to_happen,
};
use crate::steps::Step;
use chem_model::{AtomId, Loc, Name, Placed, RuleId};

const ROOT: Loc = Loc { site: 0, k: 0 };

// The place `m` of the site `a`.
const LEFT: Loc = Loc { site: 0, k: 1 };

fn moved() -> &'static [Fact] {
    &[
        Fact::Counts(&[5, 2]),
        Fact::Lengths(3, 1, 1, 0),
        Fact::Place(
            2,
            Placed {
                loc: LEFT,
                host: Some(Loc { site: 1, k: 0 }),
                marked: false,
            },
        ),
        Fact::Atom(0, AtomId { site: 1, k: 1 }, LEFT),
    ]
}

// `site a [ m[ k() => out(m) : go(b, k) ] : 0 ] site b [ none : 0 ]`: the message that the request
// becomes is numbered by the new root's site.
#[test]
fn a_move_between_sites(rt: HostRuntime) {
    let steps = &[Step::Move(4)];
    expect_after(&rt, rt.alloc(), a_place_that_leaves(), steps, moved());
}

fn told_by_what_moved() -> &'static [Fact] {
    &[
        Fact::Counts(&[5, 2]),
        Fact::Lengths(3, 1, 0, 1),
        Fact::Out(0, Name::Place(LEFT)),
    ]
}

// The rule that moved with its location takes that message.
#[test]
fn a_rule_that_moved(rt: HostRuntime) {
    let steps = &[Step::Move(4), Step::React(3, AtomId { site: 1, k: 1 })];
    expect_after(
        &rt,
        rt.alloc(),
        a_place_that_leaves(),
        steps,
        told_by_what_moved(),
    );
}

fn two_channels() -> &'static [Fact] {
    &[
        Fact::Counts(&[9]),
        Fact::Lengths(1, 3, 0, 2),
        Fact::Out(
            0,
            Name::Chan {
                site: 0,
                k: 5,
                home: ROOT,
            },
        ),
        Fact::Out(
            1,
            Name::Chan {
                site: 0,
                k: 7,
                home: ROOT,
            },
        ),
        Fact::Rule(2, RuleId { site: 0, k: 8 }, ROOT),
    ]
}

// `site s [ x() => def y() => 0 in out(y) : x() & x() ]`: each reaction makes a channel of its
// own.
#[test]
fn a_fresh_channel(rt: HostRuntime) {
    let steps = &[
        Step::React(2, AtomId { site: 0, k: 3 }),
        Step::React(2, AtomId { site: 0, k: 4 }),
    ];
    expect_after(&rt, rt.alloc(), channels_to_come(), steps, two_channels());
}

// The place that is born.
const BORN: Loc = Loc { site: 0, k: 5 };

fn with_a_birth() -> &'static [Fact] {
    &[
        Fact::Counts(&[11]),
        Fact::Lengths(2, 3, 2, 0),
        Fact::Place(
            1,
            Placed {
                loc: BORN,
                host: Some(ROOT),
                marked: false,
            },
        ),
        Fact::Rule(1, RuleId { site: 0, k: 7 }, ROOT),
        Fact::Rule(2, RuleId { site: 0, k: 8 }, BORN),
        Fact::Atom(0, AtomId { site: 0, k: 9 }, BORN),
        Fact::Atom(1, AtomId { site: 0, k: 10 }, ROOT),
    ]
}

// `site s [ x() => def p[ z() => 0 : z() ] and y() => 0 in y() : x() ]`.
#[test]
fn a_place_that_is_born(rt: HostRuntime) {
    let steps = &[Step::React(2, AtomId { site: 0, k: 3 })];
    expect_after(&rt, rt.alloc(), a_place_to_come(), steps, with_a_birth());
}

// The place is marked.
fn halted() -> &'static [Fact] {
    &[Fact::Place(
        1,
        Placed {
            loc: Loc { site: 0, k: 2 },
            host: Some(ROOT),
            marked: true,
        },
    )]
}

fn told_of_the_halt() -> &'static [Fact] {
    &[
        Fact::Counts(&[7]),
        Fact::Lengths(2, 1, 1, 0),
        Fact::Atom(0, AtomId { site: 0, k: 6 }, ROOT),
    ]
}

// `site s [ m[ none : halt() ] and d() => 0 : fail(m, d) ]`.
#[test]
fn a_halt_and_its_failure(rt: HostRuntime) {
    let sites = a_place_that_halts();
    expect_after(&rt, rt.alloc(), sites, &[Step::Halt(4)], halted());
    let steps = &[Step::Halt(4), Step::Detect(5)];
    expect_after(&rt, rt.alloc(), sites, steps, told_of_the_halt());
}

// A failure is detected only where the location is dead.
#[test]
fn no_failure_before_a_halt(rt: HostRuntime) {
    expect_refused(&rt, rt.alloc(), a_place_that_halts(), Step::Detect(5));
}

fn unchanged() -> &'static [Fact] {
    &[Fact::Counts(&[7]), Fact::Lengths(2, 1, 3, 0)]
}

// `site s [ x(u) => 0 and m[ none : go(x, x) ] : x() & go(s, x) ]`: a message with a wrong count
// isn't taken.
#[test]
fn a_wrong_count(rt: HostRuntime) {
    let sites = nothing_to_happen();
    expect_after(&rt, rt.alloc(), sites, &[], unchanged());
    expect_refused(
        &rt,
        rt.alloc(),
        sites,
        Step::React(3, AtomId { site: 0, k: 5 }),
    );
}

// There the target of the request 0.4 isn't a location, and the request 0.6 asks to move a root.
#[test]
fn moves_that_are_not_possible(rt: HostRuntime) {
    let sites = nothing_to_happen();
    expect_refused(&rt, rt.alloc(), sites, Step::Move(4));
    expect_refused(&rt, rt.alloc(), sites, Step::Move(6));
}
