// Numbers, and the operations on them.

use crate::build::{Definition, NOTHING, Process, Site};
use crate::expect::{Fact, expect_in};
use crate::steps::Step;
use chem_model::{AtomId, Loc, Name, Ref};

const ROOT: Loc = Loc { site: 0, k: 0 };

const ADD: Ref = Ref::Known(Name::Op(0));

const SAME: Ref = Ref::Known(Name::Op(1));

const OUT: Ref = Ref::Known(Name::Seen(0));

const ONE: Ref = Ref::Known(Name::Num(1));

const TWO: Ref = Ref::Known(Name::Num(2));

const THREE: Ref = Ref::Known(Name::Num(3));

const SEVEN: Ref = Ref::Known(Name::Num(7));

const LARGEST: Ref = Ref::Known(Name::Num(18_446_744_073_709_551_615));

const A_SUM: &[Site] = &[(
    0,
    &[Definition::Rule(1, &[2], Process::Out(2))],
    Process::Say(ADD, &[TWO, THREE, Ref::Binder(1)]),
)];

// `site s [ k(u) => out(u) : add(2, 3, k) ]`: the sum is the one message of the opening.
#[test]
fn a_sum(rt: HostRuntime) {
    let opened = &[
        Fact::Counts(&[4]),
        Fact::Lengths(1, 1, 1, 0),
        Fact::Atom(0, AtomId { site: 0, k: 3 }, ROOT),
    ];
    expect_in(&rt, rt.alloc(), 2, A_SUM, &[], opened);
    let told = &[
        Fact::Counts(&[4]),
        Fact::Lengths(1, 1, 0, 1),
        Fact::Out(0, Name::Num(5)),
    ];
    let steps = &[Step::React(2, AtomId { site: 0, k: 3 })];
    expect_in(&rt, rt.alloc(), 2, A_SUM, steps, told);
}

const A_SUM_THAT_IS_SEEN: &[Site] = &[(0, &[], Process::Say(ADD, &[TWO, THREE, OUT]))];

// `site s [ none : add(2, 3, out) ]`: it takes no number.
#[test]
fn a_sum_that_is_seen(rt: HostRuntime) {
    let opened = &[
        Fact::Counts(&[1]),
        Fact::Lengths(1, 0, 0, 1),
        Fact::Out(0, Name::Num(5)),
    ];
    expect_in(&rt, rt.alloc(), 2, A_SUM_THAT_IS_SEEN, &[], opened);
}

const A_SUM_FOR_ANOTHER_SITE: &[Site] = &[
    (0, &[], Process::Say(ADD, &[TWO, THREE, Ref::Binder(2)])),
    (1, &[Definition::Rule(2, &[3], NOTHING)], NOTHING),
];

// `site s [ none : add(2, 3, k) ] site t [ k(u) => 0 : 0 ]`: the sum stands at the other site, and
// has a number of the one that poured it.
#[test]
fn a_sum_for_another_site(rt: HostRuntime) {
    let opened = &[
        Fact::Counts(&[2, 3]),
        Fact::Lengths(2, 1, 1, 0),
        Fact::Atom(0, AtomId { site: 0, k: 1 }, Loc { site: 1, k: 0 }),
    ];
    expect_in(&rt, rt.alloc(), 2, A_SUM_FOR_ANOTHER_SITE, &[], opened);
}

const NO_SUMS: &[Site] = &[(
    0,
    &[],
    Process::All(&[
        Process::Say(ADD, &[LARGEST, ONE, OUT]),
        Process::Say(ADD, &[Ref::Binder(0), ONE, OUT]),
        Process::Say(ADD, &[ONE, TWO, SEVEN]),
    ]),
)];

// `site s [ none : add(18446744073709551615, 1, out) | add(s, 1, out) | add(1, 2, u) ]`, where 7
// stands for `u`: two messages on the operation stay, and one on a number.
#[test]
fn no_sums(rt: HostRuntime) {
    let opened = &[
        Fact::Counts(&[4]),
        Fact::Lengths(1, 0, 3, 0),
        Fact::Atom(2, AtomId { site: 0, k: 3 }, ROOT),
    ];
    expect_in(&rt, rt.alloc(), 2, NO_SUMS, &[], opened);
}

const COMPARED: &[Site] = &[(
    0,
    &[Definition::Rule(1, &[], NOTHING)],
    Process::All(&[
        Process::Say(SAME, &[SEVEN, SEVEN, Ref::Binder(1), Ref::Binder(0)]),
        Process::Say(SAME, &[SEVEN, TWO, Ref::Binder(1), Ref::Binder(0)]),
        Process::Say(SAME, &[Ref::Binder(0), Ref::Binder(0), OUT, OUT]),
    ]),
)];

// `site s [ x() => 0 : same(7, 7, x, s) | same(7, 2, x, s) | same(s, s, out, out) ]`: the first is
// a message for the rule, the second one on a location, and the third stays.
#[test]
fn compared(rt: HostRuntime) {
    let steps = &[Step::React(2, AtomId { site: 0, k: 3 })];
    let left = &[
        Fact::Counts(&[6]),
        Fact::Lengths(1, 1, 2, 0),
        Fact::Atom(0, AtomId { site: 0, k: 4 }, ROOT),
        Fact::Atom(1, AtomId { site: 0, k: 5 }, ROOT),
    ];
    expect_in(&rt, rt.alloc(), 2, COMPARED, steps, left);
}

const THREE_SUMS: &[Site] = &[(
    0,
    &[Definition::Rule(
        1,
        &[2],
        Process::All(&[
            Process::Say(ADD, &[Ref::Binder(2), ONE, OUT]),
            Process::Say(ADD, &[Ref::Binder(2), TWO, Ref::Binder(1)]),
            Process::Say(ADD, &[Ref::Binder(2), THREE, OUT]),
        ]),
    )],
    Process::Say(Ref::Binder(1), &[ONE]),
)];

// `site s [ n(u) => add(u, 1, out) | add(u, 2, n) | add(u, 3, out) : n(1) ]`: a chain of sums,
// three in each pouring, which takes one number.
#[test]
fn three_sums(rt: HostRuntime) {
    let steps = &[
        Step::React(2, AtomId { site: 0, k: 3 }),
        Step::React(2, AtomId { site: 0, k: 4 }),
    ];
    let made = &[
        Fact::Counts(&[6]),
        Fact::Lengths(1, 1, 1, 4),
        Fact::Out(0, Name::Num(2)),
        Fact::Out(1, Name::Num(4)),
        Fact::Out(2, Name::Num(4)),
        Fact::Out(3, Name::Num(6)),
    ];
    expect_in(&rt, rt.alloc(), 2, THREE_SUMS, steps, made);
}
