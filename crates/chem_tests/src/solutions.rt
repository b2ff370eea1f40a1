// Sites over which the tests go.

use crate::build::{Definition, NOTHING, Process, Site};

const A_PLACE_THAT_LEAVES: &[Site] = &[
    (
        0,
        &[Definition::Place(
            1,
            &[Definition::Rule(2, &[], Process::Out(1))],
            Process::Go(3, 2),
        )],
        NOTHING,
    ),
    (3, &[], NOTHING),
];

// `site a [ m[ k() => out(m) : go(b, k) ] : 0 ] site b [ none : 0 ]`, in which `a`, `m`, `k` and
// `b` are the binders 0 to 3.
pub fn a_place_that_leaves() -> &'static [Site] {
    A_PLACE_THAT_LEAVES
}

const SITES_THAT_TELL: &[Site] = &[
    (
        0,
        &[Definition::Place(1, &[], Process::Out(1))],
        Process::Out(0),
    ),
    (
        2,
        &[Definition::Place(3, &[], Process::Out(3))],
        Process::Out(2),
    ),
];

// `site a [ m[ none : out(m) ] : out(a) ] site b [ n[ none : out(n) ] : out(b) ]`, in which `a`,
// `m`, `b` and `n` are the binders 0 to 3.
pub fn sites_that_tell() -> &'static [Site] {
    SITES_THAT_TELL
}

const A_PLACE_THAT_SENDS: &[Site] = &[(
    0,
    &[],
    Process::Def(
        &[
            Definition::Place(1, &[], Process::Signal(3)),
            Definition::Place(2, &[Definition::Rule(3, &[], NOTHING)], NOTHING),
        ],
        &NOTHING,
    ),
)];

// `site s [ none : def m[ none : k() ] and n[ k() => 0 : 0 ] in 0 ]`, in which `s`, `m`, `n` and
// `k` are the binders 0 to 3.
pub fn a_place_that_sends() -> &'static [Site] {
    A_PLACE_THAT_SENDS
}

const CHANNELS_TO_COME: &[Site] = &[(
    0,
    &[Definition::Rule(
        1,
        &[],
        Process::Def(&[Definition::Rule(2, &[], NOTHING)], &Process::Out(2)),
    )],
    Process::All(&[Process::Signal(1), Process::Signal(1)]),
)];

// `site s [ x() => def y() => 0 in out(y) : x() & x() ]`, in which `s`, `x` and `y` are the
// binders 0 to 2.
pub fn channels_to_come() -> &'static [Site] {
    CHANNELS_TO_COME
}

const A_PLACE_TO_COME: &[Site] = &[(
    0,
    &[Definition::Rule(
        1,
        &[],
        Process::Def(
            &[
                Definition::Place(2, &[Definition::Rule(3, &[], NOTHING)], Process::Signal(3)),
                Definition::Rule(4, &[], NOTHING),
            ],
            &Process::Signal(4),
        ),
    )],
    Process::Signal(1),
)];

// `site s [ x() => def p[ z() => 0 : z() ] and y() => 0 in y() : x() ]`, in which `s`, `x`, `p`,
// `z` and `y` are the binders 0 to 4.
pub fn a_place_to_come() -> &'static [Site] {
    A_PLACE_TO_COME
}

const A_PLACE_THAT_HALTS: &[Site] = &[(
    0,
    &[
        Definition::Place(1, &[], Process::Halt),
        Definition::Rule(2, &[], NOTHING),
    ],
    Process::Fail(1, 2),
)];

// `site s [ m[ none : halt() ] and d() => 0 : fail(m, d) ]`, in which `s`, `m` and `d` are the
// binders 0 to 2.
pub fn a_place_that_halts() -> &'static [Site] {
    A_PLACE_THAT_HALTS
}

const NOTHING_TO_HAPPEN: &[Site] = &[(
    0,
    &[
        Definition::Rule(1, &[2], NOTHING),
        Definition::Place(3, &[], Process::Go(1, 1)),
    ],
    Process::All(&[Process::Signal(1), Process::Go(0, 1)]),
)];

// `site s [ x(u) => 0 and m[ none : go(x, x) ] : x() & go(s, x) ]`, in which `s`, `x`, `u` and
// `m` are the binders 0 to 3.
pub fn nothing_to_happen() -> &'static [Site] {
    NOTHING_TO_HAPPEN
}
