// What a book sets apart, and where it looks for it: texts beside crowds, in a book and in the
// plain program. The numbers of events were counted by hand; they are the same in any order.

use crate::both::{End, Manner};
use crate::crowds::{crowd, growing};
use crate::ending::{Outcome, outcome};
use crate::pieces::{push_pieces, text_of};
use join_base::Front;
use std::alloc::Global;
use std::process::Abort;

// More events than any of these texts has.
const BUDGET: u32 = 200;

// The events of the crowd that grows.
const GROWTH: usize = 24;

// A text, and how many events it has.
#[derive(Drop)]
struct Kept {
    text: &'static [(u32, &'static str)],
    events: usize,
}

const RULES: &[Kept] = &[
    // A rule that is ready by messages alone that were set apart.
    Kept {
        text: &[
            (
                1,
                "observe out/1; site a [ x(u) | y(v) => out(u) and z(u) => 0 : ",
            ),
            (10, "x(a) | "),
            (10, "y(a) | "),
            (1, "0 ]"),
        ],
        events: 10,
    },
    // For the last of its three patterns the messages come one by one.
    Kept {
        text: &[
            (
                1,
                "observe out/1; site a [ x(u) | y(v) | w() => out(u) and t() | f() => t() | w() : ",
            ),
            (6, "x(a) | "),
            (6, "y(a) | "),
            (3, "f() | "),
            (1, "t() ]"),
        ],
        events: 6,
    },
    // Of a channel now all messages are taken, and now some come.
    Kept {
        text: &[
            (
                1,
                "observe out/1; site a [ holds(x) | get(r) => holds(x) | r(x) and show(x) => \
                out(x) : holds(a) | ",
            ),
            (20, "get(show) | "),
            (1, "0 ]"),
        ],
        events: 40,
    },
    // Each channel of the one site has the number of one of the other site.
    Kept {
        text: &[
            (1, "observe out/1; site a [ x(u) | y(v) => out(u) : "),
            (8, "x(a) | "),
            (8, "y(a) | "),
            (1, "0 ] site b [ z(u) | w(v) => out(u) : "),
            (8, "z(b) | "),
            (1, "w(b) ]"),
        ],
        events: 9,
    },
    // And where only one of both has what its rule waits for.
    Kept {
        text: &[
            (1, "observe out/1; site a [ x(u) | y(v) => out(u) : "),
            (9, "x(a) | "),
            (1, "0 ] site b [ z(u) | w(v) => out(u) : "),
            (9, "w(b) | "),
            (1, "z(b) ]"),
        ],
        events: 1,
    },
];

fn rules() -> &'static [Kept] {
    RULES
}

const MOVES: &[Kept] = &[
    // A rule with messages for each pattern, of which some have a wrong count, goes to another site
    // with its location. Only there it gets the one that it waits for.
    Kept {
        text: &[
            (
                1,
                "observe out/1; site a [ m[ x(u) | y(v) => out(u) and k() => y(b) : x(a) | x(a) | \
                go(b, k) ] and f(g) => g()",
            ),
            (15, " | g()"),
            (1, " : f(y) ] site b [ none : 0 ]"),
        ],
        events: 4,
    },
    // A rule that is ready may go away and come back.
    Kept {
        text: &[
            (
                1,
                "observe out/1; site a [ m[ x(u) | y(v) => out(u) and k() => go(a, l) and l() => \
                0 : ",
            ),
            (5, "x(a) | "),
            (5, "y(a) | "),
            (1, "go(b, k) ] : 0 ] site b [ none : 0 ]"),
        ],
        events: 9,
    },
    // Two requests of one location to move.
    Kept {
        text: &[(
            1,
            "observe out/1; site a [ m[ k() => 0 and l() => out(m) : go(b, k) | go(c, l) ] : 0 ] \
            site b [ none : 0 ] site c [ none : 0 ]",
        )],
        events: 4,
    },
    // A request that can be met may go away.
    Kept {
        text: &[(
            1,
            "observe out/1; site a [ m[ d() => out(m) and k() => 0 : fail(w, d) | go(b, k) ] and \
            w[ none : halt() ] : 0 ] site b [ none : 0 ]",
        )],
        events: 5,
    },
];

fn moves() -> &'static [Kept] {
    MOVES
}

const DEATHS: &[Kept] = &[
    // The root above the location that is watched halts.
    Kept {
        text: &[(
            1,
            "observe out/1; site a [ d() => out(m) : fail(m, d) ] site b [ m[ none : 0 ] and t() \
            => halt() : t() ]",
        )],
        events: 4,
    },
    // Twenty watch it.
    Kept {
        text: &[
            (1, "observe out/1; site a [ d() => out(m) : "),
            (20, "fail(m, d) | "),
            (1, "0 ] site b [ m[ none : 0 ] and t() => halt() : t() ]"),
        ],
        events: 42,
    },
    // The location came there before.
    Kept {
        text: &[(
            1,
            "observe out/1; site a [ m[ k() => stop() : go(b, k) ] and d() => out(m) : fail(m, d) \
            | fail(b, d) ] site b [ stop() => halt() : 0 ]",
        )],
        events: 8,
    },
    // It went away before.
    Kept {
        text: &[(
            1,
            "observe out/1; site a [ m[ k() => stop() : go(b, k) ] and stop() => halt() : 0 ] \
            site b [ d() => out(b) : fail(m, d) | fail(a, d) ]",
        )],
        events: 6,
    },
    // In version 1 a request to move to a dead site stays.
    Kept {
        text: &[(
            1,
            "observe out/1; site b [ none : halt() ] site a [ m[ k() => 0 and q() => go(b, k) : \
            fail(b, q) ] and d() => out(m) : fail(m, d) | fail(m, d) ]",
        )],
        events: 3,
    },
    // In version 2 its location dies, and this is detected twice.
    Kept {
        text: &[(
            1,
            "version 2; observe out/1; site b [ none : halt() ] site a [ m[ k() => 0 and q() => \
            go(b, k) : fail(b, q) ] and d() => out(m) : fail(m, d) | fail(m, d) ]",
        )],
        events: 8,
    },
];

fn deaths() -> &'static [Kept] {
    DEATHS
}

const NEVER: &[Kept] = &[
    // No request here can be met: what it asks for is no site, or a number, or a site asks for it.
    Kept {
        text: &[(
            1,
            "version 2; observe out/1; site a [ x(u) => go(u, k) | fail(u, k) and k() => out(a) \
            and m[ y(u) => go(u, l) and l() => out(m) : y(m) | y(k) | y(out) | y(7) ] : x(m) | \
            x(k) | x(out) | x(7) | x(a) | x(b) | go(b, k) ] site b [ none : 0 ]",
        )],
        events: 10,
    },
    // The same without numbers.
    Kept {
        text: &[(
            1,
            "observe out/1; site a [ x(u) => go(u, k) | fail(u, k) and k() => out(a) and m[ y(u) \
            => go(u, l) and l() => out(m) : y(m) | y(k) | y(out) ] : x(m) | x(k) | x(out) | x(a) \
            | x(b) | go(b, k) ] site b [ none : 0 ]",
        )],
        events: 8,
    },
];

fn never() -> &'static [Kept] {
    NEVER
}

// Texts whose events depend on which comes first. The numbers are those of runs in which always the
// event is made that comes first, beside the crowd that stays.
const RACES: &[Kept] = &[
    // Five reactions, and the halt of the site to which the location then can't move any more.
    Kept {
        text: &[
            (
                1,
                "observe out/1; site a [ m[ x(u) | y(v) => out(u) and k() => out(m) : ",
            ),
            (5, "x(a) | "),
            (5, "y(a) | "),
            (
                1,
                "go(b, k) ] and d() => out(m) : fail(m, d) ] site b [ none : halt() ]",
            ),
        ],
        events: 6,
    },
    // In version 2 it moves, dies by this, and is detected.
    Kept {
        text: &[
            (
                1,
                "version 2; observe out/1; site a [ m[ x(u) | y(v) => out(u) and k() => out(m) : ",
            ),
            (5, "x(a) | "),
            (5, "y(a) | "),
            (
                1,
                "go(b, k) ] and d() => out(m) : fail(m, d) ] site b [ none : halt() ]",
            ),
        ],
        events: 9,
    },
    // Nine reactions, what asks for the halt, the halt, and what follows from it. A message that
    // comes later stays.
    Kept {
        text: &[
            (1, "site b [ x(u) => 0 and stop() => halt() : "),
            (9, "x(b) | "),
            (1, "stop() ] site a [ d() => x(a) : fail(b, d) ]"),
        ],
        events: 13,
    },
];

fn races() -> &'static [Kept] {
    RACES
}

// How the run of a text with a crowd beside it ends.
fn outcome_beside(
    alloc: Global,
    kept: &Kept,
    beside: &[(u32, &str)],
    manner: Manner,
) -> Result<Outcome, Front> {
    let mut text = text_of(alloc, kept.text)?;
    push_pieces(&mut text, beside)?;
    outcome(alloc, text.as_slice(), manner, BUDGET)
}

// Whether both agree after a run that was quiet at the end.
fn is_quiet(outcome: &Result<Outcome, Front>) -> bool {
    match outcome {
        Ok((End::Quiet, _, agree, _)) => *agree,
        _ => false,
    }
}

// That both agree after a run that was quiet at the end, and how many events it had.
fn expect_quiet(
    rt: &impl Abort,
    alloc: Global,
    kept: &Kept,
    beside: &[(u32, &str)],
    manner: Manner,
) -> usize {
    let made = outcome_beside(alloc, kept, beside, manner);
    assert!(rt; is_quiet(&made), "{made:?}");
    made.map_or(0, |all| all.1)
}

// That it had so many.
fn expect_events(
    rt: &impl Abort,
    alloc: Global,
    kept: &Kept,
    beside: &[(u32, &str)],
    manner: Manner,
    events: usize,
) {
    let made = expect_quiet(rt, alloc, kept, beside, manner);
    assert_eq!(rt; made, events);
}

// That each text has its events in each manner, beside both crowds.
fn expect_kept(rt: &impl Abort, alloc: Global, all: &[Kept]) {
    for kept in all {
        let grown = kept.events.saturating_add(GROWTH);
        expect_events(rt, alloc, kept, crowd(), Manner::First, kept.events);
        expect_events(rt, alloc, kept, crowd(), Manner::Tried, kept.events);
        expect_events(rt, alloc, kept, crowd(), Manner::Any, kept.events);
        expect_events(rt, alloc, kept, growing(), Manner::First, grown);
        expect_events(rt, alloc, kept, growing(), Manner::Tried, grown);
        expect_events(rt, alloc, kept, growing(), Manner::Any, grown);
    }
}

#[test]
fn rules_that_are_set_apart(rt: HostRuntime) {
    expect_kept(&rt, rt.alloc(), rules());
}

#[test]
fn locations_that_go_elsewhere(rt: HostRuntime) {
    expect_kept(&rt, rt.alloc(), moves());
}

#[test]
fn deaths_that_are_seen(rt: HostRuntime) {
    expect_kept(&rt, rt.alloc(), deaths());
}

#[test]
fn requests_that_stay(rt: HostRuntime) {
    expect_kept(&rt, rt.alloc(), never());
}

// That each text has its events where always the first one is made, and that both agree in any
// order.
fn expect_races(rt: &impl Abort, alloc: Global, all: &[Kept]) {
    for kept in all {
        expect_events(rt, alloc, kept, crowd(), Manner::First, kept.events);
        expect_quiet(rt, alloc, kept, crowd(), Manner::Any);
        expect_quiet(rt, alloc, kept, growing(), Manner::Tried);
        expect_quiet(rt, alloc, kept, growing(), Manner::Any);
    }
}

#[test]
fn what_comes_first_decides(rt: HostRuntime) {
    expect_races(&rt, rt.alloc(), races());
}
