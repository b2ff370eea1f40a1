// Books beside the plain program: both find the same events, and make them.

use crate::both::{End, Manner};
use crate::crowds::{crowd, growing};
use crate::ending::{Outcome, outcome};
use crate::pieces::{push_pieces, text_of};
use join_base::Front;
use std::alloc::{AllocError, Global};
use std::process::Abort;
use worked_texts::{Case, examples, runs, runs_in_rounds};

// So many events of a worked text are made at most.
const EVENTS: u32 = 100;

// Two agents are born. One goes to the other site and asks there for the next two, the other one
// stays.
const AGENTS: &str = "observe out/1; site s [ next() => def m[ k() => next() : go(t, k) ] and \
    n[ h() => 0 : h() ] in out(n) and idle() | never() => 0 : ";

// Ten agents that go at a time, beside so many messages that wait for another.
fn agents(alloc: Global, idle: u32) -> Result<Vec<u8>, AllocError> {
    let pieces = [
        (1, AGENTS),
        (idle, "idle() | "),
        (9, "next() | "),
        (1, "next() ] site t [ none : 0 ]"),
    ];
    text_of(alloc, &pieces)
}

// Whether both agree after a run that was quiet at the end or had all its events.
fn is_fine(outcome: &Result<Outcome, Front>) -> bool {
    match outcome {
        Ok((End::Quiet, _, true, _)) => true,
        Ok((End::Spent, events, true, _)) => *events == EVENTS as usize,
        _ => false,
    }
}

// Whether a case runs a ring, and no text.
fn is_ring(case: &Case) -> bool {
    case.words.iter().any(|word| *word == "gen")
}

// How the run of a case ends.
fn outcome_of(alloc: Global, case: &Case) -> Result<Outcome, Front> {
    let source = case.source(alloc)?;
    outcome(alloc, source.as_slice(), Manner::First, EVENTS)
}

// That a text is made in both alike, and how many events it has then.
fn expect_made(rt: &impl Abort, alloc: Global, case: &Case) -> usize {
    let made = outcome_of(alloc, case);
    assert!(rt; is_fine(&made), "{made:?}");
    made.map_or(0, |all| all.1)
}

// That each of these texts is made in both alike.
fn expect_fine(rt: &impl Abort, alloc: Global, cases: &[Case]) {
    for case in cases {
        if !is_ring(case) {
            expect_made(rt, alloc, case);
        }
    }
}

#[test]
fn worked_texts_in_both(rt: HostRuntime) {
    for cases in runs() {
        expect_fine(&rt, rt.alloc(), cases);
    }
    for cases in runs_in_rounds() {
        expect_fine(&rt, rt.alloc(), cases);
    }
}

// That each of these texts ends in both, after as many events as it has.
fn expect_events(rt: &impl Abort, alloc: Global, cases: &[Case]) {
    for case in cases {
        let events = expect_made(rt, alloc, case);
        assert_eq!(rt; events, case.events.unwrap_or(0));
    }
}

#[test]
fn examples_in_both(rt: HostRuntime) {
    for cases in examples() {
        expect_events(&rt, rt.alloc(), cases);
    }
}

// How the run of a case with a crowd beside it ends.
fn outcome_beside(
    alloc: Global,
    case: &Case,
    beside: &[(u32, &str)],
    manner: Manner,
) -> Result<Outcome, Front> {
    let mut source = case.source(alloc)?;
    push_pieces(&mut source, beside)?;
    outcome(alloc, source.as_slice(), manner, EVENTS)
}

// That a text with a crowd beside it is made in both alike.
fn expect_beside(
    rt: &impl Abort,
    alloc: Global,
    case: &Case,
    beside: &[(u32, &str)],
    manner: Manner,
) {
    let made = outcome_beside(alloc, case, beside, manner);
    assert!(rt; is_fine(&made), "{made:?}");
}

// That each of these texts is so beside a crowd that stays; and beside one that grows, where what
// comes back stays too, and where any event is made.
fn expect_in_crowds(rt: &impl Abort, alloc: Global, cases: &[Case]) {
    for case in cases {
        if !is_ring(case) {
            expect_beside(rt, alloc, case, crowd(), Manner::First);
            expect_beside(rt, alloc, case, growing(), Manner::Tried);
            expect_beside(rt, alloc, case, growing(), Manner::Any);
        }
    }
}

#[test]
fn worked_texts_in_crowds(rt: HostRuntime) {
    for cases in runs() {
        expect_in_crowds(&rt, rt.alloc(), cases);
    }
}

#[test]
fn runs_in_rounds_in_crowds(rt: HostRuntime) {
    for cases in runs_in_rounds() {
        expect_in_crowds(&rt, rt.alloc(), cases);
    }
}

#[test]
fn examples_in_crowds(rt: HostRuntime) {
    for cases in examples() {
        expect_in_crowds(&rt, rt.alloc(), cases);
    }
}

// How the run of agents beside so many messages that wait ends, with so many events at most.
fn outcome_of_agents(alloc: Global, idle: u32, budget: u32) -> Result<Outcome, Front> {
    let source = agents(alloc, idle)?;
    outcome(alloc, source.as_slice(), Manner::First, budget)
}

// That it ends so.
fn expect_agents(rt: &impl Abort, alloc: Global, idle: u32, budget: u32, want: Outcome) {
    assert_eq!(rt; outcome_of_agents(alloc, idle, budget), Ok(want));
}

// The two sites and 2,010 agents: twenty are born in ten of the first twenty events, and two in
// each of 995 rounds of four events (a move, what it asks for, the birth, and what stays).
#[test]
fn two_thousand_agents_in_both(rt: HostRuntime) {
    let want = (End::Spent, 4_000, true, 2_012);
    expect_agents(&rt, rt.alloc(), 0, 4_000, want);
}

// The two sites and 310 agents, beside more messages than the book keeps among the newest.
#[test]
fn agents_beside_messages_in_both(rt: HostRuntime) {
    let want = (End::Spent, 600, true, 312);
    expect_agents(&rt, rt.alloc(), 120, 600, want);
}
