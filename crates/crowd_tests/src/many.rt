// Many agents, groups and rules at once.

use crate::both::{End, Manner, after, book_with, first_of_book, is_made};
use crate::ending::{Outcome, outcome};
use crate::pieces::text_of;
use chem_model::{Memory, Name, Out};
use join_base::Front;
use std::alloc::{AllocError, Global};
use std::process::Abort;
use trace_history::Book;
use worked_programs::program_of;

// A site makes so many agents and one more. Each goes to another site and halts there, and its
// death is shown.
fn agents(alloc: Global, others: u32) -> Result<Vec<u8>, AllocError> {
    let pieces = [
        (
            1,
            "observe done/1; site a [ t() => def m[ k() => halt() : go(b, k) ] and d() => done(m) \
            in fail(m, d) : ",
        ),
        (others, "t() | "),
        (1, "t() ] site b [ none : 0 ]"),
    ];
    text_of(alloc, &pieces)
}

// That a text's run ends so.
fn expect_end(
    rt: &impl Abort,
    alloc: Global,
    text: &[u8],
    manner: Manner,
    budget: u32,
    want: Outcome,
) {
    assert_eq!(rt; outcome(alloc, text, manner, budget), Ok(want));
}

// Each has six events: it is made, moves, reacts, halts, is seen to be dead, and this is shown.
#[test]
fn a_hundred_agents_at_once_in_both(rt: HostRuntime) -> Result<(), AllocError> {
    let text = agents(rt.alloc(), 99)?;
    let want = (End::Quiet, 600, true, 102);
    expect_end(&rt, rt.alloc(), text.as_slice(), Manner::First, 1_000, want);
    Ok(())
}

#[test]
fn thirty_agents_in_any_order_in_both(rt: HostRuntime) -> Result<(), AllocError> {
    let text = agents(rt.alloc(), 29)?;
    let want = (End::Quiet, 180, true, 32);
    expect_end(&rt, rt.alloc(), text.as_slice(), Manner::Any, 1_000, want);
    expect_end(&rt, rt.alloc(), text.as_slice(), Manner::Tried, 1_000, want);
    Ok(())
}

// One event more of a book: the one that comes first. It answers the site whose turn comes next.
// None where no event is possible.
fn go_on(alloc: Global, book: &mut Book, from: u32) -> Result<Option<u32>, Memory> {
    match first_of_book(alloc, book, from)? {
        Some(found) => {
            if is_made(alloc, book, &found.event)? {
                Ok(Some(after(book.program().sites.len(), found.site)))
            } else {
                Ok(None)
            }
        }
        None => Ok(None),
    }
}

// So many events at most, one after another.
fn run_alone(alloc: Global, book: &mut Book, budget: u32) -> Result<(), Memory> {
    let mut from = 0;
    for _ in 0..budget {
        match go_on(alloc, book, from)? {
            Some(next) => from = next,
            None => return Ok(()),
        }
    }
    Ok(())
}

// The number of the location that a line names. None where it names none.
fn agent_of(line: &Out) -> Option<u64> {
    match line.args.as_slice().first() {
        Some(Name::Place(at)) => Some(at.k),
        _ => None,
    }
}

// Whether each line names an agent that was made later than the one of the line before.
fn are_in_order(lines: &[Out]) -> bool {
    let mut last = 0;
    for line in lines {
        match agent_of(line) {
            Some(k) => {
                if k <= last {
                    return false;
                }
                last = k;
            }
            None => return false,
        }
    }
    true
}

// How many events a book has, how many lines, whether these name agents as they were made, and
// whether no event is possible.
type Alone = (usize, usize, bool, bool);

fn told(book: &Book) -> Alone {
    let lines = book.trace().as_slice();
    let events = book.journal().len();
    (events, lines.len(), are_in_order(lines), book.quiet())
}

// The same of the book of a text, after so many events at most.
fn alone(alloc: Global, text: &[u8], budget: u32) -> Result<Alone, Front> {
    let program = program_of(alloc, text)?;
    let mut book = book_with(alloc, &program)?;
    run_alone(alloc, &mut book, budget)?;
    Ok(told(&book))
}

// That this comes of a text's run.
fn expect_alone(rt: &impl Abort, alloc: Global, text: &[u8], budget: u32, want: Alone) {
    assert_eq!(rt; alone(alloc, text, budget), Ok(want));
}

// The plain program would take half an hour. All agents are made before one moves, and all move before
// one halts, since a reaction comes before a request.
#[test]
fn two_thousand_agents_at_once(rt: HostRuntime) -> Result<(), AllocError> {
    let text = agents(rt.alloc(), 1_999)?;
    let want = (12_000, 2_000, true, true);
    expect_alone(&rt, rt.alloc(), text.as_slice(), 15_000, want);
    Ok(())
}

// Texts of one site, the first four with groups of which one half is there.
const GROUPS: &[&[(u32, &str)]] = &[
    // Each event makes another group.
    &[(
        1,
        "site s [ t() => (def x() | y() => 0 in (x() | t())) : t() ]",
    )],
    // All stand at one level.
    &[
        (1, "site s [ t() => t()"),
        (200, " and x#() | y#() => 0"),
        (1, " : t()"),
        (200, " | x#()"),
        (1, " ]"),
    ],
    // Each event fills the next one, upwards.
    &[
        (1, "site s [ y200() => 0"),
        (200, " and x#() | y#() => y$()"),
        (1, " : y000()"),
        (200, " | x#()"),
        (1, " ]"),
    ],
    // And downwards.
    &[
        (1, "site s [ y000() => 0"),
        (200, " and x#() | y$() => y#()"),
        (1, " : y200()"),
        (200, " | x#()"),
        (1, " ]"),
    ],
    // There is one rule alone.
    &[
        (1, "site s [ x(u) | y(v) => y(u) : y(s)"),
        (230, " | x(s)"),
        (1, " ]"),
    ],
];

fn groups() -> &'static [&'static [(u32, &'static str)]] {
    GROUPS
}

// How the run of a text of one site ends, after 200 events at most.
fn outcome_of(alloc: Global, pieces: &[(u32, &str)], manner: Manner) -> Result<Outcome, Front> {
    let text = text_of(alloc, pieces)?;
    outcome(alloc, text.as_slice(), manner, 200)
}

// That it has 200 events.
fn expect_200(rt: &impl Abort, alloc: Global, pieces: &[(u32, &str)], manner: Manner) {
    let want = (End::Spent, 200, true, 1);
    assert_eq!(rt; outcome_of(alloc, pieces, manner), Ok(want));
}

#[test]
fn two_hundred_groups_in_both(rt: HostRuntime) {
    for pieces in groups() {
        expect_200(&rt, rt.alloc(), pieces, Manner::First);
        expect_200(&rt, rt.alloc(), pieces, Manner::Tried);
    }
}
