// Rounds: each site is lent to one of some workers. The expected events were worked out by hand.

use crate::both::net_of;
use chem_model::{AtomId, Event, Journal, RuleId};
use net_core::{Choice, Net};
use std::alloc::Global;
use std::thread::Threads;

const TWO_SITES: &str = "site s [ x() => 0 : x() | x() ] site t [ y() => 0 : y() | y() ]";

const OPENS: &str = "site s [ x() => def m[ none : 0 ] in 0 : x() ]";

const MOVES: &str =
    "observe out/1; site a [ m[ k() => out(m) : go(b, k) ] : 0 ] site b [ none : 0 ]";

// Four sites. After the move of `m` two messages are under way to it, to the site that it left,
// and one is to site `c`. The first round forwards the two, `k` reacts at site `b`, and site `c`
// makes five of its seven reactions. The second one puts the two messages, which react, and site
// `c` makes the others.
const MANY: &str = "observe out/1; \
    site a [ m[ k() => 0 and x(u) => out(u) : go(b, k) ] : 0 ] site b [ none : x(b) ] \
    site c [ p(u) => out(u) : p(c) | p(c) | p(c) | p(c) | p(c) | p(c) ] \
    site d [ none : p(d) | x(d) ]";

const QUOTA: u32 = 5;

fn round<R: Threads + Sync>(
    rt: &R,
    alloc: Global,
    net: Box<Net>,
    workers: u32,
) -> Option<(Box<Net>, Journal)> {
    if net.events() > 1_000 || net.sites() > 1_000 || workers == 0 || workers > 16 {
        return None;
    }
    let (net, journal) = Box::into_inner(net).round(rt, alloc, workers, QUOTA).ok()?;
    Some((Box::new(alloc, net).ok()?, journal))
}

// The rule of a reaction and the first message that it takes.
fn reaction(event: &Event) -> Option<(RuleId, AtomId)> {
    match event {
        Event::React { rule, took } => match took.as_slice().first() {
            Some(atom) => Some((*rule, *atom)),
            None => None,
        },
        _ => None,
    }
}

// Whether this is the reaction of the site's rule with the number 2, with its message.
fn is_reaction(event: &Event, site: u32, k: u64) -> bool {
    reaction(event) == Some((RuleId { site, k: 2 }, AtomId { site, k }))
}

// Whether these are the two reactions of one site and then the two of the other.
fn are_by_site(events: &[Event]) -> bool {
    if events.len() != 4 {
        return false;
    }
    is_reaction(&events[0], 0, 3)
        && is_reaction(&events[1], 0, 4)
        && is_reaction(&events[2], 1, 3)
        && is_reaction(&events[3], 1, 4)
}

fn events_of_two_sites<R: Threads + Sync>(rt: &R, alloc: Global) -> Option<Journal> {
    let net = net_of(alloc, TWO_SITES.as_bytes())?;
    let (_net, journal) = round(rt, alloc, net, 2)?;
    Some(journal)
}

#[test]
fn the_events_of_a_site_stand_together(rt: HostRuntime) {
    match events_of_two_sites(&rt, rt.alloc()) {
        Some(journal) => assert!(rt; are_by_site(journal.as_slice())),
        None => assert!(rt; false, "no round"),
    }
}

// The reaction that opens a location at the first site.
fn opening_of(net: &Net) -> Option<Choice> {
    if net.sites() == 0 {
        return None;
    }
    net.opening_at(0)
}

// Whether the reaction that opens a location is one of this site, or there is none.
fn opens_at(alloc: Global, text: &str, wanted: Option<u32>) -> bool {
    match net_of(alloc, text.as_bytes()) {
        Some(net) => is_opening(opening_of(&net), wanted),
        None => false,
    }
}

fn is_opening(found: Option<Choice>, wanted: Option<u32>) -> bool {
    match found {
        Some(Choice::React { site, .. }) => wanted == Some(site),
        Some(_) => false,
        None => wanted.is_none(),
    }
}

// Whether a choice of a network without an event is the reaction of this one message.
fn is_made(alloc: Global, net: &mut Net, choice: &Choice) -> bool {
    if net.events() > 0 || !net.enabled(choice) {
        return false;
    }
    match net.act(alloc, choice) {
        Ok(Some(event)) => is_reaction(&event, 0, 3),
        _ => false,
    }
}

// Whether the first site's opening reaction is made.
fn make_opening(alloc: Global, net: &mut Net) -> bool {
    match opening_of(net) {
        Some(choice) => is_made(alloc, net, &choice),
        None => false,
    }
}

fn opened(alloc: Global) -> bool {
    match net_of(alloc, OPENS.as_bytes()) {
        Some(mut net) => make_opening(alloc, &mut net),
        None => false,
    }
}

#[test]
fn a_reaction_that_opens_a_location(rt: HostRuntime) {
    assert!(rt; opens_at(rt.alloc(), OPENS, Some(0)));
    assert!(rt; opens_at(rt.alloc(), TWO_SITES, None));
    assert!(rt; opened(rt.alloc()));
}

// Whether the only choice is this move.
fn are_move(choices: &[Choice], k: u64) -> bool {
    let atom = AtomId { site: 0, k };
    choices.len() == 1 && choices.first() == Some(&Choice::Move { atom })
}

fn asks_to_move(alloc: Global, net: &Net) -> bool {
    match net.asks(alloc) {
        Ok(choices) => are_move(choices.as_slice(), 4),
        Err(_) => false,
    }
}

fn asked(alloc: Global) -> bool {
    match net_of(alloc, MOVES.as_bytes()) {
        Some(net) => asks_to_move(alloc, &net),
        None => false,
    }
}

#[test]
fn the_request_of_a_location(rt: HostRuntime) {
    assert!(rt; asked(rt.alloc()));
}

fn with_number(all: u64, number: u64) -> u64 {
    all.wrapping_mul(1_000_003).wrapping_add(number)
}

// A number in which the place of each event counts.
fn number_of(events: &[Event]) -> u64 {
    let mut all = 7;
    for event in events {
        if let Some((rule, atom)) = reaction(event) {
            all = with_number(with_number(all, rule.k), u64::from(rule.site));
            all = with_number(with_number(all, atom.k), u64::from(atom.site));
        }
    }
    all
}

fn make_move(alloc: Global, net: &mut Net) {
    if net.events() == 0 {
        let atom = AtomId { site: 0, k: 6 };
        let _played = net.play(alloc, &[Choice::Move { atom }]);
    }
}

// What a round leaves: its events, as a number, how many they are, and how many packets are under
// way.
type Left = (u64, usize, u32);

fn next_round<R: Threads + Sync>(
    rt: &R,
    alloc: Global,
    net: Box<Net>,
    workers: u32,
) -> Option<(Box<Net>, Left)> {
    let (net, journal) = round(rt, alloc, net, workers)?;
    let events = journal.as_slice();
    let left = (number_of(events), events.len(), net.flights());
    Some((net, left))
}

// What two rounds leave after the move, and how many observables there are then.
fn two_rounds<R: Threads + Sync>(
    rt: &R,
    alloc: Global,
    workers: u32,
) -> Option<(Left, Left, usize)> {
    let mut net = net_of(alloc, MANY.as_bytes())?;
    make_move(alloc, &mut net);
    let (net, first) = next_round(rt, alloc, net, workers)?;
    let (net, second) = next_round(rt, alloc, net, workers)?;
    let outs = net.trace(alloc).ok()?;
    Some((first, second, outs.len()))
}

#[test]
fn the_workers_are_not_seen(rt: HostRuntime) {
    let one = two_rounds(&rt, rt.alloc(), 1);
    assert!(rt; two_rounds(&rt, rt.alloc(), 2) == one);
    assert!(rt; two_rounds(&rt, rt.alloc(), 16) == one);
    assert!(rt; matches!(one, Some(((_, 6, 2), (_, 4, 0), 9))));
}
