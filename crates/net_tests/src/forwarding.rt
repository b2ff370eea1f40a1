// A packet that is forwarded after a move, and lists of choices that are played.

use crate::both::{Both, Step, both_of, net_of};
use chem_model::{AtomId, Event, Loc, Name, Out, RuleId};
use net_core::{Choice, Net, PlayStop, Played};
use std::alloc::Global;

// The location's request to go has the number 6, and a message to the location is under way from
// the start.
pub const FORWARDED: &str = "observe out/1; \
    site a [ m[ k() => 0 and x(u) => out(u) : go(b, k) ] : 0 ] site b [ none : x(b) ]";

// The location's request to go has the number 4.
const MOVED: &str =
    "observe out/1; site a [ m[ k() => out(m) : go(b, k) ] : 0 ] site b [ none : 0 ]";

fn atom(site: u32, k: u64) -> AtomId {
    AtomId { site, k }
}

fn move_of(k: u64) -> Choice {
    Choice::Move { atom: atom(0, k) }
}

// Whether these choices are made, one after another.
fn make_all(alloc: Global, both: &mut Both, choices: &[Choice]) -> bool {
    for choice in choices {
        if both.make(alloc, choice) != Step::Made {
            return false;
        }
    }
    true
}

// Whether there is a next choice, and it is made.
fn make_next(alloc: Global, both: &mut Both) -> bool {
    match both.net.next() {
        Some(choice) => both.make(alloc, &choice) == Step::Made,
        None => false,
    }
}

fn is_move(event: Option<&Event>, moved: AtomId) -> bool {
    match event {
        Some(Event::Move { atom }) => *atom == moved,
        _ => false,
    }
}

// Whether the rule of the first site with this number takes this one message.
fn is_react(event: Option<&Event>, k: u64, taken: AtomId) -> bool {
    match event {
        Some(Event::React { rule, took }) => {
            *rule == RuleId { site: 0, k } && took.as_slice() == [taken].as_slice()
        }
        _ => false,
    }
}

// Whether these are the move and the two reactions that come of the packets.
fn are_forwarded(events: &[Event]) -> bool {
    events.len() == 3
        && is_move(events.first(), atom(0, 6))
        && is_react(events.get(1), 4, atom(1, 2))
        && is_react(events.get(2), 5, atom(1, 1))
}

// Whether one packet is under way after the opening, the three choices are made and two more that
// come next, the events are the right ones, and the network and the book agree where nothing is
// left.
fn forward(alloc: Global, both: &mut Both) -> bool {
    let deliver = Choice::Deliver { flight: 0 };
    both.net.flights() == 1
        && make_all(alloc, both, &[move_of(6), deliver, deliver])
        && make_next(alloc, both)
        && make_next(alloc, both)
        && is_forwarded(alloc, both)
}

// Whether the name of the second site was observed, and nothing else.
fn is_observed(trace: &[Out]) -> bool {
    let second = Name::Place(Loc { site: 1, k: 0 });
    match trace {
        [out] => out.on == 0 && out.args.as_slice() == [second].as_slice(),
        _ => false,
    }
}

fn is_forwarded(alloc: Global, both: &Both) -> bool {
    are_forwarded(both.book.journal().as_slice())
        && is_observed(both.book.trace().as_slice())
        && both.agree(alloc)
        && both.net.next().is_none()
}

fn forwarded(alloc: Global) -> bool {
    match both_of(alloc, FORWARDED.as_bytes()) {
        Some(mut both) => forward(alloc, &mut both),
        None => false,
    }
}

// The first delivery forwards the packet to the site to which the location went, and the second
// puts it there.
#[test]
fn a_packet_is_forwarded_after_a_move(rt: HostRuntime) {
    assert!(rt; forwarded(rt.alloc()));
}

// Plays a list of few choices, where there were few events.
fn play(alloc: Global, net: &mut Net, choices: &[Choice]) -> Option<Played> {
    if net.events() > 1000 || choices.len() > 1000 {
        return None;
    }
    Some(net.play(alloc, choices))
}

// How many events come of a list of choices, how many of these are made, and how it stops, by a
// copy of what is answered.
fn played(alloc: Global, choices: &[Choice]) -> Option<(usize, u64, PlayStop)> {
    let mut net = net_of(alloc, MOVED.as_bytes())?;
    let played = play(alloc, &mut net, choices)?;
    let copy = played.copy(alloc).ok()?;
    Some((copy.events.len(), copy.done, copy.stop))
}

#[test]
fn a_request_is_met_once(rt: HostRuntime) {
    let go = move_of(4);
    let once = played(rt.alloc(), &[go]);
    assert!(rt; once == Some((1, 1, PlayStop::All)));
    let twice = played(rt.alloc(), &[go, go]);
    assert!(rt; twice == Some((1, 1, PlayStop::NotEnabled)));
}

// What comes next once the location has moved.
fn next_after_move(alloc: Global) -> Option<Choice> {
    let mut net = net_of(alloc, MOVED.as_bytes())?;
    let _played = play(alloc, &mut net, &[move_of(4)])?;
    net.next()
}

// Whether these are the move and the reaction of what comes of it.
fn are_moved(events: &[Event]) -> bool {
    events.len() == 2
        && is_move(events.first(), atom(0, 4))
        && is_react(events.get(1), 3, atom(1, 1))
}

// Whether a list of choices is made, and its events are a move and that reaction.
fn is_moved(played: &Played) -> bool {
    are_moved(played.events.as_slice()) && played.stop == PlayStop::All
}

// Whether these two choices are made, and nothing comes next.
fn move_and(alloc: Global, net: &mut Net, then: Choice) -> bool {
    match play(alloc, net, &[move_of(4), then]) {
        Some(played) => is_moved(&played) && net.next().is_none(),
        None => false,
    }
}

fn moved_and(alloc: Global, then: Choice) -> bool {
    match net_of(alloc, MOVED.as_bytes()) {
        Some(mut net) => move_and(alloc, &mut net, then),
        None => false,
    }
}

#[test]
fn a_move_and_the_reaction_that_comes_next(rt: HostRuntime) {
    match next_after_move(rt.alloc()) {
        Some(then) => {
            assert!(rt; matches!(then, Choice::React { .. }));
            assert!(rt; moved_and(rt.alloc(), then));
        }
        None => assert!(rt; false, "nothing comes next"),
    }
}
