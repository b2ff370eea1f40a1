// Links: a list of steps worked out by hand, and random lists over worked texts.
ghost use Rattle.std.specs.Prelude.{◌≤◌, IfSome};

use crate::both::{self, Both, both_of, commit};
use crate::forwarding::FORWARDED;
use crate::linking::{link, make_step, play_few};
use crate::orders::{ATOMS, GROUPS, following};
use chem_model::{AtomId, Event, Memory};
use lossy_link::{LinkNet, PairHistory, Step};
use net_core::{Choice, PlayStop, Played};
use reducer::Pick;
use std::alloc::Global;
use std::process::Abort;
use trace_history::Book;
use worked_texts::{Case, examples};

// The links of a text after its opening.
fn links_of(alloc: Global, text: &[u8]) -> Option<LinkNet>
    ensures { IfSome result (λ links. links.net.events ≤ 1000) }
{
    let both = both_of(alloc, text)?;
    link(alloc, Box::into_inner(both.net))
}

// ---- by hand

const SEND: Step = Step::Send {
    from: 1,
    into: 0,
    number: 0,
};

// The packet is sent, its frame repeated, and both come: one is received and the other one dropped.
// Of the two acknowledgements one is lost.
const STEPS: [Step; 6] = [
    SEND,
    Step::Repeat { frame: 0 },
    Step::Arrive { frame: 0 },
    Step::Arrive { frame: 0 },
    Step::Lose { frame: 0 },
    Step::Arrive { frame: 0 },
];

// Whether all the steps were made, and no event came of them.
fn are_all_made(played: &Played, many: u64) -> bool {
    played.stop == PlayStop::All && played.done == many && played.events.is_empty()
}

// How many packets the second site sent the first one, and how many of them it was given.
fn counts_of(links: &LinkNet) -> Option<(usize, usize)> {
    let history = links.history(1, 0)?;
    Some((history.sent.len(), history.handed.len()))
}

// Whether the packet was received once, and nothing is left of it.
fn is_received(links: &LinkNet) -> bool {
    counts_of(links) == Some((1, 1))
        && links.history(0, 1).is_none()
        && links.frames() == 0
        && !links.enabled(&SEND)
}

fn is_received_once(alloc: Global) -> bool {
    let Some(links) = links_of(alloc, FORWARDED.as_bytes()) else {
        return false;
    };
    match play_few(alloc, links, &STEPS) {
        Some((links, played)) => are_all_made(&played, 6) && is_received(&links),
        None => false,
    }
}

#[test]
fn a_repeated_frame_is_received_once(rt: HostRuntime) {
    assert!(rt; is_received_once(rt.alloc()));
}

// Before any step: one packet was sent and none received, and the wire is empty.
fn is_fresh(links: &LinkNet) -> bool {
    counts_of(links) == Some((1, 0)) && links.frames() == 0 && links.enabled(&SEND)
}

fn starts_fresh(alloc: Global) -> bool {
    match links_of(alloc, FORWARDED.as_bytes()) {
        Some(links) => is_fresh(&links),
        None => false,
    }
}

// Whether the first of these steps is made, and the second one isn't enabled.
fn stops_at_second(alloc: Global, links: LinkNet, steps: &[Step]) -> bool
    requires { links.net.events ≤ 1000 }
{
    match play_few(alloc, links, steps) {
        Some((_links, played)) => played.stop == PlayStop::NotEnabled && played.done == 1,
        None => false,
    }
}

fn stops_at_no_frame(alloc: Global) -> bool {
    match links_of(alloc, FORWARDED.as_bytes()) {
        Some(links) => stops_at_second(alloc, links, &[SEND, Step::Arrive { frame: 1 }]),
        None => false,
    }
}

#[test]
fn links_start_with_what_is_under_way(rt: HostRuntime) {
    assert!(rt; starts_fresh(rt.alloc()));
    assert!(rt; stops_at_no_frame(rt.alloc()));
}

// ---- at random

// So many steps a list has.
const MANY: u32 = 200;

// The steps that are tried, as far as they are enabled.
type Steps = Vec<Step>;

fn keep(links: &LinkNet, steps: &mut Steps, step: Step) -> Result<(), Memory> {
    if links.enabled(&step) {
        steps.push(step)?;
    }
    Ok(())
}

fn keep_reactions(
    links: &LinkNet,
    guards: u32,
    steps: &mut Steps,
    site: u32,
) -> Result<(), Memory> {
    for group in 0..GROUPS {
        for guard in 0..guards {
            let pick = Pick { group, guard };
            keep(links, steps, Step::Act(Choice::React { site, pick }))?;
        }
    }
    Ok(())
}

fn keep_requests(links: &LinkNet, steps: &mut Steps, site: u32) -> Result<(), Memory> {
    for k in 0..ATOMS {
        let atom = AtomId { site, k };
        keep(links, steps, Step::Act(Choice::Move { atom }))?;
        keep(links, steps, Step::Act(Choice::Halt { atom }))?;
        keep(links, steps, Step::Act(Choice::Detect { atom }))?;
    }
    Ok(())
}

// The packets of a pair that may be sent, or sent again.
fn keep_packets(links: &LinkNet, steps: &mut Steps, from: u32, into: u32) -> Result<(), Memory> {
    let Some(history) = links.history(from, into) else {
        return Ok(());
    };
    for number in 0..history.sent.len() as u64 {
        keep(links, steps, Step::Send { from, into, number })?;
    }
    Ok(())
}

// What a site may do, and the packets that it sent.
fn keep_site(
    links: &LinkNet,
    sites: u32,
    guards: u32,
    steps: &mut Steps,
    site: u32,
) -> Result<(), Memory> {
    keep_reactions(links, guards, steps, site)?;
    keep_requests(links, steps, site)?;
    for into in 0..sites {
        keep_packets(links, steps, site, into)?;
    }
    Ok(())
}

// What may become of the frames. The last one that there is isn't taken off the wire, so that there
// is always a step.
fn keep_frames(links: &LinkNet, steps: &mut Steps) -> Result<(), Memory> {
    let frames = links.frames();
    for frame in 0..frames {
        keep(links, steps, Step::Repeat { frame })?;
        if frames > 1 {
            keep(links, steps, Step::Lose { frame })?;
            keep(links, steps, Step::Arrive { frame })?;
        }
    }
    Ok(())
}

fn steps_of(alloc: Global, links: &LinkNet, sites: u32, guards: u32) -> Result<Steps, Memory> {
    let mut steps = Vec::new(alloc);
    for site in 0..sites {
        keep_site(links, sites, guards, &mut steps, site)?;
    }
    keep_frames(links, &mut steps)?;
    Ok(steps)
}

fn picked(steps: &[Step], number: u32) -> Option<Step> {
    if steps.is_empty() {
        return None;
    }
    let at = (number >> 8) as usize % steps.len();
    steps.get(at).copied()
}

// An enabled step, by a number.
fn step_by(alloc: Global, links: &LinkNet, sites: u32, guards: u32, number: u32) -> Option<Step> {
    let steps = steps_of(alloc, links, sites, guards).ok()?;
    picked(steps.as_slice(), number)
}

// Whether what was handed over of a pair is the front of what it sent.
fn is_front(history: &PairHistory) -> bool {
    let sent = history.sent.as_slice();
    for (at, text) in history.handed.as_slice().iter().enumerate() {
        match sent.get(at) {
            Some(other) if text.as_slice() == other.as_slice() => {}
            _ => return false,
        }
    }
    true
}

fn are_fronts_from(links: &LinkNet, sites: u32, from: u32) -> bool {
    for into in 0..sites {
        if let Some(history) = links.history(from, into) {
            if !is_front(history) {
                return false;
            }
        }
    }
    true
}

// The same of each pair of sites.
fn are_fronts(links: &LinkNet, sites: u32) -> bool {
    for from in 0..sites {
        if !are_fronts_from(links, sites, from) {
            return false;
        }
    }
    true
}

// Whether a step has no event, or the book makes it.
fn is_accepted(alloc: Global, book: &mut Book, event: Option<Event>) -> bool {
    match event {
        Some(event) => commit(alloc, book, &event) == both::Step::Made,
        None => true,
    }
}

// How many packets a site was handed by the others.
fn handed_to(links: &LinkNet, sites: u32, into: u32) -> usize {
    let mut many: usize = 0;
    for from in 0..sites {
        if let Some(history) = links.history(from, into) {
            many = many.wrapping_add(history.handed.len());
        }
    }
    many
}

fn handed_in_all(links: &LinkNet, sites: u32) -> usize {
    let mut many: usize = 0;
    for into in 0..sites {
        many = many.wrapping_add(handed_to(links, sites, into));
    }
    many
}

// A list of steps: how many were made, whether a packet was put on the wire, whether it ended since
// no step was enabled, and how many packets were handed over.
#[derive(Clone, Copy)]
struct Walk {
    made: u32,
    sent: bool,
    is_over: bool,
    handed: usize,
}

// Before all steps were made.
fn cut_off(made: u32, sent: bool, is_over: bool) -> Walk {
    Walk {
        made,
        sent,
        is_over,
        handed: 0,
    }
}

// Takes steps, one after another by numbers that begin with a seed, until they are many or none is
// enabled: fewer where a book doesn't make an event, or a pair's order is lost.
fn take_steps(
    alloc: Global,
    links: LinkNet,
    book: &mut Book,
    sites: u32,
    guards: u32,
    seed: u32,
) -> Walk
    requires { links.net.events ≤ 1000 }
{
    let mut links = links;
    let mut seed = seed;
    let mut sent = false;
    for made in 0..MANY {
        let Some(step) = step_by(alloc, &links, sites, guards, seed) else {
            drop(links);
            return cut_off(made, sent, true);
        };
        let Some((after, event)) = make_step(alloc, links, &step) else {
            return cut_off(made, sent, false);
        };
        links = after;
        sent = sent || matches!(step, Step::Send { .. });
        if !is_accepted(alloc, book, event) || !are_fronts(&links, sites) {
            drop(links);
            return cut_off(made, sent, false);
        }
        seed = following(seed);
    }
    let handed = handed_in_all(&links, sites);
    drop(links);
    Walk {
        made: MANY,
        sent,
        is_over: false,
        handed,
    }
}

// The same over the links of a text.
fn walked(alloc: Global, text: &[u8], seed: u32) -> Option<Walk> {
    let Both {
        net,
        mut book,
        sites,
        guards,
    } = both_of(alloc, text)?;
    let links = link(alloc, Box::into_inner(net))?;
    Some(take_steps(alloc, links, &mut book, sites, guards, seed))
}

// Whether all steps were made, or no more was enabled where the sites send each other nothing.
fn is_whole(walk: Walk) -> bool {
    walk.made == MANY || (walk.is_over && !walk.sent)
}

// That a list of steps over a case is whole.
fn expect_walk(rt: &impl Abort, alloc: Global, case: &Case, seed: u32) -> Walk {
    let Ok(source) = case.source(alloc) else {
        assert!(rt; false, "no memory");
        return cut_off(0, false, false);
    };
    match walked(alloc, source.as_slice(), seed) {
        Some(walk) => {
            let made = walk.made;
            assert!(rt; is_whole(walk), "{made} steps by {seed}");
            walk
        }
        None => {
            assert!(rt; false, "no links");
            cut_off(0, false, false)
        }
    }
}

// The same of some cases: in how many of them all steps were made, and how many packets were handed
// over.
fn expect_walks(rt: &impl Abort, alloc: Global, cases: &[Case], seed: u32) -> (u32, usize) {
    let mut many: u32 = 0;
    let mut handed: usize = 0;
    for case in cases {
        let walk = expect_walk(rt, alloc, case, seed);
        handed = handed.wrapping_add(walk.handed);
        if walk.made == MANY {
            many = many.wrapping_add(1);
        }
    }
    (many, handed)
}

// The same of the programs about an applet, a spare worker, farms, a pool of workers, a postman and
// a sailor.
fn walks_by(rt: &impl Abort, alloc: Global, seed: u32) -> (u32, usize) {
    let tables = examples();
    let (first, handed) = expect_walks(rt, alloc, tables[4], seed);
    let (second, others) = expect_walks(rt, alloc, tables[5], seed);
    (first.wrapping_add(second), handed.wrapping_add(others))
}

const SEEDS: [u32; 4] = [1, 7, 42, 1996];

// Each event of a list of steps is one that a book makes, and what is handed over of each pair of
// sites is the front of what was sent: for five programs, and each seed.
#[test]
fn worked_texts_over_links_at_random(rt: HostRuntime) {
    for seed in SEEDS {
        let (many, handed) = walks_by(&rt, rt.alloc(), seed);
        assert!(rt;
            many == 5 && handed > 5,
            "{many} lists by {seed}, {handed} packets"
        );
    }
}
