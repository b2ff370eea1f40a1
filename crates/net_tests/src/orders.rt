// In which order choices are made.

use crate::both::{Both, Step};
use chem_model::{AtomId, Memory};
use net_core::Choice;
use reducer::Pick;
use std::alloc::Global;

// Groups with greater numbers react only where `next` says so.
pub const GROUPS: u32 = 8;

// Requests with greater numbers are made only where `next` says so.
pub const ATOMS: u64 = 80;

// What a network makes next: what `next` says; the last packet under way, and else what `next`
// says; the last event of the first site that has one, and else what `next` says, so that packets
// wait; or a packet or an event of some site, by numbers that begin with a seed.
#[derive(Clone, Copy, Debug)]
pub enum Order {
    Next,
    LastPacket,
    PacketsLast,
    Seeded(u32),
}

// The choices that are tried, as far as they are enabled.
type Choices = Vec<Choice>;

fn keep(both: &Both, choices: &mut Choices, choice: Choice) -> Result<(), Memory> {
    if both.net.enabled(&choice) {
        choices.push(choice)?;
    }
    Ok(())
}

fn keep_reactions(both: &Both, choices: &mut Choices, site: u32) -> Result<(), Memory> {
    for group in 0..GROUPS {
        for guard in 0..both.guards {
            let pick = Pick { group, guard };
            keep(both, choices, Choice::React { site, pick })?;
        }
    }
    Ok(())
}

fn keep_requests(both: &Both, choices: &mut Choices, site: u32) -> Result<(), Memory> {
    for k in 0..ATOMS {
        let atom = AtomId { site, k };
        keep(both, choices, Choice::Move { atom })?;
        keep(both, choices, Choice::Halt { atom })?;
        keep(both, choices, Choice::Detect { atom })?;
    }
    Ok(())
}

// The reactions and the requests of a site that are enabled.
fn events_of(alloc: Global, both: &Both, site: u32) -> Result<Choices, Memory> {
    let mut choices = Vec::new(alloc);
    keep_reactions(both, &mut choices, site)?;
    keep_requests(both, &mut choices, site)?;
    Ok(choices)
}

// These, and the packets under way.
fn choices_of(alloc: Global, both: &Both, site: u32) -> Result<Choices, Memory> {
    let mut choices = events_of(alloc, both, site)?;
    for flight in 0..both.net.flights() {
        keep(both, &mut choices, Choice::Deliver { flight })?;
    }
    Ok(choices)
}

// The number behind this one.
pub fn following(seed: u32) -> u32 {
    seed.wrapping_mul(1_664_525).wrapping_add(1_013_904_223)
}

fn picked(choices: &[Choice], number: u32) -> Option<Choice> {
    if choices.is_empty() {
        return None;
    }
    let at = (number >> 8) as usize % choices.len();
    choices.get(at).copied()
}

fn last_packet(both: &Both) -> Option<Choice> {
    let packets = both.net.flights();
    if packets == 0 {
        return both.net.next();
    }
    Some(Choice::Deliver {
        flight: packets - 1,
    })
}

// The last event of a site.
fn last_event(alloc: Global, both: &Both, site: u32) -> Result<Option<Choice>, Memory> {
    let choices = events_of(alloc, both, site)?;
    Ok(choices.as_slice().last().copied())
}

fn packets_last(alloc: Global, both: &Both) -> Result<Option<Choice>, Memory> {
    for site in 0..both.sites {
        let last = last_event(alloc, both, site)?;
        if last.is_some() {
            return Ok(last);
        }
    }
    Ok(both.net.next())
}

// One of the choices of some site, or what `next` says.
fn at_random(alloc: Global, both: &Both, number: u32) -> Result<Option<Choice>, Memory> {
    if both.sites == 0 {
        return Ok(None);
    }
    let site = (number >> 16) % both.sites;
    let choices = choices_of(alloc, both, site)?;
    match picked(choices.as_slice(), number) {
        Some(choice) => Ok(Some(choice)),
        None => Ok(both.net.next()),
    }
}

impl Order {
    // The next choice.
    fn choice(self, alloc: Global, both: &Both) -> Result<Option<Choice>, Memory> {
        match self {
            Order::Next => Ok(both.net.next()),
            Order::LastPacket => Ok(last_packet(both)),
            Order::PacketsLast => packets_last(alloc, both),
            Order::Seeded(seed) => at_random(alloc, both, seed),
        }
    }

    // The order from then on.
    fn then(self) -> Order {
        match self {
            Order::Seeded(seed) => Order::Seeded(following(seed)),
            _ => self,
        }
    }
}

// Makes so many choices at most, or all that come.
pub fn run(alloc: Global, both: &mut Both, order: Order, most: u32) -> Step {
    let mut order = order;
    for _ in 0..most {
        let step = match order.choice(alloc, both) {
            Ok(Some(choice)) => both.make(alloc, &choice),
            Ok(None) => return Step::Made,
            Err(_) => Step::NoMemory,
        };
        if step != Step::Made {
            return step;
        }
        order = order.then();
    }
    Step::Made
}
