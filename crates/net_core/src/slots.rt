// Sites that are lent to workers, and taken back.
ghost use Rattle.std.specs.Prelude.{◌≡◌, ◌+◌, ◌<◌, ◌≤◌, ◌^◌, ◌∷◌, [], ◌++◌};
ghost use Rattle.std.specs.Prelude.{All, map, length, IfOk, OnOk};
ghost use Rattle.net_core.specs.inside.Slots.{CanWork, IsServed, Pairwise, slot_of};
ghost use Rattle.net_core.specs.inside.Slots.{IsTaken, AreBack, froms_of};
ghost use Rattle.net_core.specs.inside.Runs.{spread};

use crate::handing::add_flights;
use crate::parts::Parts;
use crate::pieces::add_piece;
use crate::senders::{Run, push_run};
use crate::turn::{Made, Work, take_turn};
use chem_model::{Journal, Memory};
use env_store::Code;
use loc_tree::LocTree;
use site_solution::Site;
use std::alloc::Global;
use std::collections::VecDeque;
use std::thread;
use std::thread::Threads;
use wire_packet::{Flight, Flights};

// A site, and what its turn leaves: nothing before that, and where memory ran out.
#[derive(Drop)]
pub(crate) struct Slot {
    pub(crate) site: Site,
    pub(crate) work: Option<Work>,
}

// A slot for each site.
pub(crate) fn slots_of(alloc: Global, sites: Vec<Site>) -> Result<Vec<Slot>, Memory>
    ensures { IfOk result (λ slots. slots.items ≡ map slot_of sites.items) }
{
    let mut slots = Vec::with_capacity(alloc, sites.len())?;
    for site in sites {
        slots.push(Slot { site, work: None })?;
    }
    Ok(slots)
}

// What all turns of a round have in common: the code, the tree and the packets under way as they
// were when it began, and the quota.
#[derive(Clone, Copy)]
pub(crate) struct Round<'a> {
    pub(crate) code: &'a Code,
    pub(crate) tree: &'a LocTree,
    pub(crate) flights: &'a [Flight],
    pub(crate) quota: u32,
}

// The site of a slot has its turn.
fn serve(alloc: Global, round: Round<'_>, slot: &mut Slot)
    requires { CanWork round.code.now round.tree.now round.flights.now round.quota slot.old }
    ensures { IsServed round.entry.code.now round.entry.tree.now round.entry.flights.now
        round.entry.quota slot.old slot.new }
{
    let Round {
        code,
        tree,
        flights,
        quota,
    } = round;
    slot.work = match take_turn(alloc, &mut slot.site, code, tree, flights, quota) {
        Ok(work) => Some(work),
        Err(Memory) => None,
    };
}

// Lends each slot to one of the workers, where its site has its turn.
pub(crate) fn lend<R: Threads + Sync>(
    rt: &R,
    alloc: Global,
    round: Round<'_>,
    workers: u32,
    slots: &mut [Slot],
)
    requires workers { 1 ≤ workers }
    requires each { All
        (CanWork round.code.now round.tree.now round.flights.now round.quota) slots.old }
    ensures { Pairwise (IsServed round.entry.code.now round.entry.tree.now round.entry.flights.now
        round.entry.quota) slots.old slots.new }
{
    thread::for_each_mut(
        rt,
        slots,
        workers as usize,
        &|_, slot| { serve(alloc, round, slot) },
    );
}

// Packets go behind those that are under way.
pub(crate) fn send(
    flights: &mut VecDeque<Flight>,
    under_way: &mut u32,
    more: Flights,
) -> Result<(), Memory>
    ensures flights { OnOk result (flights.new.items ≡ flights.old.items ++ more) }
    ensures count { OnOk result (under_way.new ≡ under_way.old + length more) }
    ensures few { under_way.new < 2 ^ 32 }
{
    let count = more.len();
    if count > (u32::MAX - *under_way) as usize {
        return Err(Memory);
    }
    flights.reserve(count)?;
    add_flights(flights, under_way, more);
    Ok(())
}

// Takes back what the turn of a site leaves.
pub(crate) fn take_work(parts: &mut Parts, journal: &mut Journal, work: Work) -> Result<(), Memory>
    ensures { OnOk result (IsTaken work parts.old journal.old parts.new journal.new) }
{
    let Work { on, made, idle: _ } = work;
    let Made {
        sends,
        outs,
        mut events,
    } = made;
    journal.append(&mut events)?;
    parts.trace.reserve(1)?;
    add_piece(&mut parts.trace, outs);
    send(&mut parts.flights, &mut parts.under_way, on)?;
    send(&mut parts.flights, &mut parts.under_way, sends)
}

// Takes a site back, with what its turn leaves.
fn take_back(parts: &mut Parts, journal: &mut Journal, slot: Slot) -> Result<(), Memory>
    ensures { OnOk result (AreBack (slot ∷ []) parts.old journal.old parts.new journal.new) }
{
    let Slot { site, work } = slot;
    parts.sites.push(site)?;
    match work {
        Some(work) => take_work(parts, journal, work),
        None => Err(Memory),
    }
}

// Takes a site back, and notes that it sent what its turn leaves.
fn take_noted(
    parts: &mut Parts,
    senders: &mut VecDeque<Run>,
    journal: &mut Journal,
    slot: Slot,
) -> Result<(), Memory>
    ensures back { OnOk result (AreBack (slot ∷ []) parts.old journal.old parts.new journal.new) }
    ensures sent { OnOk result (spread senders.new.items
        ≡ spread senders.old.items ++ froms_of (slot ∷ [])) }
{
    let number = slot.site.number();
    let before = parts.under_way;
    take_back(parts, journal, slot)?;
    push_run(senders, number, parts.under_way - before)
}

// Takes all sites back, in order.
pub(crate) fn take_all_back(
    parts: &mut Parts,
    senders: &mut VecDeque<Run>,
    journal: &mut Journal,
    slots: Vec<Slot>,
) -> Result<(), Memory>
    ensures back { OnOk result (AreBack slots.items parts.old journal.old parts.new journal.new) }
    ensures sent { OnOk result (spread senders.new.items
        ≡ spread senders.old.items ++ froms_of slots.items) }
{
    for slot in slots {
        take_noted(parts, senders, journal, slot)?;
    }
    Ok(())
}
