// Rounds of all sites: each has its turn, where it stands or lent to one of the workers.
ghost use Rattle.std.specs.Prelude.{ℕ, ◌+◌, ◌-◌, ◌*◌, ◌<◌, ◌≤◌, ◌^◌, length, IfOk, OnOk};
ghost use Rattle.loc_tree.specs.Tree.{bare};
ghost use Rattle.net_core.specs.inside.Idle.{AreIdle};
ghost use Rattle.net_core.specs.inside.Slots.{HasRound, HasSent};
ghost use Rattle.net_core.specs.Whole.{IsWhole};
ghost use Rattle.net_core.specs.Working.{HasWorked};

use crate::asking::keep_asked;
use crate::idle::{know_all, wake};
use crate::net::Net;
use crate::parts::Parts;
use crate::senders::Run;
use crate::slots::{Round, lend, slots_of, take_all_back};
use crate::turns::{Turns, turn_all};
use chem_model::{Items, Journal, Memory};
use env_store::Code;
use std::alloc::Global;
use std::collections::VecDeque;
use std::mem;
use std::thread::Threads;

// Among how many workers a round is shared, and how many events each site makes at most.
#[derive(Clone, Copy)]
struct Limits {
    workers: u32,
    quota: u32,
}

// Each site has its turn where it stands; those that are idle, and to which no packet goes, have
// none. Where there is no memory, the parts are not whole any more.
fn round_here(
    alloc: Global,
    parts: &mut Parts,
    senders: &mut VecDeque<Run>,
    idle: &mut Vec<bool>,
    code: &Code,
    quota: u32,
) -> Result<Journal, Memory>
    requires few { (events : ℕ) × (events + quota * length parts.old.sites.items < 2 ^ 32 - 1)
        × IsWhole code.now parts.old events }
    requires idle { AreIdle code.now (bare parts.old.tree) parts.old.sites.items idle.old.items }
    ensures round { IfOk result (λ journal.
        HasRound code.now quota parts.old parts.new journal) }
    ensures sent { OnOk result (HasSent code.now quota parts.old parts.new senders.new.items) }
    ensures idle { OnOk result
        (AreIdle code.now (bare parts.new.tree) parts.new.sites.items idle.new.items) }
{
    know_all(alloc, idle, parts.sites.len())?;
    let flights = mem::replace(&mut parts.flights, VecDeque::new(alloc));
    let mail = flights.into_vec();
    let coming = mail.as_slice();
    wake(idle, coming);
    parts.under_way = 0;
    senders.clear();
    let mut journal = Items::new(alloc);
    let turns = Turns {
        alloc,
        code,
        flights: coming,
        quota,
    };
    let turned = turn_all(parts, senders, &mut journal, idle, turns);
    drop(mail);
    match turned {
        Ok(()) => Ok(journal),
        Err(memory) => {
            drop(journal);
            Err(memory)
        }
    }
}

// Lends each site to one of the workers, and takes all back. Where there is no memory, the parts
// are not whole any more.
fn round_of<R: Threads + Sync>(
    rt: &R,
    alloc: Global,
    parts: &mut Parts,
    senders: &mut VecDeque<Run>,
    code: &Code,
    limits: Limits,
) -> Result<Journal, Memory>
    requires workers { 1 ≤ limits.workers }
    requires few { (events : ℕ)
        × (events + limits.quota * length parts.old.sites.items < 2 ^ 32 - 1)
        × IsWhole code.now parts.old events }
    ensures round { IfOk result (λ journal.
        HasRound code.now limits.quota parts.old parts.new journal) }
    ensures sent { OnOk result
        (HasSent code.now limits.quota parts.old parts.new senders.new.items) }
{
    let room = Vec::with_capacity(alloc, parts.sites.len())?;
    let flights = mem::replace(&mut parts.flights, VecDeque::new(alloc));
    let mail = flights.into_vec();
    let sites = mem::replace(&mut parts.sites, room);
    let mut slots = slots_of(alloc, sites)?;
    let round = Round {
        code,
        tree: &parts.tree,
        flights: mail.as_slice(),
        quota: limits.quota,
    };
    lend(rt, alloc, round, limits.workers, slots.as_mut_slice());
    drop(mail);
    parts.under_way = 0;
    senders.clear();
    let mut journal = Items::new(alloc);
    match take_all_back(parts, senders, &mut journal, slots) {
        Ok(()) => Ok(journal),
        Err(memory) => {
            drop(journal);
            Err(memory)
        }
    }
}

// The code of a round, and its limits.
#[derive(Clone, Copy)]
struct Terms<'a> {
    code: &'a Code,
    limits: Limits,
}

// Each site has its turn: where it stands, if there is one worker, and else lent to one of them.
fn round_by<R: Threads + Sync>(
    rt: &R,
    alloc: Global,
    parts: &mut Parts,
    senders: &mut VecDeque<Run>,
    idle: &mut Vec<bool>,
    terms: Terms<'_>,
) -> Result<Journal, Memory>
    requires workers { 1 ≤ terms.limits.workers }
    requires few { (events : ℕ)
        × (events + terms.limits.quota * length parts.old.sites.items < 2 ^ 32 - 1)
        × IsWhole terms.code.now parts.old events }
    requires idle { AreIdle terms.code.now (bare parts.old.tree) parts.old.sites.items
        idle.old.items }
    ensures round { IfOk result (λ journal.
        HasRound terms.entry.code.now terms.entry.limits.quota parts.old parts.new journal) }
    ensures sent { OnOk result
        (HasSent terms.entry.code.now terms.entry.limits.quota parts.old parts.new
        senders.new.items) }
    ensures idle { OnOk result
        (AreIdle terms.entry.code.now (bare parts.new.tree) parts.new.sites.items idle.new.items) }
{
    let Terms { code, limits } = terms;
    if limits.workers == 1 {
        return round_here(alloc, parts, senders, idle, code, limits.quota);
    }
    idle.clear();
    round_of(rt, alloc, parts, senders, code, limits)
}

impl Net {
    /// Lends each site to one of the workers. Each site delivers what was under way to it at the
    /// start of the round, in order: a message is put at its home, or goes on to the site that
    /// hosts that. It then reacts with what is ready there, up to its quota, and stops where none
    /// is ready or the one that is opens a location.
    ///
    /// The answer has the events of all sites, site after site. Under way are then, site after
    /// site, the packets that go on before those that the site sends, both from that site. No
    /// number of workers occurs in it. Where there is no memory, the network is dropped.
    pub fn round<R: Threads + Sync>(
        self,
        rt: &R,
        alloc: Global,
        workers: u32,
        quota: u32,
    ) -> Result<(Net, Journal), Memory>
        requires workers { (1 ≤ workers) × (workers ≤ 16) }
        requires few { self.events + quota * length self.net.sites < 2 ^ 32 - 1 }
        ensures { IfOk result (λ r. HasWorked quota self r.1 r.0) }
    {
        let Net {
            code,
            mut parts,
            mut senders,
            events,
            mut asked,
            acted,
            mut idle,
        } = self;
        let terms = Terms {
            code: &code,
            limits: Limits { workers, quota },
        };
        match round_by(rt, alloc, &mut parts, &mut senders, &mut idle, terms) {
            Ok(journal) => {
                let events = events + journal.len() as u32;
                keep_asked(&mut asked, parts.sites.as_slice());
                let net = Net {
                    code,
                    parts,
                    senders,
                    events,
                    asked,
                    acted,
                    idle,
                };
                Ok((net, journal))
            }
            Err(memory) => {
                drop(parts);
                drop(senders);
                drop(asked);
                drop(idle);
                drop(code);
                Err(memory)
            }
        }
    }
}
