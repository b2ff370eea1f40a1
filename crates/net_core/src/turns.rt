// Sites that have their turns where they stand, one after another.
ghost use Rattle.std.specs.Prelude.{◌≡◌, ◌<◌, Some, true, length, map, slice_get};
ghost use Rattle.std.specs.Prelude.{All, IfOk, OnOk};
ghost use Rattle.loc_tree.specs.Tree.{bare};
ghost use Rattle.net_laws.specs.Site.{Site as site_seen};
ghost use Rattle.net_core.specs.inside.Fitting.{AreNumbered};
ghost use Rattle.net_core.specs.inside.Idle.{AreIdle, AreUncalled, CanPass};
ghost use Rattle.net_core.specs.inside.Runs.{spread};
ghost use Rattle.net_core.specs.inside.Slots.{CanWork, slot_of};
ghost use Rattle.net_core.specs.inside.Turns.{IsWorkedAt, HasTurned, AreThrough};

use crate::parts::Parts;
use crate::senders::{Run, push_run};
use crate::slots::take_work;
use crate::turn::{Work, take_turn};
use chem_model::{Journal, Memory};
use env_store::Code;
use loc_tree::LocTree;
use site_solution::Site;
use std::alloc::Global;
use std::collections::VecDeque;
use wire_packet::Flight;

// What all turns of a round have in common: room, the code, the packets under way as they were when
// it began, and the quota.
#[derive(Clone, Copy)]
pub(crate) struct Turns<'a> {
    pub(crate) alloc: Global,
    pub(crate) code: &'a Code,
    pub(crate) flights: &'a [Flight],
    pub(crate) quota: u32,
}

// The site with this number has its turn.
fn work_at(
    sites: &mut [Site],
    tree: &LocTree,
    turns: Turns<'_>,
    number: usize,
) -> Result<Work, Memory>
    requires number { number < length sites.old }
    requires can { (s : site_seen) → slice_get sites.old number ≡ Some s
        → CanWork turns.code.now tree.now turns.flights.now turns.quota (slot_of s) }
    ensures { IfOk result (λ w. (s : site_seen) → slice_get sites.old number ≡ Some s
        → IsWorkedAt turns.entry.code.now tree.now turns.entry.quota turns.entry.flights.now
        number s w sites.old sites.new) }
{
    let Turns {
        alloc,
        code,
        flights,
        quota,
    } = turns;
    let site = &mut sites[number];
    take_turn(alloc, site, code, tree, flights, quota)
}

// The site with this number has its turn, unless it is idle. What it leaves is behind what was left
// before.
fn turn_at(
    parts: &mut Parts,
    senders: &mut VecDeque<Run>,
    journal: &mut Journal,
    idle: &mut Vec<bool>,
    turns: Turns<'_>,
    number: usize,
) -> Result<(), Memory>
    requires number { number < length parts.old.sites.items }
    requires many { length idle.old.items ≡ length parts.old.sites.items }
    requires can { (s : site_seen) → slice_get parts.old.sites.items number ≡ Some s
        → CanWork turns.code.now parts.old.tree turns.flights.now turns.quota (slot_of s) }
    requires pass { (s : site_seen) → slice_get parts.old.sites.items number ≡ Some s
        → slice_get idle.old.items number ≡ Some true
        → CanPass turns.code.now parts.old.tree turns.flights.now s }
    ensures { OnOk result ((s : site_seen) → slice_get parts.old.sites.items number ≡ Some s
        → HasTurned turns.entry.code.now turns.entry.quota turns.entry.flights.now number s
        parts.old (record {
          events = journal.old;
          froms = spread senders.old.items;
          idle = idle.old.items;
        }) parts.new (record {
          events = journal.new;
          froms = spread senders.new.items;
          idle = idle.new.items;
        })) }
{
    if idle[number] {
        return Ok(());
    }
    let before = parts.under_way;
    let work = work_at(&mut parts.sites, &parts.tree, turns, number)?;
    let from = parts.sites[number].number();
    idle[number] = work.idle;
    take_work(parts, journal, work)?;
    push_run(senders, from, parts.under_way - before)
}

// All sites but the idle ones have their turns, one after another.
pub(crate) fn turn_all(
    parts: &mut Parts,
    senders: &mut VecDeque<Run>,
    journal: &mut Journal,
    idle: &mut Vec<bool>,
    turns: Turns<'_>,
) -> Result<(), Memory>
    requires each { All (CanWork turns.code.now parts.old.tree turns.flights.now turns.quota)
        (map slot_of parts.old.sites.items) }
    requires many { length idle.old.items ≡ length parts.old.sites.items }
    requires idle { AreIdle turns.code.now (bare parts.old.tree) parts.old.sites.items
        idle.old.items }
    requires uncalled { AreUncalled turns.flights.now idle.old.items }
    requires numbered { AreNumbered parts.old.sites.items }
    ensures { OnOk result (AreThrough turns.entry.code.now turns.entry.quota
        turns.entry.flights.now parts.old (record {
          events = journal.old;
          froms = spread senders.old.items;
          idle = idle.old.items;
        })
        (length parts.old.sites.items) parts.new (record {
          events = journal.new;
          froms = spread senders.new.items;
          idle = idle.new.items;
        })) }
{
    for number in 0..parts.sites.len() {
        turn_at(parts, senders, journal, idle, turns, number)?;
    }
    Ok(())
}
