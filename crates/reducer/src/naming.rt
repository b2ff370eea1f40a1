// The event of a pick.
ghost use Rattle.std.specs.Prelude.{◌≡◌, ◌<◌, length, IfOk};
ghost use Rattle.chem_model.specs.Each.{Each};
ghost use Rattle.net_laws.specs.Changes.{ids};
ghost use Rattle.site_solution.specs.Held.{queues_of};
ghost use Rattle.reducer.specs.Picks.{Picked, Picks, IsPick, IsCovered, IsToldAs, rule_of};
ghost use Rattle.reducer.specs.Fronts.{fronts_of, event_of};

use crate::parts::{guard_at, level_at};
use crate::pick::Pick;
use chem_model::{Atoms, Event, Items, Memory, RuleId};
use env_store::Code;
use site_solution::{Site, site_is_kept};
use std::alloc::Global;

// The rule of a pick.
pub(crate) fn rule_of(site: &Site, code: &Code, pick: &Pick) -> RuleId
    requires pick { IsPick code.now site.now pick.now }
    requires told { (x : Picked) → Picks code.now site.now pick.now x → IsToldAs x }
    ensures { (x : Picked) → Picks code.now site.now pick.now x → result ≡ rule_of pick.now x }
{
    site_is_kept(site);
    let inst = site.group(pick.group);
    let level = level_at(code, inst.level);
    RuleId {
        site: inst.rules.site,
        k: inst.rules.k + (pick.guard - level.first) as u64,
    }
}

// The ids of the fronts of these queues of a group.
fn front_ids(alloc: Global, site: &Site, group: u32, chans: &[u32]) -> Result<Atoms, Memory>
    requires group { group < length site.now.groups }
    requires chans { Each (λ c. c < length (queues_of site.now.groups group)) chans.now }
    ensures { IfOk result (λ took. took
        ≡ ids (fronts_of (queues_of site.now.groups group) chans.now)) }
{
    let mut took = Items::new(alloc);
    for chan in chans {
        if let Some(msg) = site.front(group, *chan) {
            took.push(msg.id)?;
        }
    }
    Ok(took)
}

/// The reaction of a pick: its rule takes the fronts of its guard's queues.
pub fn event_of(alloc: Global, site: &Site, code: &Code, pick: &Pick) -> Result<Event, Memory>
    requires covered { IsCovered code.now site.now pick.now }
    requires told { (x : Picked) → Picks code.now site.now pick.now x → IsToldAs x }
    ensures { IfOk result (λ event. (x : Picked) → Picks code.now site.now pick.now x
        → event ≡ event_of pick.now x) }
{
    site_is_kept(site);
    let guard = guard_at(code, pick.guard);
    let took = front_ids(alloc, site, pick.group, guard.chans.as_slice())?;
    let rule = rule_of(site, code, pick);
    Ok(Event::React { rule, took })
}
