// A turn of a site, while it is lent: its mail is worked off, and then it reacts.
ghost use Rattle.std.specs.Prelude.{◌≡◌, ℕ, ◌+◌, ◌<◌, ◌^◌, [], true, IfOk, OnOk};
ghost use Rattle.chem_model.specs.Each.{Each};
ghost use Rattle.site_solution.specs.Staying.{CanAct};
ghost use Rattle.reducer.specs.Picks.{MayFire};
ghost use Rattle.net_core.specs.inside.Alone.{IsAlone, HasArrived};
ghost use Rattle.net_core.specs.inside.Alone.{IsNoted};
ghost use Rattle.reducer.specs.Ready.{NoneFires};
ghost use Rattle.loc_tree.specs.Tree.{bare};
ghost use Rattle.net_core.specs.inside.Alone.{ReactsAndNotes};
ghost use Rattle.net_core.specs.inside.Alone.{HasReacted};
ghost use Rattle.net_core.specs.inside.Alone.{IsWorked};
ghost use Rattle.net_core.specs.Lending.{mail_to};
ghost use Rattle.net_core.specs.Parts.{all_carried, IsMessageFlight};

use crate::delivering::bring_text;
use chem_model::{Event, Items, Journal, Memory, Outs};
use env_store::Code;
use loc_tree::LocTree;
use reducer::{Pick, births, ready};
use site_solution::{Effects, Site};
use site_turn::react_by;
use std::alloc::Global;
use wire_packet::{Flight, Flights};

// What reactions leave: the packets that the site sends, its observables and its events, in order.
#[derive(Drop)]
pub(crate) struct Made {
    pub(crate) sends: Flights,
    pub(crate) outs: Outs,
    pub(crate) events: Journal,
}

// What a turn leaves: the packets that go on, what the reactions leave, and whether none is ready
// any more.
#[derive(Drop)]
pub(crate) struct Work {
    pub(crate) on: Flights,
    pub(crate) made: Made,
    pub(crate) idle: bool,
}

// ---- mail

// Works the mail of a site off: those of the flights that go to it, in order.
fn work_off(
    alloc: Global,
    site: &mut Site,
    code: &Code,
    tree: &LocTree,
    flights: &[Flight],
) -> Result<Flights, Memory>
    requires alone { (events : ℕ) × IsAlone code.now tree.now site.old.number events site.old
        (mail_to site.old.number (all_carried flights.now)) }
    requires spelled { Each IsMessageFlight flights.now }
    ensures arrives { IfOk result (λ on.
        HasArrived tree.now site.old.number flights.now site.old on site.new) }
    ensures stays { OnOk result ((events : ℕ)
        → IsAlone code.now tree.now site.old.number events site.old
        (mail_to site.old.number (all_carried flights.now))
        → IsAlone code.now tree.now site.old.number events site.new []) }
{
    let _ = code;
    let number = site.number();
    let mut on = Items::new(alloc);
    for flight in flights {
        if flight.target == number {
            let bytes = flight.bytes.as_slice();
            bring_text(alloc, site, tree, bytes, &mut on)?;
        }
    }
    Ok(on)
}

// ---- reactions

// An event and its effects go behind what was made so far.
fn note(made: &mut Made, event: Event, effects: &mut Effects) -> Result<(), Memory>
    ensures { OnOk result (IsNoted event effects.old made.old made.new) }
{
    made.events.push(event)?;
    made.outs.append(&mut effects.outs)?;
    made.sends.append(&mut effects.sends)
}

// Makes the reaction of a pick: what it leaves goes behind what was made so far.
fn react_once(
    alloc: Global,
    site: &mut Site,
    code: &Code,
    tree: &LocTree,
    pick: &Pick,
    made: &mut Made,
) -> Result<(), Memory>
    requires fires { MayFire code.now tree.now site.old pick.now }
    requires fit { CanAct code.now tree.now site.old }
    ensures { OnOk result (ReactsAndNotes code.now tree.now site.old pick.now made.old site.new
        made.new) }
{
    let (event, mut effects) = react_by(alloc, site, code, tree, pick)?;
    note(made, event, &mut effects)
}

// Reacts with what is ready, until the quota is used up, none is ready, or the one that is opens a
// location. The answer is what is made, and whether it ends since none is ready.
fn react_up_to(
    alloc: Global,
    site: &mut Site,
    code: &Code,
    tree: &LocTree,
    quota: u32,
) -> Result<(Made, bool), Memory>
    requires { (events : ℕ) × (events + quota < 2 ^ 32)
        × IsAlone code.now tree.now site.old.number events site.old [] }
    ensures reacted { IfOk result (λ r.
        HasReacted code.now tree.now site.old.number quota site.old r.0 site.new) }
    ensures idle { IfOk result (λ r. r.1 ≡ true → NoneFires code.now (bare tree.now) site.new) }
{
    let mut made = Made {
        sends: Items::new(alloc),
        outs: Items::new(alloc),
        events: Items::new(alloc),
    };
    for _event in 0..quota {
        let Some(pick) = ready(site, code, tree) else {
            return Ok((made, true));
        };
        if births(code, site, &pick) > 0 {
            return Ok((made, false));
        }
        react_once(alloc, site, code, tree, &pick, &mut made)?;
    }
    Ok((made, false))
}

// A turn of a site: those of the flights that go to it arrive, in order, and then it reacts.
pub(crate) fn take_turn(
    alloc: Global,
    site: &mut Site,
    code: &Code,
    tree: &LocTree,
    flights: &[Flight],
    quota: u32,
) -> Result<Work, Memory>
    requires alone { (events : ℕ) × (events + quota < 2 ^ 32)
        × IsAlone code.now tree.now site.old.number events site.old
        (mail_to site.old.number (all_carried flights.now)) }
    requires spelled { Each IsMessageFlight flights.now }
    ensures { IfOk result (λ w.
        IsWorked code.now tree.now quota flights.now site.old w site.new) }
{
    let on = work_off(alloc, site, code, tree, flights)?;
    let (made, idle) = react_up_to(alloc, site, code, tree, quota)?;
    Ok(Work { on, made, idle })
}
