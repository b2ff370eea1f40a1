// At which sites it is known that no reaction is ready.
ghost use Rattle.std.specs.Prelude.{◌≡◌, true, false, length, slice_get, slice_set, Some};
ghost use Rattle.std.specs.Prelude.{IsTrue, OnOk};
ghost use Rattle.net_core.specs.inside.Idle.{AreFewer, AreUncalled, still_idle};

use crate::choice::Choice;
use chem_model::Memory;
use std::alloc::Global;
use wire_packet::Flight;

// Whether the site at this place is known to be idle.
pub(crate) fn is_idle_at(idle: &[bool], at: usize) -> bool
    ensures { IsTrue result → slice_get idle.now at ≡ Some true }
{
    at < idle.len() && idle[at]
}

// It is to be said of each site whether it is idle: of none, where nothing is known.
pub(crate) fn know_all(alloc: Global, idle: &mut Vec<bool>, sites: usize) -> Result<(), Memory>
    ensures many { OnOk result (length idle.new.items ≡ sites) }
    ensures fewer { OnOk result (AreFewer idle.old.items idle.new.items) }
{
    if idle.len() != sites {
        *idle = vec![in alloc; false; sites]?;
    }
    Ok(())
}

// The site at this place isn't known to be idle.
fn wake_at(idle: &mut Vec<bool>, at: usize)
    ensures { idle.new.items ≡ slice_set idle.old.items at false }
{
    if at >= idle.len() {
        return;
    }
    idle[at] = false;
}

// Sites to which one of these packets goes are not known to be idle any more.
pub(crate) fn wake(idle: &mut Vec<bool>, flights: &[Flight])
    ensures many { length idle.new.items ≡ length idle.old.items }
    ensures fewer { AreFewer idle.old.items idle.new.items }
    ensures uncalled { AreUncalled flights.now idle.new.items }
{
    for flight in flights {
        wake_at(idle, flight.target as usize);
    }
}

// A choice is made: what it may change is forgotten.
pub(crate) fn forget(idle: &mut Vec<bool>, choice: &Choice)
    ensures { idle.new.items ≡ still_idle choice.now idle.old.items }
{
    match choice {
        Choice::React { site, pick: _ } => wake_at(idle, *site as usize),
        Choice::Deliver { .. }
        | Choice::Move { .. }
        | Choice::Halt { .. }
        | Choice::Detect { .. } => idle.clear(),
    }
}
