// Packets that are handed out, each with the site that sent it.
ghost use Rattle.std.specs.Prelude.{◌≡◌, [], ◌∷◌, MatchOption, IfOk};
ghost use Rattle.net_core.specs.Drained.{AreHandedOut};
ghost use Rattle.net_core.specs.inside.Runs.{spread};

use crate::net::Net;
use crate::senders::Run;
use chem_model::Memory;
use std::alloc::Global;
use std::collections::VecDeque;
use std::marker::Model;
use std::mem;
use wire_packet::Flight;

/// A packet that was under way, with the site that emitted or forwarded it.
#[derive(Debug, Drop)]
pub struct FlightFrom {
    pub from: u32,
    pub flight: Flight,
}

impl FlightFrom {
    /// A packet that is equal to this one.
    pub fn copy(&self, alloc: Global) -> Result<FlightFrom, Memory>
        ensures { IfOk result (λ copy. copy ≡ self.now) }
    {
        let flight = self.flight.copy(alloc)?;
        Ok(FlightFrom {
            from: self.from,
            flight,
        })
    }
}

/// Packets that were under way, seen as the list of those that are left, in order.
#[derive(Drop)]
pub struct FlightFroms {
    flights: VecDeque<Flight>,
    senders: VecDeque<Run>,
}

impl Model for FlightFroms {
    ghost use Rattle.std.specs.Prelude.{◌≡◌, List, length};
    ghost use Rattle.net_core.specs.declared.drained.FlightFrom.{FlightFrom};
    ghost use Rattle.net_core.specs.inside.Runs.{spread};
    ghost use Rattle.net_core.specs.inside.Pairing.{paired};

    ghost Value = { List FlightFrom };

    ghost view = { λ f. paired f.flights.items (spread f.senders.items) };

    ghost invariant = { λ f. length f.flights.items ≡ length (spread f.senders.items) };
}

// Takes the first packet of all runs out: the answer is its site.
fn pop_sender(runs: &mut VecDeque<Run>) -> Option<u32>
    ensures { MatchOption result
        ((spread runs.old.items ≡ []) × (spread runs.new.items ≡ []))
        (λ first. spread runs.old.items ≡ first ∷ spread runs.new.items) }
{
    for _count in 0..runs.len() {
        let run = runs[0];
        if run.count > 0 {
            runs[0].count -= 1;
            return Some(run.from);
        }
        let _empty = runs.pop_front();
    }
    None
}

impl FlightFroms {
    /// The first packet that is left. None comes exactly where none is. It takes no memory.
    pub fn next(&mut self) -> Option<FlightFrom>
        ensures { MatchOption result ((self.old ≡ []) × (self.new ≡ []))
            (λ first. self.old ≡ first ∷ self.new) }
    {
        let flight = self.flights.pop_front()?;
        let from = pop_sender(&mut self.senders)?;
        Some(FlightFrom { from, flight })
    }
}

impl Net {
    /// Hands out all packets under way in order, each with the site that emitted or forwarded it.
    /// None is then under way, and all else stays. It takes no memory.
    pub fn drain(&mut self, alloc: Global) -> FlightFroms
        ensures { AreHandedOut self.old result self.new }
    {
        let flights = mem::replace(&mut self.parts.flights, VecDeque::new(alloc));
        let senders = mem::replace(&mut self.senders, VecDeque::new(alloc));
        self.parts.under_way = 0;
        FlightFroms { flights, senders }
    }
}
