// One packet that is handed out, and brought back from outside.
ghost use Rattle.std.specs.Prelude.{◌∷◌, [], IfSome};
ghost use Rattle.net_core.specs.Drained.{AreHandedOut};

use net_core::{FlightFrom, Net};
use std::alloc::Global;

/// The packet under way, where it is one alone. None is then.
pub fn drain_one(alloc: Global, net: &mut Net) -> Option<FlightFrom>
    ensures { IfSome result (λ flight. AreHandedOut net.old (flight ∷ []) net.new) }
{
    let mut flights = net.drain(alloc);
    let first = flights.next()?;
    match flights.next() {
        None => Some(first),
        Some(_) => None,
    }
}

/// Hands the packet under way out, where it is one alone, and brings it back from outside.
pub fn bring_back(alloc: Global, net: &mut Net) -> bool {
    net.stands_for_some();
    let Some(first) = drain_one(alloc, net) else {
        return false;
    };
    let bytes = first.flight.bytes.as_slice();
    net.receive(alloc, first.flight.target, bytes).is_ok()
}
