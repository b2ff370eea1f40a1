// What an event hands out: first all the memory that it takes, and then what takes none.
ghost use Rattle.std.specs.Prelude.{◌≡◌, ◌+◌, ◌<◌, ◌≤◌, ◌^◌, ◌++◌, length, OnOk};
ghost use Rattle.std.specs.VecDeque.{deque_len, deque_capacity};
ghost use Rattle.net_core.specs.inside.Handing.{AreAsBefore, HaveRoom};

use crate::parts::Parts;
use chem_model::Memory;
use std::alloc::Global;
use std::collections::VecDeque;
use wire_packet::{Flight, Flights};

// Makes room for what an event hands out: so many births, and at most so many packets.
pub(crate) fn make_room(
    alloc: Global,
    parts: &mut Parts,
    births: u32,
    sends: u32,
) -> Result<(), Memory>
    ensures same { AreAsBefore parts.old parts.new }
    ensures room { OnOk result (HaveRoom parts.new births sends) }
{
    if sends > u32::MAX - parts.under_way {
        return Err(Memory);
    }
    parts.trace.reserve(1)?;
    parts.flights.reserve(sends as usize)?;
    parts.tree.reserve(alloc, births)?;
    Ok(())
}

// Packets go behind all others, where there is room for them. It takes no memory.
pub(crate) fn add_last(flights: &mut VecDeque<Flight>, more: Flights)
    requires { deque_len flights.old + length more ≤ deque_capacity flights.old }
    ensures { flights.new.items ≡ flights.old.items ++ more }
{
    let mut last = VecDeque::from_vec(more.into_vec());
    let _ = flights.append(&mut last);
}

// Packets go behind those that are under way. It takes no memory.
pub(crate) fn add_flights(flights: &mut VecDeque<Flight>, under_way: &mut u32, more: Flights)
    requires { (deque_len flights.old + length more ≤ deque_capacity flights.old)
        × (under_way.old + length more < 2 ^ 32) }
    ensures flights { flights.new.items ≡ flights.old.items ++ more }
    ensures count { under_way.new ≡ under_way.old + length more }
{
    *under_way += more.len() as u32;
    add_last(flights, more);
}
