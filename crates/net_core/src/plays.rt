// Lists of choices.
ghost use Rattle.std.specs.Prelude.{◌≡◌, ◌+◌, ◌-◌, ◌<◌, ◌^◌, length, Ok, IfOk, OnOk, OnErr};
ghost use Rattle.net_core.specs.Choosing.{Allows};
ghost use Rattle.net_core.specs.Played.{HasPlayed};
ghost use Rattle.net_core.specs.inside.PlayedSoFar.{MakesMore};

use crate::choice::Choice;
use crate::net::Net;
use chem_model::{Event, Items, Journal, Memory};
use std::alloc::Global;

/// Why a list of choices was made no further: all of it was made; its next choice isn't enabled; or
/// there is no memory.
#[derive(Clone, Copy, PartialEq, Eq, Debug)]
pub enum PlayStop {
    All,
    NotEnabled,
    Memory,
}

impl PlayStop {
    /// A value that is equal to this one. It takes no memory.
    pub fn copy(&self, _alloc: Global) -> Result<PlayStop, Memory>
        ensures { result ≡ Ok self.now }
    {
        Ok(*self)
    }
}

/// How a list of choices was made: the events of those that were made, in order, how many were, and
/// why it was made no further.
#[derive(Drop)]
pub struct Played {
    pub events: Journal,
    pub done: u64,
    pub stop: PlayStop,
}

impl Played {
    /// A value that is equal to this one.
    pub fn copy(&self, alloc: Global) -> Result<Played, Memory>
        ensures { IfOk result (λ copy. copy ≡ self.now) }
    {
        let events = self.events.copy(alloc)?;
        Ok(Played {
            events,
            done: self.done,
            stop: self.stop,
        })
    }
}

// Makes a choice, and appends its event if it has one. Where there is no memory, nothing changes.
fn make(
    alloc: Global,
    net: &mut Net,
    events: &mut Vec<Event>,
    choice: &Choice,
) -> Result<(), Memory>
    requires enabled { Allows net.old.code net.old.net choice.now }
    requires few { net.old.events < 2 ^ 32 - 1 }
    ensures ok { OnOk result (MakesMore net.old events.old.items choice.now net.new
        events.new.items) }
    ensures err_net { OnErr result (net.new ≡ net.old) }
    ensures err_events { OnErr result (events.new.items ≡ events.old.items) }
{
    events.reserve(1)?;
    if let Some(event) = net.act(alloc, choice)? {
        events.push_reserved(event);
    }
    Ok(())
}

fn ended(events: Vec<Event>, done: usize, stop: PlayStop) -> Played
    requires { length events.items < 2 ^ 32 }
    ensures events { result.events ≡ events.items }
    ensures done { result.done ≡ done }
    ensures stop { result.stop ≡ stop }
{
    Played {
        events: Items::from_vec(events),
        done: done as u64,
        stop,
    }
}

impl Net {
    /// Makes choices in order, as far as each is enabled at its turn.
    pub fn play(&mut self, alloc: Global, choices: &[Choice]) -> Played
        requires { self.old.events + length choices.now < 2 ^ 32 - 1 }
        ensures { HasPlayed self.old choices.now result self.new }
    {
        self.code_is_kept();
        let mut events = Vec::new(alloc);
        for (at, choice) in choices.iter().enumerate() {
            if !self.enabled(choice) {
                return ended(events, at, PlayStop::NotEnabled);
            }
            if make(alloc, self, &mut events, choice).is_err() {
                return ended(events, at, PlayStop::Memory);
            }
        }
        ended(events, choices.len(), PlayStop::All)
    }
}
