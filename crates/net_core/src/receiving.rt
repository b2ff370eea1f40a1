// A packet that comes from outside.
ghost use Rattle.std.specs.Prelude.{◌≡◌, ℕ, ◌+◌, ◌<◌, length, IfOk, OnOk, OnErr};
ghost use Rattle.env_store.specs.CodeParts.{CodeParts};
ghost use Rattle.net_core.specs.Parts.{IsMessageText, net_of};
ghost use Rattle.net_core.specs.Received.{with_last, HasReceived};
ghost use Rattle.net_core.specs.Whole.{RunsSome, IsWhole, IsNetWhole};
ghost use Rattle.net_core.specs.inside.Handing.{AreAsBefore};
ghost use Rattle.net_core.specs.inside.Outside.{IsReceived, IsReceivedFrom};

use crate::delivering::bring_to_target;
use crate::handing::add_flights;
use crate::net::Net;
use crate::parts::Parts;
use crate::senders::{Run, add_run};
use chem_model::Memory;
use std::alloc::Global;
use std::collections::VecDeque;

// A packet is brought to its site: its message is put there, or it goes behind those under way. The
// answer is how many go on. Where there is no memory, nothing changes.
fn receive_text(alloc: Global, parts: &mut Parts, site: u32, bytes: &[u8]) -> Result<u32, Memory>
    requires site { site < length parts.old.sites.items }
    requires spelled { IsMessageText bytes.now }
    requires whole { (c : CodeParts) × (events : ℕ) × IsWhole c parts.old events
        × RunsSome c (with_last (net_of c.seen parts.old) site bytes.now) }
    ensures ok { OnOk result ((c : CodeParts) (events : ℕ) → IsWhole c parts.old events
        → RunsSome c (with_last (net_of c.seen parts.old) site bytes.now)
        → IsReceived c parts.old site bytes.now events parts.new) }
    ensures count { IfOk result (λ more. parts.new.under_way ≡ parts.old.under_way + more) }
    ensures err { OnErr result (AreAsBefore parts.old parts.new) }
{
    if parts.under_way == u32::MAX {
        return Err(Memory);
    }
    parts.flights.reserve(1)?;
    let more = bring_to_target(alloc, &mut parts.sites, &parts.tree, site, bytes)?;
    let count = more.len() as u32;
    add_flights(&mut parts.flights, &mut parts.under_way, more);
    Ok(count)
}

// A packet is brought to its site, which sends it where it goes on.
fn receive_noted(
    alloc: Global,
    parts: &mut Parts,
    senders: &mut VecDeque<Run>,
    site: u32,
    bytes: &[u8],
) -> Result<(), Memory>
    requires site { site < length parts.old.sites.items }
    requires spelled { IsMessageText bytes.now }
    requires whole { (c : CodeParts) × (events : ℕ)
        × IsNetWhole c parts.old senders.old.items events
        × RunsSome c (with_last (net_of c.seen parts.old) site bytes.now) }
    ensures ok { OnOk result ((c : CodeParts) (events : ℕ)
        → IsNetWhole c parts.old senders.old.items events
        → RunsSome c (with_last (net_of c.seen parts.old) site bytes.now)
        → IsReceivedFrom c parts.old senders.old.items site bytes.now events parts.new
        senders.new.items) }
    ensures err { OnErr result (AreAsBefore parts.old parts.new) }
    ensures err_senders { OnErr result (senders.new.items ≡ senders.old.items) }
{
    senders.reserve(1)?;
    let count = receive_text(alloc, parts, site, bytes)?;
    add_run(senders, site, count);
    Ok(())
}

impl Net {
    /// A packet with these bytes comes from outside to the site with this number. It does what a
    /// Deliver of that packet does where it is behind those under way: the message is put at its
    /// home, or the packet goes on from this site, behind all others, to the site that hosts that.
    /// Where there is no memory, nothing changes.
    pub fn receive(&mut self, alloc: Global, site: u32, bytes: &[u8]) -> Result<(), Memory>
        requires site { site < length self.old.net.sites }
        requires spelled { IsMessageText bytes.now }
        requires stands { RunsSome self.old.code (with_last self.old.net site bytes.now) }
        ensures ok { OnOk result (HasReceived self.old site bytes.now self.new) }
        ensures err { OnErr result (self.new ≡ self.old) }
    {
        self.asked.clear();
        self.idle.clear();
        receive_noted(alloc, &mut self.parts, &mut self.senders, site, bytes)
    }
}
