// Deliveries of packets that are under way.
ghost use Rattle.std.specs.Prelude.{◌≡◌, ℕ, ◌<◌, ◌≤◌, ◌++◌, List, Some, length, slice_get};
ghost use Rattle.std.specs.Prelude.{true, IfOk, OnOk, OnErr};
ghost use Rattle.env_store.specs.CodeParts.{CodeParts};
ghost use Rattle.net_laws.specs.Site.{Site as site_seen};
ghost use Rattle.site_solution.specs.Staying.{CanAct};
ghost use Rattle.router.specs.Delivering.{can_deliver};
ghost use Rattle.site_turn.specs.Bringing.{Brings};
ghost use Rattle.net_core.specs.declared.choice.Choice.TheVariants as choices;
ghost use Rattle.net_core.specs.Acting.{Delivers};
ghost use Rattle.net_core.specs.Parts.{without, message_in, IsMessageText, net_of};
ghost use Rattle.net_core.specs.Senders.{IsSentBy};
ghost use Rattle.net_core.specs.Whole.{AllFit, IsWhole};
ghost use Rattle.net_core.specs.inside.Delivering.{IsTextBroughtAt};

use crate::handing::add_last;
use crate::parts::Parts;
use chem_model::{Items, Memory};
use loc_tree::LocTree;
use site_solution::Site;
use site_turn::{bring, read_text};
use std::alloc::Global;
use std::collections::VecDeque;
use wire_packet::{Flight, Flights};

// Brings the message that bytes spell to a site: it is put there, or its flight goes behind those
// that go on.
pub(crate) fn bring_text(
    alloc: Global,
    site: &mut Site,
    tree: &LocTree,
    bytes: &[u8],
    on: &mut Flights,
) -> Result<(), Memory>
    requires spelled { IsMessageText bytes.now }
    requires can { can_deliver tree.now site.old (message_in bytes.now) ≡ true }
    ensures ok { OnOk result (Brings tree.now site.old (message_in bytes.now) bytes.now on.old
        site.new on.new) }
    ensures fit { OnOk result ((c : CodeParts) → CanAct c tree.now site.old
        → CanAct c tree.now site.new) }
    ensures err { OnErr result (site.new ≡ site.old) }
{
    let msg = read_text(alloc, bytes)?;
    bring(alloc, site, tree, msg, bytes, on)
}

// Brings the message that bytes spell to the site with this number.
pub(crate) fn bring_to_target(
    alloc: Global,
    sites: &mut [Site],
    tree: &LocTree,
    target: u32,
    bytes: &[u8],
) -> Result<Flights, Memory>
    requires spelled { IsMessageText bytes.now }
    requires target { target < length sites.old }
    requires can { (s : site_seen) → slice_get sites.old target ≡ Some s
        → can_deliver tree.now s (message_in bytes.now) ≡ true }
    ensures ok { IfOk result (λ more. (s : site_seen) → slice_get sites.old target ≡ Some s
        → IsTextBroughtAt tree.now target s bytes.now more sites.old sites.new) }
    ensures fit { OnOk result ((c : CodeParts) → AllFit c tree.now sites.old
        → AllFit c tree.now sites.new) }
    ensures err { OnErr result (sites.new ≡ sites.old) }
{
    let mut more = Items::new(alloc);
    let site = &mut sites[target as usize];
    bring_text(alloc, site, tree, bytes, &mut more)?;
    Ok(more)
}

// Takes a flight out, and adds what goes on behind all others. It takes no memory.
fn replace(flights: &mut VecDeque<Flight>, place: usize, more: Flights)
    requires place { place < length flights.old.items }
    requires few { length more ≤ 1 }
    ensures { flights.new.items ≡ without place flights.old.items ++ more }
{
    let _gone = flights.remove(place);
    add_last(flights, more);
}

// Delivers the packet with this index: it is put at its home, or goes on, behind all others, to the
// site that hosts that. The answer is the site that was its target. Where there is no memory,
// nothing changes.
pub(crate) fn deliver_flight(alloc: Global, parts: &mut Parts, flight: u32) -> Result<u32, Memory>
    requires whole { (c : CodeParts) × (events : ℕ) × IsWhole c parts.old events }
    requires flight { flight < parts.old.under_way }
    ensures ok { OnOk result ((seen : List ℕ)
        → Delivers (net_of seen parts.old) flight (net_of seen parts.new)) }
    ensures sent_by { IfOk result (λ target. (seen : List ℕ)
        → IsSentBy (net_of seen parts.old) (choices.Deliver flight) target) }
    ensures whole { (c : CodeParts) (events : ℕ) → IsWhole c parts.old events
        → IsWhole c parts.new events }
    ensures err { OnErr result ((seen : List ℕ)
        → net_of seen parts.new ≡ net_of seen parts.old) }
{
    let place = flight as usize;
    let found = &parts.flights[place];
    let target = found.target;
    let bytes = found.bytes.as_slice();
    let more = bring_to_target(alloc, &mut parts.sites, &parts.tree, target, bytes)?;
    let count = more.len() as u32;
    replace(&mut parts.flights, place, more);
    parts.under_way = parts.under_way - 1 + count;
    Ok(target)
}
