// Events of a network, by its parts. Where there is no memory, nothing changes.
ghost use Rattle.std.specs.Prelude.{◌≡◌, ℕ, ◌+◌, ◌<◌, ◌^◌, List, Some, slice_get};
ghost use Rattle.std.specs.Prelude.{IfOk, OnOk, OnErr};
ghost use Rattle.chem_model.specs.declared.event.Event.TheVariants as event;
ghost use Rattle.env_store.specs.CodeParts.{CodeParts};
ghost use Rattle.net_laws.specs.Site.{Site as site_seen};
ghost use Rattle.reducer.specs.Picks.{Picked, Picks, IsPick};
ghost use Rattle.net_core.specs.Acting.{Reacts, Halts, Detects, Moves};
ghost use Rattle.net_core.specs.inside.AtSites.{MayReactAt, MayHaltAt, MayDetectAt};
ghost use Rattle.net_core.specs.inside.AtSites.{MayMoveAt, MayCrossAt};
ghost use Rattle.net_core.specs.inside.Handing.{AreAsBefore};
ghost use Rattle.net_core.specs.Parts.{net_of};
ghost use Rattle.net_core.specs.Whole.{IsWhole};

use crate::handing::{add_flights, make_room};
use crate::meeting::{detect_at, halt_at};
use crate::moving::{cross, move_at};
use crate::parts::Parts;
use crate::pieces::add_piece;
use crate::reacting::react_at;
use chem_model::{AtomId, Event, Memory, Nums};
use env_store::Code;
use reducer::{Pick, births, sends};
use site_solution::Site;
use site_turn::add_births;
use std::alloc::Global;

// Meets a request of the site with this number to detect a failure.
pub(crate) fn detect_request(
    alloc: Global,
    parts: &mut Parts,
    counts: &Nums,
    number: usize,
    atom: &AtomId,
) -> Result<Event, Memory>
    requires whole { (c : CodeParts) × (events : ℕ) × IsWhole c parts.old events }
    requires may { MayDetectAt parts.old.tree parts.old.sites.items number atom.now }
    ensures event { IfOk result (λ e. e ≡ event.Detect atom.now) }
    ensures detects { OnOk result (Detects (net_of counts.now parts.old) atom.now
        (net_of counts.now parts.new)) }
    ensures whole { OnOk result ((c : CodeParts) (events : ℕ) → c.seen ≡ counts.now
        → events < 2 ^ 32 → IsWhole c parts.old events → IsWhole c parts.new (events + 1)) }
    ensures err { OnErr result (AreAsBefore parts.old parts.new) }
{
    make_room(alloc, parts, 0, 1)?;
    let effects = detect_at(alloc, &mut parts.sites, &parts.tree, counts, number, atom)?;
    add_piece(&mut parts.trace, effects.outs);
    add_flights(&mut parts.flights, &mut parts.under_way, effects.sends);
    Ok(Event::Detect { atom: *atom })
}

// Meets a request to halt of the site with this number. It takes no memory.
pub(crate) fn halt_request(parts: &mut Parts, number: usize, atom: &AtomId) -> Event
    requires whole { (c : CodeParts) × (events : ℕ) × IsWhole c parts.old events }
    requires may { MayHaltAt parts.old.tree parts.old.sites.items number atom.now }
    ensures event { result ≡ event.Halt atom.now }
    ensures halts { (seen : List ℕ) → Halts (net_of seen parts.old) atom.now
        (net_of seen parts.new) }
    ensures whole { (c : CodeParts) (events : ℕ) → events < 2 ^ 32 → IsWhole c parts.old events
        → IsWhole c parts.new (events + 1) }
{
    halt_at(&mut parts.sites, &mut parts.tree, number, atom)
}

// How many locations the reaction of a pick opens, and how many messages it pours.
fn weigh(sites: &[Site], code: &Code, number: usize, pick: &Pick) -> (u32, u32)
    requires { (s : site_seen) × (slice_get sites.now number ≡ Some s)
        × IsPick code.now s pick.now }
    ensures { (s : site_seen) (x : Picked) → slice_get sites.now number ≡ Some s
        → Picks code.now s pick.now x
        → (result.0 ≡ x.guard.births) × (result.1 ≡ x.guard.sends) }
{
    let site = &sites[number];
    (births(code, site, pick), sends(code, site, pick))
}

// Makes the reaction of a pick of the site with this number.
pub(crate) fn react_pick(
    alloc: Global,
    parts: &mut Parts,
    code: &Code,
    number: u32,
    pick: &Pick,
) -> Result<Event, Memory>
    requires whole { (events : ℕ) × IsWhole code.now parts.old events }
    requires may { MayReactAt code.now parts.old.tree parts.old.sites.items number pick.now }
    ensures reacts { IfOk result (λ e. Reacts code.now (net_of code.now.seen parts.old) number
        pick.now.group pick.now.guard e (net_of code.now.seen parts.new)) }
    ensures whole { OnOk result ((events : ℕ) → events < 2 ^ 32
        → IsWhole code.now parts.old events → IsWhole code.now parts.new (events + 1)) }
    ensures err { OnErr result (AreAsBefore parts.old parts.new) }
{
    let at = number as usize;
    let (born, sent) = weigh(parts.sites.as_slice(), code, at, pick);
    make_room(alloc, parts, born, sent)?;
    let (event, effects) = react_at(alloc, &mut parts.sites, code, &parts.tree, at, pick)?;
    add_births(&mut parts.tree, effects.births.as_slice(), number);
    add_piece(&mut parts.trace, effects.outs);
    add_flights(&mut parts.flights, &mut parts.under_way, effects.sends);
    Ok(event)
}

// Meets a request of the site with this number to go to a location that it hosts itself.
pub(crate) fn move_here(
    alloc: Global,
    parts: &mut Parts,
    counts: &Nums,
    number: usize,
    atom: &AtomId,
) -> Result<Event, Memory>
    requires whole { (c : CodeParts) × (events : ℕ) × IsWhole c parts.old events }
    requires may { MayMoveAt parts.old.version parts.old.tree parts.old.sites.items number
        atom.now }
    ensures event { IfOk result (λ e. e ≡ event.Move atom.now) }
    ensures moves { OnOk result (Moves (net_of counts.now parts.old) atom.now
        (net_of counts.now parts.new)) }
    ensures whole { OnOk result ((c : CodeParts) (events : ℕ) → c.seen ≡ counts.now
        → events < 2 ^ 32 → IsWhole c parts.old events → IsWhole c parts.new (events + 1)) }
    ensures err { OnErr result (AreAsBefore parts.old parts.new) }
{
    make_room(alloc, parts, 0, 1)?;
    let effects = move_at(
        alloc,
        &mut parts.sites,
        &mut parts.tree,
        counts,
        number,
        atom,
    )?;
    add_piece(&mut parts.trace, effects.outs);
    add_flights(&mut parts.flights, &mut parts.under_way, effects.sends);
    Ok(Event::Move { atom: *atom })
}

// Meets a request of one site to go to a location that another one hosts.
pub(crate) fn move_over(
    alloc: Global,
    parts: &mut Parts,
    code: &Code,
    from: usize,
    into: usize,
    atom: &AtomId,
) -> Result<Event, Memory>
    requires whole { (events : ℕ) × IsWhole code.now parts.old events }
    requires may { MayCrossAt parts.old.version parts.old.tree parts.old.sites.items from into
        atom.now }
    ensures event { IfOk result (λ e. e ≡ event.Move atom.now) }
    ensures moves { OnOk result (Moves (net_of code.now.seen parts.old) atom.now
        (net_of code.now.seen parts.new)) }
    ensures whole { OnOk result ((events : ℕ) → events < 2 ^ 32
        → IsWhole code.now parts.old events → IsWhole code.now parts.new (events + 1)) }
    ensures err { OnErr result (AreAsBefore parts.old parts.new) }
{
    make_room(alloc, parts, 0, 1)?;
    let effects = cross(
        alloc,
        &mut parts.sites,
        &mut parts.tree,
        code,
        (from, into),
        atom,
    )?;
    add_piece(&mut parts.trace, effects.outs);
    add_flights(&mut parts.flights, &mut parts.under_way, effects.sends);
    Ok(Event::Move { atom: *atom })
}
