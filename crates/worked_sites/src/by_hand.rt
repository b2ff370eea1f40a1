// Calls whose arguments are made by hand, each with a test of what it needs before it.
ghost use Rattle.std.specs.Prelude.{◌≡◌, ◌<◌, ◌≤◌, ◌∷◌, [], length, slice_get, option_copied};
ghost use Rattle.std.specs.Prelude.{ℕ, IsTrue, IfOk, IfSome};
ghost use Rattle.chem_model.specs.Each.{Each};
ghost use Rattle.wire_packet.specs.Operations.{IsPlain, HasCount};
ghost use Rattle.wire_packet.specs.GroupFacts.{IsAskKept};
ghost use Rattle.chem_model.specs.declared.name.Name.TheVariants as name;
ghost use Rattle.env_store.specs.CodeFacts.{IsCode, IsBodyAt};
ghost use Rattle.net_laws.specs.ByCode.{counts_at, guards_at};

use crate::calls::{draws, fit, stands};
use crate::fault::Fault;
use crate::net::{Pair, loc};
use chem_model::{AtomId, Items, Loc, Memory, Name, Names, Nums, RuleId};
use env_store::{Code, Guard, Level};
use loc_tree::LocTree;
use site_solution::{Effects, Site, message_is_there, site_is_kept};
use std::alloc::Global;
use wire_packet::{Ask, GroupInst, Msg, Parcel, Request, SharedEnv};

// Names that are one location.
fn names_of(alloc: Global, place: Loc) -> Result<Names, Memory>
    ensures { IfOk result (λ names. names ≡ name.Place place ∷ []) }
{
    let mut names = Items::new(alloc);
    names.push(Name::Place(place))?;
    Ok(names)
}

// Names that are this location, or none.
pub(crate) fn args_of(alloc: Global, place: Option<Pair>) -> Result<Names, Memory>
    ensures few { IfOk result (λ names. length names ≤ 255) }
    ensures plain { IfOk result (λ names. Each IsPlain names) }
{
    match place {
        Some(place) => names_of(alloc, loc(place)),
        None => Ok(Items::new(alloc)),
    }
}

// Whether the name is no operation.
pub(crate) fn is_plain(name: Name) -> bool
    ensures plain { IsTrue result → IsPlain name }
    ensures count { IsTrue result → (n : ℕ) → HasCount name n }
{
    match name {
        Name::Op(_) => false,
        Name::Seen(_) | Name::Place(_) | Name::Chan { .. } | Name::Num(_) => true,
    }
}

// Whether neither the target nor the continuation of a request is an operation.
fn asks_plain(ask: Ask) -> bool
    ensures { IsTrue result → IsAskKept ask }
{
    match ask {
        Ask::Go { target, cont } => is_plain(target) && is_plain(cont),
        Ask::Fail { target, cont } => is_plain(target) && is_plain(cont),
        Ask::Halt => true,
    }
}

// Puts a message on the channel with this number and home, with this location or without
// arguments.
pub(crate) fn put_at(
    alloc: Global,
    site: &mut Site,
    id: AtomId,
    k: u64,
    home: Loc,
    arg: Option<Pair>,
) -> Result<(), Fault> {
    if !site.has(&home) || site.has_atom(&id) {
        return Err(Fault::Unmet);
    }
    let args = args_of(alloc, arg)?;
    let msg = Msg {
        id,
        on: Name::Chan { site: 0, k, home },
        args,
    };
    match site.put(&home, msg) {
        Ok(()) => Ok(()),
        Err((msg, memory)) => {
            drop(msg);
            Err(Fault::from(memory))
        }
    }
}

// The level is there, and has few channels and guards.
fn is_small(code: &Code, level: u32) -> bool
    ensures there { IsTrue result → level < length code.now.levels }
    ensures counts { IsTrue result → length (counts_at (slice_get code.now.levels level)) < 1000 }
    ensures guards { IsTrue result → guards_at (slice_get code.now.levels level) < 1000 }
{
    match code.levels.as_slice().get(level as usize) {
        Some(level) => level.counts.len() < 1000 && level.guards < 1000,
        None => false,
    }
}

// Lays a group of a level, as the first one of its site, with these first numbers of site 0 and no
// environment.
pub(crate) fn lay_at(
    alloc: Global,
    site: &mut Site,
    code: &Code,
    loc: Loc,
    level: u32,
    chans: u64,
    rules: u64,
) -> Result<(), Fault> {
    if chans >= 1000 || rules >= 1000 || !is_small(code, level) {
        return Err(Fault::Unmet);
    }
    if !site.has(&loc) || site.groups() != 0 {
        return Err(Fault::Unmet);
    }
    let env = SharedEnv::new(alloc, Items::new(alloc))?;
    let group = GroupInst {
        loc,
        level,
        chans: AtomId { site: 0, k: chans },
        rules: RuleId { site: 0, k: rules },
        env,
    };
    Ok(site.lay(alloc, code, group)?)
}

// Adds a request.
pub(crate) fn ask_at(site: &mut Site, id: AtomId, loc: Loc, ask: Ask) -> Result<(), Fault> {
    if !asks_plain(ask) {
        return Err(Fault::Unmet);
    }
    let request = Request { id, loc, ask };
    if !site.has(&loc) || site.has_atom(&id) {
        return Err(Fault::Unmet);
    }
    Ok(site.ask(request)?)
}

// Hosts a location.
pub(crate) fn host_at(site: &mut Site, loc: Loc) -> Result<(), Fault> {
    if site.has(&loc) {
        return Err(Fault::Unmet);
    }
    Ok(site.host(&loc)?)
}

// Drops a request.
pub(crate) fn drop_at(site: &mut Site, atom: AtomId) -> Result<(), Fault> {
    if site.request(&atom).is_none() {
        return Err(Fault::Unmet);
    }
    site.drop_request(&atom);
    Ok(())
}

// Takes the message in front of the first channel of the first group.
pub(crate) fn take_at(site: &mut Site) -> Result<(), Fault> {
    if site.groups() == 0 || site.width(0) == 0 || site.front(0, 0).is_none() {
        return Err(Fault::Unmet);
    }
    site.take_front(0, 0);
    Ok(())
}

// Draws so many numbers, of which this has to be the first.
pub(crate) fn draw_at(site: &mut Site, more: u32, first: u64) -> Result<(), Fault> {
    if site.made() >= 1000 {
        return Err(Fault::Unmet);
    }
    if site.draw(more) != first {
        return Err(Fault::Unmet);
    }
    Ok(())
}

// Pours one message at a location.
fn emit_at(
    alloc: Global,
    site: &mut Site,
    tree: &LocTree,
    counts: &Nums,
    loc: Loc,
    on: Name,
    args: Names,
) -> Result<Effects, Fault>
    requires { Each IsPlain args }
{
    stands(site, tree)?;
    draws(site, tree)?;
    if !site.has(&loc) || !tree.holds(&loc) || !tree.alive(&loc) {
        return Err(Fault::Unmet);
    }
    if args.len() > 255 || !is_plain(on) {
        return Err(Fault::Unmet);
    }
    let id = AtomId { site: 0, k: 0 };
    let told = Msg { id, on, args };
    if !message_is_there(tree, &told) {
        return Err(Fault::Unmet);
    }
    let Msg { id: _, on, args } = told;
    Ok(site.emit(alloc, tree, counts, &loc, on, args)?)
}

// Pours one message at the root of the site, whose argument is this location or none.
pub(crate) fn emit_root(
    alloc: Global,
    site: &mut Site,
    code: &Code,
    tree: &LocTree,
    on: Name,
    arg: Option<Pair>,
) -> Result<Effects, Fault> {
    let args = args_of(alloc, arg)?;
    let root = Loc {
        site: site.number(),
        k: 0,
    };
    emit_at(alloc, site, tree, &code.seen, root, on, args)
}

fn guard_at(code: &Code, number: usize) -> Option<&Guard>
    ensures { option_copied result ≡ slice_get code.now.guards number }
{
    code.guards.as_slice().get(number)
}

fn level_at(code: &Code, number: u32) -> Option<&Level>
    ensures { option_copied result ≡ slice_get code.now.levels number }
{
    code.levels.as_slice().get(number as usize)
}

fn count_at(level: &Level, chan: u32) -> Option<u32>
    ensures { result ≡ slice_get level.now.counts chan }
{
    level.counts.as_slice().get(chan as usize).copied()
}

// The facts of code hold. It does nothing.
fn code_is_kept(code: &Code)
    ensures { IsCode code.now }
{
    let _guards = &code.guards;
}

// The body of a guard of one channel, and how many names it begins with.
fn body_of(code: &Code, guard: usize) -> Option<(u32, usize)>
    ensures { IfSome result (λ r. IsBodyAt code.now r.1 r.0) }
{
    code_is_kept(code);
    let guard = guard_at(code, guard)?;
    let level = level_at(code, guard.level)?;
    if guard.chans.len() != 1 {
        return None;
    }
    let chan = *guard.chans.as_slice().first()?;
    let count = count_at(level, chan)?;
    Some((guard.body, level.depth as usize + count as usize))
}

// Pours the body of a guard of one channel at a location, under this location alone.
pub(crate) fn pour_at(
    alloc: Global,
    site: &mut Site,
    code: &Code,
    tree: &LocTree,
    loc: Loc,
    guard: usize,
) -> Result<Effects, Fault> {
    fit(site, code, tree)?;
    draws(site, tree)?;
    if !site.has(&loc) || !tree.holds(&loc) || !tree.alive(&loc) {
        return Err(Fault::Unmet);
    }
    let env = names_of(alloc, loc)?;
    match body_of(code, guard) {
        Some((body, 1)) => Ok(site.pour(alloc, code, tree, &loc, body, &env)?),
        _ => Err(Fault::Unmet),
    }
}

/// Takes in a location with one group and nothing else, at a site without groups.
pub fn take_in_at(
    alloc: Global,
    site: &mut Site,
    code: &Code,
    parcel: &Parcel,
) -> Result<(), Fault> {
    site_is_kept(site);
    if site.groups() != 0 || site.has(&parcel.loc) {
        return Err(Fault::Unmet);
    }
    if !parcel.waiting.is_empty() || !parcel.requests.is_empty() || parcel.groups.len() != 1 {
        return Err(Fault::Unmet);
    }
    let group = &parcel.groups.as_slice()[0];
    if group.chans.k >= 1000 || group.rules.k >= 1000 || !is_small(code, group.level) {
        return Err(Fault::Unmet);
    }
    Ok(site.take_in(alloc, code, parcel)?)
}
