// What a site knows of all that it holds and names: limits, which are noted before anything comes
// and stay when it goes. So they may be wider than need be, and are never too narrow.
ghost use Rattle.std.specs.Prelude.{◌≡◌, ◌≢◌, ◌<◌, ◌≤◌, ◌&&◌, ℕ, true, max, length, drop, []};
ghost use Rattle.std.specs.Prelude.{slice_index, false, IsTrue};
ghost use Rattle.std.specs.List.{list_all};
ghost use Rattle.chem_model.specs.declared.name.Loc.{Loc};
ghost use Rattle.net_laws.specs.Net.{among};
ghost use Rattle.wire_packet.specs.declared.packet.Waiting.{Waiting};
ghost use Rattle.site_shelves.specs.Named.{name_in, names_in};
ghost use Rattle.site_shelves.specs.Draws.{are_drawn, told_drawn};
ghost use Rattle.site_shelves.specs.inside.Index.{told_of};
ghost use Rattle.site_limits.specs.Limits.{is_before, message_within, request_within};
ghost use Rattle.site_limits.specs.Limits.{told_within, loc_within, AreWithin};
ghost use Rattle.site_limits.specs.Knows.{Noted, AreNoted};

use crate::places::Places;
use crate::shapes::{Shape, add_shape, is_shaped};
use chem_model::{AtomId, Loc, Memory, Name, same_name};
use queue_cells::Groups;
use site_shelves::Told;
use std::alloc::Global;
use wire_packet::{Ask, Msg, Request, Waiting};

// Of so many sites, as many as a program has, it is known which atoms they made.
const SITES: usize = 256;

/// The roots that are named have sites below the first number, and the other locations that are
/// named are among the places. Each atom that a site made has a number below the site's own of
/// these, and each location, rule and channel that the site itself made one below the last number.
/// Each group has one of the shapes. Where there is no memory for it, all of it is given up.
#[derive(Drop)]
pub struct Known {
    pub roots: u32,
    pub named: Places,
    pub atoms: Vec<u64>,
    pub drawn: u64,
    pub shapes: Vec<Shape>,
    pub lost: bool,
}

/// That of a site that holds its root alone.
pub fn only_root(alloc: Global) -> Known
    ensures { result.drawn ≡ 1 }
{
    Known {
        roots: 0,
        named: Places::new(alloc),
        atoms: Vec::new(alloc),
        drawn: 1,
        shapes: Vec::new(alloc),
        lost: false,
    }
}

// ---- names

fn note_root(known: &mut Known, loc: Loc)
    requires { loc.k ≡ 0 }
    ensures { Noted known.old known.new (λ b. b.known loc ≡ true) }
{
    if loc.site < known.roots {
        return;
    }
    match loc.site.checked_add(1) {
        Some(roots) => known.roots = roots,
        None => known.lost = true,
    }
}

fn add_place(known: &mut Known, loc: Loc)
    requires { among known.old.named.locs loc ≡ false }
    ensures { Noted known.old known.new (λ b. b.known loc ≡ true) }
{
    match known.named.add(loc) {
        Ok(()) => {}
        Err(Memory) => known.lost = true,
    }
}

// The place of a location that is no root, near which the next one is looked for first: what is
// named together was noted together, and stands one behind the other.
fn note_place(known: &mut Known, loc: Loc, near: usize) -> usize
    ensures { Noted known.old known.new (λ b. b.known loc ≡ true) }
{
    match known.named.find(&loc, near) {
        Some(place) => place,
        None => {
            add_place(known, loc);
            near
        }
    }
}

fn note_loc(known: &mut Known, loc: Loc, near: usize) -> usize
    ensures { Noted known.old known.new (λ b. b.known loc ≡ true) }
{
    if loc.k == 0 {
        note_root(known, loc);
        near
    } else {
        note_place(known, loc, near)
    }
}

fn note_name(known: &mut Known, name: Name, near: usize) -> usize
    ensures { Noted known.old known.new (λ b. name_in b.known name ≡ true) }
{
    match name {
        Name::Seen(_) | Name::Num(_) | Name::Op(_) => near,
        Name::Place(loc) => note_loc(known, loc, near),
        Name::Chan {
            site: _,
            k: _,
            home,
        } => note_loc(known, home, near),
    }
}

fn note_names(known: &mut Known, names: &[Name])
    ensures { Noted known.old known.new (λ b. names_in b.known names.now ≡ true) }
{
    let mut near = 0;
    for name in names {
        near = note_name(known, *name, near);
    }
}

// ---- atoms

// Makes place for the number of a site, where it isn't there.
fn widen(atoms: &mut Vec<u64>, site: usize) -> Result<(), Memory>
    ensures { (i : ℕ) → slice_index atoms.new.items i ≡ slice_index atoms.old.items i }
{
    for _at in atoms.len()..=site {
        atoms.push(0)?;
    }
    Ok(())
}

fn raise(atoms: &mut Vec<u64>, site: usize, after: u64)
    ensures own { site < length atoms.old.items
        → slice_index atoms.new.items site ≡ max (slice_index atoms.old.items site) after }
    ensures others { (i : ℕ) → i ≢ site
        → slice_index atoms.new.items i ≡ slice_index atoms.old.items i }
{
    if site < atoms.len() && atoms[site] < after {
        atoms[site] = after;
    }
}

fn note_atom(known: &mut Known, id: AtomId)
    ensures { Noted known.old known.new (λ b. is_before b id ≡ true) }
{
    let site = id.site as usize;
    if site >= SITES || id.k >= u64::MAX || widen(&mut known.atoms, site).is_err() {
        known.lost = true;
        return;
    }
    if site >= known.atoms.len() {
        known.lost = true;
        return;
    }
    raise(&mut known.atoms, site, id.k + 1);
}

// ---- messages and requests

pub fn note_msg(known: &mut Known, msg: &Msg)
    ensures { Noted known.old known.new (λ b. message_within b msg.now ≡ true) }
{
    note_atom(known, msg.id);
    note_name(known, msg.on, 0);
    note_names(known, msg.args.as_slice());
}

fn note_waiting(known: &mut Known, waiting: &[Waiting])
    ensures { Noted known.old known.new
        (λ b. list_all (λ (w : Waiting). message_within b w.msg) waiting.now ≡ true) }
{
    for one in waiting {
        note_msg(known, &one.msg);
    }
}

fn note_asking(known: &mut Known, id: AtomId, target: Name, cont: Name)
    ensures { Noted known.old known.new
        (λ b. is_before b id && (name_in b.known target && name_in b.known cont) ≡ true) }
{
    note_atom(known, id);
    note_name(known, target, 0);
    note_name(known, cont, 0);
}

pub fn note_request(known: &mut Known, request: &Request)
    ensures { Noted known.old known.new (λ b. request_within b request.now ≡ true) }
{
    match request.ask {
        Ask::Go { target, cont } => note_asking(known, request.id, target, cont),
        Ask::Fail { target, cont } => note_asking(known, request.id, target, cont),
        Ask::Halt => note_atom(known, request.id),
    }
}

fn note_requests(known: &mut Known, requests: &[Request])
    ensures { Noted known.old known.new
        (λ b. list_all (request_within b) requests.now ≡ true) }
{
    for one in requests {
        note_request(known, one);
    }
}

// ---- locations, channels and rules

fn raise_drawn(known: &mut Known, next: u64)
    ensures { Noted known.old known.new (λ b. next ≤ b.drawn) }
{
    if known.drawn < next {
        known.drawn = next;
    }
}

// So many numbers of a site, from one on, are those of something that comes to the site with this
// number.
fn note_drawn(known: &mut Known, number: u32, site: u32, k: u64, many: u64)
    ensures { Noted known.old known.new (λ b. are_drawn number b.drawn site k many ≡ true) }
{
    if site != number {
        return;
    }
    match k.checked_add(many) {
        Some(next) => raise_drawn(known, next),
        None => known.lost = true,
    }
}

/// A location comes to the site with this number.
pub fn note_home(known: &mut Known, number: u32, loc: Loc)
    ensures { Noted known.old known.new (λ b. loc_within b number loc ≡ true) }
{
    note_drawn(known, number, loc.site, loc.k, 1);
}

fn note_homes(known: &mut Known, number: u32, locs: &[Loc])
    ensures { Noted known.old known.new (λ b. list_all (loc_within b number) locs.now ≡ true) }
{
    for loc in locs {
        note_home(known, number, *loc);
    }
}

// The channels and the rules of a group.
fn note_numbers(known: &mut Known, number: u32, told: &Told)
    ensures { Noted known.old known.new (λ b. told_drawn number b.drawn told.now ≡ true) }
{
    let chans = told.inst.chans;
    let rules = told.inst.rules;
    note_drawn(known, number, chans.site, chans.k, told.counts.len() as u64);
    note_drawn(known, number, rules.site, rules.k, told.guards as u64);
}

fn note_shape(alloc: Global, known: &mut Known, told: &Told)
    ensures { Noted known.old known.new (λ b. b.shaped told.now ≡ true) }
{
    if is_shaped(&known.shapes, told) {
        return;
    }
    match add_shape(alloc, &mut known.shapes, told) {
        Ok(()) => {}
        Err(Memory) => known.lost = true,
    }
}

// Whether the names of two environments are the same, one by one.
fn are_same(env: &[Name], before: &[Name]) -> bool
    ensures { IsTrue result → env.now ≡ before.now }
{
    if env.len() != before.len() {
        return false;
    }
    for place in 0..env.len() {
        if !same_name(env[place], before[place]) {
            return false;
        }
    }
    true
}

// Notes an environment after another one that is noted. The groups of a block come one behind the
// other and have the same environment, which needs to be noted for the first of them alone.
fn note_env(known: &mut Known, env: &[Name], before: &[Name])
    ensures { AreNoted known.old before.now
        → Noted known.old known.new (λ b. names_in b.known env.now ≡ true) }
{
    if are_same(env, before) {
        return;
    }
    note_names(known, env);
}

// The other environment is noted: that of the group before this one, or none.
fn note_told(alloc: Global, known: &mut Known, number: u32, told: &Told, before: &[Name])
    ensures { AreNoted known.old before.now
        → Noted known.old known.new (λ b. told_within b number told.now ≡ true) }
{
    note_env(known, told.inst.env.as_slice(), before);
    note_numbers(known, number, told);
    note_shape(alloc, known, told);
}

// ---- what comes to a site at once

/// Locations, messages and requests come to the site with this number.
pub fn note_all(
    known: &mut Known,
    number: u32,
    locs: &[Loc],
    waiting: &[Waiting],
    requests: &[Request],
)
    ensures { Noted known.old known.new
        (λ b. AreWithin b number locs.now [] waiting.now requests.now) }
{
    note_homes(known, number, locs);
    note_waiting(known, waiting);
    note_requests(known, requests);
}

/// Groups have come to it, behind so many others.
pub fn note_laid(
    alloc: Global,
    known: &mut Known,
    number: u32,
    groups: &Groups<Told, Msg>,
    from: usize,
)
    ensures { Noted known.old known.new
        (λ b. list_all (told_within b number) (drop from (told_of groups.now.groups)) ≡ true) }
{
    let mut before: &[Name] = &[];
    for group in from..groups.len() {
        let told = groups.told(group);
        note_told(alloc, known, number, told, before);
        before = told.inst.env.as_slice();
    }
}
