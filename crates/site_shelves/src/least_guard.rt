// Which guard goes first: a walk along the index of covered guards.
ghost use Rattle.std.specs.Prelude.{◌≡◌, ◌<◌, ◌^◌, ℕ, Some, slice_get, length, IfSome, IfNone};
ghost use Rattle.env_store.specs.declared.code.Guard.{Guard};
ghost use Rattle.loc_tree.specs.Tree.{is_alive};
ghost use Rattle.site_shelves.specs.inside.Index.{groups_of, Rise, IsIndex};
ghost use Rattle.site_shelves.specs.inside.Fired.{IsGuardOf, IsFiredBy, NothingFiredBy};
ghost use Rattle.site_shelves.specs.inside.Fired.{NothingFired, IsFirstFired};
ghost use Rattle.site_shelves.specs.inside.Fired.{IsGuardWide, AreGuardsWide};

use crate::covering::Key;
use crate::finding::place_of;
use crate::told::{Spots, Told};
use env_store::{Bits, Code};
use loc_tree::LocTree;
use queue_cells::Groups;
use std::collections::BTreeSet;
use wire_packet::Msg;

/// What the index of covered guards tells.
#[derive(Clone, Copy, PartialEq, Eq, Debug)]
pub enum Search {
    /// The index isn't kept for this code.
    Unknown,
    /// No guard of a live location is covered.
    Nothing,
    /// This guard of the group with this index goes first.
    Found { group: u32, guard: u32 },
}

// A guard of a group.
#[derive(Clone, Copy)]
pub(crate) struct Firing {
    pub(crate) group: u32,
    pub(crate) guard: u32,
}

// The group with this serial.
fn placed(spots: &Spots, serial: u64) -> Option<usize>
    requires { (least next : ℕ) × Rise least spots.now.serials.items next }
    ensures some { IfSome result (λ j. slice_get spots.now.serials.items j ≡ Some serial) }
    ensures none { IfNone result ((j : ℕ)
        → slice_get spots.now.serials.items j ≡ Some serial → ⊥) }
{
    let group = place_of(&spots.serials, serial);
    if group >= spots.serials.len() {
        return None;
    }
    if spots.serials[group] != serial {
        return None;
    }
    Some(group)
}

// The guard of a group's level that has the rule of the key.
fn guard_of(code: &Code, told: &Told, key: Key) -> Option<u32>
    ensures some { IfSome result (IsGuardOf code.now told.now key) }
    ensures none { IfNone result ((n : ℕ) → IsGuardOf code.now told.now key n → ⊥) }
{
    let level = code.levels.as_slice().get(told.inst.level as usize)?;
    let (site, k, _serial) = key;
    let rules = told.inst.rules;
    if rules.site != site || k < rules.k || k - rules.k >= level.guards as u64 {
        return None;
    }
    let guard = level.first as usize + (k - rules.k) as usize;
    if guard >= code.guards.len() {
        return None;
    }
    Some(guard as u32)
}

// The words of a guard's mask.
fn words_of(code: &Code, guard: u32) -> &Bits
    requires { guard < length code.now.guards }
    ensures { (u : Guard) → slice_get code.now.guards guard ≡ Some u
        → result.now ≡ u.mask.words }
{
    let guard = &code.guards.as_slice()[guard as usize];
    &guard.mask.words
}

// Whether the group's location is live.
fn lives(tree: &LocTree, told: &Told) -> bool
    ensures { result ≡ is_alive tree.now told.now.inst.loc }
{
    tree.holds(&told.inst.loc) && tree.alive(&told.inst.loc)
}

// The guard of a key, where it may fire.
pub(crate) fn fired(
    groups: &Groups<Told, Msg>,
    spots: &Spots,
    code: &Code,
    tree: &LocTree,
    key: Key,
) -> Option<Firing>
    requires index { IsIndex spots.now (groups_of groups.now.groups) }
    requires few { length groups.now.groups < 2 ^ 32 }
    requires wide { IsGuardWide code.now (groups_of groups.now.groups)
        spots.now.serials.items key }
    ensures some { IfSome result (λ p. IsFiredBy code.now tree.now
        (groups_of groups.now.groups) spots.now.serials.items key p.group p.guard) }
    ensures none { IfNone result (NothingFiredBy code.now tree.now
        (groups_of groups.now.groups) spots.now.serials.items key) }
{
    let group = placed(spots, key.2)?;
    let told = groups.told(group);
    let guard = guard_of(code, told, key)?;
    if !groups.covers_bits(group, words_of(code, guard)) {
        return None;
    }
    if !lives(tree, told) {
        return None;
    }
    let group = group as u32;
    Some(Firing { group, guard })
}

// The first of these keys whose guard may fire.
pub(crate) fn first_fired(
    groups: &Groups<Told, Msg>,
    spots: &Spots,
    code: &Code,
    tree: &LocTree,
    keys: &BTreeSet<Key>,
) -> Option<Firing>
    requires index { IsIndex spots.now (groups_of groups.now.groups) }
    requires few { length groups.now.groups < 2 ^ 32 }
    requires wide { AreGuardsWide code.now (groups_of groups.now.groups) }
    ensures some { IfSome result (λ p. IsFirstFired code.now tree.now
        (groups_of groups.now.groups) spots.now.serials.items keys.now p.group p.guard) }
    ensures none { IfNone result (NothingFired code.now tree.now
        (groups_of groups.now.groups) spots.now.serials.items keys.now) }
{
    for key in keys.iter() {
        if let Some(found) = fired(groups, spots, code, tree, *key) {
            return Some(found);
        }
    }
    None
}
