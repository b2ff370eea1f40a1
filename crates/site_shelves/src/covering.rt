// Which guards may be covered: their keys in the order of their rules.
ghost use Rattle.std.specs.Prelude.{◌≡◌, ◌<◌, ◌≤◌, [], ℕ, List, Some, true, false, length};
ghost use Rattle.std.specs.Prelude.{slice_get, slice_set, IsTrue};
ghost use Rattle.queue_cells.specs.Grouped.{lists_at};
ghost use Rattle.env_store.specs.declared.code.Guard.{Guard};
ghost use Rattle.chem_model.specs.Solution.{same_loc};
ghost use Rattle.net_laws.specs.Site.{Group};
ghost use Rattle.site_shelves.specs.inside.Index.{groups_of};
ghost use Rattle.site_shelves.specs.inside.Covered.{IsNoted, AreNoted, KeepsAllBut, KeepsOthers};
ghost use Rattle.site_shelves.specs.inside.Covered.{key_from, AreNotedAmong, IsRenoted};
ghost use Rattle.site_shelves.specs.inside.Covered.{IsCoveringAside};
ghost use Rattle.site_shelves.specs.inside.Covered.{IsIndexed, IsCovering, IsCoveringBut};
ghost use Rattle.site_shelves.specs.inside.Covered.{IsCoveringAway, KeepsLevels, SameLevels};
ghost use Rattle.site_shelves.specs.inside.Covered.{HasSerials, AreMasksOf, AreFirstMasksOf};
ghost use Rattle.site_shelves.specs.inside.Covered.{Agrees};
ghost use Rattle.site_shelves.specs.inside.Begun.{AgreesFrom, AgreesUntil};

use crate::firsts::{is_behind, reach};
use crate::level_masks::LevelMasks;
use crate::told::{NewGroup, Spots, Told};
use chem_model::{Loc, Memory, RuleId, same_loc};
use env_store::{Bits, Code};
use queue_cells::Groups;
use std::alloc::Global;
use std::collections::BTreeSet;
use wire_packet::Msg;

// The site and the number of a guard's rule, and the serial of its group.
pub(crate) type Key = (u32, u64, u64);

// The masks of the guards of each level, by the level's number, where a group of it was laid; and
// the keys of all guards that they cover, perhaps with others. Where a level came with other masks,
// or there was no memory, it is given up.
#[derive(Drop)]
pub(crate) struct Covering {
    pub(crate) levels: Vec<Option<LevelMasks>>,
    pub(crate) keys: BTreeSet<Key>,
    pub(crate) lost: bool,
}

// That of no group.
pub(crate) fn no_covering(alloc: Global) -> Covering
    ensures { IsCovering result [] [] }
{
    Covering {
        levels: Vec::new(alloc),
        keys: BTreeSet::new(alloc),
        lost: false,
    }
}

// Gives it up for good.
fn give_up(covering: &mut Covering)
    ensures { covering.new.lost ≡ true }
{
    covering.lost = true;
    covering.keys.clear();
}

// ---- the keys of a group

// Adds the key of a guard where its mask is covered, and drops it elsewhere. False where the mask
// has another number of words, or there is no memory.
fn note_one(
    keys: &mut BTreeSet<Key>,
    key: Key,
    groups: &Groups<Told, Msg>,
    group: usize,
    mask: &Bits,
) -> bool
    requires { group < length groups.now.groups }
    ensures noted { IsTrue result
        → IsNoted keys.new key (lists_at groups.now.groups group) mask.now }
    ensures others { KeepsAllBut key keys.old keys.new }
{
    if mask.len() != (groups.width(group) as usize).div_ceil(64) {
        return false;
    }
    if groups.covers_bits(group, mask) {
        keys.insert(key).is_ok()
    } else {
        keys.remove(&key);
        true
    }
}

// The same for all guards of a group.
fn note(
    keys: &mut BTreeSet<Key>,
    masks: &[Bits],
    groups: &Groups<Told, Msg>,
    group: usize,
    rules: RuleId,
    serial: u64,
) -> bool
    requires { group < length groups.now.groups }
    ensures noted { IsTrue result
        → AreNoted keys.new rules serial masks.now (lists_at groups.now.groups group) }
    ensures others { KeepsOthers serial keys.old keys.new }
{
    for place in 0..masks.len() {
        let Some(k) = rules.k.checked_add(place as u64) else {
            return false;
        };
        if !note_one(keys, (rules.site, k, serial), groups, group, &masks[place]) {
            return false;
        }
    }
    true
}

// The same where the masks of the group's level are known.
fn renote(
    levels: &[Option<LevelMasks>],
    keys: &mut BTreeSet<Key>,
    groups: &Groups<Told, Msg>,
    group: usize,
    serial: u64,
) -> bool
    requires { group < length groups.now.groups }
    ensures indexed { IsTrue result → (g : Group)
        → slice_get (groups_of groups.now.groups) group ≡ Some g
        → IsIndexed levels.now keys.new serial g }
    ensures others { KeepsOthers serial keys.old keys.new }
{
    let inst = &groups.told(group).inst;
    match levels.get(inst.level as usize) {
        Some(Some(masks)) => note(keys, masks.masks(), groups, group, inst.rules, serial),
        _ => false,
    }
}

// The same for the guard at one place, where this is the key of the first. False too where there is
// no guard.
fn note_at(
    keys: &mut BTreeSet<Key>,
    masks: &[Bits],
    place: u32,
    groups: &Groups<Told, Msg>,
    group: usize,
    first: Key,
) -> bool
    requires { group < length groups.now.groups }
    ensures noted { IsTrue result → (m : List ℕ) → slice_get masks.now place ≡ Some m
        → IsNoted keys.new (key_from first place) (lists_at groups.now.groups group) m }
    ensures others { KeepsAllBut (key_from first place) keys.old keys.new }
{
    let (site, rule, serial) = first;
    let Some(k) = rule.checked_add(place as u64) else {
        return false;
    };
    if place as usize >= masks.len() {
        return false;
    }
    let mask = &masks[place as usize];
    note_one(keys, (site, k, serial), groups, group, mask)
}

// The same for the guards at these places.
fn note_each(
    keys: &mut BTreeSet<Key>,
    masks: &[Bits],
    places: &[u32],
    groups: &Groups<Told, Msg>,
    group: usize,
    first: Key,
) -> bool
    requires { group < length groups.now.groups }
    ensures noted { IsTrue result → AreNotedAmong places.now keys.old keys.new first masks.now
        (lists_at groups.now.groups group) }
    ensures others { KeepsOthers first.2 keys.old keys.new }
{
    for place in places {
        if !note_at(keys, masks, *place, groups, group, first) {
            return false;
        }
    }
    true
}

// The same for the guards that wait on a channel, where the masks of the group's level are known.
fn renote_on(
    levels: &[Option<LevelMasks>],
    keys: &mut BTreeSet<Key>,
    groups: &Groups<Told, Msg>,
    group: usize,
    chan: u32,
    serial: u64,
) -> bool
    requires { group < length groups.now.groups }
    ensures renoted { IsTrue result → (g : Group)
        → slice_get (groups_of groups.now.groups) group ≡ Some g
        → IsRenoted chan levels.now keys.old keys.new serial g }
    ensures others { KeepsOthers serial keys.old keys.new }
{
    let laid = &groups.told(group).inst;
    let first = (laid.rules.site, laid.rules.k, serial);
    match levels.get(laid.level as usize) {
        Some(Some(masks)) => note_each(
            keys,
            masks.masks(),
            masks.waiting(chan),
            groups,
            group,
            first,
        ),
        _ => false,
    }
}

// Puts the keys of a group right, where those of the others are.
pub(crate) fn refresh(
    covering: &mut Covering,
    groups: &Groups<Told, Msg>,
    spots: &Spots,
    group: usize,
)
    requires serials { HasSerials spots.now (length groups.now.groups) }
    requires others { IsCoveringBut group covering.old spots.now.serials.items
        (groups_of groups.now.groups) }
    ensures { IsCovering covering.new spots.now.serials.items (groups_of groups.now.groups) }
{
    if covering.lost {
        return;
    }
    if group >= groups.len() {
        return;
    }
    let serial = spots.serials[group];
    if !renote(&covering.levels, &mut covering.keys, groups, group, serial) {
        give_up(covering);
    }
}

// Puts the keys of those guards of a group right that wait on a channel, where all others are.
pub(crate) fn refresh_on(
    covering: &mut Covering,
    groups: &Groups<Told, Msg>,
    spots: &Spots,
    group: usize,
    chan: u32,
)
    requires serials { HasSerials spots.now (length groups.now.groups) }
    requires others { IsCoveringAside chan group covering.old spots.now.serials.items
        (groups_of groups.now.groups) }
    ensures { IsCovering covering.new spots.now.serials.items (groups_of groups.now.groups) }
{
    if covering.lost {
        return;
    }
    if group >= groups.len() {
        return;
    }
    let serial = spots.serials[group];
    if !renote_on(
        &covering.levels,
        &mut covering.keys,
        groups,
        group,
        chan,
        serial,
    ) {
        give_up(covering);
    }
}

// ---- keys that go

// Drops the keys of so many guards of a group.
fn drop_keys(keys: &mut BTreeSet<Key>, rules: RuleId, guards: u32, serial: u64)
    ensures { KeepsOthers serial keys.old keys.new }
{
    for place in 0..guards {
        let Some(k) = rules.k.checked_add(place as u64) else {
            return;
        };
        keys.remove(&(rules.site, k, serial));
    }
}

// Drops the keys of a group that stands at the location.
fn drop_at(keys: &mut BTreeSet<Key>, told: &Told, serial: u64, loc: Loc)
    ensures here { same_loc loc told.now.inst.loc ≡ true → KeepsOthers serial keys.old keys.new }
    ensures away { same_loc loc told.now.inst.loc ≡ false → keys.new ≡ keys.old }
{
    if same_loc(loc, told.inst.loc) {
        drop_keys(keys, told.inst.rules, told.guards, serial);
    }
}

// Drops the keys of the groups at a location.
pub(crate) fn forget_keys(
    covering: &mut Covering,
    groups: &Groups<Told, Msg>,
    spots: &Spots,
    loc: Loc,
)
    requires serials { HasSerials spots.now (length groups.now.groups) }
    requires is { IsCovering covering.old spots.now.serials.items
        (groups_of groups.now.groups) }
    ensures { IsCoveringAway loc covering.new spots.now.serials.items
        (groups_of groups.now.groups) }
{
    for group in 0..groups.len() {
        let serial = spots.serials[group];
        drop_at(&mut covering.keys, groups.told(group), serial, loc);
    }
}

// ---- the masks of levels

// Whether the guard of the code with this number has these words, where it is there.
fn guard_has(code: &Code, number: usize, words: &Bits) -> bool
    ensures { IsTrue result → (g : Guard) → slice_get code.now.guards number ≡ Some g
        → words.now ≡ g.mask.words }
{
    match code.guards.as_slice().get(number) {
        Some(guard) => words.same(&guard.mask.words),
        None => false,
    }
}

// Whether there are as many masks as a level of the code has guards, and so many of them, from the
// first on, are those of its guards.
fn are_first_masks(code: &Code, number: usize, masks: &[Bits], many: usize) -> bool
    requires { many ≤ length masks.now }
    ensures { IsTrue result → AreFirstMasksOf many code.now number masks.now }
{
    let Some(level) = code.levels.as_slice().get(number) else {
        return false;
    };
    let first = level.first as usize;
    if masks.len() != level.guards as usize {
        return false;
    }
    for place in 0..many {
        if !guard_has(code, first + place, &masks[place]) {
            return false;
        }
    }
    true
}

// Whether these are the masks of a level of the code.
fn are_masks_of(code: &Code, number: usize, masks: &[Bits]) -> bool
    ensures { IsTrue result → AreMasksOf code.now number masks.now }
{
    are_first_masks(code, number, masks, masks.len())
}

// Whether it is kept, and the code has the masks that it knows.
pub(crate) fn agrees(covering: &Covering, code: &Code) -> bool
    ensures kept { IsTrue result → covering.now.lost ≡ false }
    ensures masks { IsTrue result → Agrees code.now covering.now.levels.items }
{
    if covering.lost {
        return false;
    }
    for number in 0..covering.levels.len() {
        if let Some(masks) = &covering.levels[number] {
            if !are_masks_of(code, number, masks.masks()) {
                return false;
            }
        }
    }
    true
}

// Whether the code has the masks of a level's guards up to the key, where a group of the level
// begins there.
fn agrees_from(levels: &[Option<LevelMasks>], code: &Code, begin: Key, key: Key) -> bool
    ensures { IsTrue result → AgreesFrom code.now levels.now key begin }
{
    match levels.get(begin.2 as usize) {
        Some(Some(known)) => {
            let masks = known.masks();
            let many = reach(begin, key, masks.len());
            are_first_masks(code, begin.2 as usize, masks, many)
        }
        _ => true,
    }
}

// The same of each level of which a group begins at the key or before it. What begins behind the
// key isn't looked at.
pub(crate) fn agrees_until(
    levels: &[Option<LevelMasks>],
    begins: &BTreeSet<Key>,
    code: &Code,
    key: Key,
) -> bool
    ensures { IsTrue result → AgreesUntil code.now levels.now key begins.now }
{
    for begin in begins.iter() {
        if is_behind(*begin, key) {
            return true;
        }
        if !agrees_from(levels, code, *begin, key) {
            return false;
        }
    }
    true
}

// Copies the mask of the guard of the code with this number, where it is there.
fn copy_mask(
    masks: &mut LevelMasks,
    alloc: Global,
    code: &Code,
    number: usize,
) -> Result<(), Memory> {
    match code.guards.as_slice().get(number) {
        Some(guard) => masks.add(alloc, guard),
        None => Ok(()),
    }
}

// How many channels a level of the code has.
fn channels_of(code: &Code, number: usize) -> usize {
    match code.levels.as_slice().get(number) {
        Some(level) => level.counts.len(),
        None => 0,
    }
}

// Copies the masks of a level of the code.
fn copy_masks(
    masks: &mut LevelMasks,
    alloc: Global,
    code: &Code,
    number: usize,
) -> Result<(), Memory> {
    let Some(level) = code.levels.as_slice().get(number) else {
        return Ok(());
    };
    let first = level.first as usize;
    for place in 0..level.guards as usize {
        copy_mask(masks, alloc, code, first + place)?;
    }
    Ok(())
}

// Makes room for a level with this number.
fn grow(levels: &mut Vec<Option<LevelMasks>>, number: usize) -> Result<(), Memory>
    ensures { SameLevels levels.old.items levels.new.items }
{
    for _at in levels.len()..=number {
        levels.push(None)?;
    }
    Ok(())
}

// Notes the masks of a level, where there is room.
fn set_level(levels: &mut Vec<Option<LevelMasks>>, number: usize, masks: LevelMasks)
    ensures { levels.new.items ≡ slice_set levels.old.items number (Some masks) }
{
    if let Some(place) = levels.get_mut(number) {
        *place = Some(masks);
    }
}

// Adds the masks of a level that isn't known.
fn add_level(
    levels: &mut Vec<Option<LevelMasks>>,
    alloc: Global,
    code: &Code,
    number: usize,
) -> Result<(), Memory>
    requires { (ms : List (List ℕ)) → slice_get levels.old.items number ≡ Some (Some ms) → ⊥ }
    ensures { KeepsLevels levels.old.items levels.new.items }
{
    grow(levels, number)?;
    let mut masks = LevelMasks::new(alloc, channels_of(code, number))?;
    match copy_masks(&mut masks, alloc, code, number) {
        Ok(()) => {
            set_level(levels, number, masks);
            Ok(())
        }
        Err(memory) => {
            drop(masks);
            Err(memory)
        }
    }
}

// Whether the masks of a level are known, and are those of the code: where they aren't known they
// are added.
fn knows(levels: &mut Vec<Option<LevelMasks>>, alloc: Global, code: &Code, number: usize) -> bool
    ensures { KeepsLevels levels.old.items levels.new.items }
{
    if let Some(Some(masks)) = levels.get(number) {
        return are_masks_of(code, number, masks.masks());
    }
    add_level(levels, alloc, code, number).is_ok()
}

// Learns the masks of a level, where it isn't given up.
fn learn_level(covering: &mut Covering, alloc: Global, code: &Code, number: usize)
    ensures { (ss : List ℕ) (gs : List Group) → IsCovering covering.old ss gs
        → IsCovering covering.new ss gs }
{
    if covering.lost {
        return;
    }
    if !knows(&mut covering.levels, alloc, code, number) {
        give_up(covering);
    }
}

// Learns the masks of the levels of groups to come.
pub(crate) fn learn(covering: &mut Covering, alloc: Global, code: &Code, groups: &[NewGroup])
    ensures { (ss : List ℕ) (gs : List Group) → IsCovering covering.old ss gs
        → IsCovering covering.new ss gs }
{
    for group in groups {
        learn_level(covering, alloc, code, group.level as usize);
    }
}
