// The queue of a message's channel.
ghost use Rattle.std.specs.Prelude.{◌≡◌, ◌≤◌, ◌<◌, ◌+◌, ◌-◌, ◌^◌, ◌++◌, ◌∷◌, [], ℕ, List};
ghost use Rattle.std.specs.Prelude.{Some, cond, true, IfSome};
ghost use Rattle.std.specs.Prelude.{length, slice_get, vec_capacity, IsTrue, OnOk, OnErr, IfErr};
ghost use Rattle.std.specs.HashMap as hash;
ghost use Rattle.std.specs.HashMap.{spare};
ghost use Rattle.queue_cells.specs.Grouped.{lists_at, queue_in, with_last};
ghost use Rattle.chem_model.specs.declared.name.Loc.{Loc};
ghost use Rattle.net_laws.specs.Site.{Group, Site};
ghost use Rattle.net_laws.specs.Kept.{AreApart};
ghost use Rattle.net_laws.specs.Holding.{put_all, new_group};
ghost use Rattle.site_shelves.specs.inside.Covered.{HasSerials, IsCovering};
ghost use Rattle.site_shelves.specs.inside.New.{IsNewGroup};
ghost use Rattle.site_shelves.specs.inside.Index.{key_of, is_one_of, holding};
ghost use Rattle.site_shelves.specs.inside.Index.{groups_of, told_of, same_key, spot_of};
ghost use Rattle.site_shelves.specs.inside.Index.{on_count, Rise, place_of, IsIndex, HasRoom};
ghost use Rattle.site_shelves.specs.inside.Index.{has_channel};

use crate::covering::{Covering, refresh, refresh_on};
use crate::told::{Mark, NewGroup, Spot, Spots, Told};
use chem_model::{AtomId, Loc, Memory, Name, same_loc};
use queue_cells::Groups;
use std::alloc::Global;
use std::collections::HashMap;
use wire_packet::{Msg, Waiting};

// The index of no group.
pub(crate) fn no_spots(alloc: Global) -> Spots
    ensures { IsIndex result [] }
{
    Spots {
        marks: HashMap::new(alloc),
        serials: Vec::new(alloc),
        next: 0,
    }
}

// Makes room for so many groups more, which have so many channels.
pub(crate) fn reserve_spots(spots: &mut Spots, groups: usize, channels: usize) -> Result<(), Memory>
    ensures room { OnOk result (HasRoom spots.new groups channels) }
    ensures index { (gs : List Group) → IsIndex spots.old gs → IsIndex spots.new gs }
    ensures serials { spots.new.serials.items ≡ spots.old.serials.items }
{
    if groups as u64 >= u64::MAX - spots.next {
        return Err(Memory);
    }
    spots.serials.reserve(groups)?;
    spots.marks.reserve(channels)?;
    Ok(())
}

// How many serials are below this one.
pub(crate) fn place_of(serials: &[u64], serial: u64) -> usize
    requires { (least next : ℕ) × Rise least serials.now next }
    ensures { result ≡ place_of serial serials.now }
{
    let mut low = 0;
    let mut high = serials.len();
    while low < high {
        let middle = low + (high - low) / 2;
        if serials[middle] < serial {
            low = middle + 1;
        } else {
            high = middle;
        }
    }
    low
}

// The queue, where messages of this count go into it.
fn with_count(told: &Told, spot: Spot, count: usize) -> Option<Spot>
    ensures { result ≡ on_count (slice_get told.now.counts spot.chan) count spot }
{
    match told.counts.as_slice().get(spot.chan as usize) {
        Some(own) if *own as usize == count => Some(spot),
        _ => None,
    }
}

// Whether the channel is one of those of the group of which this is told.
fn has_channel(told: &Told, site: u32, k: u64, home: Loc) -> bool
    ensures { IsTrue result → has_channel told.now site k home ≡ true }
{
    let first = told.inst.chans;
    if site != first.site || k < first.k {
        return false;
    }
    k - first.k < told.counts.len() as u64 && same_loc(told.inst.loc, home)
}

// The queue that takes a message, where it is one of the first group's: these are a site's own
// channels, which most messages are on.
fn find_first(groups: &Groups<Told, Msg>, msg: &Msg) -> Option<Spot>
    ensures { IfSome result (λ spot. spot_of (told_of groups.now.groups) msg.now ≡ Some spot) }
{
    let Name::Chan { site, k, home } = msg.on else {
        return None;
    };
    if groups.len() == 0 {
        return None;
    }
    let told = groups.told(0);
    if !has_channel(told, site, k, home) {
        return None;
    }
    let chan = u32::try_from(k.checked_sub(told.inst.chans.k)?).ok()?;
    with_count(told, Spot { group: 0, chan }, msg.args.len())
}

// The queue that takes a message, if there is one, by the index.
fn look_up(groups: &Groups<Told, Msg>, spots: &Spots, msg: &Msg) -> Option<Spot>
    requires { IsIndex spots.now (groups_of groups.now.groups) }
    ensures { result ≡ spot_of (told_of groups.now.groups) msg.now }
{
    let Name::Chan { site, k, home } = msg.on else {
        return None;
    };
    let mark = *spots.marks.get(&((site, k), (home.site, home.k)))?;
    let spot = Spot {
        group: place_of(&spots.serials, mark.serial),
        chan: mark.chan,
    };
    with_count(groups.told(spot.group), spot, msg.args.len())
}

// The queue that takes a message, if there is one. It is looked for in the first group before the
// index is asked.
pub(crate) fn find(groups: &Groups<Told, Msg>, spots: &Spots, msg: &Msg) -> Option<Spot>
    requires { IsIndex spots.now (groups_of groups.now.groups) }
    ensures { result ≡ spot_of (told_of groups.now.groups) msg.now }
{
    match find_first(groups, msg) {
        Some(spot) => Some(spot),
        None => look_up(groups, spots, msg),
    }
}

// Whether a queue holds a message.
fn holds(groups: &Groups<Told, Msg>, group: usize, chan: u32) -> bool
    requires group { group < length groups.now.groups }
    requires chan { chan < length (lists_at groups.now.groups group) }
    ensures { IsTrue result → 0 < length (queue_in groups.now.groups group chan) }
{
    groups.front(group, chan).is_some()
}

// Appends a message to a queue. It takes no memory but for the index of covered guards, which
// changes where the queue was empty.
fn push_in(
    groups: &mut Groups<Told, Msg>,
    spots: &Spots,
    covering: &mut Covering,
    group: usize,
    chan: u32,
    msg: Msg,
)
    requires group { group < length groups.old.groups }
    requires chan { chan < length (lists_at groups.old.groups group) }
    requires room { 1 ≤ groups.old.spare }
    requires serials { HasSerials spots.now (length groups.old.groups) }
    requires covering { IsCovering covering.old spots.now.serials.items
        (groups_of groups.old.groups) }
    ensures groups { groups.new.groups ≡ with_last groups.old.groups group chan msg }
    ensures spare { groups.new.spare + 1 ≡ groups.old.spare }
    ensures covering { IsCovering covering.new spots.now.serials.items
        (groups_of groups.new.groups) }
{
    let held = holds(groups, group, chan);
    groups.push_reserved(group, chan, msg);
    if !held {
        refresh_on(covering, groups, spots, group, chan);
    }
}

// Appends a message to a queue, or hands it back where there is no memory.
pub(crate) fn push_back(
    groups: &mut Groups<Told, Msg>,
    spots: &Spots,
    covering: &mut Covering,
    group: usize,
    chan: u32,
    msg: Msg,
) -> Result<(), (Msg, Memory)>
    requires group { group < length groups.old.groups }
    requires chan { chan < length (lists_at groups.old.groups group) }
    requires serials { HasSerials spots.now (length groups.old.groups) }
    requires covering { IsCovering covering.old spots.now.serials.items
        (groups_of groups.old.groups) }
    ensures ok { OnOk result (groups.new.groups ≡ with_last groups.old.groups group chan msg) }
    ensures err { OnErr result (groups.new.groups ≡ groups.old.groups) }
    ensures back { IfErr result (λ back. back.0 ≡ msg) }
    ensures covering { IsCovering covering.new spots.now.serials.items
        (groups_of groups.new.groups) }
{
    if groups.reserve(1).is_err() {
        return Err((msg, Memory));
    }
    push_in(groups, spots, covering, group, chan, msg);
    Ok(())
}

// Notes the queues of a new group with this serial. It takes no memory.
pub(crate) fn name_queues(spots: &mut Spots, first: AtomId, home: Loc, width: u32, serial: u64)
    requires room { width ≤ spare spots.old.marks }
    requires fits { first.k + width ≤ 2 ^ 64 }
    ensures named { (site k : ℕ) (at : Loc) → hash.get same_key spots.new.marks (key_of site k at)
        ≡ cond (is_one_of first.site first.k width home site k at)
        (Some (record { serial = serial; chan = k - first.k }))
        (hash.get same_key spots.old.marks (key_of site k at)) }
    ensures room { spare spots.old.marks ≤ spare spots.new.marks + width }
    ensures serials { spots.new.serials ≡ spots.old.serials }
    ensures next { spots.new.next ≡ spots.old.next }
{
    for chan in 0..width {
        let key = ((first.site, first.k + chan as u64), (home.site, home.k));
        let _ = spots.marks.insert(key, Mark { serial, chan });
    }
}

// Puts messages once more, one after another: into their queues, or behind the others that are
// stuck. It takes no memory but for the index of covered guards.
pub(crate) fn settle(
    groups: &mut Groups<Told, Msg>,
    spots: &Spots,
    covering: &mut Covering,
    stuck: &mut Vec<Waiting>,
    waiting: Vec<Waiting>,
)
    requires index { IsIndex spots.now (groups_of groups.old.groups) }
    requires covering { IsCovering covering.old spots.now.serials.items
        (groups_of groups.old.groups) }
    requires room { length waiting.items ≤ groups.old.spare }
    requires fits { length waiting.items + length stuck.old.items ≤ vec_capacity stuck.old }
    ensures site { (s : Site) → put_all waiting.items (holding s groups.old.groups stuck.old.items)
        ≡ holding s groups.new.groups stuck.new.items }
    ensures index { IsIndex spots.now (groups_of groups.new.groups) }
    ensures covering { IsCovering covering.new spots.now.serials.items
        (groups_of groups.new.groups) }
    ensures many { length groups.new.groups ≡ length groups.old.groups }
    ensures spare { groups.old.spare ≤ groups.new.spare + length waiting.items }
    ensures capacity { vec_capacity stuck.new ≡ vec_capacity stuck.old }
    ensures stuck { length stuck.new.items ≤ length stuck.old.items + length waiting.items }
{
    for one in waiting {
        if let Some(spot) = find(groups, spots, &one.msg) {
            let Waiting { loc: _, msg } = one;
            push_in(groups, spots, covering, spot.group, spot.chan, msg);
        } else {
            stuck.push_reserved(one);
        }
    }
}

// Adds a group to come, and its queues to the index. It takes no memory but for the index of
// covered guards.
pub(crate) fn add_group(
    groups: &mut Groups<Told, Msg>,
    spots: &mut Spots,
    covering: &mut Covering,
    laid: NewGroup,
)
    requires index { IsIndex spots.old (groups_of groups.old.groups) }
    requires is { IsNewGroup laid }
    requires fits { laid.first.k + laid.width ≤ 2 ^ 64 }
    requires apart { AreApart (told_of groups.old.groups ++ laid.idle.told ∷ []) }
    requires room { (1 ≤ groups.old.spare_groups) × HasRoom spots.old 1 laid.width }
    requires covering { IsCovering covering.old spots.old.serials.items
        (groups_of groups.old.groups) }
    ensures groups { groups_of groups.new.groups
        ≡ groups_of groups.old.groups ++ new_group laid.idle.told ∷ [] }
    ensures many { length groups.new.groups ≡ length groups.old.groups + 1 }
    ensures spare { groups.new.spare ≡ groups.old.spare }
    ensures spare_groups { groups.new.spare_groups + 1 ≡ groups.old.spare_groups }
    ensures index { IsIndex spots.new (groups_of groups.new.groups) }
    ensures left { (g c : ℕ) → HasRoom spots.old (g + 1) (c + laid.width) → HasRoom spots.new g c }
    ensures covering { IsCovering covering.new spots.new.serials.items
        (groups_of groups.new.groups) }
{
    let NewGroup {
        idle,
        first,
        home,
        width,
        level: _,
        rules: _,
    } = laid;
    let group = groups.len();
    let serial = spots.next;
    groups.add_reserved(idle);
    name_queues(spots, first, home, width, serial);
    spots.serials.push_reserved(serial);
    spots.next = serial + 1;
    refresh(covering, groups, spots, group);
}
