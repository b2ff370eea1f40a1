// More groups and messages on shelves: first all the memory that they take, and then what
// takes none.
ghost use Rattle.std.specs.Prelude.{◌≡◌, ◌≤◌, ◌<◌, ◌+◌, ◌^◌, ◌++◌, ◌∷◌, [], ℕ, List, length};
ghost use Rattle.std.specs.Prelude.{vec_capacity, IfOk, OnOk, OnErr, IfSome};
ghost use Rattle.chem_model.specs.Each.{Each};
ghost use Rattle.net_laws.specs.Site.{Group, Site};
ghost use Rattle.net_laws.specs.Holding.{put_all};
ghost use Rattle.net_laws.specs.Kept.{AreApart};
ghost use Rattle.net_laws.specs.ByCode.{told_by};
ghost use Rattle.net_laws.specs.Parcels.{all_told};
ghost use Rattle.site_shelves.specs.CanLay.{HasNumbers};
ghost use Rattle.site_shelves.specs.inside.Index.{groups_of, told_of, new_groups, holding};
ghost use Rattle.site_shelves.specs.inside.Index.{IsIndex, HasRoom};
ghost use Rattle.site_shelves.specs.inside.Covered.{HasSerials, IsCovering};
ghost use Rattle.site_shelves.specs.inside.New.{told_of_new, widths, IsNewGroup, gone_at};
ghost use Rattle.site_shelves.specs.inside.Room.{IsRestacked, lays, HasRoomFor};
ghost use Rattle.site_shelves.specs.inside.Begun.{IsBegun, KeepsKeys};

use crate::covering::{Covering, refresh_on};
use crate::finding::{add_group, reserve_spots, settle};
use crate::firsts::{Firsts, begin_all};
use crate::told::{NewGroup, Spots, Told};
use chem_model::{Items, Memory, Nums};
use env_store::Code;
use queue_cells::{Groups, Idle};
use std::alloc::Global;
use std::mem;
use wire_packet::{GroupInst, Msg, Waiting};

/// What is to come to the shelves of a site: groups and messages.
#[derive(Drop)]
pub struct More {
    pub groups: Vec<NewGroup>,
    pub waiting: Vec<Waiting>,
}

// What the code tells of a group.
pub fn told_by(alloc: Global, code: &Code, inst: GroupInst) -> Result<Told, Memory>
    ensures { IfOk result (λ told. told ≡ told_by code.now inst) }
{
    match code.levels.as_slice().get(inst.level as usize) {
        Some(level) => {
            let counts = level.counts.copy(alloc)?;
            Ok(Told {
                inst,
                counts,
                guards: level.guards,
            })
        }
        None => {
            let counts: Nums = Items::new(alloc);
            Ok(Told {
                inst,
                counts,
                guards: 0,
            })
        }
    }
}

// A group to come, of which this is told.
pub fn new_group(alloc: Global, told: Told) -> Result<NewGroup, Memory>
    ensures told { IfOk result (λ r. r.idle.told ≡ told) }
    ensures is { IfOk result IsNewGroup }
{
    let first = told.inst.chans;
    let home = told.inst.loc;
    let level = told.inst.level;
    let rules = told.inst.rules;
    let width = told.counts.len() as u32;
    let idle = Idle::new(alloc, told, width)?;
    Ok(NewGroup {
        idle,
        first,
        home,
        width,
        level,
        rules,
    })
}

// Groups to come, as the code tells of them.
pub fn new_groups(alloc: Global, code: &Code, insts: &[GroupInst]) -> Result<Vec<NewGroup>, Memory>
    ensures told { IfOk result (λ rs. told_of_new rs.items
        ≡ all_told (told_by code.now) insts.now) }
    ensures are { IfOk result (λ rs. Each IsNewGroup rs.items) }
{
    let mut groups = Vec::with_capacity(alloc, insts.len())?;
    for inst in insts {
        let told = told_by(alloc, code, inst.copy(alloc)?)?;
        groups.push(new_group(alloc, told)?)?;
    }
    Ok(groups)
}

// How many channels they have.
pub(crate) fn channels(groups: &[NewGroup]) -> Option<usize>
    ensures { IfSome result (λ n. n ≡ widths groups.now) }
{
    let mut count: usize = 0;
    for group in groups {
        count = count.checked_add(group.width as usize)?;
    }
    Some(count)
}

// Adds groups to come, and their queues to the index. It takes no memory but for the index of
// covered guards.
fn add_groups(
    groups: &mut Groups<Told, Msg>,
    spots: &mut Spots,
    covering: &mut Covering,
    more: Vec<NewGroup>,
)
    requires index { IsIndex spots.old (groups_of groups.old.groups) }
    requires new { Each IsNewGroup more.items }
    requires numbers { Each HasNumbers (told_of_new more.items) }
    requires apart { AreApart (told_of groups.old.groups ++ told_of_new more.items) }
    requires room { length more.items ≤ groups.old.spare_groups }
    requires spots { HasRoom spots.old (length more.items) (widths more.items) }
    requires covering { IsCovering covering.old spots.old.serials.items
        (groups_of groups.old.groups) }
    ensures groups { groups_of groups.new.groups
        ≡ groups_of groups.old.groups ++ new_groups (told_of_new more.items) }
    ensures many { length groups.new.groups ≡ length groups.old.groups + length more.items }
    ensures spare { groups.new.spare ≡ groups.old.spare }
    ensures index { IsIndex spots.new (groups_of groups.new.groups) }
    ensures covering { IsCovering covering.new spots.new.serials.items
        (groups_of groups.new.groups) }
{
    for group in more {
        add_group(groups, spots, covering, group);
    }
}

// Drops the front of a queue of a group, where there is one. It takes no memory.
fn take_one(groups: &mut Groups<Told, Msg>, group: usize, chan: u32)
    ensures groups { groups_of groups.new.groups
        ≡ gone_at group (chan ∷ []) (groups_of groups.old.groups) }
    ensures many { length groups.new.groups ≡ length groups.old.groups }
    ensures spare { groups.old.spare ≤ groups.new.spare }
    ensures spare_groups { groups.new.spare_groups ≡ groups.old.spare_groups }
{
    if group >= groups.len() || chan >= groups.width(group) {
        return;
    }
    if groups.front(group, chan).is_some() {
        groups.take_front(group, chan);
    }
}

// Whether a queue is there and holds no message.
fn is_empty(groups: &Groups<Told, Msg>, group: usize, chan: u32) -> bool {
    if group >= groups.len() || chan >= groups.width(group) {
        return false;
    }
    groups.front(group, chan).is_none()
}

// Puts the keys of those guards of a group right that wait on a channel whose queue has become
// empty. Without it there are keys of guards that are no longer covered.
fn refresh_where(
    gone: bool,
    covering: &mut Covering,
    groups: &Groups<Told, Msg>,
    spots: &Spots,
    group: usize,
    chan: u32,
)
    requires serials { HasSerials spots.now (length groups.now.groups) }
    requires is { IsCovering covering.old spots.now.serials.items
        (groups_of groups.now.groups) }
    ensures { IsCovering covering.new spots.now.serials.items (groups_of groups.now.groups) }
{
    if gone {
        refresh_on(covering, groups, spots, group, chan);
    }
}

// Drops the front of each of these queues of a group in turn, where there is one. It takes no
// memory.
pub(crate) fn take_fronts(groups: &mut Groups<Told, Msg>, group: usize, chans: &[u32])
    ensures groups { groups_of groups.new.groups
        ≡ gone_at group chans.now (groups_of groups.old.groups) }
    ensures many { length groups.new.groups ≡ length groups.old.groups }
    ensures spare { groups.old.spare ≤ groups.new.spare }
    ensures spare_groups { groups.new.spare_groups ≡ groups.old.spare_groups }
{
    for chan in chans {
        take_one(groups, group, *chan);
    }
}

// Drops the keys of those guards of a group that wait on one of these channels whose queue is
// empty.
pub(crate) fn refresh_empty(
    covering: &mut Covering,
    groups: &Groups<Told, Msg>,
    spots: &Spots,
    group: usize,
    chans: &[u32],
)
    requires serials { HasSerials spots.now (length groups.now.groups) }
    requires is { IsCovering covering.old spots.now.serials.items
        (groups_of groups.now.groups) }
    ensures { IsCovering covering.new spots.now.serials.items (groups_of groups.now.groups) }
{
    for chan in chans {
        let gone = is_empty(groups, group, *chan);
        refresh_where(gone, covering, groups, spots, group, *chan);
    }
}

// Makes room for more stuck messages. Where groups are laid, those that are stuck are handed out,
// so that they may be put once more.
pub(crate) fn restack(
    alloc: Global,
    stuck: &mut Vec<Waiting>,
    lays: bool,
    more: usize,
) -> Result<Vec<Waiting>, Memory>
    ensures ok { IfOk result (λ again. IsRestacked lays stuck.old.items again.items
        stuck.new.items) }
    ensures room { IfOk result (λ again.
        length again.items + length stuck.new.items + more ≤ vec_capacity stuck.new) }
    ensures err { OnErr result (stuck.new.items ≡ stuck.old.items) }
{
    if !lays {
        stuck.reserve(more)?;
        return Ok(Vec::new(alloc));
    }
    let room = stuck.len().checked_add(more).ok_or(Memory)?;
    let empty = Vec::with_capacity(alloc, room)?;
    Ok(mem::replace(stuck, empty))
}

// Takes all memory for groups and messages to come, and notes where the groups begin: what is there
// stays, but for stuck messages that are handed out to be put once more, where groups are laid.
pub(crate) fn make_room(
    alloc: Global,
    groups: &mut Groups<Told, Msg>,
    spots: &mut Spots,
    firsts: &mut Firsts,
    stuck: &mut Vec<Waiting>,
    more: &More,
) -> Result<Vec<Waiting>, Memory>
    requires waiting { length stuck.old.items + length more.now.waiting.items < 2 ^ 33 }
    requires new { Each IsNewGroup more.now.groups.items }
    ensures groups { groups.new.groups ≡ groups.old.groups }
    ensures index { (gs : List Group) → IsIndex spots.old gs
        → IsIndex spots.new gs }
    ensures serials { spots.new.serials.items ≡ spots.old.serials.items }
    ensures begun { OnOk result (Each (IsBegun firsts.new.keys)
        (told_of_new more.now.groups.items)) }
    ensures kept { KeepsKeys firsts.old.keys firsts.new.keys }
    ensures again { IfOk result (λ again. IsRestacked (lays more.now) stuck.old.items again.items
        stuck.new.items) }
    ensures room { IfOk result (λ again.
        HasRoomFor more.now again.items groups.new spots.new stuck.new) }
    ensures err { OnErr result (stuck.new.items ≡ stuck.old.items) }
{
    let count = more.groups.len();
    let width = channels(&more.groups).ok_or(Memory)?;
    groups.reserve_groups(count)?;
    groups.reserve(stuck.len() + more.waiting.len())?;
    reserve_spots(spots, count, width)?;
    begin_all(firsts, &more.groups)?;
    restack(alloc, stuck, count != 0, more.waiting.len())
}

// Lays the groups that come, and then puts messages: those that were stuck before, and those that
// come. It takes no memory but for the index of covered guards.
pub(crate) fn lay_and_settle(
    groups: &mut Groups<Told, Msg>,
    spots: &mut Spots,
    covering: &mut Covering,
    stuck: &mut Vec<Waiting>,
    more: More,
    again: Vec<Waiting>,
)
    requires index { IsIndex spots.old (groups_of groups.old.groups) }
    requires covering { IsCovering covering.old spots.old.serials.items
        (groups_of groups.old.groups) }
    requires new { Each IsNewGroup more.groups.items }
    requires numbers { Each HasNumbers (told_of_new more.groups.items) }
    requires apart { AreApart (told_of groups.old.groups ++ told_of_new more.groups.items) }
    requires room { length again.items + length more.waiting.items ≤ groups.old.spare }
    requires groups_fit { length more.groups.items ≤ groups.old.spare_groups }
    requires channels { HasRoom spots.old (length more.groups.items) (widths more.groups.items) }
    requires left { length again.items + length stuck.old.items + length more.waiting.items
        ≤ vec_capacity stuck.old }
    ensures site { (s : Site) → put_all more.waiting.items (put_all again.items
        (record s {
          groups = groups_of groups.old.groups ++ new_groups (told_of_new more.groups.items);
          stuck = stuck.old.items;
        }))
        ≡ holding s groups.new.groups stuck.new.items }
    ensures index { IsIndex spots.new (groups_of groups.new.groups) }
    ensures covering { IsCovering covering.new spots.new.serials.items
        (groups_of groups.new.groups) }
    ensures many { length groups.new.groups ≡ length groups.old.groups + length more.groups.items }
{
    let More {
        groups: laid,
        waiting,
    } = more;
    add_groups(groups, spots, covering, laid);
    settle(groups, spots, covering, stuck, again);
    settle(groups, spots, covering, stuck, waiting);
}
