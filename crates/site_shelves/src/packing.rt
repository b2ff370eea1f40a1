// What stands at a location, copied.
ghost use Rattle.std.specs.Prelude.{◌≡◌, ◌<◌, ◌^◌, ◌++◌, ◌∷◌, [], cond, length, IfOk, OnOk};
ghost use Rattle.chem_model.specs.Each.{Each};
ghost use Rattle.chem_model.specs.Solution.{same_loc};
ghost use Rattle.queue_cells.specs.Grouped.{lists_at, queue_in};
ghost use Rattle.net_laws.specs.Site.{told_in};
ghost use Rattle.net_laws.specs.Parcels.{groups_at, stuck_at, insts_in};
ghost use Rattle.net_laws.specs.Parcels.{in_queue, in_queues, in_all_queues};
ghost use Rattle.site_shelves.specs.inside.Index.{groups_of};
ghost use Rattle.site_shelves.specs.inside.Packed.{HasFewNames};

use crate::told::Told;
use chem_model::{Items, Loc, Memory, same_loc};
use queue_cells::Groups;
use std::alloc::Global;
use wire_packet::{GroupInst, GroupInsts, Msg, Waiting, WaitingList};

// Appends a group where it stands at the location.
fn copy_group(
    alloc: Global,
    members: &mut GroupInsts,
    inst: &GroupInst,
    loc: Loc,
) -> Result<(), Memory>
    ensures is { OnOk result (
        members.new ≡ members.old ++ cond (same_loc loc inst.now.loc) (inst.now ∷ []) []) }
    ensures names { Each HasFewNames members.old → Each HasFewNames members.new }
{
    if same_loc(loc, inst.loc) {
        // its environment has fewer than 2^32 names
        let _few = inst.env.len();
        members.push(inst.copy(alloc)?)?;
    }
    Ok(())
}

// The groups at a location.
pub fn copy_groups_at(
    alloc: Global,
    groups: &Groups<Told, Msg>,
    loc: Loc,
) -> Result<GroupInsts, Memory>
    ensures is { IfOk result (λ r.
        r ≡ insts_in (told_in (groups_at loc (groups_of groups.now.groups)))) }
    ensures names { IfOk result (λ r. Each HasFewNames r) }
{
    let mut members = Items::new(alloc);
    for group in 0..groups.len() {
        copy_group(alloc, &mut members, &groups.told(group).inst, loc)?;
    }
    Ok(members)
}

// Appends the messages of a queue.
fn copy_queue(
    alloc: Global,
    list: &mut WaitingList,
    groups: &Groups<Told, Msg>,
    group: usize,
    chan: u32,
    loc: Loc,
) -> Result<(), Memory>
    requires group { group < length groups.now.groups }
    requires chan { chan < length (lists_at groups.now.groups group) }
    ensures { OnOk result (
        list.new ≡ list.old ++ in_queue loc (queue_in groups.now.groups group chan)) }
{
    for msg in groups.queue(group, chan) {
        list.push(Waiting {
            loc,
            msg: msg.copy(alloc)?,
        })?;
    }
    Ok(())
}

// Appends the messages of a group's queues, one queue after another.
fn copy_queues(
    alloc: Global,
    list: &mut WaitingList,
    groups: &Groups<Told, Msg>,
    group: usize,
    loc: Loc,
) -> Result<(), Memory>
    requires { group < length groups.now.groups }
    ensures { OnOk result (
        list.new ≡ list.old ++ in_queues loc (lists_at groups.now.groups group)) }
{
    let width = groups.width(group);
    for chan in 0..width {
        copy_queue(alloc, list, groups, group, chan, loc)?;
    }
    Ok(())
}

// Appends the messages in queues of groups at a location.
fn copy_queued(
    alloc: Global,
    list: &mut WaitingList,
    groups: &Groups<Told, Msg>,
    loc: Loc,
) -> Result<(), Memory>
    ensures { OnOk result (
        list.new ≡ list.old ++ in_all_queues (groups_at loc (groups_of groups.now.groups))) }
{
    for group in 0..groups.len() {
        if same_loc(loc, groups.told(group).inst.loc) {
            copy_queues(alloc, list, groups, group, loc)?;
        }
    }
    Ok(())
}

// Appends a stuck message where it stands at the location.
fn copy_one(
    alloc: Global,
    list: &mut WaitingList,
    waiting: &Waiting,
    loc: Loc,
) -> Result<(), Memory>
    ensures { OnOk result (
        list.new ≡ list.old ++ cond (same_loc loc waiting.now.loc) (waiting.now ∷ []) []) }
{
    if same_loc(loc, waiting.loc) {
        list.push(waiting.copy(alloc)?)?;
    }
    Ok(())
}

// Appends the stuck messages at a location.
fn copy_stuck(
    alloc: Global,
    list: &mut WaitingList,
    stuck: &[Waiting],
    loc: Loc,
) -> Result<(), Memory>
    ensures { OnOk result (list.new ≡ list.old ++ stuck_at loc stuck.now) }
{
    for waiting in stuck {
        copy_one(alloc, list, waiting, loc)?;
    }
    Ok(())
}

// The messages at a location: those in the queues of groups, and then those that are stuck.
pub fn copy_waiting_at(
    alloc: Global,
    groups: &Groups<Told, Msg>,
    stuck: &[Waiting],
    loc: Loc,
) -> Result<WaitingList, Memory>
    ensures { IfOk result (λ r. r ≡ in_all_queues (groups_at loc (groups_of groups.now.groups))
        ++ stuck_at loc stuck.now) }
{
    let mut list = Items::new(alloc);
    copy_queued(alloc, &mut list, groups, loc)?;
    copy_stuck(alloc, &mut list, stuck, loc)?;
    Ok(list)
}
