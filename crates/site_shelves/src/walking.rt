// Walks over all that waits in groups. None of them takes memory.
ghost use Rattle.std.specs.Prelude.{◌≡◌, ◌<◌, ◌&&◌, length, slice_get, Some};
ghost use Rattle.std.specs.List.{list_any, list_all};
ghost use Rattle.wire_packet.specs.MessageFacts.{MessageParts};
ghost use Rattle.wire_packet.specs.declared.packet.Waiting.{Waiting};
ghost use Rattle.net_laws.specs.Site.{Group};
ghost use Rattle.queue_cells.specs.Grouped.{lists_at};
ghost use Rattle.site_shelves.specs.Held.{is_id_of, in_queues, in_groups_of};
ghost use Rattle.site_shelves.specs.InTree.{name_stands, message_stands};
ghost use Rattle.site_shelves.specs.inside.InTree.{names_stand};
ghost use Rattle.site_shelves.specs.inside.InTree.{queues_stand, group_stands};
ghost use Rattle.chem_model.specs.Apply.{same_atom};
ghost use Rattle.site_shelves.specs.inside.Index.{groups_of};

use crate::told::Told;
use chem_model::{AtomId, Name};
use loc_tree::LocTree;
use queue_cells::{Groups, Iter};
use wire_packet::{Msg, Waiting};

pub fn is_same(one: AtomId, other: AtomId) -> bool
    ensures { result ≡ same_atom one other }
{
    one.site == other.site && one.k == other.k
}

// Whether a message of the queue has this id.
fn in_queue(queue: Iter<'_, Msg>, atom: AtomId) -> bool
    ensures { result ≡ list_any (is_id_of atom) queue.entry }
{
    for msg in queue {
        if is_same(msg.id, atom) {
            return true;
        }
    }
    false
}

fn in_group(groups: &Groups<Told, Msg>, group: usize, atom: AtomId) -> bool
    requires { group < length groups.now.groups }
    ensures { result ≡ in_queues atom (lists_at groups.now.groups group) }
{
    let width = groups.width(group);
    for chan in 0..width {
        if in_queue(groups.queue(group, chan), atom) {
            return true;
        }
    }
    false
}

// Whether a message in any queue has this id.
pub fn in_groups(groups: &Groups<Told, Msg>, atom: AtomId) -> bool
    ensures { result ≡ in_groups_of atom (groups_of groups.now.groups) }
{
    for group in 0..groups.len() {
        if in_group(groups, group, atom) {
            return true;
        }
    }
    false
}

// Whether a stuck message has this id.
pub fn in_stuck(stuck: &[Waiting], atom: AtomId) -> bool
    ensures { result ≡ list_any (λ (w : Waiting). is_id_of atom w.msg) stuck.now }
{
    stuck.iter().any(|waiting| is_same(waiting.msg.id, atom))
}

// Whether the location or the home that the name names is in the tree.
pub fn name_is_there(tree: &LocTree, name: Name) -> bool
    ensures { result ≡ name_stands tree.now name }
{
    match name {
        Name::Seen(_) | Name::Num(_) | Name::Op(_) => true,
        Name::Place(loc) => tree.holds(&loc),
        Name::Chan {
            site: _,
            k: _,
            home,
        } => tree.holds(&home),
    }
}

fn names_are_there(tree: &LocTree, names: &[Name]) -> bool
    ensures { result ≡ names_stand tree.now names.now }
{
    for name in names {
        if !name_is_there(tree, *name) {
            return false;
        }
    }
    true
}

/// Whether each location and each home of a channel that the message names is in the tree.
pub fn message_is_there(tree: &LocTree, msg: &Msg) -> bool
    ensures { result ≡ message_stands tree.now msg.now }
{
    name_is_there(tree, msg.on) && names_are_there(tree, msg.args.as_slice())
}

fn queue_is_there(tree: &LocTree, queue: Iter<'_, Msg>) -> bool
    ensures { result ≡ list_all (message_stands tree.now) queue.entry }
{
    for msg in queue {
        if !message_is_there(tree, msg) {
            return false;
        }
    }
    true
}

fn queues_are_there(tree: &LocTree, groups: &Groups<Told, Msg>, group: usize) -> bool
    requires { group < length groups.now.groups }
    ensures { result ≡ queues_stand tree.now (lists_at groups.now.groups group) }
{
    let width = groups.width(group);
    for chan in 0..width {
        if !queue_is_there(tree, groups.queue(group, chan)) {
            return false;
        }
    }
    true
}

fn group_is_there(tree: &LocTree, groups: &Groups<Told, Msg>, group: usize) -> bool
    requires { group < length groups.now.groups }
    ensures { (g : Group) → slice_get (groups_of groups.now.groups) group ≡ Some g
        → result ≡ group_stands tree.now g }
{
    names_are_there(tree, groups.told(group).inst.env.as_slice())
        && queues_are_there(tree, groups, group)
}

// Whether all that environments and queued messages name is in the tree.
pub fn groups_are_there(tree: &LocTree, groups: &Groups<Told, Msg>) -> bool
    ensures { result ≡ list_all (group_stands tree.now) (groups_of groups.now.groups) }
{
    for group in 0..groups.len() {
        if !group_is_there(tree, groups, group) {
            return false;
        }
    }
    true
}

// Whether all that stuck messages name is in the tree.
pub fn stuck_are_there(tree: &LocTree, stuck: &[Waiting]) -> bool
    ensures { result ≡ list_all (λ (w : Waiting). message_stands tree.now w.msg) stuck.now }
{
    for waiting in stuck {
        if !message_is_there(tree, &waiting.msg) {
            return false;
        }
    }
    true
}
