// Whether groups are those of a code's levels, and whether their numbers were drawn. It takes no
// memory.
ghost use Rattle.std.specs.Prelude.{◌≡◌, ◌<◌, length, slice_get, Some};
ghost use Rattle.std.specs.List.{list_all};
ghost use Rattle.wire_packet.specs.declared.packet.Waiting.{Waiting};
ghost use Rattle.net_laws.specs.Site.{Group};
ghost use Rattle.queue_cells.specs.Grouped.{lists_at};
ghost use Rattle.site_shelves.specs.inside.Index.{groups_of, told_of};
ghost use Rattle.site_shelves.specs.InCode.{same_counts, is_told_by};
ghost use Rattle.site_shelves.specs.Draws.{is_drawn, are_drawn, message_drawn, told_drawn};
ghost use Rattle.site_shelves.specs.Draws.{queues_drawn, group_drawn};

use crate::told::Told;
use env_store::Code;
use queue_cells::{Groups, Iter};
use wire_packet::{Msg, Waiting};

pub fn same_counts(one: &[u32], other: &[u32]) -> bool
    ensures { result ≡ same_counts one.now other.now }
{
    if one.len() != other.len() {
        return false;
    }
    for at in 0..one.len() {
        if one[at] != other[at] {
            return false;
        }
    }
    true
}

fn is_told_by(code: &Code, told: &Told) -> bool
    ensures { result ≡ is_told_by code.now told.now }
{
    match code.levels.as_slice().get(told.inst.level as usize) {
        Some(level) => {
            same_counts(level.counts.as_slice(), told.counts.as_slice())
                && level.guards == told.guards
                && level.depth as usize == told.inst.env.len()
        }
        None => false,
    }
}

// Whether each group is of a level of the code.
pub fn are_told_by(code: &Code, groups: &Groups<Told, Msg>) -> bool
    ensures { result ≡ list_all (is_told_by code.now) (told_of groups.now.groups) }
{
    for group in 0..groups.len() {
        if !is_told_by(code, groups.told(group)) {
            return false;
        }
    }
    true
}

// A site's number, and how many numbers it has made.
#[derive(Clone, Copy)]
pub struct Count {
    pub number: u32,
    pub made: u64,
}

pub fn is_drawn(count: Count, site: u32, k: u64) -> bool
    ensures { result ≡ is_drawn count.number count.made site k }
{
    site != count.number || k < count.made
}

fn are_drawn(count: Count, site: u32, k: u64, many: usize) -> bool
    ensures { result ≡ are_drawn count.number count.made site k many }
{
    site != count.number || many == 0 || k <= count.made && many as u64 <= count.made - k
}

pub fn told_is_drawn(count: Count, told: &Told) -> bool
    ensures { result ≡ told_drawn count.number count.made told.now }
{
    let chans = told.inst.chans;
    let rules = told.inst.rules;
    are_drawn(count, chans.site, chans.k, told.counts.len())
        && are_drawn(count, rules.site, rules.k, told.guards as usize)
}

fn queue_is_drawn(count: Count, queue: Iter<'_, Msg>) -> bool
    ensures { result ≡ list_all (message_drawn count.number count.made) queue.entry }
{
    for msg in queue {
        if !is_drawn(count, msg.id.site, msg.id.k) {
            return false;
        }
    }
    true
}

fn queues_are_drawn(count: Count, groups: &Groups<Told, Msg>, group: usize) -> bool
    requires { group < length groups.now.groups }
    ensures { result ≡ queues_drawn count.number count.made (lists_at groups.now.groups group) }
{
    let width = groups.width(group);
    for chan in 0..width {
        if !queue_is_drawn(count, groups.queue(group, chan)) {
            return false;
        }
    }
    true
}

fn group_is_drawn(count: Count, groups: &Groups<Told, Msg>, group: usize) -> bool
    requires { group < length groups.now.groups }
    ensures { (g : Group) → slice_get (groups_of groups.now.groups) group ≡ Some g
        → result ≡ group_drawn count.number count.made g }
{
    told_is_drawn(count, groups.told(group)) && queues_are_drawn(count, groups, group)
}

// Whether the channels, rules and queued messages of groups have numbers that were drawn.
pub fn groups_are_drawn(count: Count, groups: &Groups<Told, Msg>) -> bool
    ensures { result
        ≡ list_all (group_drawn count.number count.made) (groups_of groups.now.groups) }
{
    for group in 0..groups.len() {
        if !group_is_drawn(count, groups, group) {
            return false;
        }
    }
    true
}

pub fn stuck_are_drawn(count: Count, stuck: &[Waiting]) -> bool
    ensures { result
        ≡ list_all (λ (w : Waiting). message_drawn count.number count.made w.msg) stuck.now }
{
    for waiting in stuck {
        if !is_drawn(count, waiting.msg.id.site, waiting.msg.id.k) {
            return false;
        }
    }
    true
}
