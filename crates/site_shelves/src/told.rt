// What is told of a group, and where a queue is.
use chem_model::{AtomId, Loc, Nums, RuleId};
use queue_cells::Idle;
use std::collections::HashMap;
use std::marker::Model;
use wire_packet::GroupInst;

// What is told of a group when it is laid: the group, the argument counts of its level's channels,
// and how many guards its level has.
#[derive(Drop)]
pub struct Told {
    pub inst: GroupInst,
    pub counts: Nums,
    pub guards: u32,
}

impl Model for Told {
    ghost use Rattle.net_laws.specs.Site.{Told as told_of_group};
    ghost use Rattle.site_shelves.specs.inside.Told.{told_code};

    ghost Value = { told_of_group };

    ghost coded = { told_code };

    ghost view = { λ d. record { inst = d.inst; counts = d.counts; guards = d.guards } };
}

// A group to come, with the memory that it takes; its first channel, its location, how many
// channels it has, its level, and its first rule.
#[derive(Drop)]
pub struct NewGroup {
    pub idle: Idle<Told>,
    pub first: AtomId,
    pub home: Loc,
    pub width: u32,
    pub level: u32,
    pub rules: RuleId,
}

// A queue: the index of its group, and its channel in that group.
#[derive(Clone, Copy)]
pub(crate) struct Spot {
    pub(crate) group: usize,
    pub(crate) chan: u32,
}

// A queue: the serial of its group, and its channel in that group.
#[derive(Clone, Copy)]
pub(crate) struct Mark {
    pub(crate) serial: u64,
    pub(crate) chan: u32,
}

// The queue of each channel that a group has, by the channel's pair and that of its home. The
// serials of the groups rise along them, and the next one is above them all. So a group that goes
// leaves the marks of all others as they are.
#[derive(Drop)]
pub(crate) struct Spots {
    pub(crate) marks: HashMap<((u32, u64), (u32, u64)), Mark>,
    pub(crate) serials: Vec<u64>,
    pub(crate) next: u64,
}
