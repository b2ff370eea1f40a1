// The shelves of a site.
ghost use Rattle.std.specs.Prelude.{◌≡◌, ◌<◌, ◌^◌, ◌∷◌, ◌++◌, [], ℕ, length};
ghost use Rattle.std.specs.Prelude.{OnOk, OnErr, IfErr, IfSome};
ghost use Rattle.chem_model.specs.Each.{Each};
ghost use Rattle.queue_cells.specs.Grouped.{lists_at};
ghost use Rattle.queue_cells.specs.Messages.{messages_in};
ghost use Rattle.net_laws.specs.Site.{Site, told_in};
ghost use Rattle.net_laws.specs.Holding.{put};
ghost use Rattle.net_laws.specs.Parcels.{groups_but, stuck_but};
ghost use Rattle.site_shelves.specs.CanLay.{HasNumbers};
ghost use Rattle.site_shelves.specs.Counted.{over_groups, one_each};
ghost use Rattle.site_shelves.specs.Guards.{FiresFirst, Tells};
ghost use Rattle.site_shelves.specs.Held.{queues_of};
ghost use Rattle.site_shelves.specs.Shelved.{with_shelves, CanShelve, AreShelved};
ghost use Rattle.site_shelves.specs.inside.Index.{groups_of};
ghost use Rattle.site_shelves.specs.inside.New.{gone_at};

use crate::covering::{Covering, agrees, agrees_until, learn, no_covering};
use crate::finding::{find, no_spots, push_back};
use crate::firsts::{Firsts, no_firsts};
use crate::forgetting::drop_groups;
use crate::least_guard::{Firing, Search, fired, first_fired};
use crate::more::{More, lay_and_settle, make_room, refresh_empty, take_fronts};
use crate::told::{NewGroup, Spots, Told};
use chem_model::{Loc, Memory, same_loc};
use env_store::Code;
use loc_tree::LocTree;
use queue_cells::Groups;
use std::alloc::Global;
use std::marker::Model;
use wire_packet::{Msg, Waiting};

/// The groups of a site, each with a queue for each of its channels, and the messages that no queue
/// takes. One index finds the queue of a channel, another one the guards that are covered.
///
/// Shelves keep that each queue holds messages on its channel with its count, that no two groups
/// share a channel, that channels and rules have numbers of 64 bits, and that there are fewer than
/// 2^32 groups.
#[derive(Drop)]
pub struct Shelves {
    groups: Groups<Told, Msg>,
    spots: Spots,
    covering: Covering,
    firsts: Firsts,
    stuck: Vec<Waiting>,
}

impl Model for Shelves {
    ghost use Rattle.site_shelves.specs.Shelved.{Shelved};

    ghost Value = { Shelved };

    ghost use Rattle.site_shelves.specs.inside.Lying.{shelved, AreKept};

    ghost view = { shelved };

    ghost invariant = { AreKept };
}

impl Shelves {
    /// No group and no message.
    pub fn new(alloc: Global) -> Shelves
        ensures groups { result.groups ≡ [] }
        ensures stuck { result.stuck ≡ [] }
    {
        Shelves {
            groups: Groups::new(alloc),
            spots: no_spots(alloc),
            covering: no_covering(alloc),
            firsts: no_firsts(alloc),
            stuck: Vec::new(alloc),
        }
    }

    /// How many guards the index has as covered, which no contract tells: at most as many as are.
    pub fn noted(&self) -> usize {
        self.covering.keys.len()
    }

    /// The groups.
    pub fn rows(&self) -> &Groups<Told, Msg>
        ensures groups { groups_of result.now.groups ≡ self.now.groups }
        ensures many { length result.now.groups ≡ length self.now.groups }
        ensures few { length self.now.groups < 2 ^ 32 }
        ensures queues { (j : ℕ) → lists_at result.now.groups j ≡ queues_of self.now.groups j }
        ensures messages { messages_in result.now.groups ≡ over_groups one_each self.now.groups }
    {
        &self.groups
    }

    /// The messages that no queue takes.
    pub fn stuck(&self) -> &[Waiting]
        ensures { result.now ≡ self.now.stuck }
    {
        &self.stuck
    }

    /// The channels and rules of the groups have numbers of 64 bits. It does nothing.
    pub fn are_kept(&self)
        ensures { Each HasNumbers (told_in self.now.groups) }
    {
        let _groups = &self.groups;
    }

    /// Puts a message at a location: behind the others in the queue of its channel, or beside the
    /// queues where no group takes it. Where there is no memory it comes back.
    pub fn put(&mut self, loc: Loc, msg: Msg) -> Result<(), (Msg, Memory)>
        ensures ok { OnOk result ((s : Site) → put loc msg (with_shelves self.old s)
            ≡ with_shelves self.new s) }
        ensures err { OnErr result (self.new ≡ self.old) }
        ensures back { IfErr result (λ back. back.0 ≡ msg) }
    {
        match find(&self.groups, &self.spots, &msg) {
            Some(spot) => push_back(
                &mut self.groups,
                &self.spots,
                &mut self.covering,
                spot.group,
                spot.chan,
                msg,
            ),
            None => keep(&mut self.stuck, loc, msg),
        }
    }

    /// Drops the front of each of these queues of a group in turn, where there is one.
    pub fn drop_fronts(&mut self, group: usize, chans: &[u32])
        ensures groups { self.new.groups ≡ gone_at group chans.now self.old.groups }
        ensures stuck { self.new.stuck ≡ self.old.stuck }
    {
        take_fronts(&mut self.groups, group, chans);
        refresh_empty(&mut self.covering, &self.groups, &self.spots, group, chans);
    }

    /// Learns the masks of the levels of groups to come.
    pub fn expect_all(&mut self, alloc: Global, code: &Code, groups: &[NewGroup])
        ensures { self.new ≡ self.old }
    {
        learn(&mut self.covering, alloc, code, groups);
    }

    /// Drops the front of each of these queues of a group in turn, where there is one, lays groups
    /// and puts messages. Where there is no memory for all of it, nothing changes.
    pub fn add(
        &mut self,
        alloc: Global,
        more: More,
        group: usize,
        chans: &[u32],
    ) -> Result<(), Memory>
        requires { CanShelve more self.old }
        ensures ok { OnOk result (AreShelved more group chans.now self.old self.new) }
        ensures err { OnErr result (self.new ≡ self.old) }
    {
        let rows = &mut self.groups;
        let spots = &mut self.spots;
        let firsts = &mut self.firsts;
        let Ok(again) = make_room(alloc, rows, spots, firsts, &mut self.stuck, &more) else {
            drop(more);
            return Err(Memory);
        };
        let covering = &mut self.covering;
        take_fronts(rows, group, chans);
        lay_and_settle(rows, spots, covering, &mut self.stuck, more, again);
        // Behind the messages, since most queues of which a front was taken have one again.
        refresh_empty(covering, rows, spots, group, chans);
        Ok(())
    }

    // The guard of the first key of the index, where it may fire and the index has the code's masks
    // of all guards up to it.
    fn first_covered(&self, code: &Code, tree: &LocTree) -> Option<Firing>
        ensures { IfSome result (λ found.
            FiresFirst code.now tree.now self.now.groups found.group found.guard) }
    {
        if self.covering.lost {
            return None;
        }
        let key = *self.covering.keys.first()?;
        if !agrees_until(&self.covering.levels, &self.firsts.keys, code, key) {
            return None;
        }
        fired(&self.groups, &self.spots, code, tree, key)
    }

    /// The covered guard of a live location that goes first: that of the least rule, and among
    /// groups of one rule that of the first group. It goes along an index, which may not be kept:
    /// where a level came with other masks than before or than the code has, or where there was no
    /// memory for a key, nothing is known.
    pub fn least_covered(&self, code: &Code, tree: &LocTree) -> Search
        ensures { Tells code.now tree.now self.now.groups result }
    {
        // Mostly it is the first, and then no level is compared whose groups all begin behind it.
        if let Some(found) = self.first_covered(code, tree) {
            return Search::Found {
                group: found.group,
                guard: found.guard,
            };
        }
        if !agrees(&self.covering, code) {
            return Search::Unknown;
        }
        match first_fired(&self.groups, &self.spots, code, tree, &self.covering.keys) {
            Some(found) => Search::Found {
                group: found.group,
                guard: found.guard,
            },
            None => Search::Nothing,
        }
    }

    /// Drops the groups and messages at a location. It takes no memory.
    pub fn remove(&mut self, loc: Loc)
        ensures groups { self.new.groups ≡ groups_but loc self.old.groups }
        ensures stuck { self.new.stuck ≡ stuck_but loc self.old.stuck }
    {
        drop_groups(&mut self.groups, &mut self.spots, &mut self.covering, loc);
        drop_stuck(&mut self.stuck, loc);
    }
}

// Drops the stuck messages at a location.
fn drop_stuck(stuck: &mut Vec<Waiting>, loc: Loc)
    ensures { stuck.new.items ≡ stuck_but loc stuck.old.items }
{
    stuck.retain(|waiting| !same_loc(loc, waiting.loc));
}

// Keeps a message that no queue takes, or hands it back.
fn keep(stuck: &mut Vec<Waiting>, loc: Loc, msg: Msg) -> Result<(), (Msg, Memory)>
    ensures ok { OnOk result (stuck.new.items
        ≡ stuck.old.items ++ record { loc = loc; msg = msg } ∷ []) }
    ensures err { OnErr result (stuck.new.items ≡ stuck.old.items) }
    ensures back { IfErr result (λ back. back.0 ≡ msg) }
{
    match stuck.push(Waiting { loc, msg }) {
        Ok(()) => Ok(()),
        Err(failed) => {
            let Waiting { loc: _, msg } = failed.value;
            Err((msg, Memory))
        }
    }
}
