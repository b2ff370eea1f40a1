// What one root hosts.
ghost use Rattle.std.specs.Prelude.{◌≡◌, ◌+◌, ◌<◌, ◌≤◌, ◌^◌, ◌∷◌, ◌↔◌, [], length, slice_get};
ghost use Rattle.std.specs.Prelude.{Some, None, true, false, IfOk, IfErr, OnOk, OnErr, IsTrue};
ghost use Rattle.std.specs.Prelude.{option_copied, IsSome};
ghost use Rattle.chem_model.specs.Opening.{root_of};
ghost use Rattle.net_laws.specs.Site.{Group, told_in};
ghost use Rattle.net_laws.specs.Net.{among, home_or};
ghost use Rattle.net_laws.specs.Opening.{empty_site};
ghost use Rattle.net_laws.specs.Posting.{with_queues};
ghost use Rattle.net_laws.specs.ByCode.{told_by};
ghost use Rattle.net_laws.specs.Kept.{IsKept};
ghost use Rattle.chem_model.specs.Each.{Each};
ghost use Rattle.site_shelves.specs.CanLay.{CanLay, HasNumbers};
ghost use Rattle.net_laws.specs.Holding.{put, ask, lay, host_all, request_with, drop_request};
ghost use Rattle.queue_cells.specs.Grouped.{AllHeld};
ghost use Rattle.status_words.specs.Words.{number_of_words};
ghost use Rattle.std.specs.List.{list_all};
ghost use Rattle.std.specs.Prelude.{is_some};
ghost use Rattle.loc_tree.specs.Tree.{spot};
ghost use Rattle.chem_model.specs.declared.name.Loc.{Loc};
ghost use Rattle.chem_model.specs.declared.event.AtomId.{AtomId};
ghost use Rattle.site_shelves.specs.InCode.{is_told_by, is_in_code};
ghost use Rattle.site_shelves.specs.Draws.{all_drawn, CanDraw};
ghost use Rattle.site_shelves.specs.InTree.{has_number, is_in_tree};
ghost use Rattle.site_shelves.specs.Named.{all_in, in_tree};
ghost use Rattle.site_shelves.specs.Held.{queues_of, queue_of, without_front, inst_in, has_atom};
ghost use Rattle.site_shelves.specs.Held.{taken_at};
ghost use Rattle.site_shelves.specs.Guards.{Tells};
ghost use Rattle.net_laws.specs.Parcels.{pack, parcel_of, remove};
ghost use Rattle.site_solution.specs.Apart.{are_separate, is_apart};
ghost use Rattle.site_solution.specs.inside.Parted.{is_parted};
ghost use Rattle.site_shelves.specs.Counted.{times, waiting_in};
ghost use Rattle.site_solution.specs.Rising.{AreAsked};
ghost use Rattle.site_solution.specs.inside.Coming.{CanAdd, added};
ghost use Rattle.chem_model.specs.Solution.{same_loc};
ghost use Rattle.env_store.specs.CodeParts.{CodeParts};
ghost use Rattle.loc_tree.specs.Tree.{Tree};
ghost use Rattle.site_solution.specs.Staying.{AgreeBut, StillFits};

use crate::apart::{
    groups_are_apart, is_separate, queued_are_apart, requests_are_apart, stuck_are_apart,
};
use crate::asked::{Asked, copy_requests_at, requests_are_drawn, requests_are_there};
use crate::coming::{Coming, Taking};
use chem_model::{AtomId, Loc, Memory, same_loc};
use env_store::Code;
use loc_tree::LocTree;
use site_limits::{
    Known, Places, is_beyond, levels_are_known, locs_are_drawn, names_are_known, note_all,
    note_home, note_laid, note_msg, note_request, numbers_are_known, only_root,
};
use site_shelves::{
    Count, More, NewGroup, Search, Shelves, Told, are_told_by, copy_groups_at, copy_waiting_at,
    groups_are_drawn, groups_are_there, in_groups, in_stuck, is_drawn, new_group, stuck_are_drawn,
    stuck_are_there, told_by,
};
use status_words::Bits;
use std::alloc::Global;
use std::marker::Model;
use wire_packet::{GroupInst, Msg, Parcel, Request};

/// What one root hosts. Contracts see its number, how many numbers it has made, its locations, its
/// groups with a queue for each of their channels, the messages that are stuck, and its requests.
///
/// Each site keeps the facts of `IsKept`: all that it holds stands at locations that it hosts, a
/// queue holds messages on its channel with its count, no group could take a stuck message, and no
/// two groups share a channel. The ids of waiting messages and requests are all different, and
/// fewer than 2^32 messages wait.
///
/// It also knows limits within which all stands that it holds, so that its tests need no walk over
/// it. Where the limits are too wide for that, or were given up for want of memory, a walk tells.
#[derive(Drop)]
pub struct Site {
    number: u32,
    made: u64,
    locs: Places,
    shelves: Shelves,
    requests: Asked,
    known: Known,
}

impl Model for Site {
    ghost use Rattle.net_laws.specs.Site.{Site as site_of_net};

    ghost Value = { site_of_net };

    ghost use Rattle.site_solution.specs.inside.Stored.{seen, IsSite};

    ghost view = { seen };

    ghost invariant = { IsSite };
}

impl Site {
    /// The root of this number alone.
    pub fn empty(alloc: Global, number: u32) -> Result<Site, Memory>
        ensures { IfOk result (λ site. site ≡ empty_site number 1 (root_of number ∷ [])) }
    {
        let mut locs = Places::new(alloc);
        locs.add(Loc { site: number, k: 0 })?;
        Ok(Site {
            number,
            made: 1,
            locs,
            shelves: Shelves::new(alloc),
            requests: Asked::new(alloc),
            known: only_root(alloc),
        })
    }

    /// The number of its root.
    pub fn number(&self) -> u32
        ensures { result ≡ self.now.number }
    {
        self.number
    }

    /// Whether the location is hosted here.
    pub fn has(&self, loc: &Loc) -> bool
        ensures { result ≡ among self.now.locs loc.now }
    {
        self.locs.has(loc)
    }

    // Its locations.
    pub(crate) fn places(&self) -> &Places
        ensures { result.now.locs ≡ self.now.locs }
    {
        &self.locs
    }

    /// How many numbers it has made.
    pub fn made(&self) -> u64
        ensures { result ≡ self.now.made }
    {
        self.made
    }

    /// The request with this id.
    pub fn request(&self, atom: &AtomId) -> Option<&Request>
        ensures { option_copied result ≡ request_with atom.now self.now.requests }
    {
        self.requests.find(*atom)
    }

    /// The request with this id, which is here.
    pub fn asked(&self, atom: &AtomId) -> Request
        requires { IsSome (request_with atom.now self.now.requests) }
        ensures { request_with atom.now self.now.requests ≡ Some result }
    {
        match self.requests.find(*atom) {
            Some(request) => *request,
            None => unreachable!(),
        }
    }

    /// The request at this place in the order of ids.
    pub fn request_at(&self, index: u32) -> Option<&Request>
        ensures { option_copied result ≡ slice_get self.now.requests index }
    {
        self.requests.at(index as usize)
    }

    /// How many groups there are.
    pub fn groups(&self) -> u32
        ensures { result ≡ length self.now.groups }
    {
        self.shelves.rows().len() as u32
    }

    /// The group with this index.
    pub fn group(&self, index: u32) -> &GroupInst
        requires { index < length self.now.groups }
        ensures { inst_in (slice_get self.now.groups index) ≡ Some result.now }
    {
        &self.shelves.rows().told(index as usize).inst
    }

    /// Whether the group's status covers the mask, which has as many words as the status: each
    /// channel of the mask has a message in its queue.
    pub fn covered(&self, group: u32, mask: &[u64]) -> bool
        requires group { group < length self.now.groups }
        requires words { length mask.now
            ≡ number_of_words (length (queues_of self.now.groups group)) }
        ensures { IsTrue result ↔ AllHeld (queues_of self.now.groups group) mask.now }
    {
        self.shelves.rows().covers(group as usize, mask)
    }

    /// The same of a mask as code has it.
    pub fn covers(&self, group: u32, mask: &Bits) -> bool
        requires group { group < length self.now.groups }
        requires words { length mask.now
            ≡ number_of_words (length (queues_of self.now.groups group)) }
        ensures { IsTrue result ↔ AllHeld (queues_of self.now.groups group) mask.now }
    {
        self.shelves.rows().covers_bits(group as usize, mask)
    }

    /// The front of the queue of one of a group's channels, if there is one.
    pub fn front(&self, group: u32, chan: u32) -> Option<&Msg>
        requires group { group < length self.now.groups }
        requires chan { chan < length (queues_of self.now.groups group) }
        ensures { option_copied result ≡ slice_get (queue_of self.now.groups group chan) 0 }
    {
        self.shelves.rows().front(group as usize, chan)
    }

    /// How many queues a group has.
    pub fn width(&self, group: u32) -> u32
        requires { group < length self.now.groups }
        ensures { result ≡ length (queues_of self.now.groups group) }
    {
        self.shelves.rows().width(group as usize)
    }

    // How many messages wait.
    fn waiting(&self) -> usize
        ensures count { result ≡ waiting_in self.now }
        ensures few { result < 2 ^ 32 }
    {
        self.shelves.rows().messages() + self.shelves.stuck().len()
    }

    // Whether there are fewer than 2^32 messages with those that come, and as few groups.
    fn has_numbers_for(&self, coming: &Coming) -> bool
        ensures waiting { IsTrue result
            → waiting_in self.now + length coming.now.waiting.items < 2 ^ 32 }
        ensures groups { IsTrue result
            → length self.now.groups + length coming.now.groups.items < 2 ^ 32 }
    {
        if coming.waiting.len() > u32::MAX as usize - self.waiting() {
            return false;
        }
        coming.groups.len() <= (u32::MAX - self.groups()) as usize
    }

    /// Puts a message at a location: behind the others in the queue of its channel, or beside the
    /// queues where no group takes it. Where there is no memory it comes back.
    pub fn put(&mut self, loc: &Loc, msg: Msg) -> Result<(), (Msg, Memory)>
        requires here { among self.old.locs loc.now ≡ true }
        requires home { home_or loc.now msg.on ≡ loc.now }
        requires new { has_atom msg.id self.old ≡ false }
        ensures ok { OnOk result (self.new ≡ put loc.now msg self.old) }
        ensures err { OnErr result (self.new ≡ self.old) }
        ensures back { IfErr result (λ back. back.0 ≡ msg) }
    {
        if self.waiting() >= u32::MAX as usize {
            return Err((msg, Memory));
        }
        note_msg(&mut self.known, &msg);
        self.shelves.put(*loc, msg)
    }

    /// Lays a group of a level of the code. What is stuck for one of its channels goes into its
    /// queue, in the order in which it came.
    pub fn lay(&mut self, alloc: Global, code: &Code, group: GroupInst) -> Result<(), Memory>
        requires may { CanLay (told_by code.now group) self.old }
        requires level { group.level < length code.now.levels }
        ensures ok { OnOk result (self.new ≡ lay (told_by code.now group) self.old) }
        ensures err { OnErr result (self.new ≡ self.old) }
    {
        let told = told_by(alloc, code, group)?;
        self.add(alloc, code, told)
    }

    // Lays a group of which this is told. The code tells the masks of its guards.
    pub(crate) fn add(&mut self, alloc: Global, code: &Code, told: Told) -> Result<(), Memory>
        requires { CanLay told self.old }
        ensures ok { OnOk result (self.new ≡ lay told self.old) }
        ensures err { OnErr result (self.new ≡ self.old) }
    {
        let mut groups = Vec::with_capacity(alloc, 1)?;
        groups.push(new_group(alloc, told)?)?;
        let next = self.made;
        self.expect_all(alloc, code, &groups);
        let coming = Coming {
            next,
            groups,
            waiting: Vec::new(alloc),
            requests: Vec::new(alloc),
        };
        let none = Taking {
            group: 0,
            chans: &[],
        };
        self.add_all(alloc, &[], coming, &none)
    }

    // Learns the masks of groups to come.
    pub(crate) fn expect_all(&mut self, alloc: Global, code: &Code, groups: &[NewGroup])
        ensures { self.new ≡ self.old }
    {
        self.shelves.expect_all(alloc, code, groups);
    }

    // Drops these fronts, and adds locations, groups, messages and requests. Where there is no
    // memory for all of it, nothing changes.
    pub(crate) fn add_all(
        &mut self,
        alloc: Global,
        locs: &[Loc],
        coming: Coming,
        fronts: &Taking<'_>,
    ) -> Result<(), Memory>
        requires { CanAdd locs.now coming self.old }
        ensures ok { OnOk result (self.new
            ≡ added locs.now coming (taken_at fronts.now.group fronts.now.chans.now self.old)) }
        ensures err { OnErr result (self.new ≡ self.old) }
    {
        if !self.has_numbers_for(&coming) {
            drop(coming);
            return Err(Memory);
        }
        let Ok(()) = self.locs.reserve(locs.len()) else {
            drop(coming);
            return Err(Memory);
        };
        let Ok(()) = self.requests.reserve(coming.requests.len()) else {
            drop(coming);
            return Err(Memory);
        };
        let Coming {
            next,
            groups,
            waiting,
            requests,
        } = coming;
        note_all(&mut self.known, self.number, locs, &waiting, &requests);
        let laid = self.shelves.rows().len();
        let more = More { groups, waiting };
        let group = fronts.group as usize;
        let Ok(()) = self.shelves.add(alloc, more, group, fronts.chans) else {
            drop(requests);
            return Err(Memory);
        };
        self.made = next;
        self.locs.add_all(locs);
        self.requests.add_all(&requests);
        let rows = self.shelves.rows();
        note_laid(alloc, &mut self.known, self.number, rows, laid);
        Ok(())
    }

    /// The covered guard of a live location that goes first: that of the least rule, and among
    /// groups of one rule that of the first group. It goes along an index, which may not be kept:
    /// where a level came with other masks than before or than the code has, or where there was no
    /// memory for a key, nothing is known.
    pub fn least_covered(&self, code: &Code, tree: &LocTree) -> Search
        ensures { Tells code.now tree.now self.now.groups result }
    {
        self.shelves.least_covered(code, tree)
    }

    /// Drops the front of the queue of one of a group's channels.
    pub fn take_front(&mut self, group: u32, chan: u32)
        requires { 0 < length (queue_of self.old.groups group chan) }
        ensures { (g : Group) → slice_get self.old.groups group ≡ Some g
            → self.new ≡ with_queues self.old group g (without_front g.queues chan) }
    {
        self.shelves.drop_fronts(group as usize, &[chan]);
    }

    /// Hosts a location.
    pub fn host(&mut self, loc: &Loc) -> Result<(), Memory>
        requires { among self.old.locs loc.now ≡ false }
        ensures ok { OnOk result (self.new ≡ host_all (loc.now ∷ []) self.old) }
        ensures err { OnErr result (self.new ≡ self.old) }
    {
        note_home(&mut self.known, self.number, *loc);
        self.locs.add(*loc)
    }

    /// The count of made numbers, which is then raised.
    pub fn draw(&mut self, more: u32) -> u64
        requires { self.old.made + more < 2 ^ 64 }
        ensures count { result ≡ self.old.made }
        ensures site { self.new ≡ record self.old { made = self.old.made + more } }
    {
        let count = self.made;
        self.made = count + more as u64;
        count
    }

    // Whether it is known that nothing here has this id.
    fn lacks_atom(&self, atom: &AtomId) -> bool
        ensures { IsTrue result → has_atom atom.now self.now ≡ false }
    {
        is_beyond(&self.known, *atom)
    }

    // Whether a walk finds something here that has it.
    fn finds_atom(&self, atom: &AtomId) -> bool
        ensures { result ≡ has_atom atom.now self.now }
    {
        in_groups(self.shelves.rows(), *atom)
            || in_stuck(self.shelves.stuck(), *atom)
            || self.requests.find(*atom).is_some()
    }

    /// How many guards the index has as covered, and whether the site has limits within which all
    /// stands that it holds. No contract tells these: all answers are the same without.
    pub fn upkeep(&self) -> (usize, bool) {
        (self.shelves.noted(), !self.known.lost)
    }

    /// Whether a waiting message or a request has this id.
    pub fn has_atom(&self, atom: &AtomId) -> bool
        ensures { result ≡ has_atom atom.now self.now }
    {
        if self.lacks_atom(atom) {
            return false;
        }
        self.finds_atom(atom)
    }

    // Whether each location here is in the tree with the number of the site.
    fn locs_are_there(&self, tree: &LocTree) -> bool
        ensures { result ≡ list_all (has_number tree.now self.now.number) self.now.locs }
    {
        tree.hosts_all(self.number, self.locs.as_slice())
    }

    // Whether it is known that all that is named here is in the tree.
    fn knows_names(&self, tree: &LocTree) -> bool
        ensures { IsTrue result → all_in (in_tree tree.now) self.now ≡ true }
    {
        names_are_known(&self.known, tree)
    }

    // Whether a walk finds all that is named here in the tree.
    fn finds_names(&self, tree: &LocTree) -> bool
        ensures { result ≡ all_in (in_tree tree.now) self.now }
    {
        groups_are_there(tree, self.shelves.rows())
            && stuck_are_there(tree, self.shelves.stuck())
            && requests_are_there(tree, self.requests.as_slice())
    }

    // Whether there are so few names within the limits that to look them all up is no longer than a
    // walk. Names that have gone stay there, so that there may be many.
    fn names_are_few(&self) -> bool {
        let held = self.shelves.rows().messages() + self.shelves.stuck().len();
        let asking = self.requests.as_slice().len();
        let laid = self.shelves.rows().len();
        self.known.named.as_slice().len() / 4
            <= held.saturating_add(asking).saturating_add(laid) / 4 + 16
    }

    fn names_are_there(&self, tree: &LocTree) -> bool
        ensures { result ≡ all_in (in_tree tree.now) self.now }
    {
        self.names_are_few() && self.knows_names(tree) || self.finds_names(tree)
    }

    /// Whether each location here is in the tree with the number of the site, its root is one of
    /// them, and each location and each home of a channel that an environment, a waiting message or
    /// a request names is in the tree.
    pub fn in_tree(&self, tree: &LocTree) -> bool
        ensures { result ≡ is_in_tree tree.now self.now }
    {
        let root = Loc {
            site: self.number,
            k: 0,
        };
        self.locs_are_there(tree) && self.has(&root) && self.names_are_there(tree)
    }

    // Whether it is known that each group is of a level of the code.
    fn knows_levels(&self, code: &Code) -> bool
        ensures { IsTrue result
            → list_all (is_told_by code.now) (told_in self.now.groups) ≡ true }
    {
        levels_are_known(&self.known, code)
    }

    fn groups_are_told(&self, code: &Code) -> bool
        ensures { result ≡ list_all (is_told_by code.now) (told_in self.now.groups) }
    {
        self.knows_levels(code) || are_told_by(code, self.shelves.rows())
    }

    /// Whether each group is of a level of the code, with the counts, the guards and the length of
    /// environments that the level has, and each location of the code's `tops` is in the tree.
    pub fn in_code(&self, code: &Code, tree: &LocTree) -> bool
        ensures { result ≡ is_in_code code.now tree.now self.now }
    {
        self.groups_are_told(code) && tops_are_there(tree, code.tops.as_slice())
    }

    /// Whether the count is below 2^63, each location, rule, channel and atom that this site made
    /// and holds has a number below it, and so has each location of the tree that this site made.
    pub fn can_draw(&self, tree: &LocTree) -> bool
        ensures { IsTrue result ↔ CanDraw tree.now self.now }
    {
        self.made < 1 << 63 && self.all_drawn() && tree.fresh(self.number, self.made)
    }

    // Whether it is known that all numbers are below the count.
    fn knows_numbers(&self) -> bool
        ensures { IsTrue result → all_drawn self.now ≡ true }
    {
        numbers_are_known(&self.known, self.number, self.made)
    }

    // Whether a walk finds all of them below it.
    fn finds_numbers(&self) -> bool
        ensures { result ≡ all_drawn self.now }
    {
        let count = Count {
            number: self.number,
            made: self.made,
        };
        locs_are_drawn(count, self.locs.as_slice())
            && groups_are_drawn(count, self.shelves.rows())
            && stuck_are_drawn(count, self.shelves.stuck())
            && requests_are_drawn(count, self.requests.as_slice())
    }

    fn all_drawn(&self) -> bool
        ensures { result ≡ all_drawn self.now }
    {
        self.knows_numbers() || self.finds_numbers()
    }

    /// Adds a request.
    pub fn ask(&mut self, request: Request) -> Result<(), Memory>
        requires here { among self.old.locs request.loc ≡ true }
        requires new { has_atom request.id self.old ≡ false }
        ensures ok { OnOk result (self.new ≡ ask request self.old) }
        ensures err { OnErr result (self.new ≡ self.old) }
    {
        note_request(&mut self.known, &request);
        self.requests.add(request)
    }

    /// Drops a request.
    pub fn drop_request(&mut self, atom: &AtomId)
        requires { IsSome (request_with atom.now self.old.requests) }
        ensures { self.new ≡ drop_request atom.now self.old }
    {
        self.requests.remove(*atom);
    }

    // Its number, and how many numbers it has made.
    pub(crate) fn count(&self) -> Count
        ensures number { result.number ≡ self.now.number }
        ensures made { result.made ≡ self.now.made }
    {
        Count {
            number: self.number,
            made: self.made,
        }
    }

    // Whether no group here has a channel or a rule of this one.
    pub(crate) fn is_separate(&self, told: &Told) -> bool
        ensures { result ≡ list_all (are_separate told.now) (told_in self.now.groups) }
    {
        is_separate(self.shelves.rows(), told)
    }

    // Whether all that stands at a location of another site may come to this one.
    fn is_parted(&self, from: &Site, loc: &Loc, but: &AtomId) -> bool
        ensures { result ≡ is_parted self.now from.now loc.now but.now }
    {
        let atom = *but;
        !self.has(loc)
            && is_drawn(self.count(), loc.site, loc.k)
            && groups_are_apart(self, from.shelves.rows(), *loc)
            && queued_are_apart(self, atom, from.shelves.rows(), *loc)
            && stuck_are_apart(self, atom, from.shelves.stuck(), *loc)
            && requests_are_apart(self, atom, from.requests.as_slice(), *loc)
    }

    /// Whether neither a location of another site nor a rule, channel or atom there, one atom left
    /// out, is held here, and each of them that this site made has a number below its count. The
    /// tree, which both sites have in common, isn't read.
    pub fn apart(&self, from: &Site, _tree: &LocTree, loc: &Loc, but: &AtomId) -> bool
        ensures { result ≡ is_apart self.now but.now (pack loc.now from.now) }
    {
        self.is_parted(from, loc, but)
    }

    /// A copy of a location with its groups, its messages in the order of their queues and then
    /// those that are stuck, and its requests.
    pub fn pack(&self, alloc: Global, loc: &Loc) -> Result<Parcel, Memory>
        ensures { IfOk result (λ parcel. parcel ≡ parcel_of (pack loc.now self.now)) }
    {
        let rows = self.shelves.rows();
        let groups = copy_groups_at(alloc, rows, *loc)?;
        let waiting = copy_waiting_at(alloc, rows, self.shelves.stuck(), *loc)?;
        let requests = copy_requests_at(alloc, self.requests.as_slice(), *loc)?;
        Ok(Parcel {
            loc: *loc,
            groups,
            waiting,
            requests,
        })
    }

    /// Drops a location with all that stands at it: exactly what `pack` gives of it. It takes no
    /// memory. What the tests say of the site they say still, also where the tree has given the
    /// location, which is no root, to another site.
    pub fn remove(&mut self, loc: &Loc)
        ensures is { self.new ≡ remove loc.now self.old }
        ensures keeps { (c : CodeParts) (t u : Tree) → AgreeBut loc.now t u
            → same_loc loc.now (root_of self.old.number) ≡ false
            → StillFits c t self.old u self.new }
    {
        self.shelves.remove(*loc);
        self.requests.drop_at(*loc);
        self.locs.remove(*loc);
    }
}

/// All that a site holds stands at locations that it hosts, a queue holds messages on its channel
/// with its count, no group could take a stuck message, no two groups share a channel, channels and
/// rules have numbers of 64 bits, the ids of waiting messages and requests are all different, those
/// of requests rise, and there are fewer than 2^32 of each: messages, locations and requests. It
/// does nothing.
pub fn site_is_kept(site: &Site)
    ensures kept { IsKept site.now }
    ensures numbers { Each HasNumbers (told_in site.now.groups) }
    ensures once { (i : AtomId) → times i site.now ≤ 1 }
    ensures few_waiting { waiting_in site.now < 2 ^ 32 }
    ensures few_locs { length site.now.locs < 2 ^ 32 }
    ensures asked { AreAsked site.now.requests }
{
    let _number = site.number;
    site.locs.are_few();
    site.shelves.are_kept();
    let _requests = site.requests.as_slice();
}

fn tops_are_there(tree: &LocTree, tops: &[Loc]) -> bool
    ensures { result ≡ list_all (λ (l : Loc). is_some (spot tree.now l)) tops.now }
{
    for loc in tops {
        if !tree.holds(loc) {
            return false;
        }
    }
    true
}
