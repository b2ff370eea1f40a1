// What a run leaves at a site, and what it sends.
ghost use Rattle.std.specs.Prelude.{◌≡◌, ◌||◌, ◌++◌, [], IfOk, OnOk, OnErr};
ghost use Rattle.chem_model.specs.Each.{Each};
ghost use Rattle.net_laws.specs.Net.{address, among};
ghost use Rattle.net_laws.specs.ByCode.{told_by};
ghost use Rattle.net_laws.specs.Parcels.{all_told};
ghost use Rattle.net_laws.specs.Posting.{a_message, pour_here};
ghost use Rattle.code_run.specs.Posts.{posted, all_posted};
ghost use Rattle.site_solution.specs.Answers.{IsFlightOf, Answers};
ghost use Rattle.site_solution.specs.Commit.{AreNew, CanLeave};
ghost use Rattle.site_shelves.specs.Held.{taken_at};
ghost use Rattle.site_shelves.specs.inside.New.{told_of_new, IsNewGroup};
ghost use Rattle.site_solution.specs.inside.Leave.{IsSorted, Sorts};

use crate::coming::{Coming, Taking};
use crate::effects::Effects;
use crate::site::Site;
use chem_model::{Items, Loc, Memory};
use code_run::{Post, Posts, Run};
use env_store::{Code, Locs};
use loc_tree::LocTree;
use site_limits::Places;
use site_shelves::{NewGroup, new_groups};
use std::alloc::Global;
use wire_packet::{Flight, Flights, Packet, Request, Waiting, encode};

// What is posted: messages that wait here, requests, and messages that go away.
#[derive(Drop)]
pub(crate) struct Sorted {
    pub(crate) waiting: Vec<Waiting>,
    pub(crate) requests: Vec<Request>,
    pub(crate) flights: Flights,
}

// The number of the site that hosts the location, or 0 where the tree doesn't have it.
fn address(tree: &LocTree, loc: &Loc) -> u32
    ensures { result ≡ address tree.now loc.now }
{
    if tree.holds(loc) { tree.root(loc) } else { 0 }
}

// A message, under way to the site that hosts its location.
fn flight(alloc: Global, tree: &LocTree, waiting: Waiting) -> Result<Flight, Memory>
    ensures { IfOk result (λ f. IsFlightOf
        (record { target = address tree.now waiting.loc; msg = waiting.msg }) f) }
{
    let target = address(tree, &waiting.loc);
    let packet = Packet::Message(waiting.msg);
    let encoded = encode(alloc, &packet);
    drop(packet);
    Ok(Flight {
        target,
        bytes: encoded?,
    })
}

// Whether the location is hosted here, or is born.
fn is_hosted(here: &Places, born: &Places, loc: &Loc) -> bool
    ensures { result ≡ (among here.now.locs loc.now || among born.now.locs loc.now) }
{
    here.has(loc) || born.has(loc)
}

// Sorts one message more.
fn sort_message(
    alloc: Global,
    tree: &LocTree,
    here: &Places,
    born: &Places,
    waiting: Waiting,
    sorted: &mut Sorted,
) -> Result<(), Memory>
    ensures { OnOk result (Sorts tree.now (here.now.locs ++ born.now.locs)
        (a_message waiting.loc waiting.msg) sorted.old sorted.new) }
{
    if is_hosted(here, born, &waiting.loc) {
        sorted.waiting.push(waiting)?;
        Ok(())
    } else {
        sorted.flights.push(flight(alloc, tree, waiting)?)
    }
}

// Sorts one post more.
fn sort_post(
    alloc: Global,
    tree: &LocTree,
    here: &Places,
    born: &Places,
    post: Post,
    sorted: &mut Sorted,
) -> Result<(), Memory>
    ensures { OnOk result (Sorts tree.now (here.now.locs ++ born.now.locs) (posted post)
        sorted.old sorted.new) }
{
    match post {
        Post::Message(waiting) => sort_message(alloc, tree, here, born, waiting, sorted),
        Post::Request(request) => {
            sorted.requests.push(request)?;
            Ok(())
        }
    }
}

// Sorts what is posted, where the locations here and those that are born are hosted.
pub(crate) fn sort_posts(
    alloc: Global,
    tree: &LocTree,
    here: &Places,
    born: &Places,
    posts: Posts,
) -> Result<Sorted, Memory>
    ensures { IfOk result
        (IsSorted tree.now (here.now.locs ++ born.now.locs) (all_posted posts)) }
{
    let mut sorted = Sorted {
        waiting: Vec::new(alloc),
        requests: Vec::new(alloc),
        flights: Items::new(alloc),
    };
    for post in posts.into_vec() {
        sort_post(alloc, tree, here, born, post, &mut sorted)?;
    }
    Ok(sorted)
}

// Locations as a set.
pub(crate) fn places(alloc: Global, locs: &[Loc]) -> Result<Places, Memory>
    requires { AreNew [] locs.now }
    ensures { IfOk result (λ places. places.locs ≡ locs.now) }
{
    let mut places = Places::new(alloc);
    places.reserve(locs.len())?;
    places.add_all(locs);
    Ok(places)
}

// Sorts what is posted, where the locations here and these births are hosted.
pub(crate) fn sort_with_births(
    alloc: Global,
    tree: &LocTree,
    here: &Places,
    births: &[Loc],
    posts: Posts,
) -> Result<Sorted, Memory>
    requires { AreNew [] births.now }
    ensures { IfOk result (IsSorted tree.now (here.now.locs ++ births.now) (all_posted posts)) }
{
    let born = places(alloc, births)?;
    sort_posts(alloc, tree, here, &born, posts)
}

impl Site {
    // Drops these fronts, and then leaves here what a run made, with these groups. Where there is
    // no memory, nothing changes.
    pub(crate) fn leave(
        &mut self,
        alloc: Global,
        tree: &LocTree,
        run: Run,
        groups: Vec<NewGroup>,
        fronts: &Taking<'_>,
    ) -> Result<Effects, Memory>
        requires new { Each IsNewGroup groups.items }
        requires can { CanLeave run.births (told_of_new groups.items) (all_posted run.posts)
            self.old }
        ensures ok { IfOk result (λ e. Answers (pour_here tree.now run.next run.births
            (told_of_new groups.items) (all_posted run.posts)
            (taken_at fronts.now.group fronts.now.chans.now self.old))
            run.outs run.births self.new e) }
        ensures err { OnErr result (self.new ≡ self.old) }
    {
        let Run {
            next,
            births,
            posts,
            outs,
            ..
        } = run;
        let Sorted {
            waiting,
            requests,
            flights,
        } = sort_with_births(alloc, tree, self.places(), births.as_slice(), posts)?;
        let coming = Coming {
            next,
            groups,
            waiting,
            requests,
        };
        self.add_all(alloc, births.as_slice(), coming, fronts)?;
        Ok(Effects {
            sends: flights,
            outs,
            births,
        })
    }

    /// Drops these fronts, and then leaves here what a run made: its births are hosted, its groups
    /// laid, its requests added, and its messages put where they are hosted here; the others go
    /// away. Where there is no memory for all of it, nothing changes.
    pub fn commit(
        &mut self,
        alloc: Global,
        code: &Code,
        tree: &LocTree,
        run: Run,
        fronts: &Taking<'_>,
    ) -> Result<Effects, Memory>
        requires { CanLeave run.births (all_told (told_by code.now) run.groups)
            (all_posted run.posts) self.old }
        ensures ok { IfOk result (λ e. Answers
            (pour_here tree.now run.next run.births (all_told (told_by code.now) run.groups)
            (all_posted run.posts) (taken_at fronts.now.group fronts.now.chans.now self.old))
            run.outs run.births self.new e) }
        ensures err { OnErr result (self.new ≡ self.old) }
    {
        let groups = new_groups(alloc, code, run.groups.as_slice())?;
        self.expect_all(alloc, code, &groups);
        self.leave(alloc, tree, run, groups, fronts)
    }
}
