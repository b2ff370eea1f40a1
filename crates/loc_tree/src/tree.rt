// Where locations are: the number of the site that hosts each, and its mark.
ghost use Rattle.std.specs.Prelude.{◌≡◌, ◌≢◌, ◌<◌, ◌≤◌, ◌↔◌, ◌+◌, max, ℕ, List, [], ◌∷◌, ◌++◌};
ghost use Rattle.std.specs.Prelude.{Some, None, true, length, slice_index, IfOk, OnOk, OnErr};
ghost use Rattle.std.specs.Prelude.{IsTrue, IsOk, IsSome, is_some};
ghost use Rattle.std.specs.List.{list_all};
ghost use Rattle.std.specs.Map.{lookup, keys_of};
ghost use Rattle.indexmap.specs.IndexMap.{spare as map_room};
ghost use Rattle.chem_model.specs.declared.numbered.Placed.{Placed};
ghost use Rattle.chem_model.specs.declared.numbered.Numbered.{Numbered};
ghost use Rattle.chem_model.specs.declared.program.SiteTerm.{SiteTerm};
ghost use Rattle.chem_model.specs.Solution.{is_there, root, live};
ghost use Rattle.chem_model.specs.Numbered.{standing};
ghost use Rattle.chem_model.specs.Opening.{root_of, roots as opened_roots};
ghost use Rattle.chem_model.specs.Apply.{can_go, can_fall as falls_in, with_hosts, with_marks};
ghost use Rattle.loc_tree.specs.Tree.{spot, number_in, has_mark, is_root, is_alive, can_move};
ghost use Rattle.loc_tree.specs.Tree.{is_pair_of, change_spot, marked, renumbered, unmarked};
ghost use Rattle.loc_tree.specs.Tree.{IsFresh, unmarked_roots, with_room, with_birth};
ghost use Rattle.loc_tree.specs.Tree.{with_number, with_mark, can_fall, can_leave, same_pair};
ghost use Rattle.loc_tree.specs.Tree.{is_spot_of, holds_all, hosts_all};
ghost use Rattle.loc_tree.specs.Places.{IsTree, IsTreeOf};
ghost use Rattle.loc_tree.specs.Laws.{born_under};
ghost use Rattle.loc_tree.specs.inside.Stored.{is_below};

use chem_model::{Loc, Memory};
use indexmap::IndexMap;
use std::alloc::Global;
use std::marker::Model;

// The number of the site that hosts a location, and whether the location is marked.
#[derive(Clone, Copy)]
struct Spot {
    number: u32,
    marked: bool,
}

/// The locations in order of birth, each with a site number and a mark. Roots are
/// `Loc { site: i, k: 0 }` for each site `i`, and the number of a root is that of its own site; the
/// number of every other location is that of its host.
#[derive(Drop)]
pub struct LocTree {
    roots: u32,
    spots: IndexMap<(u32, u64), Spot>,
    // for each root the largest number of a location that its site made
    newest: Vec<u64>,
    room: u32,
}

impl Model for LocTree {
    ghost use Rattle.indexmap.specs.IndexMap.{spare};
    ghost use Rattle.loc_tree.specs.Tree.{Tree};
    ghost use Rattle.loc_tree.specs.inside.Stored.{IsStored};

    ghost Value = { Tree };

    ghost view = { λ t. record { roots = t.roots; entries = t.spots.entries; spare = t.room } };

    ghost invariant = { λ t. IsStored
        (record { roots = t.roots; entries = t.spots.entries; spare = t.room })
        t.newest.items (spare t.spots) };
}

// Marks a location of the map.
fn mark(spots: &mut IndexMap<(u32, u64), Spot>, loc: &Loc)
    requires { IsSome (lookup (is_pair_of loc.now) spots.old.entries) }
    ensures entries { spots.new.entries ≡ change_spot loc.now marked spots.old.entries }
    ensures room { map_room spots.new ≡ map_room spots.old }
{
    if let Some(spot) = spots.get_mut(&(loc.site, loc.k)) {
        spot.marked = true;
    }
}

// Gives a location of the map another number.
fn renumber(spots: &mut IndexMap<(u32, u64), Spot>, loc: &Loc, number: u32)
    requires { IsSome (lookup (is_pair_of loc.now) spots.old.entries) }
    ensures entries { spots.new.entries
        ≡ change_spot loc.now (renumbered number) spots.old.entries }
    ensures room { map_room spots.new ≡ map_room spots.old }
{
    if let Some(spot) = spots.get_mut(&(loc.site, loc.k)) {
        spot.number = number;
    }
}

// Adds a location that the map doesn't have and has room for.
fn add(spots: &mut IndexMap<(u32, u64), Spot>, loc: Loc, number: u32)
    requires room { 1 ≤ map_room spots.old }
    requires new { lookup (is_pair_of loc) spots.old.entries ≡ None }
    ensures entries { spots.new.entries ≡ spots.old.entries ++ unmarked loc number ∷ [] }
    ensures room { map_room spots.old ≤ map_room spots.new + 1 }
{
    let spot = Spot {
        number,
        marked: false,
    };
    let _ = spots.insert((loc.site, loc.k), spot);
}

// Whether each location of this site has a number below this one.
fn are_below(spots: &IndexMap<(u32, u64), Spot>, site: u32, from: u64) -> bool
    ensures { result ≡ list_all (is_below site from) (keys_of spots.now.entries) }
{
    spots.keys().all(|p| p.0 != site || p.1 < from)
}

// Notes a location that is born among the largest numbers of the sites.
fn note(newest: &mut [u64], loc: Loc)
    ensures own { loc.site < length newest.old
        → slice_index newest.new loc.site ≡ max (slice_index newest.old loc.site) loc.k }
    ensures others { (i : ℕ) → i ≢ loc.site → slice_index newest.new i ≡ slice_index newest.old i }
{
    let site = loc.site as usize;
    if site < newest.len() && newest[site] < loc.k {
        newest[site] = loc.k;
    }
}

// The spot of a location by its pair, if the map has it, and where to look for the next one. The
// roots came first, in the order of sites, so a root is looked for at its place, and any other
// location at the guess; only what isn't found there is looked for by its key. The next location is
// guessed to be the one that was born after this one.
fn look(spots: &IndexMap<(u32, u64), Spot>, pair: (u32, u64), guess: usize) -> (Option<Spot>, usize)
    ensures { result.0 ≡ lookup (same_pair pair) spots.now.entries }
{
    let rooted = pair.1 == 0;
    let place = if rooted { pair.0 as usize } else { guess };
    if let Some((key, spot)) = spots.get_index(place) {
        if key.0 == pair.0 && key.1 == pair.1 {
            let next = if rooted {
                guess
            } else {
                place.saturating_add(1)
            };
            return (Some(*spot), next);
        }
    }
    match spots.get_full(&pair) {
        Some((place, _, spot)) => (Some(*spot), place.saturating_add(1)),
        None => (None, guess),
    }
}

// The spot of a location, if the map has it. Nothing is known of its place: it may be the newest.
fn find(spots: &IndexMap<(u32, u64), Spot>, loc: &Loc) -> Option<Spot>
    ensures { result ≡ lookup (is_pair_of loc.now) spots.now.entries }
{
    look(spots, (loc.site, loc.k), spots.len().saturating_sub(1)).0
}

// Whether there is a spot, and it has this number.
fn is_spot_of(number: u32, spot: Option<Spot>) -> bool
    ensures { result ≡ is_spot_of number spot }
{
    match spot {
        Some(spot) => spot.number == number,
        None => false,
    }
}

impl LocTree {
    /// So many unmarked roots, one a site.
    pub fn start(alloc: Global, roots: u32) -> Result<LocTree, Memory>
        ensures tree { IfOk result (λ tree. tree ≡ unmarked_roots roots) }
        ensures placed { IfOk result (λ tree. (sites : List SiteTerm) → length sites ≡ roots
            → IsTreeOf tree (opened_roots 0 sites)) }
    {
        let mut spots = IndexMap::new(alloc);
        for site in 0..roots {
            let spot = Spot {
                number: site,
                marked: false,
            };
            spots.insert((site, 0), spot)?;
        }
        let newest = vec![in alloc; 0; roots as usize]?;
        Ok(LocTree {
            roots,
            spots,
            newest,
            room: 0,
        })
    }

    /// Makes room for at least so many births, which then take no memory. Want of memory never
    /// comes where that room is there already.
    pub fn reserve(&mut self, _alloc: Global, more: u32) -> Result<(), Memory>
        ensures ok { OnOk result (self.new ≡ with_room self.old more) }
        ensures had { more ≤ self.old.spare → IsOk result }
        ensures err { OnErr result (self.new ≡ self.old) }
        ensures placed { (placed : List Placed) → IsTreeOf self.old placed
            → IsTreeOf self.new placed }
    {
        if more > self.room {
            self.spots.reserve(more as usize)?;
            self.room = more;
        }
        Ok(())
    }

    /// Adds a new location, unmarked, under the root of this site.
    pub fn birth(&mut self, loc: Loc, site: u32)
        requires room { 1 ≤ self.old.spare }
        requires site { site < self.old.roots }
        requires new { spot self.old loc ≡ None }
        ensures tree { self.new ≡ with_birth self.old loc site }
        ensures placed { (placed : List Placed) → IsTreeOf self.old placed
            → IsTreeOf self.new (placed ++ born_under site loc ∷ []) }
    {
        add(&mut self.spots, loc, site);
        note(&mut self.newest, loc);
        self.room -= 1;
    }

    fn spot(&self, loc: &Loc) -> Option<Spot>
        ensures { result ≡ spot self.now loc.now }
    {
        find(&self.spots, loc)
    }

    /// How many roots there are.
    pub fn roots(&self) -> u32
        ensures { result ≡ self.now.roots }
    {
        self.roots
    }

    fn has_mark(&self, loc: &Loc) -> bool
        ensures { result ≡ has_mark self.now loc.now }
    {
        match self.spot(loc) {
            Some(spot) => spot.marked,
            None => false,
        }
    }

    fn is_root(&self, loc: &Loc) -> bool
        ensures { result ≡ is_root self.now loc.now }
    {
        loc.k == 0 && loc.site < self.roots
    }

    /// Whether the location is in the tree.
    pub fn holds(&self, loc: &Loc) -> bool
        ensures tree { result ≡ is_some (spot self.now loc.now) }
        ensures placed { (placed : List Placed) → IsTreeOf self.now placed
            → result ≡ is_there (standing placed loc.now) }
    {
        self.is_root(loc) || find(&self.spots, loc).is_some()
    }

    /// Whether each of these is the pair of a location in the tree. Locations that were born one
    /// after another are found without a search. It takes no memory.
    pub fn holds_all(&self, pairs: &[(u32, u64)]) -> bool
        ensures { result ≡ holds_all self.now pairs.now }
    {
        let mut guess = self.roots as usize;
        for pair in pairs {
            let (spot, next) = look(&self.spots, *pair, guess);
            if spot.is_none() {
                return false;
            }
            guess = next;
        }
        true
    }

    /// Whether each of these is the pair of a location in the tree, hosted by the site with this
    /// number. Locations that were born one after another are found without a search. It takes no
    /// memory.
    pub fn hosts_all(&self, number: u32, pairs: &[(u32, u64)]) -> bool
        ensures { result ≡ hosts_all self.now number pairs.now }
    {
        let mut guess = self.roots as usize;
        for pair in pairs {
            let (spot, next) = look(&self.spots, *pair, guess);
            if !is_spot_of(number, spot) {
                return false;
            }
            guess = next;
        }
        true
    }

    /// Whether neither the location nor its root is marked.
    pub fn alive(&self, loc: &Loc) -> bool
        requires { IsSome (spot self.now loc.now) }
        ensures tree { result ≡ is_alive self.now loc.now }
        ensures live { (placed : List Placed) → IsTreeOf self.now placed
            → result ≡ live (standing placed) loc.now }
    {
        match self.spot(loc) {
            Some(spot) => {
                let root = Loc {
                    site: spot.number,
                    k: 0,
                };
                !(spot.marked || self.has_mark(&root))
            }
            None => false,
        }
    }

    /// The number of the site that hosts the location.
    pub fn root(&self, loc: &Loc) -> u32
        requires { IsSome (spot self.now loc.now) }
        ensures number { number_in (spot self.now loc.now) ≡ Some result }
        ensures below { result < self.now.roots }
        ensures root { (placed : List Placed) → IsTreeOf self.now placed
            → root (standing placed) loc.now ≡ root_of result }
    {
        match find(&self.spots, loc) {
            Some(spot) => spot.number,
            None => 0,
        }
    }

    /// Whether no location has this site and a number from this one on. All locations are looked
    /// through only where the site has no root.
    pub fn fresh(&self, site: u32, from: u64) -> bool
        ensures { IsTrue result ↔ IsFresh self.now site from }
    {
        match self.newest.get(site as usize) {
            Some(newest) => *newest < from,
            None => are_below(&self.spots, site, from),
        }
    }

    /// Whether the rule Go lets the location move to the target: it is alive and no root, and the
    /// target is a root that is alive.
    pub fn can_move(&self, loc: &Loc, target: &Loc) -> bool
        requires loc { IsSome (spot self.now loc.now) }
        requires target { IsSome (spot self.now target.now) }
        ensures tree { result ≡ can_move self.now loc.now target.now }
        ensures go { (n : Numbered) → IsTreeOf self.now n.places
            → result ≡ can_go n loc.now target.now }
    {
        self.alive(loc) && !self.is_root(loc) && self.alive(target) && self.is_root(target)
    }

    /// Whether the rule Fall takes the location down with the target, in a text of version 2: it is
    /// alive and no root, and the target is a root that is dead.
    pub fn can_fall(&self, loc: &Loc, target: &Loc) -> bool
        requires loc { IsSome (spot self.now loc.now) }
        requires target { IsSome (spot self.now target.now) }
        ensures tree { result ≡ can_fall self.now loc.now target.now }
        ensures fall { (n : Numbered) → IsTreeOf self.now n.places
            → result ≡ falls_in n loc.now target.now }
    {
        self.alive(loc) && !self.is_root(loc) && !self.alive(target) && self.is_root(target)
    }

    /// Moves the location under the target, be it alive or dead: its number becomes that of the
    /// target.
    pub fn rehost(&mut self, loc: &Loc, target: &Loc)
        requires { IsTrue (can_leave self.old loc.now target.now) }
        ensures tree { self.new ≡ with_number self.old loc.now target.now.site }
        ensures number { number_in (spot self.new loc.now) ≡ number_in (spot self.old target.now) }
        ensures placed { (placed : List Placed) → IsTreeOf self.old placed
            → IsTreeOf self.new (with_hosts loc.now target.now placed) }
    {
        renumber(&mut self.spots, loc, target.site);
    }

    /// Marks the location.
    pub fn kill(&mut self, loc: &Loc)
        requires { IsSome (spot self.old loc.now) }
        ensures tree { self.new ≡ with_mark self.old loc.now }
        ensures placed { (placed : List Placed) → IsTreeOf self.old placed
            → IsTreeOf self.new (with_marks loc.now placed) }
    {
        mark(&mut self.spots, loc);
    }
}

/// Each root stands in a tree with the number of its own site, and each number is that of a root.
/// It does nothing.
pub fn tree_is_kept(tree: &LocTree)
    ensures { IsTree tree.now }
{
    let _roots = tree.roots;
}
