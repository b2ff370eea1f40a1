// The types of the numbered solution, and look-ups in it.
ghost use Rattle.std.specs.Prelude.{◌≡◌, IfOk, slice_index};
ghost use Rattle.chem_model.specs.Solution.{same_loc, host_of, is_there, is_marked, root, dead};
ghost use Rattle.chem_model.specs.Solution.{live};
ghost use Rattle.chem_model.specs.Numbered.{standing, same_name, binder_in};
ghost use Rattle.chem_model.specs.inside.Poured.{standing_of};

use crate::event::{AtomId, Outs, RuleId};
use crate::items::Items;
use crate::memory::Memory;
use crate::name::{Loc, Name, Nums, Pats};
use crate::term::Proc;
use std::alloc::Global;

/// A name that was given to a binder.
#[derive(Clone, Copy, PartialEq, Eq, Debug)]
pub struct Named {
    pub binder: u32,
    pub name: Name,
}

/// A location of a numbered solution: its host, which a root doesn't have, and whether it is
/// marked.
#[derive(Clone, Copy, PartialEq, Eq, Debug)]
pub struct Placed {
    pub loc: Loc,
    pub host: Option<Loc>,
    pub marked: bool,
}

/// A rule of a numbered solution, and the location at which it stands.
#[derive(Drop)]
pub struct NumberedRule {
    pub id: RuleId,
    pub loc: Loc,
    pub pats: Pats,
    pub body: Proc,
}

/// A message or a request of a numbered solution, and the location at which it stands.
#[derive(Drop)]
pub struct NumberedAtom {
    pub id: AtomId,
    pub loc: Loc,
    pub term: Proc,
}

pub type Counts = Items<u64>;

pub type Naming = Items<Named>;

pub type PlacedList = Items<Placed>;

pub type NumberedRules = Items<NumberedRule>;

pub type NumberedAtoms = Items<NumberedAtom>;

/// A numbered solution: the version of its program, the declared counts of observed names, one
/// count of made numbers a site, and in the order in which they were made the locations, the names
/// given to binders (of each location and channel that was made), the rules, the messages and
/// requests, and the observables.
#[derive(Drop)]
pub struct Numbered {
    pub version: u32,
    pub seen: Nums,
    pub counts: Counts,
    pub places: PlacedList,
    pub named: Naming,
    pub rules: NumberedRules,
    pub atoms: NumberedAtoms,
    pub trace: Outs,
}

/// What pouring a process makes: the next number of its site, and in the order in which they were
/// made the new locations, the names given to binders, the rules, the messages and requests, and
/// the observables.
#[derive(Drop)]
pub struct Made {
    pub next: u64,
    pub births: PlacedList,
    pub named: Naming,
    pub rules: NumberedRules,
    pub atoms: NumberedAtoms,
    pub outs: Outs,
}

impl Named {
    /// A name that was given that is equal to this one. It takes no memory.
    pub fn copy(&self, _alloc: Global) -> Result<Named, Memory>
        ensures { result ≡ Ok self.now }
    {
        Ok(*self)
    }
}

impl Placed {
    /// A location of a solution that is equal to this one. It takes no memory.
    pub fn copy(&self, _alloc: Global) -> Result<Placed, Memory>
        ensures { result ≡ Ok self.now }
    {
        Ok(*self)
    }
}

impl NumberedRule {
    /// A rule that is equal to this one.
    pub fn copy(&self, alloc: Global) -> Result<NumberedRule, Memory>
        ensures { IfOk result (λ copy. copy ≡ self.now) }
    {
        let pats = self.pats.copy(alloc)?;
        let body = self.body.copy(alloc)?;
        Ok(NumberedRule {
            id: self.id,
            loc: self.loc,
            pats,
            body,
        })
    }
}

impl NumberedAtom {
    /// A message or a request that is equal to this one.
    pub fn copy(&self, alloc: Global) -> Result<NumberedAtom, Memory>
        ensures { IfOk result (λ copy. copy ≡ self.now) }
    {
        let term = self.term.copy(alloc)?;
        Ok(NumberedAtom {
            id: self.id,
            loc: self.loc,
            term,
        })
    }
}

impl Items<NumberedRule> {
    /// A list that is equal to this one.
    pub fn copy(&self, alloc: Global) -> Result<NumberedRules, Memory>
        ensures { IfOk result (λ copy. copy ≡ self.now) }
    {
        let mut list = Items::new(alloc);
        for member in self.as_slice() {
            list.push(member.copy(alloc)?)?;
        }
        Ok(list)
    }
}

impl Items<NumberedAtom> {
    /// A list that is equal to this one.
    pub fn copy(&self, alloc: Global) -> Result<NumberedAtoms, Memory>
        ensures { IfOk result (λ copy. copy ≡ self.now) }
    {
        let mut list = Items::new(alloc);
        for member in self.as_slice() {
            list.push(member.copy(alloc)?)?;
        }
        Ok(list)
    }
}

impl Made {
    /// What was made, once more.
    pub fn copy(&self, alloc: Global) -> Result<Made, Memory>
        ensures { IfOk result (λ copy. copy ≡ self.now) }
    {
        let births = self.births.copy(alloc)?;
        let named = self.named.copy(alloc)?;
        let rules = self.rules.copy(alloc)?;
        let atoms = self.atoms.copy(alloc)?;
        let outs = self.outs.copy(alloc)?;
        Ok(Made {
            next: self.next,
            births,
            named,
            rules,
            atoms,
            outs,
        })
    }
}

/// Whether two locations are the same.
pub fn same_loc(one: Loc, other: Loc) -> bool
    ensures { result ≡ same_loc one other }
{
    one.site == other.site && one.k == other.k
}

/// Whether two names are the same.
pub fn same_name(one: Name, other: Name) -> bool
    ensures { result ≡ same_name one other }
{
    match (one, other) {
        (Name::Seen(on), Name::Seen(other_on)) => on == other_on,
        (Name::Place(loc), Name::Place(other_loc)) => same_loc(loc, other_loc),
        (
            Name::Chan { site, k, home },
            Name::Chan {
                site: other_site,
                k: other_k,
                home: other_home,
            },
        ) => site == other_site && k == other_k && same_loc(home, other_home),
        (Name::Num(number), Name::Num(other_number)) => number == other_number,
        (Name::Op(op), Name::Op(other_op)) => op == other_op,
        _ => false,
    }
}

// The entry of a location. Of two entries the first counts.
fn place_at(places: &PlacedList, at: Loc) -> Option<Placed>
    ensures { standing_of result ≡ standing places.now at }
{
    for placed in places.as_slice() {
        if same_loc(placed.loc, at) {
            return Some(*placed);
        }
    }
    None
}

/// The binder for which a name was made, by these entries. Of two entries the first counts.
pub fn binder_in(named: &Naming, name: Name) -> Option<u32>
    ensures { result ≡ binder_in named.now name }
{
    for entry in named.as_slice() {
        if same_name(entry.name, name) {
            return Some(entry.binder);
        }
    }
    None
}

impl Numbered {
    /// A numbered solution that is equal to this one.
    pub fn copy(&self, alloc: Global) -> Result<Numbered, Memory>
        ensures { IfOk result (λ copy. copy ≡ self.now) }
    {
        let seen = self.seen.copy(alloc)?;
        let counts = self.counts.copy(alloc)?;
        let places = self.places.copy(alloc)?;
        let named = self.named.copy(alloc)?;
        let rules = self.rules.copy(alloc)?;
        let atoms = self.atoms.copy(alloc)?;
        let trace = self.trace.copy(alloc)?;
        Ok(Numbered {
            version: self.version,
            seen,
            counts,
            places,
            named,
            rules,
            atoms,
            trace,
        })
    }

    /// The binder for which a location or a channel was made. None where the name was not made
    /// here.
    pub fn binder_of(&self, name: &Name) -> Option<u32>
        ensures { result ≡ binder_in self.now.named name.now }
    {
        binder_in(&self.named, *name)
    }

    /// Whether this is one of the solution's locations.
    pub fn is_there(&self, at: Loc) -> bool
        ensures { result ≡ is_there (standing self.now.places at) }
    {
        match place_at(&self.places, at) {
            Some(_) => true,
            None => false,
        }
    }

    // Whether a location is marked.
    fn is_marked(&self, at: Loc) -> bool
        ensures { result ≡ is_marked (standing self.now.places at) }
    {
        match place_at(&self.places, at) {
            Some(placed) => placed.marked,
            None => false,
        }
    }

    /// The host of a location. A root has none.
    pub fn host(&self, at: Loc) -> Option<Loc>
        ensures { result ≡ host_of (standing self.now.places at) }
    {
        match place_at(&self.places, at) {
            Some(placed) => placed.host,
            None => None,
        }
    }

    /// The root of a location: its host, or itself where it has none.
    pub fn root(&self, at: Loc) -> Loc
        ensures { result ≡ root (standing self.now.places) at }
    {
        match self.host(at) {
            Some(host) => host,
            None => at,
        }
    }

    /// Whether a location is within a marked one.
    pub fn is_dead(&self, at: Loc) -> bool
        ensures { result ≡ dead (standing self.now.places) at }
    {
        self.is_marked(at) || self.is_marked(self.root(at))
    }

    /// Whether this is a location that isn't dead.
    pub fn is_live(&self, at: Loc) -> bool
        ensures { result ≡ live (standing self.now.places) at }
    {
        self.is_there(at) && !self.is_dead(at)
    }

    /// The next number of a site.
    pub fn next_of(&self, site: u32) -> u64
        ensures { result ≡ slice_index self.now.counts site }
    {
        match self.counts.as_slice().get(site as usize) {
            Some(count) => *count,
            None => 0,
        }
    }
}
