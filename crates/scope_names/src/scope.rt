// One scope: what each spelling stands for.
ghost use Rattle.std.specs.Prelude.{◌≡◌, ◌++◌, ◌∷◌, [], None, OnOk, OnErr};
ghost use Rattle.scope_names.specs.Frames.{in_frame};
ghost use Rattle.scope_names.specs.inside.Places.{place_of};

use chem_model::Memory;
use std::alloc::Global;
use std::collections::BTreeMap;
use std::marker::Model;

/// What a name of a block or of a parameter list is.
#[derive(Clone, Copy, PartialEq, Eq, Debug)]
pub enum Sort {
    /// A channel, with its count of arguments and the location at which its rules stand: 0 is that
    /// of the block, and its places are 1, 2, .. in source order.
    Channel { count: u32, at: u32 },
    /// A site or a place.
    Location,
    /// An observed name, with its declared count and the number of its declaration.
    Observed { count: u32, index: u32 },
    /// A received name of a rule.
    Parameter,
}

/// The first defining occurrence of a spelling: what it is, and its binder. An observed name has
/// none, and 0 stands there.
#[derive(Clone, Copy, PartialEq, Eq, Debug)]
pub struct Entry {
    pub sort: Sort,
    pub binder: u32,
}

/// The names of one block or one parameter list, in source order.
///
/// A name is found in an ordered map: texts choose the names, and no choice makes it slow. The keys
/// are copies, so that a scope can be lent for less time than the names that it was made of.
#[derive(Drop)]
pub struct Scope<'a> {
    entries: Vec<(&'a [u8], Entry)>,
    places: BTreeMap<Vec<u8>, usize>,
}

impl<'a> Model for Scope<'a> {
    ghost use Rattle.std.specs.Prelude.{List, ℕ};
    ghost use Rattle.scope_names.specs.declared.scope.Entry.{Entry};

    ghost Value = { List (List ℕ × Entry) };

    ghost use Rattle.scope_names.specs.Frames.{spelled};

    ghost view = { λ s. spelled s.entries.items };

    ghost use Rattle.scope_names.specs.inside.Places.{KnowsPlaces};

    ghost invariant = { λ s. KnowsPlaces s.places (spelled s.entries.items) };
}

impl<'a> Scope<'a> {
    /// The scope without a name.
    pub fn new(alloc: Global) -> Scope<'a>
        ensures { result ≡ [] }
    {
        Scope {
            entries: Vec::new(alloc),
            places: BTreeMap::new(alloc),
        }
    }

    // Where the spelling stands, counted from 0.
    fn place(&self, name: &[u8]) -> Option<usize>
        ensures { result ≡ place_of name.now self.now }
    {
        self.places.get(name).copied()
    }

    /// What the spelling stands for.
    pub fn find(&self, name: &[u8]) -> Option<Entry>
        ensures { result ≡ in_frame name.now self.now }
    {
        match self.place(name) {
            Some(place) => Some(self.entries[place].1),
            None => None,
        }
    }

    /// Adds a spelling that isn't there. It goes last.
    pub fn add(&mut self, name: &'a [u8], entry: Entry) -> Result<(), Memory>
        requires { in_frame name.now self.old ≡ None }
        ensures ok { OnOk result (self.new ≡ self.old ++ (name.now, entry) ∷ []) }
        ensures err { OnErr result (self.new ≡ self.old) }
    {
        self.entries.reserve(1)?;
        let key = Vec::from_slice(*self.entries.allocator(), name)?;
        let place = self.entries.len();
        self.places.insert(key, place)?;
        self.entries.push_reserved((name, entry));
        Ok(())
    }
}
