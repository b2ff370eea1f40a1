// A list of names that knows where each of them stands first.
ghost use Rattle.std.specs.Prelude.{◌≡◌, [], ◌∷◌, ◌++◌, OnOk};
ghost use Rattle.sort_lines.specs.Faults.{first_place};
ghost use Rattle.sort_lines.specs.inside.Judging.{is_among};

use chem_model::{Items, Memory};
use std::alloc::Global;
use std::collections::BTreeMap;
use std::marker::Model;

// Names in order, seen as that list. A name is found without a walk, in an ordered map: texts
// choose the names, and no choice makes it slow.
#[derive(Drop)]
pub(crate) struct Names<'a> {
    list: Items<&'a [u8]>,
    first_places: BTreeMap<&'a [u8], u32>,
}

impl<'a> Model for Names<'a> {
    ghost use Rattle.std.specs.Prelude.{List, ℕ};
    ghost use Rattle.sort_lines.specs.inside.Places.{texts, KnowsPlaces};

    ghost Value = { List (List ℕ) };

    ghost view = { λ n. texts n.list };

    ghost invariant = { λ n. KnowsPlaces n.first_places (texts n.list) };
}

impl<'a> Names<'a> {
    // No names.
    pub(crate) fn new(alloc: Global) -> Names<'a>
        ensures { result ≡ [] }
    {
        Names {
            list: Items::new(alloc),
            first_places: BTreeMap::new(alloc),
        }
    }

    // Where a name stands first, counted from 0.
    pub(crate) fn place(&self, name: &[u8]) -> Option<u32>
        ensures { result ≡ first_place name.now self.now }
    {
        self.first_places.get(name).copied()
    }

    pub(crate) fn contains(&self, name: &[u8]) -> bool
        ensures { result ≡ is_among name.now self.now }
    {
        self.place(name).is_some()
    }

    // Appends a name.
    pub(crate) fn push(&mut self, name: &'a [u8]) -> Result<(), Memory>
        ensures { OnOk result (self.new ≡ self.old ++ name.now ∷ []) }
    {
        let is_known = self.contains(name);
        let place = self.list.len();
        self.list.push(name)?;
        if is_known {
            return Ok(());
        }
        if self.first_places.insert(name, place as u32).is_err() {
            self.list.truncate(place);
            return Err(Memory);
        }
        Ok(())
    }
}
