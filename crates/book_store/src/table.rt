// Messages by number, in an ordered map. Contracts see a list, of which they say no more than what
// each number finds.
ghost use Rattle.std.specs.Prelude.{◌≡◌, [], None, OnOk, OnErr};
ghost use Rattle.std.specs.Option.{option_copied};
ghost use Rattle.std.specs.Map.Iter.{ShowsInOrder, deref};
ghost use Rattle.chem_model.specs.Apply.{atom_at, without};
ghost use Rattle.chem_commit.specs.inside.Differ.{AtomsDiffer};
ghost use Rattle.book_store.specs.inside.Table.{Adds};

use chem_model::{AtomId, Memory, NumberedAtom};
use std::alloc::Global;
use std::collections::BTreeMap;
use std::collections::btree_map::Values;
use std::marker::Model;

/// Messages and requests by number.
#[derive(Drop)]
pub struct AtomTable {
    map: BTreeMap<(u32, u64), NumberedAtom>,
}

impl Model for AtomTable {
    ghost use Rattle.std.specs.Prelude.{List};
    ghost use Rattle.std.specs.Coded.{coded_list};
    ghost use Rattle.chem_model.specs.declared.numbered.NumberedAtom.{NumberedAtom};
    ghost use Rattle.chem_model.specs.contracts.numbered.NumberedAtom as atom;
    ghost use Rattle.std.specs.BTreeMap.{values};
    ghost use Rattle.book_store.specs.inside.Table.{AreKeyed};

    ghost Value = { List NumberedAtom };

    ghost coded = { coded_list atom.the_row.coded };

    ghost view = { λ t. values t.map };

    ghost invariant = { λ t. AreKeyed t.map.entries };
}

impl AtomTable {
    // The table without a member.
    pub(crate) fn new(alloc: Global) -> AtomTable
        ensures { result ≡ [] }
    {
        AtomTable {
            map: BTreeMap::new(alloc),
        }
    }

    /// The message or request with this number.
    pub fn get(&self, id: AtomId) -> Option<&NumberedAtom>
        ensures { option_copied result ≡ atom_at self.now id }
    {
        self.map.get(&(id.site, id.k))
    }

    /// All of them, by rising number.
    pub fn values(&self) -> Values<'_, (u32, u64), NumberedAtom>
        ensures rest { result ≡ self.now }
        ensures runs { ShowsInOrder (deref {X = NumberedAtom}) }
    {
        self.map.values()
    }

    // Adds one whose number isn't there. On want of memory nothing changes.
    pub(crate) fn insert(&mut self, atom: NumberedAtom) -> Result<(), Memory>
        requires { atom_at self.old atom.id ≡ None }
        ensures ok { OnOk result (Adds atom self.old self.new) }
        ensures err { OnErr result (self.new ≡ self.old) }
    {
        let key = (atom.id.site, atom.id.k);
        match self.map.insert(key, atom) {
            Ok(_) => Ok(()),
            Err(_) => Err(Memory),
        }
    }

    // Takes the one with this number out. It takes no memory.
    pub(crate) fn remove(&mut self, id: AtomId) -> Option<NumberedAtom>
        ensures found { result ≡ atom_at self.old id }
        ensures left { self.new ≡ without id self.old }
    {
        self.map.remove(&(id.site, id.k))
    }

    /// No number stands twice. It does nothing.
    pub fn are_different(&self)
        ensures { AtomsDiffer self.now }
    {
        let _count = self.map.len();
    }
}
