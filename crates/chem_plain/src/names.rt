// Names by binder. Of two entries of a binder the first counts. Up to eight entries are walked; a
// binder of a later one is found in an ordered map.
ghost use Rattle.std.specs.Prelude.{◌≡◌, ◌++◌, ◌∷◌, [], ℕ, Some, None, cond, IfOk, OnOk, OnErr};
ghost use Rattle.std.specs.Prelude.{nat_eq};
ghost use Rattle.std.specs.Ordering.{nat_cmp};
ghost use Rattle.std.specs.BTreeMap.{get, IsUnchanged};
ghost use Rattle.chem_model.specs.Fill.{name_at};
ghost use Rattle.chem_plain.specs.inside.Names.{IsIndex, or_name, names_of};

use chem_model::{Items, Memory, Name, Named, Naming};
use std::alloc::Global;
use std::collections::BTreeMap;
use std::marker::Model;

// So many entries are walked.
const WALKED: usize = 8;

// The name of a binder, by a walk.
fn walk(entries: &[Named], binder: u32) -> Option<Name>
    ensures { result ≡ name_at entries.now binder }
{
    for entry in entries {
        if entry.binder == binder {
            return Some(entry.name);
        }
    }
    None
}

// The name of a binder, by a walk over the first entries and then by the map.
fn find(entries: &Naming, index: &BTreeMap<u32, Name>, binder: u32) -> Option<Name>
    requires { IsIndex entries.now index.now }
    ensures { result ≡ name_at entries.now binder }
{
    let items = entries.as_slice();
    if items.len() <= WALKED {
        return walk(items, binder);
    }
    match walk(&items[..WALKED], binder) {
        Some(name) => Some(name),
        None => index.get(&binder).copied(),
    }
}

// Puts a name into the map, where its binder has none there. On want of memory nothing changes.
fn put(index: &mut BTreeMap<u32, Name>, binder: u32, name: Name) -> Result<(), Memory>
    ensures ok { OnOk result ((q : ℕ) → get nat_cmp index.new q
        ≡ or_name (get nat_cmp index.old q) (cond (nat_eq binder q) (Some name) None)) }
    ensures err { OnErr result (IsUnchanged index.old index.new) }
{
    if index.contains_key(&binder) {
        return Ok(());
    }
    index.insert(binder, name)?;
    Ok(())
}

// The map of entries.
pub(crate) fn index_of(alloc: Global, entries: &Naming) -> Result<BTreeMap<u32, Name>, Memory>
    ensures { IfOk result (λ index. IsIndex entries.now index) }
{
    let mut index = BTreeMap::new(alloc);
    let items = entries.as_slice();
    for at in WALKED..items.len() {
        put(&mut index, items[at].binder, items[at].name)?;
    }
    Ok(index)
}

// A list of names that grows, in which a binder's name is found without a walk.
#[derive(Drop)]
pub(crate) struct NameTable {
    entries: Naming,
    index: BTreeMap<u32, Name>,
}

impl Model for NameTable {
    ghost use Rattle.std.specs.Prelude.{List};
    ghost use Rattle.chem_model.specs.declared.numbered.Named.{Named};
    ghost use Rattle.chem_plain.specs.inside.Names.{IsIndex};

    ghost Value = { List Named };

    ghost view = { λ t. t.entries };

    ghost invariant = { λ t. IsIndex t.entries t.index };
}

impl NameTable {
    // No names.
    pub(crate) fn new(alloc: Global) -> NameTable
        ensures { result ≡ [] }
    {
        NameTable {
            entries: Items::new(alloc),
            index: BTreeMap::new(alloc),
        }
    }

    // The names in order.
    pub(crate) fn entries(&self) -> &Naming
        ensures { result.now ≡ self.now }
    {
        &self.entries
    }

    // The name of a binder.
    pub(crate) fn name_at(&self, binder: u32) -> Option<Name>
        ensures { result ≡ name_at self.now binder }
    {
        find(&self.entries, &self.index, binder)
    }

    // Appends a name.
    pub(crate) fn push(&mut self, binder: u32, name: Name) -> Result<(), Memory>
        ensures { OnOk result (self.new ≡ self.old
            ++ record { binder = binder; name = name } ∷ []) }
    {
        let count = self.entries.len();
        self.entries.push(Named { binder, name })?;
        if count >= WALKED && put(&mut self.index, binder, name).is_err() {
            self.entries.truncate(count);
            return Err(Memory);
        }
        Ok(())
    }
}

// The names of a level, and of those around it. Those of an outer level come first.
#[derive(Drop)]
pub(crate) struct Scope<'s> {
    entries: &'s Naming,
    index: &'s BTreeMap<u32, Name>,
    outer: Option<&'s Scope<'s>>,
}

impl<'s> Model for Scope<'s> {
    ghost use Rattle.std.specs.Prelude.{List, length};
    ghost use Rattle.chem_model.specs.Fill.{Naming};
    ghost use Rattle.chem_plain.specs.inside.Names.{IsIndex, levels_around};

    ghost Value = { List Naming };

    ghost view = { λ s. levels_around s.entries.now s.outer };

    ghost invariant = { λ s. IsIndex s.entries.now s.index.now };

    ghost size = { length };

    ghost use Rattle.std.proofs.Common.{arith};

    ghost size_decreases = { λ a h. Prim.grind (arith) };
}

impl<'s> Scope<'s> {
    // Names with their map, and none around them.
    pub(crate) fn outermost(entries: &'s Naming, index: &'s BTreeMap<u32, Name>) -> Scope<'s>
        requires { IsIndex entries.now index.now }
        ensures { result ≡ entries.now ∷ [] }
    {
        Scope {
            entries,
            index,
            outer: None,
        }
    }

    // A level's names within these.
    pub(crate) fn within(level: &'s NameTable, outer: &'s Scope<'s>) -> Scope<'s>
        ensures { result ≡ level.now ∷ outer.now }
    {
        Scope {
            entries: &level.entries,
            index: &level.index,
            outer: Some(outer),
        }
    }

    // The name of a binder.
    pub(crate) fn name_at(&self, binder: u32) -> Option<Name>
        ensures { result ≡ name_at (names_of self.now) binder }
    {
        match self.outer {
            Some(outer) => match outer.name_at(binder) {
                Some(name) => Some(name),
                None => find(self.entries, self.index, binder),
            },
            None => find(self.entries, self.index, binder),
        }
    }
}
