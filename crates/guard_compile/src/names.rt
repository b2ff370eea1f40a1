// The names of what the sites define, as the opening gives them.
ghost use Rattle.std.specs.Prelude.{◌≡◌, ◌+◌, [], ◌∷◌, ◌++◌, ℕ, IfOk, OnOk, length, slice_get};
ghost use Rattle.chem_model.specs.Process.{definitions};
ghost use Rattle.chem_model.specs.Fill.{name_at};
ghost use Rattle.chem_model.specs.Pour.{name_ref, name_pats, name_channels, name_place};
ghost use Rattle.chem_model.specs.Pour.{name_places, naming};
ghost use Rattle.chem_model.specs.Opening.{root_of, root_names, level_names, site_names};
ghost use Rattle.guard_compile.specs.inside.Drawing.{drawn};

use chem_model::{
    DefnNode, Defs, Items, Loc, Memory, Name, Named, Names, Naming, Pats, Program, Ref, SiteTerms,
};
use std::alloc::Global;
use std::collections::HashMap;
use std::marker::Model;

// Binders with their names, seen as the list of both. Of two entries of a binder the first counts,
// and it is found without a walk.
#[derive(Drop)]
pub(crate) struct NameTable {
    entries: Naming,
    names: HashMap<u32, Name>,
}

impl Model for NameTable {
    ghost use Rattle.std.specs.Prelude.{List, ℕ, ◌≡◌, nat_eq};
    ghost use Rattle.std.specs.HashMap.{get};
    ghost use Rattle.chem_model.specs.Fill.{Naming, name_at};

    ghost Value = { Naming };

    ghost view = { λ t. t.entries };

    ghost invariant = { λ t. (q : ℕ) → get nat_eq t.names q ≡ name_at t.entries q };
}

impl NameTable {
    fn new(alloc: Global) -> NameTable
        ensures { result ≡ [] }
    {
        NameTable {
            entries: Items::new(alloc),
            names: HashMap::new(alloc),
        }
    }

    // The entries in order.
    pub(crate) fn as_slice(&self) -> &[Named]
        ensures { result.now ≡ self.now }
    {
        self.entries.as_slice()
    }

    // The name of a binder.
    pub(crate) fn name_at(&self, binder: u32) -> Option<Name>
        ensures { result ≡ name_at self.now binder }
    {
        self.names.get(&binder).copied()
    }

    // Appends a binder with a name.
    fn push(&mut self, binder: u32, name: Name) -> Result<(), Memory>
        ensures { OnOk result (self.new ≡ self.old
            ++ record { binder = binder; name = name } ∷ []) }
    {
        let is_new = self.name_at(binder).is_none();
        let count = self.entries.len();
        self.entries.push(Named { binder, name })?;
        if is_new && self.names.insert(binder, name).is_err() {
            self.entries.truncate(count);
            return Err(Memory);
        }
        Ok(())
    }

    // Appends entries.
    fn extend(&mut self, entries: &[Named]) -> Result<(), Memory>
        ensures { OnOk result (self.new ≡ self.old ++ entries.now) }
    {
        for entry in entries {
            self.push(entry.binder, entry.name)?;
        }
        Ok(())
    }
}

// The naming of one site's level: the next number, and the names given so far.
#[derive(Drop)]
struct Drawing {
    next: u64,
    names: NameTable,
}

impl Drawing {
    // Gives the next number away.
    fn draw(&mut self, binder: u32, name: Name) -> Result<(), Memory>
        ensures next { OnOk result (self.new.next ≡ self.old.next + 1) }
        ensures names { OnOk result (self.new.names ≡ self.old.names
            ++ record { binder = binder; name = name } ∷ []) }
    {
        let next = match self.next.checked_add(1) {
            Some(next) => next,
            None => return Err(Memory),
        };
        self.names.push(binder, name)?;
        self.next = next;
        Ok(())
    }

    // A channel that has no name yet gets one.
    fn name_ref(&mut self, site: u32, home: Loc, occurrence: Ref) -> Result<(), Memory>
        ensures { OnOk result (drawn self.new ≡ name_ref site home occurrence (drawn self.old)) }
    {
        if let Ref::Binder(binder) = occurrence {
            if self.names.name_at(binder).is_none() {
                let name = Name::Chan {
                    site,
                    k: self.next,
                    home,
                };
                self.draw(binder, name)?;
            }
        }
        Ok(())
    }

    fn name_pats(&mut self, site: u32, home: Loc, pats: &Pats) -> Result<(), Memory>
        ensures { OnOk result (drawn self.new ≡ name_pats site home pats.now (drawn self.old)) }
    {
        for pat in pats.as_slice() {
            self.name_ref(site, home, pat.on)?;
        }
        Ok(())
    }

    // Names the channels of a list of definitions that stands at a location.
    fn name_channels(&mut self, site: u32, home: Loc, defs: &Defs) -> Result<(), Memory>
        ensures { OnOk result (drawn self.new ≡ name_channels site home (definitions defs.now)
            (drawn self.old)) }
    {
        for definition in defs.as_slice() {
            if let DefnNode::Rule { pats, .. } = definition.node() {
                self.name_pats(site, home, pats)?;
            }
        }
        Ok(())
    }

    fn name_place(&mut self, site: u32, occurrence: Ref) -> Result<(), Memory>
        ensures { OnOk result (drawn self.new ≡ name_place site occurrence (drawn self.old)) }
    {
        if let Ref::Binder(binder) = occurrence {
            let place = Loc { site, k: self.next };
            self.draw(binder, Name::Place(place))?;
        }
        Ok(())
    }

    // Names the places of a list of definitions, each with its own channels.
    fn name_places(&mut self, site: u32, defs: &Defs) -> Result<(), Memory>
        ensures { OnOk result (drawn self.new ≡ name_places site (definitions defs.now)
            (drawn self.old)) }
    {
        for definition in defs.as_slice() {
            if let DefnNode::Place { name, defs, .. } = definition.node() {
                let place = Loc { site, k: self.next };
                self.name_place(site, *name)?;
                self.name_channels(site, place, defs)?;
            }
        }
        Ok(())
    }
}

// The root of a site, which is the first that it makes.
fn root_of(site: u32) -> Loc
    ensures { result ≡ root_of site }
{
    Loc { site, k: 0 }
}

// The names of a site's level, which stands at its root.
fn level_names(alloc: Global, site: u32, defs: &Defs) -> Result<NameTable, Memory>
    ensures { IfOk result (λ names. names ≡ (naming site (root_of site)
        (definitions defs.now) 1).names) }
{
    let mut drawing = Drawing {
        next: 1,
        names: NameTable::new(alloc),
    };
    drawing.name_channels(site, root_of(site), defs)?;
    drawing.name_places(site, defs)?;
    Ok(drawing.names)
}

// Each site's name is that of its root.
fn name_roots(names: &mut NameTable, sites: &SiteTerms) -> Result<(), Memory>
    ensures { OnOk result (names.new ≡ names.old ++ root_names 0 sites.now) }
{
    for (site, term) in sites.as_slice().iter().enumerate() {
        names.push(term.name, Name::Place(root_of(site as u32)))?;
    }
    Ok(())
}

// Each site's level is named at its root.
fn name_levels(alloc: Global, names: &mut NameTable, sites: &SiteTerms) -> Result<(), Memory>
    ensures { OnOk result (names.new ≡ names.old ++ level_names 0 sites.now) }
{
    for (site, term) in sites.as_slice().iter().enumerate() {
        let level = level_names(alloc, site as u32, &term.defs)?;
        names.extend(level.as_slice())?;
    }
    Ok(())
}

// The names of all that the sites define.
pub(crate) fn site_names(alloc: Global, sites: &SiteTerms) -> Result<NameTable, Memory>
    ensures { IfOk result (λ names. names ≡ site_names sites.now) }
{
    let mut names = NameTable::new(alloc);
    name_roots(&mut names, sites)?;
    name_levels(alloc, &mut names, sites)?;
    Ok(names)
}
