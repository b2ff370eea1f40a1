// The opening of all sites of a run.
ghost use Rattle.std.specs.Prelude.{◌≡◌, ℕ, ◌+◌, ◌<◌, length, IfOk, OnOk};
ghost use Rattle.loc_tree.specs.Tree.{with_room};
ghost use Rattle.net_laws.specs.Net.{with_births};
ghost use Rattle.net_laws.specs.Opened.{AreNew};
ghost use Rattle.reducer.specs.Opens.{IsOfProgram};
ghost use Rattle.site_turn.specs.Opening.{AreOpened};
ghost use Rattle.site_turn.specs.inside.Opening.{IsAdded, IsUpTo};

use crate::picks::add_births;
use chem_model::Memory;
use env_store::{Code, Locs};
use loc_tree::LocTree;
use reducer::{first_tree, opening};
use site_solution::{Effects, Site};
use std::alloc::Global;
use std::collections::VecDeque;

/// The sites of a run by their numbers, each opened; the tree, which has what their openings bore;
/// and what each opening hands out.
#[derive(Drop)]
pub struct OpenedSites {
    pub sites: Vec<Site>,
    pub tree: LocTree,
    pub handed: VecDeque<Effects>,
}

// Locations that the opening of the site with this number bore come into the tree.
fn bear(alloc: Global, tree: &mut LocTree, births: &Locs, number: u32) -> Result<(), Memory>
    requires new { AreNew (with_room tree.old (length births.now)) number births.now }
    requires site { number < tree.old.roots }
    ensures { OnOk result
        (tree.new ≡ with_births (with_room tree.old (length births.now)) number births.now) }
{
    tree.reserve(alloc, births.len() as u32)?;
    add_births(tree, births.as_slice(), number);
    Ok(())
}

// A site is opened behind the others.
fn add(opened: &mut OpenedSites, site: Site, effects: Effects) -> Result<(), Memory>
    ensures { OnOk result (IsAdded site effects opened.old opened.new) }
{
    opened.handed.push_back(effects)?;
    opened.sites.push(site)?;
    Ok(())
}

// Opens the site with this number, where those before it are opened.
fn open_site(
    alloc: Global,
    opened: &mut OpenedSites,
    code: &Code,
    number: u32,
) -> Result<(), Memory>
    requires program { IsOfProgram code.now }
    requires number { number < length code.now.sites }
    requires before { IsUpTo code.now number opened.old }
    ensures { OnOk result (IsUpTo code.now (number + 1) opened.new) }
{
    let _tops = &code.tops;
    let (site, effects) = opening(alloc, code, &opened.tree, number)?;
    match bear(alloc, &mut opened.tree, &effects.births, number) {
        Ok(()) => add(opened, site, effects),
        Err(memory) => {
            drop(site);
            drop(effects);
            Err(memory)
        }
    }
}

// Opens each site, in order.
fn open_each(alloc: Global, opened: &mut OpenedSites, code: &Code) -> Result<(), Memory>
    requires program { IsOfProgram code.now }
    requires none { IsUpTo code.now 0 opened.old }
    ensures { OnOk result ((version : ℕ) → AreOpened version code.now opened.new) }
{
    let _known = &code.tops;
    for number in 0..code.sites.len() as u32 {
        open_site(alloc, opened, code, number)?;
    }
    Ok(())
}

/// The sites of a program's code, opened one after another, in a tree that has the locations of the
/// text from the first on.
pub fn open_sites(alloc: Global, code: &Code) -> Result<OpenedSites, Memory>
    requires { IsOfProgram code.now }
    ensures { IfOk result (λ opened. (version : ℕ) → AreOpened version code.now opened) }
{
    let _known = &code.tops;
    let tree = first_tree(alloc, code)?;
    let mut opened = OpenedSites {
        sites: Vec::new(alloc),
        tree,
        handed: VecDeque::new(alloc),
    };
    match open_each(alloc, &mut opened, code) {
        Ok(()) => Ok(opened),
        Err(memory) => {
            drop(opened);
            Err(memory)
        }
    }
}
