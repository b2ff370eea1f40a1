// The code of a text, and the locations and sites that it begins with.

use crate::fault::Fault;
use chem_model::{Loc, Memory, Program};
use env_store::Code;
use guard_compile::compile;
use loc_tree::LocTree;
use reducer::opening;
use site_solution::{Effects, Site};
use std::alloc::Global;
use worked_programs::program_of;

// The code of a program.
fn compiled(alloc: Global, program: &Program) -> Result<Box<Code>, Memory> {
    let code = compile(alloc, program)?;
    Ok(Box::new(alloc, code)?)
}

// The code of a text.
pub(crate) fn code_of(alloc: Global, text: &[u8]) -> Result<Box<Code>, Memory> {
    match program_of(alloc, text).ok() {
        Some(program) => compiled(alloc, &program),
        None => Err(Memory),
    }
}

// How many sites there are.
pub(crate) fn sites_of(code: &Code) -> u32 {
    code.sites.len() as u32
}

// A location is born under the root of this site.
pub(crate) fn bear(alloc: Global, tree: &mut LocTree, loc: Loc, under: u32) -> Result<(), Fault> {
    tree.reserve(alloc, 1)?;
    let root = Loc { site: under, k: 0 };
    if !tree.holds(&root) {
        return Err(Fault::Unmet);
    }
    let number = tree.root(&root);
    if tree.holds(&loc) {
        return Err(Fault::Unmet);
    }
    tree.birth(loc, number);
    Ok(())
}

// The locations that a site bore are born.
pub(crate) fn bear_all(
    alloc: Global,
    tree: &mut LocTree,
    births: &[Loc],
    under: u32,
) -> Result<(), Fault> {
    for loc in births {
        bear(alloc, tree, *loc, under)?;
    }
    Ok(())
}

// The locations that the sites define are born, each under its site.
pub(crate) fn bear_tops(alloc: Global, tree: &mut LocTree, tops: &[Loc]) -> Result<(), Fault> {
    for loc in tops {
        if !tree.holds(loc) {
            bear(alloc, tree, *loc, loc.site)?;
        }
    }
    Ok(())
}

// Nothing leaves the site, and no location is born.
fn is_nothing(effects: &Effects) -> bool {
    effects.sends.is_empty() && effects.outs.is_empty() && effects.births.is_empty()
}

// The next site is opened, by which nothing leaves it and no other location is born.
pub(crate) fn open_next(
    alloc: Global,
    code: &Code,
    tree: &LocTree,
    sites: &mut Vec<Site>,
    number: u32,
) -> Result<(), Fault> {
    if number as usize >= code.sites.len() {
        return Err(Fault::Unmet);
    }
    let (site, effects) = opening(alloc, code, tree, number)?;
    if !is_nothing(&effects) {
        return Err(Fault::Unmet);
    }
    drop(effects);
    sites.push(site)?;
    Ok(())
}
