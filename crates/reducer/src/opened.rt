// The tree before any site is opened, and the opening of a site.
ghost use Rattle.std.specs.Prelude.{◌≡◌, ◌∷◌, [], ◌<◌, length, slice_get, Some, IfOk};
ghost use Rattle.chem_model.specs.Each.{Each};
ghost use Rattle.chem_model.specs.Opening.{root_of};
ghost use Rattle.chem_model.specs.declared.name.Loc.{Loc as loc_seen};
ghost use Rattle.env_store.specs.declared.code.SiteCode.{SiteCode as site_code};
ghost use Rattle.loc_tree.specs.Tree.{unmarked_roots, bare};
ghost use Rattle.net_laws.specs.Net.{with_births};
ghost use Rattle.net_laws.specs.Opening.{empty_site};
ghost use Rattle.net_laws.specs.Opened.{not_in, with_tops};
ghost use Rattle.reducer.specs.Opens.{IsOfProgram, HasTops, Opens, IsOpenedFit};

use crate::parts::code_is_kept;
use chem_model::{Items, Loc, Memory};
use code_run::open;
use env_store::{Code, Locs};
use loc_tree::LocTree;
use site_solution::{Effects, Site, Taking};
use std::alloc::Global;

/// The tree with the roots of all sites and with all site-level locations, before any site is
/// opened.
pub fn first_tree(alloc: Global, code: &Code) -> Result<LocTree, Memory>
    requires { Each (λ (l : loc_seen). l.site < length code.now.sites) code.now.tops }
    ensures { IfOk result (λ tree.
        bare tree ≡ with_tops (unmarked_roots (length code.now.sites)) code.now.tops) }
{
    let mut tree = LocTree::start(alloc, code.sites.len() as u32)?;
    for loc in code.tops.as_slice() {
        if !tree.holds(loc) {
            tree.reserve(alloc, 1)?;
            tree.birth(*loc, loc.site);
        }
    }
    Ok(tree)
}

// The locations that the tree doesn't have.
fn not_in(alloc: Global, tree: &LocTree, locs: &[Loc]) -> Result<Locs, Memory>
    ensures { IfOk result (λ new. new ≡ not_in tree.now locs.now) }
{
    let mut new = Items::new(alloc);
    for loc in locs {
        if !tree.holds(loc) {
            new.push(*loc)?;
        }
    }
    Ok(new)
}

// The effects of the opening of an empty site with this number.
fn open_in(
    alloc: Global,
    site: &mut Site,
    code: &Code,
    tree: &LocTree,
    number: u32,
) -> Result<Effects, Memory>
    requires number { number < length code.now.sites }
    requires empty { site.old ≡ empty_site number 1 (root_of number ∷ []) }
    ensures ok { IfOk result (λ effects. (s : site_code)
        → slice_get code.now.sites number ≡ Some s
        → Opens code.now tree.now number s site.new effects) }
    ensures fit { IfOk result (λ effects. IsOfProgram code.now → HasTops code.now tree.now number
        → IsOpenedFit code.now (with_births tree.now number effects.births) site.new) }
{
    code_is_kept(code);
    let run = open(alloc, code, number)?;
    let none = Taking {
        group: 0,
        chans: &[],
    };
    let made = site.commit(alloc, code, tree, run, &none)?;
    let births = not_in(alloc, tree, made.births.as_slice())?;
    Ok(Effects {
        sends: made.sends,
        outs: made.outs,
        births,
    })
}

/// The site with this number after its opening, and the effects of that. The births are the
/// locations that the tree doesn't have; where it has the site-level ones, these are the others.
pub fn opening(
    alloc: Global,
    code: &Code,
    tree: &LocTree,
    number: u32,
) -> Result<(Site, Effects), Memory>
    requires { number < length code.now.sites }
    ensures ok { IfOk result (λ opened. (site : site_code)
        → slice_get code.now.sites number ≡ Some site
        → Opens code.now tree.now number site opened.0 opened.1) }
    ensures fit { IfOk result (λ opened. IsOfProgram code.now → HasTops code.now tree.now number
        → IsOpenedFit code.now (with_births tree.now number opened.1.births) opened.0) }
{
    let mut site = Site::empty(alloc, number)?;
    match open_in(alloc, &mut site, code, tree, number) {
        Ok(effects) => Ok((site, effects)),
        Err(memory) => {
            drop(site);
            Err(memory)
        }
    }
}
