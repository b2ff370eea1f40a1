// Moves of a location, at one of the sites or from one to another.
ghost use Rattle.std.specs.Prelude.{◌≡◌, Some, slice_get, IfOk, OnOk, OnErr};
ghost use Rattle.env_store.specs.CodeParts.{CodeParts};
ghost use Rattle.net_laws.specs.Site.{Site as site_seen};
ghost use Rattle.net_core.specs.inside.AtSites.{AllStayFit, MayMoveAt, MovesAt, MayCrossAt};
ghost use Rattle.net_core.specs.inside.AtSites.{CrossesAt};
ghost use Rattle.net_core.specs.inside.Fitting.{AreNumbered};
ghost use Rattle.net_core.specs.Whole.{AllFit};

use chem_model::{AtomId, Memory, Nums};
use env_store::Code;
use loc_tree::LocTree;
use migration::{move_between, move_within};
use site_solution::{Effects, Site};
use std::alloc::Global;

// Meets a request of the site with this number to go to a location that it hosts itself.
pub(crate) fn move_at(
    alloc: Global,
    sites: &mut [Site],
    tree: &mut LocTree,
    counts: &Nums,
    number: usize,
    atom: &AtomId,
) -> Result<Effects, Memory>
    requires may { MayMoveAt 2 tree.old sites.old number atom.now }
    requires fit { (c : CodeParts) × AllFit c tree.old sites.old }
    ensures ok { IfOk result (λ effects. (s : site_seen) → slice_get sites.old number ≡ Some s
        → MovesAt counts.now tree.old tree.new number atom.now s sites.old sites.new effects) }
    ensures fit { OnOk result ((c : CodeParts) → AllFit c tree.old sites.old
        → AllStayFit c tree.new sites.new) }
    ensures err { OnErr result (sites.new ≡ sites.old) }
    ensures err_tree { OnErr result (tree.new ≡ tree.old) }
{
    let site = &mut sites[number];
    move_within(alloc, site, tree, counts, atom)
}

// Meets a request of the first of two sites to go to a location that the second one hosts.
pub(crate) fn cross(
    alloc: Global,
    sites: &mut [Site],
    tree: &mut LocTree,
    code: &Code,
    ends: (usize, usize),
    atom: &AtomId,
) -> Result<Effects, Memory>
    requires may { MayCrossAt 2 tree.old sites.old ends.0 ends.1 atom.now }
    requires fit { AllFit code.now tree.old sites.old }
    requires numbered { AreNumbered sites.old }
    ensures ok { IfOk result (λ effects. (s u : site_seen) → slice_get sites.old ends.0 ≡ Some s
        → slice_get sites.old ends.1 ≡ Some u
        → CrossesAt code.now.seen tree.old tree.new ends.0 ends.1 atom.now s u
        sites.old sites.new effects) }
    ensures fit { OnOk result (AllStayFit code.now tree.new sites.new) }
    ensures err { OnErr result (sites.new ≡ sites.old) }
    ensures err_tree { OnErr result (tree.new ≡ tree.old) }
{
    let (from, into) = ends;
    if from < into {
        let (front, back) = sites.split_at_mut(into);
        move_between(alloc, &mut front[from], &mut back[0], tree, code, atom)
    } else {
        let (front, back) = sites.split_at_mut(from);
        move_between(alloc, &mut back[0], &mut front[into], tree, code, atom)
    }
}
