// Requests that one of the sites meets.
ghost use Rattle.std.specs.Prelude.{◌≡◌, Some, slice_get, IfOk, OnOk, OnErr};
ghost use Rattle.chem_model.specs.declared.event.Event.TheVariants as event;
ghost use Rattle.env_store.specs.CodeParts.{CodeParts};
ghost use Rattle.net_laws.specs.Site.{Site as site_seen};
ghost use Rattle.net_core.specs.inside.AtSites.{AllStayFit, MayHaltAt, HaltsAt, MayDetectAt};
ghost use Rattle.net_core.specs.inside.AtSites.{DetectsAt};
ghost use Rattle.net_core.specs.Whole.{AllFit};

use chem_model::{AtomId, Event, Memory, Nums};
use failure::{detect, halt};
use loc_tree::LocTree;
use site_solution::{Effects, Site};
use std::alloc::Global;

// Meets a request to halt of the site with this number.
pub(crate) fn halt_at(sites: &mut [Site], tree: &mut LocTree, number: usize, atom: &AtomId) -> Event
    requires may { MayHaltAt tree.old sites.old number atom.now }
    requires fit { (c : CodeParts) × AllFit c tree.old sites.old }
    ensures event { result ≡ event.Halt atom.now }
    ensures halts { (s : site_seen) → slice_get sites.old number ≡ Some s
        → HaltsAt tree.old tree.new number atom.now s sites.old sites.new }
    ensures fit { (c : CodeParts) → AllFit c tree.old sites.old → AllFit c tree.new sites.new }
{
    let site = &mut sites[number];
    halt(tree, site, atom)
}

// Meets a request of the site with this number to detect a failure.
pub(crate) fn detect_at(
    alloc: Global,
    sites: &mut [Site],
    tree: &LocTree,
    counts: &Nums,
    number: usize,
    atom: &AtomId,
) -> Result<Effects, Memory>
    requires may { MayDetectAt tree.now sites.old number atom.now }
    requires fit { (c : CodeParts) × AllFit c tree.now sites.old }
    ensures ok { IfOk result (λ effects. (s : site_seen) → slice_get sites.old number ≡ Some s
        → DetectsAt counts.now tree.now number atom.now s sites.old sites.new effects) }
    ensures fit { OnOk result ((c : CodeParts) → AllFit c tree.now sites.old
        → AllStayFit c tree.now sites.new) }
    ensures err { OnErr result (sites.new ≡ sites.old) }
{
    let site = &mut sites[number];
    detect(alloc, site, tree, counts, atom)
}
