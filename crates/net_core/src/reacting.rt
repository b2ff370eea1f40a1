// Reactions at one of the sites.
ghost use Rattle.std.specs.Prelude.{◌≡◌, Some, slice_get, IfOk, OnErr};
ghost use Rattle.net_laws.specs.Site.{Site as site_seen};
ghost use Rattle.reducer.specs.Picks.{Picked, Picks};
ghost use Rattle.net_core.specs.inside.AtSites.{MayReactAt, ReactsAt};
ghost use Rattle.net_core.specs.Whole.{AllFit};

use chem_model::{Event, Memory};
use env_store::Code;
use loc_tree::LocTree;
use reducer::Pick;
use site_solution::{Effects, Site};
use site_turn::react_by;
use std::alloc::Global;

// Makes the reaction of a pick at the site with this number.
pub(crate) fn react_at(
    alloc: Global,
    sites: &mut [Site],
    code: &Code,
    tree: &LocTree,
    number: usize,
    pick: &Pick,
) -> Result<(Event, Effects), Memory>
    requires may { MayReactAt code.now tree.now sites.old number pick.now }
    requires fit { AllFit code.now tree.now sites.old }
    ensures ok { IfOk result (λ done. (s : site_seen) (x : Picked)
        → slice_get sites.old number ≡ Some s → Picks code.now s pick.now x
        → ReactsAt code.now tree.now number pick.now s x sites.old sites.new done.0 done.1) }
    ensures err { OnErr result (sites.new ≡ sites.old) }
{
    let site = &mut sites[number];
    react_by(alloc, site, code, tree, pick)
}
