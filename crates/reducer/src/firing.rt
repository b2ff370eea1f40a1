// Whether a pick may fire.
ghost use Rattle.std.specs.Prelude.{◌≡◌, ◌<◌, ◌↔◌, length, slice_get, Some, IsTrue};
ghost use Rattle.loc_tree.specs.Tree.{is_alive};
ghost use Rattle.net_laws.specs.Site.{Group};
ghost use Rattle.site_solution.specs.InTree.{is_in_tree};
ghost use Rattle.site_solution.specs.InCode.{is_in_code};
ghost use Rattle.reducer.specs.Picks.{IsPick, IsCovered, MayFire};
ghost use Rattle.reducer.specs.inside.Searching.{IsOfLevel};

use crate::parts::{code_is_kept, guard_at, level_at};
use crate::pick::Pick;
use env_store::Code;
use loc_tree::LocTree;
use site_solution::{Site, site_is_kept};

// Whether a pick is one of the site: its group is there, and its guard is one of those of the
// group's level.
fn is_pick(site: &Site, code: &Code, pick: &Pick) -> bool
    requires { (g : Group) → slice_get site.now.groups pick.now.group ≡ Some g
        → IsOfLevel code.now g.told }
    ensures { IsTrue result ↔ IsPick code.now site.now pick.now }
{
    if pick.group >= site.groups() {
        return false;
    }
    let inst = site.group(pick.group);
    let level = level_at(code, inst.level);
    if pick.guard < level.first {
        return false;
    }
    pick.guard - level.first < level.guards
}

// Whether a pick of the site is covered.
fn is_covered(site: &Site, code: &Code, pick: &Pick) -> bool
    requires pick { IsPick code.now site.now pick.now }
    requires level { (g : Group) → slice_get site.now.groups pick.now.group ≡ Some g
        → IsOfLevel code.now g.told }
    ensures { IsTrue result ↔ IsCovered code.now site.now pick.now }
{
    site_is_kept(site);
    let guard = guard_at(code, pick.guard);
    site.covers(pick.group, &guard.mask.words)
}

// Whether the location of a group is live.
fn is_live(site: &Site, tree: &LocTree, group: u32) -> bool
    requires group { group < length site.now.groups }
    requires tree { IsTrue (is_in_tree tree.now site.now) }
    ensures { (g : Group) → slice_get site.now.groups group ≡ Some g
        → result ≡ is_alive tree.now g.told.inst.loc }
{
    site_is_kept(site);
    tree.alive(&site.group(group).loc)
}

/// Whether the pick may fire: exactly where it names a group of the site and a guard of that
/// group's level, the guard is covered, and the group's location is live.
pub fn may_fire(site: &Site, code: &Code, tree: &LocTree, pick: &Pick) -> bool
    requires tree { IsTrue (is_in_tree tree.now site.now) }
    requires code { IsTrue (is_in_code code.now tree.now site.now) }
    ensures { IsTrue result ↔ MayFire code.now tree.now site.now pick.now }
{
    is_pick(site, code, pick) && is_covered(site, code, pick) && is_live(site, tree, pick.group)
}
