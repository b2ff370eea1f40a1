// Which reaction is ready.
ghost use Rattle.std.specs.Prelude.{◌≡◌, ℕ, ◌<◌, ◌↔◌, length, slice_get, Some};
ghost use Rattle.std.specs.Prelude.{IfSome, IfNone, IsTrue};
ghost use Rattle.queue_cells.specs.Grouped.{AllHeld};
ghost use Rattle.net_laws.specs.Site.{Group};
ghost use Rattle.site_solution.specs.InTree.{is_in_tree};
ghost use Rattle.site_solution.specs.InCode.{is_in_code};
ghost use Rattle.reducer.specs.Picks.{Picked, Picks, IsPick};
ghost use Rattle.reducer.specs.Ready.{precedes, NoneFires, IsReady};
ghost use Rattle.reducer.specs.Reacting.{NoRuleReacts};
ghost use Rattle.reducer.specs.inside.Searching.{IsOfLevel, pick_of, NoneCovered, IsFirstCovered};
ghost use Rattle.reducer.specs.inside.Searching.{IsOffer, NoOffer, better_of};

use crate::naming::rule_of;
use crate::parts::{code_is_kept, guard_at, level_at};
use crate::pick::Pick;
use chem_model::RuleId;
use env_store::Code;
use loc_tree::LocTree;
use site_solution::{Search, Site, site_is_kept};

// A pick that may fire, and its rule.
#[derive(Clone, Copy)]
struct Found {
    pick: Pick,
    rule: RuleId,
}

// Whether a guard of a group's level is covered.
fn is_covered(site: &Site, code: &Code, group: u32, guard: u32) -> bool
    requires pick { IsPick code.now site.now (pick_of group guard) }
    requires level { (g : Group) → slice_get site.now.groups group ≡ Some g
        → IsOfLevel code.now g.told }
    ensures { (x : Picked) → Picks code.now site.now (pick_of group guard) x
        → (IsTrue result ↔ AllHeld x.group.queues x.guard.mask.words) }
{
    site_is_kept(site);
    let guard = guard_at(code, guard);
    site.covers(group, &guard.mask.words)
}

// The first guard of a group that is covered.
fn first_covered(site: &Site, code: &Code, group: u32) -> Option<u32>
    requires group { group < length site.now.groups }
    requires level { (g : Group) → slice_get site.now.groups group ≡ Some g
        → IsOfLevel code.now g.told }
    ensures none { IfNone result ((n : ℕ) → NoneCovered code.now site.now group n) }
    ensures some { IfSome result (IsFirstCovered code.now site.now group) }
{
    let inst = site.group(group);
    let level = level_at(code, inst.level);
    for guard in level.first..level.first + level.guards {
        if is_covered(site, code, group, guard) {
            return Some(guard);
        }
    }
    None
}

// The first guard of a group that may fire. Its rule is the least, since the rules of a group have
// the order of its guards.
fn offer(site: &Site, code: &Code, tree: &LocTree, group: u32) -> Option<Found>
    requires group { group < length site.now.groups }
    requires tree { IsTrue (is_in_tree tree.now site.now) }
    requires code { IsTrue (is_in_code code.now tree.now site.now) }
    ensures none { IfNone result (NoOffer code.now tree.now site.now group) }
    ensures some { IfSome result (IsOffer code.now tree.now site.now group) }
{
    site_is_kept(site);
    let guard = first_covered(site, code, group)?;
    let inst = site.group(group);
    if !tree.alive(&inst.loc) {
        return None;
    }
    let pick = Pick { group, guard };
    let rule = rule_of(site, code, &pick);
    Some(Found { pick, rule })
}

fn precedes(one: RuleId, other: RuleId) -> bool
    ensures { result ≡ precedes one other }
{
    one.site < other.site || one.site == other.site && one.k < other.k
}

// Of two offers the one of the lesser rule, and else the first.
fn better(best: Option<Found>, offer: Option<Found>) -> Option<Found>
    ensures { result ≡ better_of best offer }
{
    match (best, offer) {
        (Some(one), Some(other)) => {
            if precedes(other.rule, one.rule) {
                Some(other)
            } else {
                Some(one)
            }
        }
        (None, other) => other,
        (one, None) => one,
    }
}

// The best offer of all groups, by a walk over them.
fn scan(site: &Site, code: &Code, tree: &LocTree) -> Option<Pick>
    requires tree { IsTrue (is_in_tree tree.now site.now) }
    requires code { IsTrue (is_in_code code.now tree.now site.now) }
    ensures none { IfNone result (NoneFires code.now tree.now site.now) }
    ensures some { IfSome result (IsReady code.now tree.now site.now) }
{
    let mut best: Option<Found> = None;
    for group in 0..site.groups() {
        best = better(best, offer(site, code, tree, group));
    }
    match best {
        Some(found) => Some(found.pick),
        None => None,
    }
}

// What goes first, by the site's index of covered guards, and where that isn't kept for this code
// by a walk over all groups.
fn first_of(site: &Site, code: &Code, tree: &LocTree) -> Option<Pick>
    requires tree { IsTrue (is_in_tree tree.now site.now) }
    requires code { IsTrue (is_in_code code.now tree.now site.now) }
    ensures none { IfNone result (NoneFires code.now tree.now site.now) }
    ensures some { IfSome result (IsReady code.now tree.now site.now) }
{
    match site.least_covered(code, tree) {
        Search::Unknown => scan(site, code, tree),
        Search::Nothing => None,
        Search::Found { group, guard } => Some(Pick { group, guard }),
    }
}

/// The covered guard of a live location with the least rule, and among groups of one rule that of
/// the first: none exactly where no guard of a live location is covered.
pub fn ready(site: &Site, code: &Code, tree: &LocTree) -> Option<Pick>
    requires tree { IsTrue (is_in_tree tree.now site.now) }
    requires code { IsTrue (is_in_code code.now tree.now site.now) }
    ensures none { IfNone result (NoneFires code.now tree.now site.now) }
    ensures some { IfSome result (IsReady code.now tree.now site.now) }
    ensures quiet { IfNone result (NoRuleReacts code.now tree.now site.now) }
{
    code_is_kept(code);
    first_of(site, code, tree)
}
