// Moves within a site.
ghost use Rattle.std.specs.Prelude.{◌≡◌, List, true, IfOk, OnOk, OnErr};
ghost use Rattle.chem_model.specs.declared.name.Name.TheVariants as name;
ghost use Rattle.chem_model.specs.declared.numbered.NumberedRule.{NumberedRule};
ghost use Rattle.wire_packet.specs.declared.packet.Ask.TheVariants as request;
ghost use Rattle.wire_packet.specs.GroupFacts.{GroupParts, IsAskKept};
ghost use Rattle.wire_packet.specs.Operations.{IsPlain};
ghost use Rattle.migration.specs.inside.Moves.{has_goal};
ghost use Rattle.migration.specs.Within.{CanMoveWithin, IsMoveWithin, FitWithin, IsOneMove};

use chem_model::{AtomId, Items, Loc, Memory, Name, Nums};
use loc_tree::{LocTree, tree_is_kept};
use site_solution::{Effects, Site, site_is_kept};
use std::alloc::Global;
use wire_packet::Ask;

// The location to which a request asks to go, and its continuation.
pub(crate) fn goal_of(ask: Ask) -> (Loc, Name)
    requires { has_goal ask ≡ true }
    ensures asks { ask ≡ request.Go (name.Place result.0) result.1 }
    ensures plain { IsAskKept ask → IsPlain result.1 }
{
    match ask {
        Ask::Go {
            target: Name::Place(target),
            cont,
        } => (target, cont),
        _ => unreachable!(),
    }
}

/// Meets a request to go to a location that its own site hosts: the request goes, and its
/// continuation is poured where it stood. The target is alive then, since a location that falls
/// goes to another site. It is one event of each solution of which the site is a part, beside any
/// others, where the solution's version allows it. Where there is no memory, nothing changes. What
/// the tests say of other sites they say still.
pub fn move_within(
    alloc: Global,
    site: &mut Site,
    tree: &mut LocTree,
    counts: &Nums,
    atom: &AtomId,
) -> Result<Effects, Memory>
    requires { CanMoveWithin tree.old site.old atom.now }
    ensures ok { IfOk result (λ e.
        IsMoveWithin counts.now atom.now tree.old site.old tree.new site.new e) }
    ensures one_event { IfOk result (λ e. (rules_of : GroupParts → List NumberedRule)
        → IsOneMove rules_of counts.now atom.now tree.old site.old tree.new site.new e) }
    ensures fit { OnOk result (FitWithin tree.old site.old tree.new site.new) }
    ensures err { OnErr result (site.new ≡ site.old) }
    ensures err_tree { OnErr result (tree.new ≡ tree.old) }
{
    site_is_kept(site);
    tree_is_kept(tree);
    let request = site.asked(atom);
    let (target, cont) = goal_of(request.ask);
    let args = Items::new(alloc);
    let effects = site.emit(alloc, tree, counts, &request.loc, cont, args)?;
    site.drop_request(atom);
    tree.rehost(&request.loc, &target);
    Ok(effects)
}
