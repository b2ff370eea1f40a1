// Whether a request to detect a failure finds its location dead.
ghost use Rattle.std.specs.Prelude.{◌≡◌, List, Some, true, IsSome, is_some};
ghost use Rattle.chem_model.specs.declared.event.Event.TheVariants as event;
ghost use Rattle.chem_model.specs.declared.numbered.NumberedRule.{NumberedRule};
ghost use Rattle.wire_packet.specs.GroupFacts.{GroupParts};
ghost use Rattle.site_solution.specs.InTree.{name_stands, is_in_tree};
ghost use Rattle.site_solution.specs.inside.InTree.{request_stands};
ghost use Rattle.loc_tree.specs.Tree.{spot};
ghost use Rattle.net_laws.specs.Holding.{request_with};
ghost use Rattle.site_solution.specs.Possible.{Foretells};
ghost use Rattle.failure.specs.Deaths.{has_died, sees_death, dead_for};

use chem_model::{AtomId, Event, Name};
use loc_tree::LocTree;
use site_solution::{Site, site_is_kept};
use wire_packet::{Ask, Request};

// Whether the name is a location that is dead.
fn has_died(tree: &LocTree, name: Name) -> bool
    requires { name_stands tree.now name ≡ true }
    ensures { result ≡ has_died tree.now name }
{
    match name {
        Name::Place(loc) => !tree.alive(&loc),
        Name::Seen(_) | Name::Chan { .. } | Name::Num(_) | Name::Op(_) => false,
    }
}

// Whether the request is one to detect a failure, in a location that is alive, and its target is a
// dead location.
fn sees_death(tree: &LocTree, request: &Request) -> bool
    requires loc { IsSome (spot tree.now request.now.loc) }
    requires names { request_stands tree.now request.now ≡ true }
    ensures { result ≡ sees_death tree.now (Some request.now) }
{
    match request.ask {
        Ask::Fail { target, cont: _ } => has_died(tree, target) && tree.alive(&request.loc),
        Ask::Go { .. } | Ask::Halt => false,
    }
}

/// Whether this request, which the site has, is one to detect a failure, in a location that is
/// alive, and its target is a dead location. It looks nothing up at the site.
pub fn request_sees_death(site: &Site, tree: &LocTree, request: &Request) -> bool
    requires tree { is_in_tree tree.now site.now ≡ true }
    requires here { request_with request.now.id site.now.requests ≡ Some request.now }
    ensures { result ≡ is_some (dead_for tree.now request.now.id site.now) }
{
    site_is_kept(site);
    sees_death(tree, request)
}

/// The event by which a request detects a failure: exactly where this is a request of the site to
/// do so, in a location that is alive, and its target is a dead location. That is exactly where the
/// event is possible, whatever stands beside the site.
pub fn dead_for(site: &Site, tree: &LocTree, atom: &AtomId) -> Option<Event>
    requires { is_in_tree tree.now site.now ≡ true }
    ensures exact { result ≡ dead_for tree.now atom.now site.now }
    ensures possible { (rules_of : GroupParts → List NumberedRule)
        → Foretells rules_of tree.now site.now atom.now (event.Detect atom.now) (is_some result) }
{
    site_is_kept(site);
    match site.request(atom) {
        Some(request) => {
            if sees_death(tree, request) {
                Some(Event::Detect { atom: *atom })
            } else {
                None
            }
        }
        None => None,
    }
}
