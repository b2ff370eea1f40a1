// Requests to halt: whether one may be met, and meeting it.
ghost use Rattle.std.specs.Prelude.{◌≡◌, List, Some, true, IsSome};
ghost use Rattle.chem_model.specs.declared.event.Event.TheVariants as event;
ghost use Rattle.chem_model.specs.declared.numbered.NumberedRule.{NumberedRule};
ghost use Rattle.wire_packet.specs.GroupFacts.{GroupParts};
ghost use Rattle.env_store.specs.CodeParts.{CodeParts};
ghost use Rattle.loc_tree.specs.Tree.{spot};
ghost use Rattle.site_solution.specs.InTree.{is_in_tree};
ghost use Rattle.site_solution.specs.Possible.{Foretells};
ghost use Rattle.net_laws.specs.Site.{Site as site_of_net};
ghost use Rattle.net_laws.specs.Holding.{request_with};
ghost use Rattle.site_solution.specs.Staying.{StillFits};
ghost use Rattle.failure.specs.Halts.{is_ready, can_halt, IsHalt, IsOneHalt};

use chem_model::{AtomId, Event};
use loc_tree::LocTree;
use site_solution::{Site, site_is_kept};
use wire_packet::{Ask, Request};

// Whether the request is one to halt, in a location that is alive.
fn is_ready(tree: &LocTree, request: &Request) -> bool
    requires { IsSome (spot tree.now request.now.loc) }
    ensures { result ≡ is_ready tree.now (Some request.now) }
{
    matches!(request.ask, Ask::Halt) && tree.alive(&request.loc)
}

/// Whether this request, which the site has, is one to halt, in a location that is alive. It looks
/// nothing up at the site.
pub fn request_can_halt(site: &Site, tree: &LocTree, request: &Request) -> bool
    requires tree { is_in_tree tree.now site.now ≡ true }
    requires here { request_with request.now.id site.now.requests ≡ Some request.now }
    ensures { result ≡ can_halt tree.now request.now.id site.now }
{
    site_is_kept(site);
    is_ready(tree, request)
}

/// Whether this is a request of the site to halt, in a location that is alive: exactly where that
/// event is possible, whatever stands beside the site.
pub fn halt_ready(site: &Site, tree: &LocTree, atom: &AtomId) -> bool
    requires { is_in_tree tree.now site.now ≡ true }
    ensures exact { result ≡ can_halt tree.now atom.now site.now }
    ensures possible { (rules_of : GroupParts → List NumberedRule)
        → Foretells rules_of tree.now site.now atom.now (event.Halt atom.now) result }
{
    site_is_kept(site);
    match site.request(atom) {
        Some(request) => is_ready(tree, request),
        None => false,
    }
}

/// Meets a request to halt: its location is marked, and the request goes. It is one event of each
/// solution of which the site is a part, beside any others. What the tests say of other sites they
/// say still.
pub fn halt(tree: &mut LocTree, site: &mut Site, atom: &AtomId) -> Event
    requires in_tree { is_in_tree tree.old site.old ≡ true }
    requires ready { can_halt tree.old atom.now site.old ≡ true }
    ensures event { result ≡ event.Halt atom.now }
    ensures halt { IsHalt atom.now tree.old site.old tree.new site.new }
    ensures one_event { (rules_of : GroupParts → List NumberedRule)
        → IsOneHalt rules_of atom.now tree.old site.old site.new }
    ensures fits { (code : CodeParts) → StillFits code tree.old site.old tree.new site.new }
    ensures others_keep { (code : CodeParts) (other : site_of_net)
        → StillFits code tree.old other tree.new other }
{
    site_is_kept(site);
    let request = site.asked(atom);
    tree.kill(&request.loc);
    site.drop_request(atom);
    Event::Halt { atom: *atom }
}
