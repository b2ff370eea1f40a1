// Whether a request to go may be met, and to which site it leads.
ghost use Rattle.std.specs.Prelude.{◌≡◌, List, Some, true, IsSome};
ghost use Rattle.chem_model.specs.declared.numbered.NumberedRule.{NumberedRule};
ghost use Rattle.wire_packet.specs.GroupFacts.{GroupParts};
ghost use Rattle.loc_tree.specs.Tree.{spot};
ghost use Rattle.net_laws.specs.Holding.{request_with};
ghost use Rattle.site_solution.specs.inside.InTree.{request_stands};
ghost use Rattle.site_solution.specs.InTree.{is_in_tree};
ghost use Rattle.migration.specs.Moves.{is_ready, can_go, ForetellsMove};
ghost use Rattle.migration.specs.Within.{leads_into};

use chem_model::{AtomId, Name};
use loc_tree::LocTree;
use site_solution::{Site, site_is_kept};
use wire_packet::{Ask, Request};

// Whether the request is one to go, where the rule Go lets its location move to the target, or in
// version 2 the rule Fall.
fn is_ready(tree: &LocTree, version: u32, request: &Request) -> bool
    requires loc { IsSome (spot tree.now request.now.loc) }
    requires names { request_stands tree.now request.now ≡ true }
    ensures { result ≡ is_ready version tree.now (Some request.now) }
{
    match request.ask {
        Ask::Go {
            target: Name::Place(target),
            cont: _,
        } => {
            tree.can_move(&request.loc, &target)
                || version == 2 && tree.can_fall(&request.loc, &target)
        }
        _ => false,
    }
}

/// Whether this request, which the site has, is one to go, which the rule Go allows, or in version 2
/// the rule Fall. It looks nothing up at the site.
pub fn request_can_go(site: &Site, tree: &LocTree, version: u32, request: &Request) -> bool
    requires tree { is_in_tree tree.now site.now ≡ true }
    requires here { request_with request.now.id site.now.requests ≡ Some request.now }
    ensures { result ≡ can_go version tree.now request.now.id site.now }
{
    site_is_kept(site);
    is_ready(tree, version, request)
}

/// Whether this is a request of the site to go, which the rule Go allows, or in version 2 the rule
/// Fall: exactly where that event is possible in a solution of this version, whatever stands beside
/// the site.
pub fn move_ready(site: &Site, tree: &LocTree, version: u32, atom: &AtomId) -> bool
    requires { is_in_tree tree.now site.now ≡ true }
    ensures exact { result ≡ can_go version tree.now atom.now site.now }
    ensures possible { (rules_of : GroupParts → List NumberedRule)
        → ForetellsMove rules_of version tree.now site.now atom.now result }
{
    site_is_kept(site);
    match site.request(atom) {
        Some(request) => is_ready(tree, version, request),
        None => false,
    }
}

/// Whether this is a request of the first site to go to a location that the second one hosts.
pub fn leads_into(from: &Site, into: &Site, atom: &AtomId) -> bool
    ensures { result ≡ leads_into atom.now from.now into.now }
{
    match from.request(atom) {
        Some(request) => match request.ask {
            Ask::Go {
                target: Name::Place(target),
                cont: _,
            } => into.has(&target),
            _ => false,
        },
        None => false,
    }
}
