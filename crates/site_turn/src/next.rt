// What a site does next. It takes no memory.
ghost use Rattle.std.specs.Prelude.{◌≡◌, ◌↔◌, Ok, Some, IfNone, IfSome, IsTrue};
ghost use Rattle.net_laws.specs.Holding.{request_with};
ghost use Rattle.site_solution.specs.InTree.{is_in_tree};
ghost use Rattle.site_solution.specs.Staying.{CanAct};
ghost use Rattle.site_turn.specs.Next.{may_meet, NoneMeets, IsLeastMet};
ghost use Rattle.site_turn.specs.Next.{Chooses};

use chem_model::{AtomId, Memory, Program};
use env_store::Code;
use failure::{request_can_halt, request_sees_death};
use loc_tree::LocTree;
use migration::request_can_go;
use reducer::{Pick, ready};
use site_solution::{Site, site_is_kept};
use std::alloc::Global;
use wire_packet::Request;

/// What a site does next.
#[derive(Clone, Copy, PartialEq, Eq, Debug)]
pub enum Chosen {
    /// The reaction of this pick.
    Pick(Pick),
    /// It meets the request with this id.
    Ask(AtomId),
    Nothing,
}

impl Chosen {
    /// A value that is equal to this one. It takes no memory.
    pub fn copy(&self, _alloc: Global) -> Result<Chosen, Memory>
        ensures { result ≡ Ok self.now }
    {
        Ok(*self)
    }
}

// Whether the site has what the calls over it need.
pub(crate) fn can_act(site: &Site, code: &Code, tree: &LocTree) -> bool
    ensures { IsTrue result ↔ CanAct code.now tree.now site.now }
{
    site.in_tree(tree) && site.in_code(code, tree) && site.can_draw(tree)
}

// Whether this request, which the site has, may be met in a program of this version.
fn may_meet(site: &Site, tree: &LocTree, version: u32, request: &Request) -> bool
    requires tree { IsTrue (is_in_tree tree.now site.now) }
    requires here { request_with request.now.id site.now.requests ≡ Some request.now }
    ensures { result ≡ may_meet version tree.now site.now request.now.id }
{
    request_can_go(site, tree, version, request)
        || request_can_halt(site, tree, request)
        || request_sees_death(site, tree, request)
}

/// Of the requests that may be met the one with the least id.
pub fn least_met(site: &Site, tree: &LocTree, version: u32) -> Option<AtomId>
    requires { IsTrue (is_in_tree tree.now site.now) }
    ensures none { IfNone result (NoneMeets version tree.now site.now) }
    ensures some { IfSome result (IsLeastMet version tree.now site.now) }
{
    site_is_kept(site);
    let mut index = 0;
    while let Some(request) = site.request_at(index) {
        if may_meet(site, tree, version, request) {
            return Some(request.id);
        }
        index += 1;
    }
    None
}

// What the site does next, where it has what the calls over it need.
pub(crate) fn next_of(site: &Site, program: &Program, code: &Code, tree: &LocTree) -> Chosen
    requires { CanAct code.now tree.now site.now }
    ensures { Chooses program.now.version code.now tree.now site.now result }
{
    if let Some(pick) = ready(site, code, tree) {
        return Chosen::Pick(pick);
    }
    match least_met(site, tree, program.version) {
        Some(atom) => Chosen::Ask(atom),
        None => Chosen::Nothing,
    }
}

/// What the site does next: the reaction that is ready; where none is, the request with the least
/// id that may be met. It is nothing exactly where there is neither, or where the site, the tree
/// and the code don't fit together, as the tests of the site tell.
///
/// The program is for its version: in version 2 a request to go to a dead location may be met too.
pub fn choose(site: &Site, program: &Program, code: &Code, tree: &LocTree) -> Chosen
    ensures { Chooses program.now.version code.now tree.now site.now result }
{
    if !can_act(site, code, tree) {
        return Chosen::Nothing;
    }
    next_of(site, program, code, tree)
}
