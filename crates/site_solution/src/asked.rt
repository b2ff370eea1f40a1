// Requests in the order of their ids.
ghost use Rattle.std.specs.Prelude.{◌≡◌, [], length, slice_get, Some, None, IsSome, OnOk, OnErr};
ghost use Rattle.std.specs.Prelude.{◌≤◌, ◌<◌, ◌+◌, ◌^◌, option_copied};
ghost use Rattle.net_laws.specs.Holding.{precedes, request_with, with_request, without_request};
ghost use Rattle.site_solution.specs.inside.Rising.{rank, with_requests, AreNewIn};
ghost use Rattle.site_solution.specs.Rising.{AreAsked};
ghost use Rattle.net_laws.specs.Parcels.{requests_but, requests_at};
ghost use Rattle.std.specs.Prelude.{◌++◌, ◌∷◌, cond, IfOk};
ghost use Rattle.std.specs.List.{list_all};
ghost use Rattle.chem_model.specs.Solution.{same_loc};
ghost use Rattle.wire_packet.specs.GroupFacts.{RequestParts};
ghost use Rattle.site_shelves.specs.Draws.{is_drawn};
ghost use Rattle.site_shelves.specs.inside.InTree.{request_stands};

use chem_model::{AtomId, Items, Loc, Memory, same_loc};
use loc_tree::LocTree;
use site_shelves::{Count, is_drawn, is_same, name_is_there};
use std::alloc::Global;
use std::marker::Model;
use wire_packet::{Ask, Request, Requests};

// Requests, fewer than 2^32, whose ids rise.
#[derive(Drop)]
pub(crate) struct Asked {
    items: Vec<Request>,
}

impl Model for Asked {
    ghost use Rattle.std.specs.Prelude.{◌-◌, vec_len, vec_capacity};
    ghost use Rattle.site_solution.specs.inside.Rising.{Pending};
    ghost use Rattle.site_solution.specs.Rising.{AreAsked};

    ghost Value = { Pending };

    ghost view = { λ r. record {
      items = r.items.items;
      spare = vec_capacity r.items - vec_len r.items;
    } };

    ghost invariant = { λ r. AreAsked r.items.items };
}

fn comes_before(one: AtomId, other: AtomId) -> bool
    ensures { result ≡ precedes one other }
{
    one.site < other.site || one.site == other.site && one.k < other.k
}

impl Asked {
    pub(crate) fn new(alloc: Global) -> Asked
        ensures { result.items ≡ [] }
    {
        Asked {
            items: Vec::new(alloc),
        }
    }

    // How many come before the id.
    fn rank(&self, id: AtomId) -> usize
        ensures rank { result ≡ rank id self.now.items }
        ensures within { result ≤ length self.now.items }
    {
        let mut low = 0;
        let mut high = self.items.len();
        while low < high {
            let middle = low + (high - low) / 2;
            if comes_before(self.items[middle].id, id) {
                low = middle + 1;
            } else {
                high = middle;
            }
        }
        low
    }

    // The request with this id.
    pub(crate) fn find(&self, id: AtomId) -> Option<&Request>
        ensures { option_copied result ≡ request_with id self.now.items }
    {
        let rank = self.rank(id);
        if rank >= self.items.len() {
            return None;
        }
        let request = &self.items[rank];
        if is_same(request.id, id) {
            Some(request)
        } else {
            None
        }
    }

    // The request at this place in the order of ids.
    pub(crate) fn at(&self, index: usize) -> Option<&Request>
        ensures { option_copied result ≡ slice_get self.now.items index }
    {
        self.items.get(index)
    }

    // All of them.
    pub(crate) fn as_slice(&self) -> &[Request]
        ensures members { result.now ≡ self.now.items }
        ensures asked { AreAsked self.now.items }
    {
        &self.items
    }

    // Makes room for more requests.
    pub(crate) fn reserve(&mut self, more: usize) -> Result<(), Memory>
        ensures room { OnOk result (more ≤ self.new.spare) }
        ensures few { OnOk result (length self.old.items + more < 2 ^ 32) }
        ensures same { self.new.items ≡ self.old.items }
    {
        if more > u32::MAX as usize - self.items.len() {
            return Err(Memory);
        }
        self.items.reserve(more)?;
        Ok(())
    }

    // Adds a request. It takes no memory.
    pub(crate) fn add_reserved(&mut self, request: Request)
        requires room { 1 ≤ self.old.spare }
        requires few { length self.old.items + 1 < 2 ^ 32 }
        requires new { request_with request.id self.old.items ≡ None }
        ensures items { self.new.items ≡ with_request request self.old.items }
        ensures spare { self.old.spare ≤ self.new.spare + 1 }
    {
        let rank = self.rank(request.id);
        let _ = self.items.insert(rank, request);
    }

    // Adds a request.
    pub(crate) fn add(&mut self, request: Request) -> Result<(), Memory>
        requires { request_with request.id self.old.items ≡ None }
        ensures ok { OnOk result (self.new.items ≡ with_request request self.old.items) }
        ensures err { OnErr result (self.new.items ≡ self.old.items) }
    {
        self.reserve(1)?;
        self.add_reserved(request);
        Ok(())
    }

    // Adds requests. It takes no memory.
    pub(crate) fn add_all(&mut self, requests: &[Request])
        requires room { length requests.now ≤ self.old.spare }
        requires few { length self.old.items + length requests.now < 2 ^ 32 }
        requires new { AreNewIn self.old.items requests.now }
        ensures { self.new.items ≡ with_requests requests.now self.old.items }
    {
        for request in requests {
            self.add_reserved(*request);
        }
    }

    // Drops a request.
    pub(crate) fn remove(&mut self, id: AtomId)
        requires { IsSome (request_with id self.old.items) }
        ensures { self.new.items ≡ without_request id self.old.items }
    {
        let rank = self.rank(id);
        self.items.remove(rank);
    }

    // Drops the requests at a location.
    pub(crate) fn drop_at(&mut self, loc: Loc)
        ensures { self.new.items ≡ requests_but loc self.old.items }
    {
        self.items.retain(|request| !same_loc(loc, request.loc));
    }
}

fn request_is_there(tree: &LocTree, request: &Request) -> bool
    ensures { result ≡ request_stands tree.now request.now }
{
    match request.ask {
        Ask::Go { target, cont } => name_is_there(tree, target) && name_is_there(tree, cont),
        Ask::Fail { target, cont } => name_is_there(tree, target) && name_is_there(tree, cont),
        Ask::Halt => true,
    }
}

// Whether all that requests name is in the tree.
pub(crate) fn requests_are_there(tree: &LocTree, requests: &[Request]) -> bool
    ensures { result ≡ list_all (request_stands tree.now) requests.now }
{
    for request in requests {
        if !request_is_there(tree, request) {
            return false;
        }
    }
    true
}

pub(crate) fn requests_are_drawn(count: Count, requests: &[Request]) -> bool
    ensures { result
        ≡ list_all (λ (q : RequestParts). is_drawn count.number count.made q.id.site q.id.k)
        requests.now }
{
    for request in requests {
        if !is_drawn(count, request.id.site, request.id.k) {
            return false;
        }
    }
    true
}

// Appends a request where it stands at the location.
fn copy_request(members: &mut Requests, request: Request, loc: Loc) -> Result<(), Memory>
    ensures { OnOk result (
        members.new ≡ members.old ++ cond (same_loc loc request.loc) (request ∷ []) []) }
{
    if same_loc(loc, request.loc) {
        members.push(request)?;
    }
    Ok(())
}

// The requests at a location.
pub(crate) fn copy_requests_at(
    alloc: Global,
    requests: &[Request],
    loc: Loc,
) -> Result<Requests, Memory>
    ensures { IfOk result (λ r. r ≡ requests_at loc requests.now) }
{
    let mut members = Items::new(alloc);
    for request in requests {
        copy_request(&mut members, *request, loc)?;
    }
    Ok(members)
}
