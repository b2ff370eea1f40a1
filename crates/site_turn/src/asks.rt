// Requests: where one to go leads, the event by which one is met, and what site and tree do once it
// is known whether it was made.
ghost use Rattle.std.specs.Prelude.{◌≡◌, ◌↔◌, ◌<◌, ℕ, Some, true};
ghost use Rattle.std.specs.Prelude.{IfOk, IfSome, OnErr, IsTrue};
ghost use Rattle.chem_model.specs.Each.{Each};
ghost use Rattle.chem_model.specs.declared.event.Event.{Event as event};
ghost use Rattle.net_laws.specs.Holding.{request_with};
ghost use Rattle.site_solution.specs.Draws.{CanDraw};
ghost use Rattle.site_solution.specs.InTree.{is_in_tree};
ghost use Rattle.site_solution.specs.Staying.{CanAct};
ghost use Rattle.migration.specs.Moves.{can_go};
ghost use Rattle.site_turn.specs.declared.next.Chosen.TheVariants as choice;
ghost use Rattle.site_turn.specs.declared.turn.Turn.TheVariants as turns;
ghost use Rattle.site_turn.specs.Mail.{IsMessageFlight};
ghost use Rattle.site_turn.specs.Next.{may_meet, IsToGo, LeadsTo};
ghost use Rattle.site_turn.specs.After.{event_for, IsEventOf, FitsHere, FitsAcross};
ghost use Rattle.site_turn.specs.After.{MeetsAsk, AfterAsk, AfterChosen, AfterCrossing};

use crate::next::can_act;
use crate::turn::{Turn, no_effects};
use chem_model::{AtomId, Event, Memory, Name, Nums};
use env_store::Code;
use failure::{detect, halt};
use loc_tree::LocTree;
use migration::{can_join, leads_into, move_between, move_within};
use router::address;
use site_solution::{Effects, Site};
use std::alloc::Global;
use wire_packet::{Ask, Request};

/// Where the request is one to go to a location of the tree, the number of the site that hosts
/// that.
pub fn leads_to(site: &Site, tree: &LocTree, atom: &AtomId) -> Option<u32>
    ensures some { IfSome result (LeadsTo tree.now site.now atom.now) }
    ensures goes { IfSome result (λ _. IsToGo atom.now site.now) }
{
    match site.request(atom) {
        Some(request) => match request.ask {
            Ask::Go {
                target: Name::Place(target),
                cont: _,
            } => {
                if !tree.holds(&target) {
                    return None;
                }
                Some(address(tree, &target))
            }
            _ => None,
        },
        None => None,
    }
}

/// The event by which a request is met.
pub fn event_for(request: &Request) -> Event
    ensures { result ≡ event_for request.now.ask request.now.id }
{
    let atom = request.id;
    match request.ask {
        Ask::Go { .. } => Event::Move { atom },
        Ask::Fail { .. } => Event::Detect { atom },
        Ask::Halt => Event::Halt { atom },
    }
}

/// Whether the site can make the event: each but a move to a location that it doesn't host.
pub fn fits_here(site: &Site, event: &Event) -> bool
    ensures { IsTrue result ↔ FitsHere site.now event.now }
{
    match event {
        Event::Move { atom } => leads_into(site, site, atom),
        Event::React { .. } | Event::Halt { .. } | Event::Detect { .. } => true,
    }
}

// Meets a request. Where there is no memory, site and tree stay.
fn meet(
    alloc: Global,
    site: &mut Site,
    tree: &mut LocTree,
    counts: &Nums,
    request: &Request,
) -> Result<Effects, Memory>
    requires there { IsTrue (is_in_tree tree.old site.old) }
    requires draws { CanDraw tree.old site.old }
    requires here { request_with request.now.id site.old.requests ≡ Some request.now }
    requires met { may_meet 2 tree.old site.old request.now.id ≡ true }
    requires fits { FitsHere site.old (event_for request.now.ask request.now.id) }
    ensures ok { IfOk result (MeetsAsk request.now.ask counts.now tree.old site.old
        request.now.id tree.new site.new) }
    ensures sends { IfOk result (λ effects. Each IsMessageFlight effects.sends) }
    ensures err { OnErr result (site.new ≡ site.old) }
    ensures err_tree { OnErr result (tree.new ≡ tree.old) }
{
    match request.ask {
        Ask::Go { .. } => move_within(alloc, site, tree, counts, &request.id),
        Ask::Fail { .. } => detect(alloc, site, tree, counts, &request.id),
        Ask::Halt => {
            let _event = halt(tree, site, &request.id);
            Ok(no_effects(alloc))
        }
    }
}

// What site and tree do once it is known whether the event of the request was made.
fn after_ask(
    alloc: Global,
    site: &mut Site,
    tree: &mut LocTree,
    counts: &Nums,
    request: &Request,
    turn: Turn,
) -> Result<Effects, Memory>
    requires there { IsTrue (is_in_tree tree.old site.old) }
    requires draws { CanDraw tree.old site.old }
    requires here { request_with request.now.id site.old.requests ≡ Some request.now }
    requires met { may_meet 2 tree.old site.old request.now.id ≡ true }
    requires fits { (place : ℕ) → turn ≡ turns.Did place
        → FitsHere site.old (event_for request.now.ask request.now.id) }
    ensures after { IfOk result (AfterAsk turn request.now.ask counts.now tree.old site.old
        request.now.id tree.new site.new) }
    ensures sends { IfOk result (λ effects. Each IsMessageFlight effects.sends) }
    ensures err { OnErr result (site.new ≡ site.old) }
    ensures err_tree { OnErr result (tree.new ≡ tree.old) }
{
    match turn {
        Turn::Did(_) => meet(alloc, site, tree, counts, request),
        Turn::NotEnabled => {
            site.drop_request(&request.id);
            Ok(no_effects(alloc))
        }
        Turn::Passed | Turn::Nothing | Turn::Full => Ok(no_effects(alloc)),
    }
}

/// The same of a request that may be met, in version 2 at least.
pub fn after_request(
    alloc: Global,
    site: &mut Site,
    tree: &mut LocTree,
    code: &Code,
    atom: &AtomId,
    turn: Turn,
) -> Result<Effects, Memory>
    requires act { CanAct code.now tree.old site.old }
    requires met { may_meet 2 tree.old site.old atom.now ≡ true }
    requires fits { (e : event) × IsEventOf code.now site.old (choice.Ask atom.now) e
        × ((place : ℕ) → turn ≡ turns.Did place → FitsHere site.old e) }
    ensures after { IfOk result (λ effects. AfterChosen code.now tree.old site.old
        (choice.Ask atom.now) turn tree.new site.new effects) }
    ensures sends { IfOk result (λ effects. Each IsMessageFlight effects.sends) }
    ensures err { OnErr result (site.new ≡ site.old) }
    ensures err_tree { OnErr result (tree.new ≡ tree.old) }
{
    let request = site.asked(atom);
    after_ask(alloc, site, tree, &code.seen, &request, turn)
}

/// Whether the request leads to a location of the second site, which has what the calls over it
/// need, and to which the request's location may come.
pub fn fits_across(site: &Site, into: &Site, tree: &LocTree, code: &Code, atom: &AtomId) -> bool
    requires { IsToGo atom.now site.now }
    ensures { IsTrue result ↔ FitsAcross code.now tree.now site.now into.now atom.now }
{
    leads_into(site, into, atom) && can_act(into, code, tree) && can_join(site, into, tree, atom)
}

/// A request whose event was proposed, and what that came to.
#[derive(Clone, Copy)]
pub struct Proposed {
    pub atom: AtomId,
    pub turn: Turn,
}

/// What the sites and the tree do once it is known whether the move was made.
pub fn after_crossing(
    alloc: Global,
    site: &mut Site,
    into: &mut Site,
    tree: &mut LocTree,
    code: &Code,
    asked: Proposed,
) -> Result<Effects, Memory>
    requires act { CanAct code.now tree.old site.old }
    requires goes { can_go 2 tree.old asked.atom site.old ≡ true }
    requires fits { (place : ℕ) → asked.turn ≡ turns.Did place
        → FitsAcross code.now tree.old site.old into.old asked.atom }
    ensures after { IfOk result (AfterCrossing asked.turn code.now.seen tree.old site.old into.old
        asked.atom tree.new site.new into.new) }
    ensures sends { IfOk result (λ effects. Each IsMessageFlight effects.sends) }
    ensures err { OnErr result (site.new ≡ site.old) }
    ensures err_into { OnErr result (into.new ≡ into.old) }
    ensures err_tree { OnErr result (tree.new ≡ tree.old) }
{
    match asked.turn {
        Turn::Did(_) => move_between(alloc, site, into, tree, code, &asked.atom),
        Turn::NotEnabled => {
            site.drop_request(&asked.atom);
            Ok(no_effects(alloc))
        }
        Turn::Passed | Turn::Nothing | Turn::Full => Ok(no_effects(alloc)),
    }
}
