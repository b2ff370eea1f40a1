// Each call with a test of what it needs before it.
ghost use Rattle.std.specs.Prelude.{◌≡◌, true, OnOk};
ghost use Rattle.site_solution.specs.InTree.{is_in_tree};
ghost use Rattle.site_solution.specs.InCode.{is_in_code};
ghost use Rattle.site_solution.specs.Draws.{CanDraw};

use crate::fault::Fault;
use chem_model::{AtomId, Event, Nums};
use env_store::Code;
use failure::{dead_for, detect, halt, halt_ready};
use loc_tree::LocTree;
use migration::{can_join, leads_into, move_between, move_ready, move_within};
use reducer::{event_of, react, ready};
use router::{Delivery, can_deliver, deliver};
use site_solution::{Effects, Site};
use std::alloc::Global;
use wire_packet::Msg;

// What the site holds is in the tree.
pub(crate) fn stands(site: &Site, tree: &LocTree) -> Result<(), Fault>
    ensures { OnOk result (is_in_tree tree.now site.now ≡ true) }
{
    if !site.in_tree(tree) {
        return Err(Fault::Unmet);
    }
    Ok(())
}

// What the site holds is in the tree and of the code.
pub(crate) fn fit(site: &Site, code: &Code, tree: &LocTree) -> Result<(), Fault>
    ensures tree { OnOk result (is_in_tree tree.now site.now ≡ true) }
    ensures code { OnOk result (is_in_code code.now tree.now site.now ≡ true) }
{
    if !site.in_tree(tree) || !site.in_code(code, tree) {
        return Err(Fault::Unmet);
    }
    Ok(())
}

// The site may draw numbers.
pub(crate) fn draws(site: &Site, tree: &LocTree) -> Result<(), Fault>
    ensures { OnOk result (CanDraw tree.now site.now) }
{
    if !site.can_draw(tree) {
        return Err(Fault::Unmet);
    }
    Ok(())
}

// The event that is ready at a site.
pub(crate) fn event_at(
    alloc: Global,
    site: &Site,
    code: &Code,
    tree: &LocTree,
) -> Result<Option<Event>, Fault> {
    fit(site, code, tree)?;
    match ready(site, code, tree) {
        Some(pick) => Ok(Some(event_of(alloc, site, code, &pick)?)),
        None => Ok(None),
    }
}

// Whether nothing is ready at a site.
pub(crate) fn is_quiet(site: &Site, code: &Code, tree: &LocTree) -> Result<bool, Fault> {
    fit(site, code, tree)?;
    Ok(ready(site, code, tree).is_none())
}

// The site makes what is ready.
pub(crate) fn react_at(
    alloc: Global,
    site: &mut Site,
    code: &Code,
    tree: &LocTree,
) -> Result<Effects, Fault> {
    fit(site, code, tree)?;
    draws(site, tree)?;
    match ready(site, code, tree) {
        Some(pick) => Ok(react(alloc, site, code, tree, &pick)?),
        None => Err(Fault::Unmet),
    }
}

// Delivers a message. One that goes on is mail again, and the site to which it goes is answered.
pub(crate) fn deliver_at(
    site: &mut Site,
    tree: &LocTree,
    msg: Msg,
    mail: &mut Vec<Msg>,
) -> Result<Option<u32>, Fault> {
    if !can_deliver(site, tree, &msg) {
        return Err(Fault::Unmet);
    }
    match deliver(site, tree, msg) {
        Ok(Delivery::Delivered) => Ok(None),
        Ok(Delivery::Forward(target, msg)) => {
            mail.push(msg)?;
            Ok(Some(target))
        }
        Err((msg, memory)) => {
            drop(msg);
            Err(Fault::from(memory))
        }
    }
}

// Meets a request to go within a site.
pub(crate) fn move_at(
    alloc: Global,
    site: &mut Site,
    tree: &mut LocTree,
    counts: &Nums,
    atom: AtomId,
) -> Result<Effects, Fault> {
    stands(site, tree)?;
    draws(site, tree)?;
    if !move_ready(site, tree, 2, &atom) || !leads_into(site, site, &atom) {
        return Err(Fault::Unmet);
    }
    Ok(move_within(alloc, site, tree, counts, &atom)?)
}

// Meets a request to go from one site to another.
pub(crate) fn move_over(
    alloc: Global,
    from: &mut Site,
    into: &mut Site,
    tree: &mut LocTree,
    code: &Code,
    atom: AtomId,
) -> Result<Effects, Fault> {
    fit(from, code, tree)?;
    fit(into, code, tree)?;
    draws(into, tree)?;
    if !move_ready(from, tree, 2, &atom) || !leads_into(from, into, &atom) {
        return Err(Fault::Unmet);
    }
    if from.request(&atom).is_none() || !can_join(from, into, tree, &atom) {
        return Err(Fault::Unmet);
    }
    Ok(move_between(alloc, from, into, tree, code, &atom)?)
}

// The halt that a request asks for.
fn is_halt(event: &Event, atom: AtomId) -> bool {
    match event {
        Event::Halt { atom: met } => *met == atom,
        _ => false,
    }
}

// Meets a request to halt.
pub(crate) fn halt_at(tree: &mut LocTree, site: &mut Site, atom: AtomId) -> Result<(), Fault> {
    stands(site, tree)?;
    if !halt_ready(site, tree, &atom) {
        return Err(Fault::Unmet);
    }
    let event = halt(tree, site, &atom);
    if !is_halt(&event, atom) {
        return Err(Fault::Unmet);
    }
    Ok(())
}

// Meets a request to detect a failure.
pub(crate) fn detect_at(
    alloc: Global,
    site: &mut Site,
    tree: &LocTree,
    counts: &Nums,
    atom: AtomId,
) -> Result<Effects, Fault> {
    stands(site, tree)?;
    draws(site, tree)?;
    if dead_for(site, tree, &atom).is_none() {
        return Err(Fault::Unmet);
    }
    Ok(detect(alloc, site, tree, counts, &atom)?)
}
