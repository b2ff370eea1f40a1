// The calls on plain values, each after the choice that it needs.
ghost use Rattle.std.specs.Prelude.{◌≡◌, IfOk, true};
ghost use Rattle.chem_model.specs.Each.{Each};
ghost use Rattle.site_turn.specs.Next.{IsToGo};
ghost use Rattle.site_turn.specs.Mail.{IsMessageText};

use chem_model::{AtomId, Items, Loc, Memory, Name, Program, Texts};
use env_store::Code;
use loc_tree::LocTree;
use reducer::births;
use shared_net::inside::{arrive, choose, compare, make_across, make_here, make_wide};
use shared_net::{Chosen, Locked, Made, Passes, Run, Turn};
use site_solution::Site;
use std::alloc::Global;
use wire_packet::{Ask, Msg, Packet, encode};

// What a call that makes an event answered.
#[derive(Clone, Copy, PartialEq, Eq, Debug)]
pub struct Told {
    pub turn: Turn,
    // How many messages were sent, how many were observed, and how many locations were born.
    pub sizes: [usize; 3],
    // The first argument of the first message that was observed.
    pub observed: Option<Name>,
}

// What was answered, by a copy of it.
fn tell(alloc: Global, made: &Made) -> Result<Told, Memory> {
    let copy = made.copy(alloc)?;
    Ok(told_of(&copy))
}

fn told_of(made: &Made) -> Told {
    let effects = &made.effects;
    let observed = match effects.outs.as_slice().first() {
        Some(out) => out.args.as_slice().first().copied(),
        None => None,
    };
    Told {
        turn: made.turn,
        sizes: [
            effects.sends.len(),
            effects.outs.len(),
            effects.births.len(),
        ],
        observed,
    }
}

// ---- mail

// A mail of one message.
pub fn mail_of(alloc: Global, msg: Msg) -> Result<Texts, Memory>
    ensures { IfOk result (Each IsMessageText) }
{
    let text = encode(alloc, &Packet::Message(msg))?;
    let mut mail = Items::new(alloc);
    mail.push(text)?;
    Ok(mail)
}

// Works this mail off. To which site the first flight goes, of those that go on.
pub fn go_on(
    alloc: Global,
    site: &mut Site,
    tree: &LocTree,
    mail: &Texts,
) -> Result<Option<u32>, Memory>
    requires { Each IsMessageText mail.now }
{
    let flights = arrive(alloc, site, tree, mail)?;
    Ok(flights.as_slice().first().map(|flight| flight.target))
}

// ---- events

// The site makes the reaction that it chooses. None where that isn't one, or opens a location.
pub fn react<L: Run>(
    alloc: Global,
    site: &mut Site,
    tree: &LocTree,
    program: &Program,
    code: &Code,
    locked: &mut Locked<L>,
    passes: &mut Passes<L>,
) -> Result<Option<Told>, Memory> {
    let Chosen::Pick(pick) = choose(site, program, code, tree) else {
        return Ok(None);
    };
    if births(code, site, &pick) > 0 {
        return Ok(None);
    }
    let Some(pass) = passes.as_mut_slice().first_mut() else {
        return Ok(None);
    };
    let made = make_here(alloc, site, tree, code, locked, pass, &pick)?;
    Ok(Some(tell(alloc, &made)?))
}

// The site makes what it chooses. None where that is nothing.
pub fn make<L: Run>(
    alloc: Global,
    site: &mut Site,
    tree: &mut LocTree,
    program: &Program,
    code: &Code,
    locked: &mut Locked<L>,
    passes: &mut Passes<L>,
) -> Result<Option<Told>, Memory> {
    let chosen = choose(site, program, code, tree);
    if let Chosen::Nothing = chosen {
        return Ok(None);
    }
    let Some(pass) = passes.as_mut_slice().first_mut() else {
        return Ok(None);
    };
    let made = make_wide(alloc, site, tree, program, code, locked, pass, &chosen)?;
    Ok(Some(tell(alloc, &made)?))
}

// Whether the site has a request to go with this id.
fn is_to_go(site: &Site, atom: &AtomId) -> bool
    ensures { result ≡ true → IsToGo atom.now site.now }
{
    match site.request(atom) {
        Some(request) => matches!(request.ask, Ask::Go { .. }),
        None => false,
    }
}

// The site makes the move to the other site that it chooses. None where that isn't a move.
pub fn go<L: Run>(
    alloc: Global,
    site: &mut Site,
    into: &mut Site,
    tree: &mut LocTree,
    program: &Program,
    code: &Code,
    locked: &mut Locked<L>,
    passes: &mut Passes<L>,
) -> Result<Option<Told>, Memory> {
    let Chosen::Ask(atom) = choose(site, program, code, tree) else {
        return Ok(None);
    };
    if !is_to_go(site, &atom) {
        return Ok(None);
    }
    let Some(pass) = passes.as_mut_slice().first_mut() else {
        return Ok(None);
    };
    let made = make_across(alloc, site, into, tree, program, code, locked, pass, &atom)?;
    Ok(Some(tell(alloc, &made)?))
}

// ---- what is left

// Whether the receipts of one pass agree with the book. None where there isn't one pass, or on
// want of memory.
pub fn agree<L: Run>(alloc: Global, locked: &Locked<L>, passes: &Passes<L>) -> Option<bool> {
    if passes.as_slice().len() != 1 {
        return None;
    }
    let differs = compare(alloc, locked, passes).ok()?;
    let differs = Box::new(alloc, differs).ok()?;
    Some(differs.is_none())
}

// Whether a message with this id waits at a location of the site.
pub fn holds(alloc: Global, site: &Site, loc: &Loc, atom: &AtomId) -> Result<bool, Memory> {
    let parcel = site.pack(alloc, loc)?;
    for waiting in parcel.waiting.as_slice() {
        if waiting.msg.id == *atom {
            return Ok(true);
        }
    }
    Ok(false)
}

// The number of the site that hosts a location of the tree.
pub fn root_of(tree: &LocTree, loc: &Loc) -> Option<u32> {
    if !tree.holds(loc) {
        return None;
    }
    Some(tree.root(loc))
}
