// The two parts of a turn at a site, in which it makes at most one event: one that leaves the tree
// as it is, and where that doesn't do, one that may change it.
ghost use Rattle.std.specs.Prelude.{◌≡◌, ◌≢◌, List, false, IfOk, IfSome, OnOk, OnErr, IsTrue};
ghost use Rattle.chem_model.specs.Each.{Each};
ghost use Rattle.wire_packet.specs.declared.packet.Flight.{Flight as flight};
ghost use Rattle.site_turn.specs.declared.next.Chosen.TheVariants as choice;
ghost use Rattle.site_solution.specs.Staying.{CanAct};
ghost use Rattle.site_turn.specs.Arriving.{Arrives};
ghost use Rattle.site_turn.specs.Bringing.{StillActs};
ghost use Rattle.site_turn.specs.Next.{Chooses, IsToGo};
ghost use Rattle.site_turn.specs.Mail.{IsMessageText, IsMessageFlight};
ghost use Rattle.site_turn.specs.declared.turn.Made.{Made as made_term};
ghost use Rattle.site_turn.specs.Desk.{ProposesChosen, MayHaveProposed};
ghost use Rattle.site_turn.specs.Steps.{passed_or, IsAny, StepsHere, ActsHere, StepsWide, ActsWide};

use crate::arriving::arrive_known;
use crate::asks::leads_to;
use crate::desk::{Desk, Post, Tools};
use crate::fitted::{Fitted, choose_fitted, still_fits};
use crate::next::{Chosen, choose};
use crate::picks::opens_none;
use crate::proposing::{propose_chosen, propose_pick};
use crate::turn::{Made, Turn};
use chem_model::{AtomId, Memory, Texts};
use loc_tree::LocTree;
use site_solution::{Effects, Site};
use std::mem;

/// What the part of a turn came to in which the tree stays.
#[derive(Clone, Copy, PartialEq, Eq, Debug)]
pub enum Step {
    Ended(Turn),
    /// What the site does next may change the tree. Whether messages of its mail went on.
    Wide(bool),
}

/// What the part came to in which the tree may change.
#[derive(Clone, Copy, PartialEq, Eq, Debug)]
pub enum WideStep {
    Ended(Turn),
    /// A request comes next that leads to another site.
    Leads(Leading),
}

/// A request to go to a location of the site with this number, and whether messages of the mail
/// went on before it.
#[derive(Clone, Copy, PartialEq, Eq, Debug)]
pub struct Leading {
    pub atom: AtomId,
    pub number: u32,
    pub passed: bool,
}

/// What a turn answers whose event came to this, where messages of its mail went on or not.
pub fn passed_or(turn: Turn, passed: bool) -> Turn
    ensures { result ≡ passed_or turn passed }
{
    match turn {
        Turn::Nothing if passed => Turn::Passed,
        turn => turn,
    }
}

/// Posts what an event sent, and answers its turn.
pub fn end_turn<M: Post>(tools: &Tools<'_, M>, made: Made) -> Result<Turn, Memory>
    requires { Each IsMessageFlight made.effects.sends }
    ensures { IfOk result (λ turn. turn ≡ made.turn) }
{
    let Made { turn, effects } = made;
    let Effects { sends, .. } = effects;
    tools.post.post(sends)?;
    Ok(turn)
}

// The mail comes, and what goes on of it is posted. Whether that went into a mailbox. It may be
// known that the site has what the calls over it need.
fn come<M: Post>(
    tools: &Tools<'_, M>,
    site: &mut Site,
    tree: &LocTree,
    mail: &Texts,
    known: bool,
) -> Result<bool, Memory>
    requires text { Each IsMessageText mail.now }
    requires known { IsTrue known → CanAct tools.now.code.now tree.now site.old }
    ensures arrives { OnOk result
        ((on : List flight) × Arrives tree.now site.old mail.now site.new on) }
    ensures fit { OnOk result (StillActs tree.now site.old site.new) }
{
    let on = arrive_known(tools.alloc, site, tree, mail, known)?;
    tools.post.post(on)
}

// What the site does next, where that leaves the tree as it is.
fn step_here<P, D: Desk<P>, M: Post>(
    tools: &Tools<'_, M>,
    held: &mut Fitted,
    tree: &LocTree,
    passed: bool,
    desk: &mut D,
    carried: &mut P,
) -> Result<Step, Memory>
    requires { IsTrue held.old.fits → CanAct tools.now.code.now tree.now held.old.site }
    ensures steps { IfOk result (λ step. StepsHere D.decides tools.now.program.now.version
        tools.now.code.now tree.now held.old.site desk.old carried.old step
        held.new.site desk.new carried.new) }
    ensures fits { OnOk result
        (IsTrue held.new.fits → CanAct tools.now.code.now tree.now held.new.site) }
    ensures lost { OnErr result (held.new.fits ≡ false) }
    ensures err { OnErr result (MayHaveProposed D.decides D.keeps IsAny
        desk.old carried.old desk.new carried.new) }
{
    let pick = match choose_fitted(held, tools.program, tools.code, tree) {
        Chosen::Pick(pick) => pick,
        Chosen::Ask(_) => return Ok(Step::Wide(passed)),
        Chosen::Nothing => return Ok(Step::Ended(passed_or(Turn::Nothing, passed))),
    };
    if !opens_none(&held.site, tools.code, tree, &pick) {
        return Ok(Step::Wide(passed));
    }
    held.fits = false;
    let site = &mut held.site;
    let made = propose_pick(tools.alloc, site, tree, tools.code, &pick, desk, carried)?;
    let fits = still_fits(&held.site, tree, &made);
    let turn = end_turn(tools, made)?;
    held.fits = fits;
    Ok(Step::Ended(passed_or(turn, passed)))
}

/// The part of a turn in which the tree stays: the mail comes, and what goes on of it is posted;
/// then, where the site chooses a reaction that opens no location, that is proposed, and what it
/// sends is posted; where it chooses nothing, the turn is over. On want of memory at most one event
/// was proposed.
///
/// Where it is known that the site has what the calls over it need, that isn't tested. It is known
/// afterwards where it was known or tested, and the event, if one was made, bore no location and
/// leaves numbers to draw. On want of memory it isn't.
pub fn act_here<P, D: Desk<P>, M: Post>(
    tools: &Tools<'_, M>,
    held: &mut Fitted,
    tree: &LocTree,
    mail: &Texts,
    desk: &mut D,
    carried: &mut P,
) -> Result<Step, Memory>
    requires text { Each IsMessageText mail.now }
    requires fits { IsTrue held.old.fits → CanAct tools.now.code.now tree.now held.old.site }
    ensures acts { IfOk result (λ step. ActsHere D.decides tools.now.program.now.version
        tools.now.code.now tree.now held.old.site mail.now desk.old carried.old step
        held.new.site desk.new carried.new) }
    ensures fits { OnOk result
        (IsTrue held.new.fits → CanAct tools.now.code.now tree.now held.new.site) }
    ensures lost { OnErr result (held.new.fits ≡ false) }
    ensures err { OnErr result (MayHaveProposed D.decides D.keeps IsAny
        desk.old carried.old desk.new carried.new) }
{
    let known = mem::replace(&mut held.fits, false);
    let passed = come(tools, &mut held.site, tree, mail, known)?;
    held.fits = known;
    step_here(tools, held, tree, passed, desk, carried)
}

// Where the site chose a request to go to a location that another site hosts: the request, and the
// number of that site.
fn leads_away(site: &Site, tree: &LocTree, chosen: &Chosen) -> Option<(AtomId, u32)>
    ensures { IfSome result (λ found.
        (chosen.now ≡ choice.Ask found.0) × IsToGo found.0 site.now) }
{
    let Chosen::Ask(atom) = chosen else {
        return None;
    };
    match leads_to(site, tree, atom) {
        Some(number) if number != site.number() => Some((*atom, number)),
        _ => None,
    }
}

// Proposes the event of what the site chose, and posts what it sends.
fn end_wide<P, D: Desk<P>, M: Post>(
    tools: &Tools<'_, M>,
    site: &mut Site,
    tree: &mut LocTree,
    chosen: &Chosen,
    desk: &mut D,
    carried: &mut P,
) -> Result<Turn, Memory>
    requires chosen { Chooses tools.now.program.now.version tools.now.code.now tree.old site.old
        chosen.now }
    requires some { chosen.now ≢ choice.Nothing }
    ensures ends { IfOk result (λ turn. (made : made_term) × (turn ≡ made.turn)
        × ProposesChosen D.decides tools.now.code.now tree.old site.old chosen.now
        desk.old carried.old made tree.new site.new desk.new carried.new) }
    ensures err { OnErr result (MayHaveProposed D.decides D.keeps IsAny
        desk.old carried.old desk.new carried.new) }
{
    let made = propose_chosen(tools.alloc, site, tree, tools.code, chosen, desk, carried)?;
    end_turn(tools, made)
}

// What the site does next.
fn step_wide<P, D: Desk<P>, M: Post>(
    tools: &Tools<'_, M>,
    site: &mut Site,
    tree: &mut LocTree,
    passed: bool,
    desk: &mut D,
    carried: &mut P,
) -> Result<WideStep, Memory>
    ensures steps { IfOk result (λ step. StepsWide D.decides tools.now.program.now.version
        tools.now.code.now tree.old site.old desk.old carried.old step
        tree.new site.new desk.new carried.new) }
    ensures err { OnErr result (MayHaveProposed D.decides D.keeps IsAny
        desk.old carried.old desk.new carried.new) }
{
    let chosen = choose(site, tools.program, tools.code, tree);
    if chosen == Chosen::Nothing {
        return Ok(WideStep::Ended(passed_or(Turn::Nothing, passed)));
    }
    if let Some((atom, number)) = leads_away(site, tree, &chosen) {
        return Ok(WideStep::Leads(Leading {
            atom,
            number,
            passed,
        }));
    }
    let turn = end_wide(tools, site, tree, &chosen, desk, carried)?;
    Ok(WideStep::Ended(passed_or(turn, passed)))
}

/// The part of a turn in which the tree may change: the mail comes, and what goes on of it is
/// posted; then the event of what the site chooses is proposed, and what it sends is posted. A move
/// to a location of another site is left to the caller, who has that site. On want of memory at
/// most one event was proposed.
pub fn act_wide<P, D: Desk<P>, M: Post>(
    tools: &Tools<'_, M>,
    site: &mut Site,
    tree: &mut LocTree,
    mail: &Texts,
    desk: &mut D,
    carried: &mut P,
) -> Result<WideStep, Memory>
    requires { Each IsMessageText mail.now }
    ensures acts { IfOk result (λ step. ActsWide D.decides tools.now.program.now.version
        tools.now.code.now tree.old site.old mail.now desk.old carried.old step
        tree.new site.new desk.new carried.new) }
    ensures err { OnErr result (MayHaveProposed D.decides D.keeps IsAny
        desk.old carried.old desk.new carried.new) }
{
    let passed = come(tools, site, tree, mail, false)?;
    step_wide(tools, site, tree, passed, desk, carried)
}
