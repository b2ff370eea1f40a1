// Events that are proposed at a desk, and what sites and the tree do once it has answered. The
// event is made ready before, and the sites change after.
ghost use Rattle.std.specs.Prelude.{◌≡◌, ◌≢◌, IfOk, OnErr};
ghost use Rattle.chem_model.specs.Each.{Each};
ghost use Rattle.site_solution.specs.Staying.{CanAct};
ghost use Rattle.site_turn.specs.declared.next.Chosen.TheVariants as choice;
ghost use Rattle.site_turn.specs.Mail.{IsMessageFlight};
ghost use Rattle.site_turn.specs.Next.{ChoosesPick, MayMake, IsToGo};
ghost use Rattle.site_turn.specs.After.{IsEventOf, StaysFitAt, IsSameTree};
ghost use Rattle.site_turn.specs.Desk.{ProposesPick, ProposesChosen, ProposesMove};
ghost use Rattle.site_turn.specs.Desk.{MayHaveProposed};

use crate::asks::{Proposed, after_crossing, fits_across, fits_here};
use crate::desk::Desk;
use crate::doing::{after_chosen, ready_event};
use crate::next::Chosen;
use crate::picks::{after_pick, event_of_pick};
use crate::turn::Made;
use chem_model::{AtomId, Event, Memory};
use env_store::Code;
use loc_tree::LocTree;
use reducer::Pick;
use site_solution::Site;
use std::alloc::Global;

/// Proposes the reaction of the pick that the site chose. It is made where the desk says so, and
/// where it isn't possible the messages that it takes are dropped. Where there is no memory, the
/// site stays.
pub fn propose_pick<P, D: Desk<P>>(
    alloc: Global,
    site: &mut Site,
    tree: &LocTree,
    code: &Code,
    pick: &Pick,
    desk: &mut D,
    carried: &mut P,
) -> Result<Made, Memory>
    requires { ChoosesPick code.now tree.now site.old pick.now }
    ensures made { IfOk result (λ made. ProposesPick D.decides code.now tree.now site.old pick.now
        desk.old carried.old made site.new desk.new carried.new) }
    ensures fit { IfOk result (λ made.
        StaysFitAt code.now tree.now site.old.number made.turn site.new made.effects) }
    ensures sends { IfOk result (λ made. Each IsMessageFlight made.effects.sends) }
    ensures memory { OnErr result (MayHaveProposed D.decides D.keeps
        (IsEventOf code.now site.old (choice.Pick pick.now))
        desk.old carried.old desk.new carried.new) }
    ensures err { OnErr result (site.new ≡ site.old) }
{
    let event = event_of_pick(alloc, site, tree, code, pick)?;
    let turn = desk.propose(alloc, carried, &event, true)?;
    let effects = after_pick(alloc, site, tree, code, pick, turn)?;
    Ok(Made { turn, effects })
}

/// Proposes the event of what the site chose, which can be made unless it is a move to a location
/// that the site doesn't host. Where it isn't possible, the messages that it takes, or its request,
/// are dropped. Births are added to the tree. Where there is no memory, site and tree stay.
pub fn propose_chosen<P, D: Desk<P>>(
    alloc: Global,
    site: &mut Site,
    tree: &mut LocTree,
    code: &Code,
    chosen: &Chosen,
    desk: &mut D,
    carried: &mut P,
) -> Result<Made, Memory>
    requires { MayMake code.now tree.old site.old chosen.now }
    ensures made { IfOk result (λ made. ProposesChosen D.decides code.now tree.old site.old
        chosen.now desk.old carried.old made tree.new site.new desk.new carried.new) }
    ensures sends { IfOk result (λ made. Each IsMessageFlight made.effects.sends) }
    ensures memory { OnErr result (MayHaveProposed D.decides D.keeps
        (IsEventOf code.now site.old chosen.now) desk.old carried.old desk.new carried.new) }
    ensures err { OnErr result (site.new ≡ site.old) }
    ensures err_tree { OnErr result (IsSameTree tree.old tree.new) }
{
    let event = ready_event(alloc, site, tree, code, chosen)?;
    let fits = fits_here(site, &event);
    let turn = desk.propose(alloc, carried, &event, fits)?;
    let effects = after_chosen(alloc, site, tree, code, chosen, turn)?;
    Ok(Made { turn, effects })
}

/// Proposes the move of a request to the second site, which can be made where it leads to a
/// location of that site, and the site can take the request's location in. Where it isn't possible,
/// the request is dropped. Where there is no memory, both sites and the tree stay.
pub fn propose_move<P, D: Desk<P>>(
    alloc: Global,
    site: &mut Site,
    into: &mut Site,
    tree: &mut LocTree,
    code: &Code,
    atom: &AtomId,
    desk: &mut D,
    carried: &mut P,
) -> Result<Made, Memory>
    requires may { MayMake code.now tree.old site.old (choice.Ask atom.now) }
    requires goes { IsToGo atom.now site.old }
    ensures made { IfOk result (λ made. ProposesMove D.decides code.now tree.old site.old into.old
        atom.now desk.old carried.old made tree.new site.new into.new desk.new carried.new) }
    ensures sends { IfOk result (λ made. Each IsMessageFlight made.effects.sends) }
    ensures memory { OnErr result (MayHaveProposed D.decides D.keeps
        (IsEventOf code.now site.old (choice.Ask atom.now))
        desk.old carried.old desk.new carried.new) }
    ensures err { OnErr result (site.new ≡ site.old) }
    ensures err_into { OnErr result (into.new ≡ into.old) }
    ensures err_tree { OnErr result (tree.new ≡ tree.old) }
{
    let fits = fits_across(site, into, tree, code, atom);
    let event = Event::Move { atom: *atom };
    let turn = desk.propose(alloc, carried, &event, fits)?;
    let asked = Proposed { atom: *atom, turn };
    let effects = after_crossing(alloc, site, into, tree, code, asked)?;
    Ok(Made { turn, effects })
}
