// The event of what a site chose, and what site and tree do once it is known whether it was made.
ghost use Rattle.std.specs.Prelude.{◌≡◌, ℕ, IfOk, OnOk, OnErr};
ghost use Rattle.chem_model.specs.Each.{Each};
ghost use Rattle.chem_model.specs.declared.event.Event.{Event as event};
ghost use Rattle.loc_tree.specs.Tree.{Tree};
ghost use Rattle.site_turn.specs.declared.turn.Turn.TheVariants as turns;
ghost use Rattle.site_turn.specs.Mail.{IsMessageFlight};
ghost use Rattle.site_turn.specs.Next.{MayMake};
ghost use Rattle.site_turn.specs.After.{IsEventOf, FitsHere, IsSameTree, IsReadied, AfterChosen};

use crate::asks::{after_request, event_for};
use crate::next::Chosen;
use crate::picks::{after_wide_pick, ready_reaction};
use crate::turn::Turn;
use chem_model::{Event, Memory};
use env_store::Code;
use loc_tree::LocTree;
use site_solution::{Effects, Site};
use std::alloc::Global;

/// The event of what the site chose. Where that is a reaction, the tree gets room for its births.
pub fn ready_event(
    alloc: Global,
    site: &Site,
    tree: &mut LocTree,
    code: &Code,
    chosen: &Chosen,
) -> Result<Event, Memory>
    requires { MayMake code.now tree.old site.now chosen.now }
    ensures event { IfOk result (IsEventOf code.now site.now chosen.now) }
    ensures ready { OnOk result (IsReadied code.now tree.old site.now chosen.now tree.new) }
    ensures tree { IsSameTree tree.old tree.new }
{
    match chosen {
        Chosen::Pick(pick) => ready_reaction(alloc, site, tree, code, pick),
        Chosen::Ask(atom) => {
            let request = site.asked(atom);
            Ok(event_for(&request))
        }
        Chosen::Nothing => unreachable!(),
    }
}

/// What site and tree do once it is known whether the event of what the site chose was made. Births
/// are added to the tree, which has room for them. Where there is no memory, site and tree stay.
pub fn after_chosen(
    alloc: Global,
    site: &mut Site,
    tree: &mut LocTree,
    code: &Code,
    chosen: &Chosen,
    turn: Turn,
) -> Result<Effects, Memory>
    requires ready { (t : Tree) × MayMake code.now t site.old chosen.now
        × IsReadied code.now t site.old chosen.now tree.old }
    requires fits { (e : event) × IsEventOf code.now site.old chosen.now e
        × ((place : ℕ) → turn ≡ turns.Did place → FitsHere site.old e) }
    ensures after { IfOk result (λ effects. (t : Tree)
        → IsReadied code.now t site.old chosen.now tree.old
        → AfterChosen code.now t site.old chosen.now turn tree.new site.new effects) }
    ensures sends { IfOk result (λ effects. Each IsMessageFlight effects.sends) }
    ensures err { OnErr result (site.new ≡ site.old) }
    ensures err_tree { OnErr result (tree.new ≡ tree.old) }
{
    match chosen {
        Chosen::Pick(pick) => after_wide_pick(alloc, site, tree, code, pick, turn),
        Chosen::Ask(atom) => after_request(alloc, site, tree, code, atom, turn),
        Chosen::Nothing => unreachable!(),
    }
}
