// Reactions that open no location: the tree stays.
ghost use Rattle.std.specs.Prelude.{◌≡◌, ◌<◌, IfOk, OnErr};
ghost use Rattle.chem_model.specs.Each.{Each};
ghost use Rattle.site_turn.specs.declared.next.Chosen.TheVariants as choice;
ghost use Rattle.site_turn.specs.Mail.{IsMessageFlight};
ghost use Rattle.site_turn.specs.Next.{ChoosesPick, OpensNone};
ghost use Rattle.shared_net.specs.Offers.{Turned, MayHaveCommitted};
ghost use Rattle.shared_net.specs.Offers.{MayGain};
ghost use Rattle.site_turn.specs.After.{IsEventOf, StaysFitAt, BearsNone};
ghost use Rattle.shared_net.specs.Making.{MakesHere};

use crate::locked::Locked;
use crate::pass::Pass;
use crate::run::Run;
use chem_model::Memory;
use env_store::Code;
use loc_tree::LocTree;
use reducer::{Pick, code_is_kept};
use site_solution::{Site, site_is_kept};
use site_turn::{Made, propose_pick};
use std::alloc::Global;

/// Makes the reaction of the pick that the site chose, which opens no location, where the book has
/// it possible. Where it isn't, the messages that it takes are dropped.
///
/// Where there is no memory, the site stays; either no event was made, or one was, and the pass has
/// exactly its receipt.
pub fn make_here<L: Run>(
    alloc: Global,
    site: &mut Site,
    tree: &LocTree,
    code: &Code,
    locked: &mut Locked<L>,
    pass: &mut Pass<L>,
    pick: &Pick,
) -> Result<Made, Memory>
    requires chosen { ChoosesPick code.now tree.now site.old pick.now }
    requires none_born { OpensNone code.now site.old pick.now }
    ensures made { IfOk result (λ made. MakesHere code.now tree.now site.old pick.now
        locked.old.book pass.old made site.new locked.new.book pass.new) }
    ensures born { IfOk result (λ made. BearsNone code.now site.old made.effects) }
    ensures sends { IfOk result (λ made. Each IsMessageFlight made.effects.sends) }
    ensures fit { IfOk result (λ made.
        StaysFitAt code.now tree.now site.old.number made.turn site.new made.effects) }
    ensures pass { IfOk result (λ made. Turned pass.old made.turn pass.new) }
    ensures memory { OnErr result (MayHaveCommitted
        (IsEventOf code.now site.old (choice.Pick pick.now))
        locked.old.book pass.old locked.new.book pass.new) }
    ensures gain { OnErr result (MayGain pass.old pass.new) }
    ensures err { OnErr result (site.new ≡ site.old) }
{
    site_is_kept(site);
    code_is_kept(code);
    propose_pick(alloc, site, tree, code, pick, locked, pass)
}
