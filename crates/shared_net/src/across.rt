// Moves from one site to another.
ghost use Rattle.std.specs.Prelude.{◌≡◌, IfOk, OnErr};
ghost use Rattle.chem_model.specs.Each.{Each};
ghost use Rattle.site_turn.specs.declared.next.Chosen.TheVariants as choice;
ghost use Rattle.site_turn.specs.Mail.{IsMessageFlight};
ghost use Rattle.site_turn.specs.Next.{IsToGo, Chooses};
ghost use Rattle.shared_net.specs.Offers.{Turned, MayHaveCommitted};
ghost use Rattle.shared_net.specs.Offers.{MayGain};
ghost use Rattle.site_turn.specs.After.{IsEventOf};
ghost use Rattle.shared_net.specs.Making.{MakesAcross};

use crate::locked::Locked;
use crate::pass::Pass;
use crate::run::Run;
use chem_model::{AtomId, Memory, Program};
use env_store::Code;
use loc_tree::LocTree;
use site_solution::Site;
use site_turn::{Made, propose_move};
use std::alloc::Global;

/// Makes the move of the request that the site chose, where it leads to a location of the second
/// site, which can take the request's location in, and the book has it possible. Where it isn't
/// possible, the request is dropped.
///
/// The program is the one with which the site chose. Where there is no memory, both sites and the
/// tree stay; either no event was made, or one was, and the pass has exactly its receipt.
pub fn make_across<L: Run>(
    alloc: Global,
    site: &mut Site,
    into: &mut Site,
    tree: &mut LocTree,
    program: &Program,
    code: &Code,
    locked: &mut Locked<L>,
    pass: &mut Pass<L>,
    atom: &AtomId,
) -> Result<Made, Memory>
    requires chosen { Chooses program.now.version code.now tree.old site.old
        (choice.Ask atom.now) }
    requires goes { IsToGo atom.now site.old }
    ensures made { IfOk result (λ made. MakesAcross code.now tree.old site.old into.old atom.now
        locked.old.book pass.old made tree.new site.new into.new locked.new.book pass.new) }
    ensures sends { IfOk result (λ made. Each IsMessageFlight made.effects.sends) }
    ensures pass { IfOk result (λ made. Turned pass.old made.turn pass.new) }
    ensures memory { OnErr result (MayHaveCommitted
        (IsEventOf code.now site.old (choice.Ask atom.now))
        locked.old.book pass.old locked.new.book pass.new) }
    ensures gain { OnErr result (MayGain pass.old pass.new) }
    ensures err { OnErr result (site.new ≡ site.old) }
    ensures err_into { OnErr result (into.new ≡ into.old) }
    ensures err_tree { OnErr result (tree.new ≡ tree.old) }
{
    let _ = program;
    propose_move(alloc, site, into, tree, code, atom, locked, pass)
}
