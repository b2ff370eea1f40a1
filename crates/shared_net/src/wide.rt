// Events of one site that may change the tree.
ghost use Rattle.std.specs.Prelude.{◌≡◌, ◌≢◌, IfOk, OnErr};
ghost use Rattle.chem_model.specs.Each.{Each};
ghost use Rattle.site_turn.specs.declared.next.Chosen.TheVariants as choice;
ghost use Rattle.site_turn.specs.Mail.{IsMessageFlight};
ghost use Rattle.site_turn.specs.Next.{Chooses};
ghost use Rattle.site_turn.specs.After.{IsEventOf, IsSameTree};
ghost use Rattle.shared_net.specs.Offers.{Turned, MayHaveCommitted};
ghost use Rattle.shared_net.specs.Offers.{MayGain};
ghost use Rattle.shared_net.specs.Making.{MakesWide};

use crate::locked::Locked;
use crate::pass::Pass;
use crate::run::Run;
use chem_model::{Memory, Program};
use env_store::Code;
use loc_tree::LocTree;
use site_solution::Site;
use site_turn::{Chosen, Made, propose_chosen};
use std::alloc::Global;

/// Makes the event of what the site chose, where it is no move to a location that another site
/// hosts, and the book has it possible. Where it isn't possible, the messages that it takes, or its
/// request, are dropped. Births are added to the tree.
///
/// The program is the one with which the site chose. Where there is no memory, site and tree stay;
/// either no event was made, or one was, and the pass has exactly its receipt.
pub fn make_wide<L: Run>(
    alloc: Global,
    site: &mut Site,
    tree: &mut LocTree,
    program: &Program,
    code: &Code,
    locked: &mut Locked<L>,
    pass: &mut Pass<L>,
    chosen: &Chosen,
) -> Result<Made, Memory>
    requires chosen { Chooses program.now.version code.now tree.old site.old chosen.now }
    requires some { chosen.now ≢ choice.Nothing }
    ensures made { IfOk result (λ made. MakesWide code.now tree.old site.old chosen.now
        locked.old.book pass.old made tree.new site.new locked.new.book pass.new) }
    ensures sends { IfOk result (λ made. Each IsMessageFlight made.effects.sends) }
    ensures pass { IfOk result (λ made. Turned pass.old made.turn pass.new) }
    ensures memory { OnErr result (MayHaveCommitted (IsEventOf code.now site.old chosen.now)
        locked.old.book pass.old locked.new.book pass.new) }
    ensures gain { OnErr result (MayGain pass.old pass.new) }
    ensures err { OnErr result (site.new ≡ site.old) }
    ensures err_tree { OnErr result (IsSameTree tree.old tree.new) }
{
    let _ = program;
    propose_chosen(alloc, site, tree, code, chosen, locked, pass)
}
