// A site, and whether it is known that its calls have what they need.
ghost use Rattle.std.specs.Prelude.{◌≡◌, ◌↔◌, ℕ, IsTrue};
ghost use Rattle.env_store.specs.CodeParts.{CodeParts};
ghost use Rattle.site_solution.specs.Staying.{CanAct};
ghost use Rattle.site_turn.specs.Next.{Chooses};
ghost use Rattle.site_turn.specs.After.{StaysFitAt};

use crate::next::{Chosen, can_act, next_of};
use crate::turn::{Made, Turn};
use chem_model::Program;
use env_store::Code;
use loc_tree::LocTree;
use site_solution::Site;

/// A site, and whether it is known that it has what the calls over it need, by the code and the
/// tree at hand. It isn't known of a new one.
#[derive(Drop)]
pub struct Fitted {
    pub site: Site,
    pub fits: bool,
}

// What the site does next. Whether it has what the calls over it need is tested where it isn't
// known, and is known then.
pub(crate) fn choose_fitted(
    held: &mut Fitted,
    program: &Program,
    code: &Code,
    tree: &LocTree,
) -> Chosen
    requires { IsTrue held.old.fits → CanAct code.now tree.now held.old.site }
    ensures chooses { Chooses program.now.version code.now tree.now held.old.site result }
    ensures site { held.new.site ≡ held.old.site }
    ensures fits { IsTrue held.new.fits ↔ CanAct code.now tree.now held.old.site }
{
    if !held.fits {
        held.fits = can_act(&held.site, code, tree);
    }
    if !held.fits {
        return Chosen::Nothing;
    }
    next_of(&held.site, program, code, tree)
}

// Whether it is known that the site still has what the calls over it need, once it is known whether
// the event of a reaction was made: it was, it bore no location, and more numbers can be drawn.
#[tactic(auto, using(crate::proofs::Fitting::goes_on))]
pub(crate) fn still_fits(site: &Site, tree: &LocTree, made: &Made) -> bool
    ensures { IsTrue result → (c : CodeParts) (i : ℕ)
        → StaysFitAt c tree.now i made.now.turn site.now made.now.effects
        → CanAct c tree.now site.now }
{
    let Turn::Did(_) = made.turn else {
        return false;
    };
    if !made.effects.births.is_empty() {
        return false;
    }
    site.can_draw(tree)
}
