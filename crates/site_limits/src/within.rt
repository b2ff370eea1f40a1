// What a site's tests say by what it knows alone. False says nothing: then a walk over all that the
// site holds tells. None of them takes memory.
ghost use Rattle.std.specs.Prelude.{◌≡◌, ◌<◌, ◌≤◌, ℕ, true, false, IsTrue, slice_index};
ghost use Rattle.chem_model.specs.declared.name.Loc.{Loc};
ghost use Rattle.chem_model.specs.Opening.{root_of};
ghost use Rattle.net_laws.specs.Site.{Told};
ghost use Rattle.site_shelves.specs.Named.{in_tree};
ghost use Rattle.site_shelves.specs.InCode.{is_told_by};
ghost use Rattle.site_limits.specs.Knows.{is_known};
ghost use Rattle.site_limits.specs.Shapes.{is_shaped};

use crate::known::Known;
use crate::shapes::are_in_levels;
use chem_model::AtomId;
use env_store::Code;
use loc_tree::{LocTree, tree_is_kept};

// Whether so many roots are in the tree, one a site.
fn roots_are_there(tree: &LocTree, count: u32) -> bool
    ensures { IsTrue result → (i : ℕ) → i < count → in_tree tree.now (root_of i) ≡ true }
{
    tree_is_kept(tree);
    count <= tree.roots()
}

/// Whether all that may be named is in the tree.
pub fn names_are_known(known: &Known, tree: &LocTree) -> bool
    ensures lost { IsTrue result → known.now.lost ≡ false }
    ensures all { IsTrue result → (l : Loc) → is_known known.now l ≡ true
        → in_tree tree.now l ≡ true }
{
    if known.lost {
        return false;
    }
    if !roots_are_there(tree, known.roots) {
        return false;
    }
    tree.holds_all(known.named.as_slice())
}

/// Whether all that the site with this number made has numbers below the count.
pub fn numbers_are_known(known: &Known, number: u32, made: u64) -> bool
    ensures lost { IsTrue result → known.now.lost ≡ false }
    ensures drawn { IsTrue result → known.now.drawn ≤ made }
    ensures past { IsTrue result → slice_index known.now.atoms.items number ≤ made }
{
    if known.lost || known.drawn > made {
        return false;
    }
    match known.atoms.as_slice().get(number as usize) {
        Some(after) => *after <= made,
        None => true,
    }
}

/// Whether no atom that is held has this id.
pub fn is_beyond(known: &Known, id: AtomId) -> bool
    ensures lost { IsTrue result → known.now.lost ≡ false }
    ensures past { IsTrue result → slice_index known.now.atoms.items id.site ≤ id.k }
{
    if known.lost {
        return false;
    }
    match known.atoms.as_slice().get(id.site as usize) {
        Some(after) => *after <= id.k,
        None => true,
    }
}

/// Whether each group that may be laid is of a level of the code.
pub fn levels_are_known(known: &Known, code: &Code) -> bool
    ensures lost { IsTrue result → known.now.lost ≡ false }
    ensures all { IsTrue result → (d : Told) → is_shaped known.now.shapes.items d ≡ true
        → is_told_by code.now d ≡ true }
{
    if known.lost {
        return false;
    }
    are_in_levels(code, &known.shapes)
}
