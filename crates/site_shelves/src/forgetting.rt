// What leaves the index of queues with a location.
ghost use Rattle.std.specs.Prelude.{◌≡◌, ◌≤◌, ◌+◌, ◌^◌, ◌&&◌, ℕ, None, cond, length};
ghost use Rattle.std.specs.HashMap as hash;
ghost use Rattle.chem_model.specs.declared.name.Loc.{Loc};
ghost use Rattle.chem_model.specs.Solution.{same_loc};
ghost use Rattle.chem_model.specs.Each.{Each};
ghost use Rattle.net_laws.specs.Parcels.{groups_but};
ghost use Rattle.site_shelves.specs.CanLay.{HasNumbers};
ghost use Rattle.site_shelves.specs.inside.Index.{key_of, is_one_of, has_channel, same_key};
ghost use Rattle.site_shelves.specs.inside.Index.{groups_of, told_of, IsIndex};
ghost use Rattle.site_shelves.specs.inside.Covered.{IsCovering};
ghost use Rattle.site_shelves.specs.inside.Forgotten.{has_any, serials_but};

use crate::covering::{Covering, forget_keys};
use crate::told::{Spots, Told};
use chem_model::{AtomId, Loc, same_loc};
use queue_cells::{Groups, Selects};
use wire_packet::Msg;

// The groups at a location.
#[derive(Drop)]
struct At {
    loc: Loc,
}

impl Selects<Told> for At {
    ghost use Rattle.chem_model.specs.Solution.{same_loc};

    ghost is_selected = { λ at told. same_loc at.loc told.inst.loc };

    fn selects(&self, told: &Told) -> bool {
        same_loc(self.loc, told.inst.loc)
    }
}

// Forgets so many queues.
fn forget_queues(spots: &mut Spots, first: AtomId, home: Loc, width: u32)
    requires { first.k + width ≤ 2 ^ 64 }
    ensures named { (site k : ℕ) (at : Loc) → hash.get same_key spots.new.marks (key_of site k at)
        ≡ cond (is_one_of first.site first.k width home site k at)
        None
        (hash.get same_key spots.old.marks (key_of site k at)) }
    ensures serials { spots.new.serials ≡ spots.old.serials }
    ensures next { spots.new.next ≡ spots.old.next }
{
    for chan in 0..width {
        let key = ((first.site, first.k + chan as u64), (home.site, home.k));
        spots.marks.remove(&key);
    }
}

// Forgets the queues of a group that stands at the location.
fn forget_group(spots: &mut Spots, told: &Told, loc: Loc)
    requires { HasNumbers told.now }
    ensures named { (site k : ℕ) (at : Loc) → hash.get same_key spots.new.marks (key_of site k at)
        ≡ cond (same_loc loc at && has_channel told.now site k at)
        None
        (hash.get same_key spots.old.marks (key_of site k at)) }
    ensures serials { spots.new.serials ≡ spots.old.serials }
    ensures next { spots.new.next ≡ spots.old.next }
{
    if same_loc(loc, told.inst.loc) {
        forget_queues(
            spots,
            told.inst.chans,
            told.inst.loc,
            told.counts.len() as u32,
        );
    }
}

// Forgets the queues of all groups that stand at the location.
fn forget_groups(groups: &Groups<Told, Msg>, spots: &mut Spots, loc: Loc)
    requires { Each HasNumbers (told_of groups.now.groups) }
    ensures named { (site k : ℕ) (at : Loc) → hash.get same_key spots.new.marks (key_of site k at)
        ≡ cond (same_loc loc at && has_any (told_of groups.now.groups) site k at)
        None
        (hash.get same_key spots.old.marks (key_of site k at)) }
    ensures serials { spots.new.serials ≡ spots.old.serials }
    ensures next { spots.new.next ≡ spots.old.next }
{
    for group in 0..groups.len() {
        forget_group(spots, groups.told(group), loc);
    }
}

// The serials of the groups that don't stand at the location.
fn close_up(serials: &mut Vec<u64>, groups: &Groups<Told, Msg>, loc: Loc)
    requires { length serials.old.items ≡ length groups.now.groups }
    ensures { serials.new.items
        ≡ serials_but loc serials.old.items (told_of groups.now.groups) }
{
    let mut kept = 0;
    for group in 0..groups.len() {
        if !same_loc(loc, groups.told(group).inst.loc) {
            serials[kept] = serials[group];
            kept += 1;
        }
    }
    serials.truncate(kept);
}

// Drops the groups of a location, and their queues and guards from the indexes. It takes no memory.
pub(crate) fn drop_groups(
    groups: &mut Groups<Told, Msg>,
    spots: &mut Spots,
    covering: &mut Covering,
    loc: Loc,
)
    requires index { IsIndex spots.old (groups_of groups.old.groups) }
    requires numbers { Each HasNumbers (told_of groups.old.groups) }
    requires covering { IsCovering covering.old spots.old.serials.items
        (groups_of groups.old.groups) }
    ensures groups { groups_of groups.new.groups ≡ groups_but loc (groups_of groups.old.groups) }
    ensures index { IsIndex spots.new (groups_of groups.new.groups) }
    ensures covering { IsCovering covering.new spots.new.serials.items
        (groups_of groups.new.groups) }
{
    forget_keys(covering, groups, spots, loc);
    forget_groups(groups, spots, loc);
    close_up(&mut spots.serials, groups, loc);
    groups.remove_where(&At { loc });
}
