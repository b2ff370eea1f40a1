// Changes of the first members of a list alone: what was appended behind them stays as it is.
ghost use Rattle.std.specs.Prelude.{◌≡◌, ◌≤◌, ◌++◌, length, take, drop, IfSome};
ghost use Rattle.chem_model.specs.Apply.{without, without_all, with_hosts, with_marks};
ghost use Rattle.chem_commit.specs.inside.Parts.{hosted, marked, IsEntry};
ghost use Rattle.chem_commit.specs.inside.Differ.{PlacesDiffer, AtomsDiffer};

use crate::near::place_of;
use chem_model::{AtomId, Atoms, Loc, NumberedAtoms, Placed, PlacedList, same_loc};

// Takes the atom with this number out of the first ones, and answers how many of these are left.
pub(crate) fn take_out(atoms: &mut NumberedAtoms, count: usize, id: AtomId) -> usize
    requires within { count ≤ length atoms.old }
    requires apart { AtomsDiffer (take count atoms.old) }
    ensures left { result ≡ length (without id (take count atoms.old)) }
    ensures out { atoms.new ≡ without id (take count atoms.old) ++ drop count atoms.old }
    ensures apart { AtomsDiffer (take result atoms.new) }
{
    match place_of(atoms, count, id) {
        Some(index) => {
            if index >= count {
                return count;
            }
            atoms.remove(index);
            count - 1
        }
        None => count,
    }
}

// Takes the atoms with these numbers out of the first ones.
pub(crate) fn take_out_all(atoms: &mut NumberedAtoms, count: usize, took: &Atoms)
    requires within { count ≤ length atoms.old }
    requires apart { AtomsDiffer (take count atoms.old) }
    ensures { atoms.new ≡ without_all took.now (take count atoms.old) ++ drop count atoms.old }
{
    let mut left = count;
    for id in took.as_slice() {
        left = take_out(atoms, left, *id);
    }
}

// A location's entry, with another host where it is the entry of this location.
fn hosted(placed: Placed, at: Loc, host: Loc) -> Placed
    ensures { result ≡ hosted at host placed }
{
    if same_loc(placed.loc, at) {
        Placed {
            loc: placed.loc,
            host: Some(host),
            marked: placed.marked,
        }
    } else {
        placed
    }
}

// A location's entry, marked where it is the entry of this location.
fn marked(placed: Placed, at: Loc) -> Placed
    ensures { result ≡ marked at placed }
{
    if same_loc(placed.loc, at) {
        Placed {
            loc: placed.loc,
            host: placed.host,
            marked: true,
        }
    } else {
        placed
    }
}

// Gives a location another host, where it is among the first ones, each entry of which is looked
// at.
fn set_each_host(places: &mut PlacedList, count: usize, at: Loc, host: Loc)
    ensures { places.new ≡ with_hosts at host (take count places.old) ++ drop count places.old }
{
    for index in 0..count {
        if let Some(placed) = places.as_slice().get(index) {
            let changed = hosted(*placed, at, host);
            places.set(index, changed);
        }
    }
}

// Marks a location: each entry is looked at.
fn set_each_mark(places: &mut PlacedList, at: Loc)
    ensures { places.new ≡ with_marks at places.old }
{
    for index in 0..places.len() {
        if let Some(placed) = places.as_slice().get(index) {
            let changed = marked(*placed, at);
            places.set(index, changed);
        }
    }
}

// The entry at this place, where it is a location's.
fn entry_of(places: &PlacedList, place: usize, at: Loc) -> Option<Placed>
    ensures { IfSome result (IsEntry places.now place at) }
{
    match places.as_slice().get(place) {
        Some(placed) => {
            if same_loc(placed.loc, at) {
                Some(*placed)
            } else {
                None
            }
        }
        None => None,
    }
}

// Gives a location another host, where it is among the first ones. It seems to stand at this
// place.
#[tactic(auto, using(crate::proofs::Entries::host_changed))]
pub(crate) fn set_host(places: &mut PlacedList, count: usize, place: usize, at: Loc, host: Loc)
    requires { PlacesDiffer (take count places.old) }
    ensures { places.new ≡ with_hosts at host (take count places.old) ++ drop count places.old }
{
    if place < count {
        if let Some(placed) = entry_of(places, place, at) {
            places.set(place, hosted(placed, at, host));
            return;
        }
    }
    set_each_host(places, count, at, host);
}

// Marks a location. It seems to stand at this place.
#[tactic(auto, using(crate::proofs::Entries::mark_changed))]
pub(crate) fn set_mark(places: &mut PlacedList, place: usize, at: Loc)
    requires { PlacesDiffer places.old }
    ensures { places.new ≡ with_marks at places.old }
{
    match entry_of(places, place, at) {
        Some(placed) => {
            let changed = marked(placed, at);
            places.set(place, changed);
        }
        None => set_each_mark(places, at),
    }
}
