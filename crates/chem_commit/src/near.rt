// Messages and requests by their numbers: the newest ones are looked at first.
ghost use Rattle.std.specs.Prelude.{◌≡◌, ◌<◌, ◌≤◌, ℕ, length, take, IfOk, IfSome, IsTrue};
ghost use Rattle.std.specs.Option.{option_copied};
ghost use Rattle.chem_model.specs.Apply.{atom_at, received_all};
ghost use Rattle.chem_model.specs.Sound.{IsSound};
ghost use Rattle.chem_commit.specs.inside.Differ.{AtomsDiffer, IsAtomAt, ArePicked};
ghost use Rattle.chem_commit.specs.inside.Parts.{place_from};

use chem_model::{
    AtomId, Atoms, Items, Loc, Memory, Naming, Numbered, NumberedAtom, NumberedAtoms, Pats,
};
use chem_plain::{atom_at, received_all, same_atom};
use std::alloc::Global;

// How many of the newest ones are looked at first.
const NEWEST: usize = 64;

// Whether the one at this place has the number.
fn is_at(atoms: &NumberedAtoms, place: usize, id: AtomId) -> bool
    ensures { IsTrue result → (count : ℕ) → place < count → IsAtomAt atoms.now count id place }
{
    match atoms.as_slice().get(place) {
        Some(atom) => same_atom(atom.id, id),
        None => false,
    }
}

// The place of the one with this number, where it is among the newest of the first ones. The first
// of the newest is looked at first, since what has waited longest is often taken next, and then
// they are gone through from the last one.
fn newest_place(atoms: &NumberedAtoms, count: usize, id: AtomId) -> Option<usize>
    ensures { IfSome result (λ j. IsAtomAt atoms.now count id j) }
{
    let least = count.saturating_sub(NEWEST);
    let mut left = count;
    let mut place = least;
    while left > least {
        if is_at(atoms, place, id) {
            return Some(place);
        }
        left -= 1;
        place = left;
    }
    None
}

// The place of the one with this number, from the first one on.
fn oldest_place(atoms: &NumberedAtoms, id: AtomId) -> Option<usize>
    ensures { result ≡ place_from id 0 atoms.now }
{
    for (index, atom) in atoms.as_slice().iter().enumerate() {
        if same_atom(atom.id, id) {
            return Some(index);
        }
    }
    None
}

// The place of the one with this number. It is likely to be among the newest of the first ones.
pub(crate) fn place_of(atoms: &NumberedAtoms, count: usize, id: AtomId) -> Option<usize>
    requires { AtomsDiffer (take count atoms.now) }
    ensures { result ≡ place_from id 0 atoms.now }
{
    match newest_place(atoms, count, id) {
        Some(place) => Some(place),
        None => oldest_place(atoms, id),
    }
}

// The message or request with this number.
pub(crate) fn atom_of(solution: &Numbered, id: AtomId) -> Option<&NumberedAtom>
    requires { IsSound solution.now }
    ensures { option_copied result ≡ atom_at solution.now.atoms id }
{
    let atoms = &solution.atoms;
    match newest_place(atoms, atoms.len(), id) {
        Some(place) => match atoms.as_slice().get(place) {
            Some(atom) => Some(atom),
            None => atom_at(atoms, id),
        },
        None => atom_at(atoms, id),
    }
}

// Copies of those with these numbers that are there.
fn picked(alloc: Global, solution: &Numbered, took: &Atoms) -> Result<NumberedAtoms, Memory>
    requires { IsSound solution.now }
    ensures { IfOk result (ArePicked solution.now.atoms took.now) }
{
    let mut few = Items::new(alloc);
    for id in took.as_slice() {
        match atom_of(solution, *id) {
            Some(atom) => {
                let copy = atom.copy(alloc)?;
                few.push(copy)?;
            }
            None => {}
        }
    }
    Ok(few)
}

// The names received where there is one message for each pattern, in order, each at the location.
// Where there are many messages, those that are taken are picked first.
pub(crate) fn received_of(
    alloc: Global,
    solution: &Numbered,
    at: Loc,
    pats: &Pats,
    took: &Atoms,
) -> Result<Option<Naming>, Memory>
    requires { IsSound solution.now }
    ensures { IfOk result (λ names. names
        ≡ received_all solution.now.atoms at pats.now took.now) }
{
    if solution.atoms.len() < NEWEST {
        received_all(alloc, &solution.atoms, at, pats, took)
    } else {
        let few = picked(alloc, solution, took)?;
        received_all(alloc, &few, at, pats, took)
    }
}
