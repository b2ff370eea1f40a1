// An event made in place: first all that takes memory, then what can't fail.
ghost use Rattle.std.specs.Prelude.{◌≡◌, IfOk, OnOk, OnErr, Some, true};
ghost use Rattle.chem_model.specs.Apply.{rule_at, atom_at, react_rule, with_atom, move_atom};
ghost use Rattle.chem_model.specs.Apply.{halt_atom, detect_atom, apply};
ghost use Rattle.chem_model.specs.Sound.{IsSound};
ghost use Rattle.chem_commit.specs.inside.Parts.{moved};
ghost use Rattle.chem_commit.specs.Replaces.{Replaces, takes_memory};

use crate::add::add;
use crate::effect::{Effect, departure, detection, failing, reaction};
use crate::guesses::{Guesses, seeming_place};
use crate::take::{set_host, set_mark, take_out, take_out_all};
use chem_model::{AtomId, Atoms, Event, Memory, Numbered, RuleId};
use std::alloc::Global;

// The messages go, and what the rule pours is there.
fn react(
    alloc: Global,
    solution: &mut Numbered,
    guesses: &Guesses,
    id: RuleId,
    took: &Atoms,
) -> Result<bool, Memory>
    requires { IsSound solution.old }
    ensures done { IfOk result
        (λ made. Replaces (react_rule solution.old took.now (rule_at solution.old.rules id))
        solution.old made solution.new) }
    ensures err { OnErr result (solution.new ≡ solution.old) }
{
    match reaction(alloc, solution, guesses, id, took)? {
        Some(effect) => {
            let count = solution.atoms.len();
            add(solution, effect.root.site, effect.made)?;
            take_out_all(&mut solution.atoms, count, took);
            Ok(true)
        }
        None => Ok(false),
    }
}

// The request goes, its location is under another root, and its continuation is poured there.
fn depart(
    alloc: Global,
    solution: &mut Numbered,
    guesses: &Guesses,
    id: AtomId,
) -> Result<bool, Memory>
    requires { IsSound solution.old }
    ensures done { IfOk result
        (λ made. Replaces (with_atom (atom_at solution.old.atoms id) (move_atom solution.old id))
        solution.old made solution.new) }
    ensures err { OnErr result (solution.new ≡ solution.old) }
{
    match departure(alloc, solution, guesses, id)? {
        Some(effect) => {
            let place = seeming_place(solution, guesses, effect.at);
            go_under(solution, id, place, effect)?;
            Ok(true)
        }
        None => Ok(false),
    }
}

// What the request pours is added, the request goes, and its location, which seems to stand at
// this place, is under the other root.
fn go_under(solution: &mut Numbered, id: AtomId, place: usize, effect: Effect) -> Result<(), Memory>
    requires { IsSound solution.old }
    ensures ok { OnOk result (Some solution.new ≡ moved solution.old id (Some effect)) }
    ensures err { OnErr result (solution.new ≡ solution.old) }
{
    let atoms = solution.atoms.len();
    let places = solution.places.len();
    add(solution, effect.root.site, effect.made)?;
    take_out(&mut solution.atoms, atoms, id);
    set_host(&mut solution.places, places, place, effect.at, effect.root);
    Ok(())
}

// The request goes, and its location is marked.
fn halt(solution: &mut Numbered, guesses: &Guesses, id: AtomId) -> bool
    requires { IsSound solution.old }
    ensures { Replaces (with_atom (atom_at solution.old.atoms id) (halt_atom solution.old id))
        solution.old result solution.new }
{
    match failing(solution, guesses, id) {
        Some(at) => {
            let count = solution.atoms.len();
            let place = seeming_place(solution, guesses, at);
            take_out(&mut solution.atoms, count, id);
            set_mark(&mut solution.places, place, at);
            true
        }
        None => false,
    }
}

// The request goes, and its continuation is poured at its location.
fn detect(
    alloc: Global,
    solution: &mut Numbered,
    guesses: &Guesses,
    id: AtomId,
) -> Result<bool, Memory>
    requires { IsSound solution.old }
    ensures done { IfOk result
        (λ made. Replaces (with_atom (atom_at solution.old.atoms id) (detect_atom solution.old id))
        solution.old made solution.new) }
    ensures err { OnErr result (solution.new ≡ solution.old) }
{
    match detection(alloc, solution, guesses, id)? {
        Some(effect) => {
            let count = solution.atoms.len();
            add(solution, effect.root.site, effect.made)?;
            take_out(&mut solution.atoms, count, id);
            Ok(true)
        }
        None => Ok(false),
    }
}

/// Makes an event in place where it is possible, and answers whether it was. Where it isn't
/// possible, and on want of memory, nothing changes. A halt takes no memory.
pub fn make_event(
    alloc: Global,
    solution: &mut Numbered,
    guesses: &Guesses,
    event: &Event,
) -> Result<bool, Memory>
    requires { IsSound solution.old }
    ensures done { IfOk result
        (λ made. Replaces (apply solution.old event.now) solution.old made solution.new) }
    ensures err { OnErr result (solution.new ≡ solution.old) }
    ensures memory { OnErr result (takes_memory event.now ≡ true) }
{
    match event {
        Event::React { rule, took } => react(alloc, solution, guesses, *rule, took),
        Event::Move { atom } => depart(alloc, solution, guesses, *atom),
        Event::Halt { atom } => {
            let made = halt(solution, guesses, *atom);
            Ok(made)
        }
        Event::Detect { atom } => detect(alloc, solution, guesses, *atom),
    }
}
