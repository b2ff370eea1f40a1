// What is possible where some messages stand apart: an event, a rule, a request. It takes no
// memory.
ghost use Rattle.std.specs.Prelude.{◌≡◌, ◌++◌, is_some};
ghost use Rattle.std.specs.Option.{option_copied};
ghost use Rattle.chem_model.specs.Apply.{atom_at, received_all, apply};
ghost use Rattle.chem_model.specs.Sound.{IsSound};
ghost use Rattle.chem_causes.specs.Ready.{is_met, is_ready, can_act};
ghost use Rattle.book_store.specs.Older.{whole};

use crate::older::{Older, first_older};
use chem_commit::{Guesses, can_detect, can_go, falls, is_live};
use chem_model::{
    AtomId, Atoms, Event, Loc, Numbered, NumberedAtom, NumberedRule, Pat, Pats, ProcNode,
};
use chem_plain::{atom_at, can_be_told, can_halt, can_move, location_of, meets, rule_at};

/// The message or request with this number.
pub fn atom_of<'a>(numbered: &'a Numbered, older: &'a Older, id: AtomId) -> Option<&'a NumberedAtom>
    ensures { option_copied result ≡ atom_at (older.now.table ++ numbered.now.atoms) id }
{
    match older.table.get(id) {
        Some(atom) => Some(atom),
        None => atom_at(&numbered.atoms, id),
    }
}

// Whether there is one message for each pattern, in order, each at the location.
fn meet_all(numbered: &Numbered, older: &Older, at: Loc, pats: &Pats, took: &Atoms) -> bool
    ensures { result ≡ is_some
        (received_all (older.now.table ++ numbered.now.atoms) at pats.now took.now) }
{
    for (index, pat) in pats.as_slice().iter().enumerate() {
        match took.as_slice().get(index) {
            Some(id) => match atom_of(numbered, older, *id) {
                Some(atom) => {
                    if !meets(at, pat, atom) {
                        return false;
                    }
                }
                None => return false,
            },
            None => return false,
        }
    }
    took.len() == pats.len()
}

/// Whether an event is possible. It takes no memory.
pub fn is_possible(numbered: &Numbered, older: &Older, event: &Event) -> bool
    ensures { result ≡ is_some (apply (whole older.now.table numbered.now) event.now) }
{
    match event {
        Event::React { rule, took } => match rule_at(numbered, *rule) {
            Some(rule) => {
                numbered.is_live(rule.loc) && meet_all(numbered, older, rule.loc, &rule.pats, took)
            }
            None => false,
        },
        Event::Move { atom: id } => match atom_of(numbered, older, *id) {
            Some(atom) => can_move(numbered, *id, atom),
            None => false,
        },
        Event::Halt { atom: id } => match atom_of(numbered, older, *id) {
            Some(atom) => can_halt(numbered, *id, atom),
            None => false,
        },
        Event::Detect { atom: id } => match atom_of(numbered, older, *id) {
            Some(atom) => can_be_told(numbered, *id, atom),
            None => false,
        },
    }
}

// Whether a pattern receives one of these at a location. The newest ones are tried first.
fn is_met_by(atoms: &[NumberedAtom], at: Loc, pat: &Pat) -> bool
    ensures { result ≡ is_met atoms.now at pat.now }
{
    let mut left = atoms.len();
    while left > 0 {
        left -= 1;
        if meets(at, pat, &atoms[left]) {
            return true;
        }
    }
    false
}

// Whether a pattern receives a message at a location.
fn is_met(numbered: &Numbered, older: &Older, at: Loc, pat: &Pat) -> bool
    ensures { result ≡ is_met (older.now.table ++ numbered.now.atoms) at pat.now }
{
    if is_met_by(numbered.atoms.as_slice(), at, pat) {
        return true;
    }
    match first_older(older, at, pat) {
        Some(_) => true,
        None => false,
    }
}

/// Whether a rule stands at a live location and each of its patterns receives a message.
pub fn is_ready(numbered: &Numbered, guesses: &Guesses, older: &Older, rule: &NumberedRule) -> bool
    requires { IsSound numbered.now }
    ensures { result ≡ is_ready (whole older.now.table numbered.now) rule.now }
{
    if !is_live(numbered, guesses, rule.loc) {
        return false;
    }
    for pat in rule.pats.as_slice() {
        if !is_met(numbered, older, rule.loc, pat) {
            return false;
        }
    }
    true
}

/// Whether this is a request that can be met.
pub fn can_act(numbered: &Numbered, guesses: &Guesses, atom: &NumberedAtom) -> bool
    requires { IsSound numbered.now }
    ensures { result ≡ can_act numbered.now atom.now }
{
    match atom.term.node() {
        ProcNode::Go { target, .. } => match location_of(*target) {
            Some(to) => {
                can_go(numbered, guesses, atom.loc, to) || falls(numbered, guesses, atom.loc, to)
            }
            None => false,
        },
        ProcNode::Halt => is_live(numbered, guesses, atom.loc),
        ProcNode::Fail { target, .. } => match location_of(*target) {
            Some(of) => can_detect(numbered, guesses, atom.loc, of),
            None => false,
        },
        _ => false,
    }
}
