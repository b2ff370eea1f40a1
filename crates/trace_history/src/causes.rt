// Why a message or a request is left.
ghost use Rattle.std.specs.Prelude.{◌≡◌, ◌++◌, false};
ghost use Rattle.chem_model.specs.Sound.{IsSound};
ghost use Rattle.chem_model.specs.Each.{IsIn};
ghost use Rattle.chem_causes.specs.Cause.{has_pattern};
ghost use Rattle.chem_causes.specs.Ready.{is_taken_up, is_ready_atom};
ghost use Rattle.chem_causes.specs.Decided.{is_waited_for};
ghost use Rattle.book_store.specs.Older.{whole};
ghost use Rattle.trace_history.specs.Left.{IsLeft, IsLeftAt};

use book_store::{Older, atom_of, can_act, is_ready};
use chem_causes::{Left, cause_by, causes_are_decided, one_waits_for};
use chem_commit::{Guesses, is_live};
use chem_model::{AtomId, Numbered, NumberedAtom, ProcNode, Ref};

// Whether a rule that waits for messages on this channel with this count is ready, and whether one
// waits for them. The second is told where the first isn't so.
fn rules_for(
    numbered: &Numbered,
    guesses: &Guesses,
    older: &Older,
    on: Ref,
    count: usize,
) -> (bool, bool)
    requires { IsSound numbered.now }
    ensures ready { result.0 ≡ is_taken_up (whole older.now.table numbered.now) on count }
    ensures waited { result.0 ≡ false → result.1 ≡ has_pattern numbered.now.rules on count }
{
    let mut waited = false;
    for rule in numbered.rules.as_slice() {
        if one_waits_for(&rule.pats, on, count) {
            if is_ready(numbered, guesses, older, rule) {
                return (true, true);
            }
            waited = true;
        }
    }
    (false, waited)
}

// The same of an atom: whether an event is possible that takes it, and whether a rule waits for
// its like.
fn found_of(
    numbered: &Numbered,
    guesses: &Guesses,
    older: &Older,
    atom: &NumberedAtom,
) -> (bool, bool)
    requires { IsSound numbered.now }
    ensures ready { result.0 ≡
        is_ready_atom (whole older.now.table numbered.now) atom.now atom.now.term }
    ensures waited { result.0 ≡ false → result.1 ≡ is_waited_for numbered.now.rules atom.now.term }
{
    match atom.term.node() {
        ProcNode::Msg { on, args } => rules_for(numbered, guesses, older, *on, args.len()),
        ProcNode::Go { .. } => (can_act(numbered, guesses, atom), false),
        ProcNode::Fail { .. } => (can_act(numbered, guesses, atom), false),
        ProcNode::Halt => (can_act(numbered, guesses, atom), false),
        ProcNode::Par(_) => (false, false),
        ProcNode::Def { .. } => (false, false),
    }
}

// An atom that is left, and why.
fn left_of(numbered: &Numbered, guesses: &Guesses, older: &Older, atom: &NumberedAtom) -> Left
    requires all { IsSound (whole older.now.table numbered.now) }
    requires sound { IsSound numbered.now }
    requires there { IsIn atom.now (older.now.table ++ numbered.now.atoms) }
    ensures { IsLeft (whole older.now.table numbered.now) atom.now result }
{
    causes_are_decided();
    let live = is_live(numbered, guesses, atom.loc);
    let (ready, waited) = found_of(numbered, guesses, older, atom);
    Left {
        atom: atom.id,
        loc: atom.loc,
        cause: cause_by(live, ready, waited, atom.loc, &atom.term),
    }
}

// The message or request with this number, and why it is left. It takes no memory.
pub(crate) fn left_at(
    numbered: &Numbered,
    guesses: &Guesses,
    older: &Older,
    id: AtomId,
) -> Option<Left>
    requires all { IsSound (whole older.now.table numbered.now) }
    requires sound { IsSound numbered.now }
    ensures { IsLeftAt (whole older.now.table numbered.now) id result }
{
    match atom_of(numbered, older, id) {
        Some(atom) => Some(left_of(numbered, guesses, older, atom)),
        None => None,
    }
}
