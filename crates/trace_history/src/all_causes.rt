// Why each message and each request is left, by tables of channels: a walk over the messages, one
// over the rules, and one over the messages and requests.
ghost use Rattle.std.specs.Prelude.{◌≡◌, ◌++◌, ◌&&◌, [], false, map, IfOk, OnOk};
ghost use Rattle.chem_causes.specs.declared.cause.Left.{Left};
ghost use Rattle.std.specs.List.{list_any};
ghost use Rattle.chem_model.specs.Sound.{IsSound};
ghost use Rattle.chem_model.specs.Each.{IsIn};
ghost use Rattle.chem_causes.specs.Cause.{has_pattern, waits_for};
ghost use Rattle.chem_causes.specs.Ready.{is_taken_up, is_ready_atom};
ghost use Rattle.chem_causes.specs.Channels.{Adds, is_on};
ghost use Rattle.chem_causes.specs.Decided.{is_waited_for, HasMessages};
ghost use Rattle.book_store.specs.Older.{whole};
ghost use Rattle.trace_history.specs.inside.Causes.{is_found, Covers, AreSorted, AreFound};
ghost use Rattle.trace_history.specs.Left.{IsLeft, AreLeft};

use book_store::{AtomTable, Older, can_act};
use chem_causes::{
    Channels, Left, LeftTable, Lefts, cause_by, causes_are_decided, channels_tell_what_is_met,
};
use chem_commit::{Guesses, is_live};
use chem_model::{Atoms, Items, Memory, Numbered, NumberedAtom, NumberedRule, ProcNode, Ref};
use std::alloc::Global;

// The channels that rules wait for, and those for which one of these rules is ready, each with a
// count.
#[derive(Drop)]
pub(crate) struct Sorted {
    pub(crate) waited: Channels,
    pub(crate) ready: Channels,
}

// Adds the channel of each message of a table.
fn add_table(met: &mut Channels, table: &AtomTable) -> Result<(), Memory>
    ensures { OnOk result (Adds (λ y d. list_any (λ a. is_on y d a.term) table.now)
        met.old.keys.keys met.new.keys.keys) }
{
    for atom in table.values() {
        met.add_message(&atom.term)?;
    }
    Ok(())
}

// The channels that have a message.
fn met_channels(alloc: Global, numbered: &Numbered, older: &Older) -> Result<Channels, Memory>
    ensures { IfOk result (λ met.
        HasMessages (older.now.table ++ numbered.now.atoms) met.keys.keys) }
{
    let mut met = Channels::new(alloc);
    add_table(&mut met, &older.table)?;
    met.add_messages(numbered.atoms.as_slice())?;
    Ok(met)
}

// Adds what a rule waits for, and where it is ready adds it to the channels for which one is.
fn sort_rule(
    numbered: &Numbered,
    guesses: &Guesses,
    met: &Channels,
    rule: &NumberedRule,
    sorted: &mut Sorted,
) -> Result<(), Memory>
    requires sound { IsSound numbered.now }
    ensures waited { OnOk result (Adds (λ y d. list_any (waits_for y d) rule.now.pats)
        sorted.old.waited.keys.keys sorted.new.waited.keys.keys) }
    ensures ready { OnOk result (Adds (λ y d. list_any (waits_for y d) rule.now.pats
        && is_found met.now.keys.keys numbered.now rule.now)
        sorted.old.ready.keys.keys sorted.new.ready.keys.keys) }
{
    sorted.waited.add_patterns(&rule.pats)?;
    if is_live(numbered, guesses, rule.loc) && met.has_all(&rule.pats) {
        sorted.ready.add_patterns(&rule.pats)?;
    }
    Ok(())
}

// What rules wait for, and for what one of them is ready.
fn sort_rules(
    alloc: Global,
    numbered: &Numbered,
    guesses: &Guesses,
    met: &Channels,
) -> Result<Sorted, Memory>
    requires sound { IsSound numbered.now }
    ensures { IfOk result (λ sorted. AreFound met.now.keys.keys numbered.now
        sorted.waited.keys.keys sorted.ready.keys.keys) }
{
    let mut sorted = Sorted {
        waited: Channels::new(alloc),
        ready: Channels::new(alloc),
    };
    for rule in numbered.rules.as_slice() {
        sort_rule(numbered, guesses, met, rule, &mut sorted)?;
    }
    Ok(sorted)
}

// Whether a rule that waits for messages on this channel with this count is ready, and whether one
// waits for them.
fn found_for(
    numbered: &Numbered,
    older: &Older,
    sorted: &Sorted,
    on: Ref,
    count: usize,
) -> (bool, bool)
    requires all { IsSound (whole older.now.table numbered.now) }
    requires sorted { AreSorted (whole older.now.table numbered.now)
        sorted.now.waited.keys.keys sorted.now.ready.keys.keys }
    ensures ready { result.0 ≡ is_taken_up (whole older.now.table numbered.now) on count }
    ensures waited { result.1 ≡ has_pattern numbered.now.rules on count }
{
    let ready = sorted.ready.has(on, count);
    let waited = sorted.waited.has(on, count);
    (ready, waited)
}

// Whether an event is possible that takes an atom, and whether a rule waits for its like.
fn found_by(
    numbered: &Numbered,
    guesses: &Guesses,
    older: &Older,
    sorted: &Sorted,
    atom: &NumberedAtom,
) -> (bool, bool)
    requires all { IsSound (whole older.now.table numbered.now) }
    requires sound { IsSound numbered.now }
    requires sorted { AreSorted (whole older.now.table numbered.now)
        sorted.now.waited.keys.keys sorted.now.ready.keys.keys }
    ensures ready { result.0 ≡
        is_ready_atom (whole older.now.table numbered.now) atom.now atom.now.term }
    ensures waited { result.0 ≡ false → result.1 ≡ is_waited_for numbered.now.rules atom.now.term }
{
    match atom.term.node() {
        ProcNode::Msg { on, args } => found_for(numbered, older, sorted, *on, args.len()),
        ProcNode::Go { .. } => (can_act(numbered, guesses, atom), false),
        ProcNode::Fail { .. } => (can_act(numbered, guesses, atom), false),
        ProcNode::Halt => (can_act(numbered, guesses, atom), false),
        ProcNode::Par(_) => (false, false),
        ProcNode::Def { .. } => (false, false),
    }
}

// An atom that is left, and why.
fn left_by(
    numbered: &Numbered,
    guesses: &Guesses,
    older: &Older,
    sorted: &Sorted,
    atom: &NumberedAtom,
) -> Left
    requires all { IsSound (whole older.now.table numbered.now) }
    requires sound { IsSound numbered.now }
    requires sorted { AreSorted (whole older.now.table numbered.now)
        sorted.now.waited.keys.keys sorted.now.ready.keys.keys }
    requires there { IsIn atom.now (older.now.table ++ numbered.now.atoms) }
    ensures { IsLeft (whole older.now.table numbered.now) atom.now result }
{
    causes_are_decided();
    let live = is_live(numbered, guesses, atom.loc);
    let (ready, waited) = found_by(numbered, guesses, older, sorted, atom);
    Left {
        atom: atom.id,
        loc: atom.loc,
        cause: cause_by(live, ready, waited, atom.loc, &atom.term),
    }
}

// Files each of the older messages.
fn file_older(
    numbered: &Numbered,
    guesses: &Guesses,
    older: &Older,
    sorted: &Sorted,
    lefts: &mut LeftTable,
) -> Result<(), Memory>
    requires all { IsSound (whole older.now.table numbered.now) }
    requires sound { IsSound numbered.now }
    requires sorted { AreSorted (whole older.now.table numbered.now)
        sorted.now.waited.keys.keys sorted.now.ready.keys.keys }
    requires none { lefts.old ≡ [] }
    ensures { OnOk result (Covers (whole older.now.table numbered.now) older.now.table lefts.new) }
{
    for atom in older.table.values() {
        let left = left_by(numbered, guesses, older, sorted, atom);
        lefts.insert(left)?;
    }
    Ok(())
}

// Files each of the newest messages and requests.
fn file_newest(
    numbered: &Numbered,
    guesses: &Guesses,
    older: &Older,
    sorted: &Sorted,
    lefts: &mut LeftTable,
) -> Result<(), Memory>
    requires all { IsSound (whole older.now.table numbered.now) }
    requires sound { IsSound numbered.now }
    requires sorted { AreSorted (whole older.now.table numbered.now)
        sorted.now.waited.keys.keys sorted.now.ready.keys.keys }
    requires covers { Covers (whole older.now.table numbered.now) older.now.table lefts.old }
    ensures { OnOk result (Covers (whole older.now.table numbered.now)
        (older.now.table ++ numbered.now.atoms) lefts.new) }
{
    for atom in numbered.atoms.as_slice() {
        let left = left_by(numbered, guesses, older, sorted, atom);
        lefts.insert(left)?;
    }
    Ok(())
}

// Every message and request, by rising number, and why it is left.
pub(crate) fn all_left(
    alloc: Global,
    numbered: &Numbered,
    guesses: &Guesses,
    older: &Older,
) -> Result<Lefts, Memory>
    requires all { IsSound (whole older.now.table numbered.now) }
    requires sound { IsSound numbered.now }
    ensures { IfOk result (AreLeft (whole older.now.table numbered.now)) }
{
    channels_tell_what_is_met();
    let met = met_channels(alloc, numbered, older)?;
    let sorted = sort_rules(alloc, numbered, guesses, &met)?;
    let mut lefts = LeftTable::new(alloc);
    file_older(numbered, guesses, older, &sorted, &mut lefts)?;
    file_newest(numbered, guesses, older, &sorted, &mut lefts)?;
    lefts.to_lefts(alloc)
}

// The numbers of what is left, in order.
pub(crate) fn ids_of(alloc: Global, lefts: &[Left]) -> Result<Atoms, Memory>
    ensures { IfOk result (λ ids. ids ≡ map (λ (l : Left). l.atom) lefts.now) }
{
    let mut ids = Items::new(alloc);
    for left in lefts {
        ids.push(left.atom)?;
    }
    Ok(ids)
}
