// Which of the older requests may be met, and for whose failure the others wait.
ghost use Rattle.std.specs.Prelude.{◌≡◌, IfOk, OnOk};
ghost use Rattle.chem_model.specs.Each.{IsIn};
ghost use Rattle.chem_model.specs.Numbered.{standing};
ghost use Rattle.chem_model.specs.Solution.{within};
ghost use Rattle.chem_model.specs.Sound.{IsSound, IsAtom};
ghost use Rattle.book_store.specs.Older.{whole};
ghost use Rattle.book_store.specs.Asked.{goal, awaited, IsAsked, AreAsked, AreCalled, KeepsAsking};
ghost use Rattle.book_store.specs.Asked.{IsCalledAt, HasAllWithin, KeepsBut, KeepsAskingBut};

use crate::candidates::{Candidates, add_candidate, drop_candidate};
use crate::keys::{Key, add_key, all_keys, drop_key, first_with, keys_with, place_number};
use crate::possible::can_act;
use crate::table::AtomTable;
use chem_commit::{Guesses, root_of};
use chem_model::{AtomId, Loc, Memory, Numbered, NumberedAtom, Proc, ProcNode, same_loc};
use chem_plain::location_of;
use std::alloc::Global;
use std::collections::BTreeSet;

/// Those that may be met, and each that waits for a failure by the number of the location.
#[derive(Drop)]
pub struct Asking {
    pub awaits: BTreeSet<Key>,
    pub ready: Candidates,
}

impl Asking {
    // None.
    pub(crate) fn new(alloc: Global) -> Asking {
        Asking {
            awaits: BTreeSet::new(alloc),
            ready: Candidates::new(alloc),
        }
    }
}

// Where a request to move leads.
pub(crate) fn goal(term: &Proc) -> Option<Loc>
    ensures { result ≡ goal term.now }
{
    match term.node() {
        ProcNode::Go { target, .. } => location_of(*target),
        _ => None,
    }
}

// For whose failure a request waits.
fn awaited(term: &Proc) -> Option<Loc>
    ensures { result ≡ awaited term.now }
{
    match term.node() {
        ProcNode::Fail { target, .. } => location_of(*target),
        _ => None,
    }
}

// Whether a location is this one, or is hosted by it.
fn is_within(numbered: &Numbered, guesses: &Guesses, at: Loc, of: Loc) -> bool
    requires { IsSound numbered.now }
    ensures { result ≡ within (standing numbered.now.places) at of }
{
    same_loc(at, of) || same_loc(root_of(numbered, guesses, at), of)
}

// A request that can be met is a candidate, and one that waits for a failure is filed there.
pub(crate) fn ask(
    asking: &mut Asking,
    numbered: &Numbered,
    guesses: &Guesses,
    atom: &NumberedAtom,
) -> Result<(), Memory>
    requires sound { IsSound numbered.now }
    requires there { IsAtom numbered.now atom.now }
    ensures asked { OnOk result
        (IsAsked numbered.now.version (standing numbered.now.places) asking.new atom.now) }
    ensures kept { KeepsAsking asking.old asking.new }
{
    let id = (atom.id.site, atom.id.k);
    if can_act(numbered, guesses, atom) {
        let site = root_of(numbered, guesses, atom.loc).site;
        add_candidate(&mut asking.ready, site, atom.loc, id)
    } else {
        match awaited(&atom.term) {
            Some(of) => add_key(&mut asking.awaits, (place_number(of), id)),
            None => Ok(()),
        }
    }
}

// The request with this number is a candidate, where it waits for the failure of what is within the
// location.
fn call_one(
    asking: &mut Asking,
    numbered: &Numbered,
    guesses: &Guesses,
    table: &AtomTable,
    id: AtomId,
    of: Loc,
) -> Result<(), Memory>
    requires sound { IsSound numbered.now }
    ensures called { OnOk result
        (IsCalledAt (standing numbered.now.places) asking.new of table.now id) }
    ensures kept { KeepsAsking asking.old asking.new }
{
    match table.get(id) {
        Some(atom) => match awaited(&atom.term) {
            Some(target) => {
                if is_within(numbered, guesses, target, of) {
                    let site = root_of(numbered, guesses, atom.loc).site;
                    add_candidate(&mut asking.ready, site, atom.loc, (id.site, id.k))
                } else {
                    Ok(())
                }
            }
            None => Ok(()),
        },
        None => Ok(()),
    }
}

// The keys of all that may wait for what is within the location.
fn keys_within(alloc: Global, asking: &Asking, of: Loc) -> Result<Vec<Key>, Memory>
    ensures { IfOk result (λ list. HasAllWithin of asking.now.awaits.keys list.items) }
{
    if of.k == 0 {
        all_keys(alloc, &asking.awaits)
    } else {
        keys_with(alloc, &asking.awaits, place_number(of))
    }
}

// Those that wait for the failure of what is within the location are candidates.
pub(crate) fn call(
    alloc: Global,
    asking: &mut Asking,
    numbered: &Numbered,
    guesses: &Guesses,
    table: &AtomTable,
    of: Loc,
) -> Result<(), Memory>
    requires sound { IsSound (whole table.now numbered.now) }
    requires base { IsSound numbered.now }
    requires asked { AreAsked numbered.now.version (standing numbered.now.places)
        asking.old table.now }
    ensures called { OnOk result (AreCalled numbered.now.version (standing numbered.now.places)
        asking.new of table.now) }
    ensures kept { KeepsAsking asking.old asking.new }
{
    let waiting = keys_within(alloc, asking, of)?;
    for key in waiting.as_slice() {
        let id = AtomId {
            site: key.1.0,
            k: key.1.1,
        };
        call_one(asking, numbered, guesses, table, id, of)?;
    }
    Ok(())
}

// The key of a request that waits for a failure goes. It takes no memory.
fn forget_awaited(awaits: &mut BTreeSet<Key>, atom: &NumberedAtom)
    ensures { KeepsBut atom.now.id awaits.old.keys awaits.new.keys }
{
    match awaited(&atom.term) {
        Some(of) => drop_key(awaits, (place_number(of), (atom.id.site, atom.id.k))),
        None => {}
    }
}

// What is kept of a request at this site goes, since it leaves the older ones. It takes no memory.
pub(crate) fn forget(asking: &mut Asking, site: u32, atom: &NumberedAtom)
    ensures { KeepsAskingBut atom.now.id asking.old asking.new }
{
    forget_awaited(&mut asking.awaits, atom);
    drop_candidate(&mut asking.ready, site, atom.loc, (atom.id.site, atom.id.k));
}

// Looks at a request again that is a candidate at this site: where it can't be met, it is none any
// more. False where it can, or has to stay one.
fn judge_again(
    asking: &mut Asking,
    numbered: &Numbered,
    guesses: &Guesses,
    table: &AtomTable,
    atom: &NumberedAtom,
    site: u32,
) -> bool
    requires sound { IsSound (whole table.now numbered.now) }
    requires base { IsSound numbered.now }
    requires there { IsIn atom.now table.now }
    requires asked { AreAsked numbered.now.version (standing numbered.now.places)
        asking.old table.now }
    ensures { AreAsked numbered.now.version (standing numbered.now.places)
        asking.new table.now }
{
    if can_act(numbered, guesses, atom) {
        return false;
    }
    let id = (atom.id.site, atom.id.k);
    match awaited(&atom.term) {
        Some(of) => match add_key(&mut asking.awaits, (place_number(of), id)) {
            Ok(()) => {
                drop_candidate(&mut asking.ready, site, atom.loc, id);
                true
            }
            Err(_) => false,
        },
        None => {
            drop_candidate(&mut asking.ready, site, atom.loc, id);
            true
        }
    }
}

// Looks at the candidate with this key again. False where it has to stay one.
fn look_again(
    asking: &mut Asking,
    numbered: &Numbered,
    guesses: &Guesses,
    table: &AtomTable,
    key: Key,
) -> bool
    requires sound { IsSound (whole table.now numbered.now) }
    requires base { IsSound numbered.now }
    requires asked { AreAsked numbered.now.version (standing numbered.now.places)
        asking.old table.now }
    ensures { AreAsked numbered.now.version (standing numbered.now.places)
        asking.new table.now }
{
    let id = AtomId {
        site: key.1.0,
        k: key.1.1,
    };
    match table.get(id) {
        Some(atom) => {
            let site = root_of(numbered, guesses, atom.loc).site;
            if site as u64 == key.0 {
                judge_again(asking, numbered, guesses, table, atom, site)
            } else {
                drop_key(&mut asking.ready.sites, key);
                true
            }
        }
        None => {
            drop_key(&mut asking.ready.sites, key);
            true
        }
    }
}

// The first candidates of a site that can't be met any more are none.
pub(crate) fn tidy_requests(
    asking: &mut Asking,
    numbered: &Numbered,
    guesses: &Guesses,
    table: &AtomTable,
    site: u32,
)
    requires sound { IsSound (whole table.now numbered.now) }
    requires base { IsSound numbered.now }
    requires asked { AreAsked numbered.now.version (standing numbered.now.places)
        asking.old table.now }
    ensures { AreAsked numbered.now.version (standing numbered.now.places)
        asking.new table.now }
{
    let mut left = asking.ready.sites.len();
    while left > 0 {
        left -= 1;
        match first_with(&asking.ready.sites, site as u64) {
            Some(key) => {
                if !look_again(asking, numbered, guesses, table, key) {
                    return;
                }
            }
            None => return,
        }
    }
}
