// What a book keeps beside its plain lists: older messages and requests, and what may be possible.
ghost use Rattle.std.specs.Prelude.{◌≡◌, ◌≤◌, ◌^◌, Some, None, OnOk, OnErr, true};
ghost use Rattle.chem_model.specs.declared.event.AtomId.{AtomId as Id};
ghost use Rattle.chem_model.specs.Apply.{atom_at, falls};
ghost use Rattle.chem_model.specs.Each.{IsIn};
ghost use Rattle.chem_model.specs.Numbered.{standing};
ghost use Rattle.chem_model.specs.Sound.{IsSound};
ghost use Rattle.book_store.specs.Older.{whole, takes};
ghost use Rattle.book_store.specs.Keys.{channel_of};
ghost use Rattle.book_store.specs.Asked.{AreCalled, KeepsAskingBut};
ghost use Rattle.book_store.specs.inside.Table.{Adds};
ghost use Rattle.book_store.specs.Stored.{IsStored, IsStoredAfter, Moves, IsEmpty, AreGone, IsSent};
ghost use Rattle.book_store.specs.Stored.{move_of, halt_of};

use crate::asking::{Asking, ask, call, forget, goal, tidy_requests};
use crate::candidates::send_candidates;
use crate::keys::channel_of;
use crate::older::Older;
use crate::waiting::{Waiting, free_channel, note_rules, tidy_rules};
use chem_commit::{Guesses, falls, find_rule, root_of};
use chem_model::{AtomId, Atoms, Event, Loc, Memory, Numbered, NumberedAtom};
use chem_plain::atom_at;
use std::alloc::Global;

/// Messages and requests that were set apart, which rules and requests to look at, and whether
/// events are searched for.
#[derive(Drop)]
pub struct Store {
    pub older: Older,
    pub waiting: Waiting,
    pub asking: Asking,
    pub searched: bool,
}

// From so many newest messages and requests on, they are set apart: few where there are many rules,
// since a search looks at the rules that are filed at the channel of each; and more of them where
// no event is searched for, since what is taken soon is then never set apart.
const MOST: usize = 8;

const MOST_OF_FEW: usize = 64;

const MOST_UNSEARCHED: usize = 128;

const FEW_RULES: usize = 4;

impl Store {
    /// Nothing, where events are searched for. It takes no memory.
    pub fn new(alloc: Global) -> Store
        ensures { IsEmpty result }
    {
        Store {
            older: Older::new(alloc),
            waiting: Waiting::new(alloc),
            asking: Asking::new(alloc),
            searched: true,
        }
    }
}

// A message becomes an older one: the rules that are filed at its channel are filed elsewhere.
fn settle_message(
    alloc: Global,
    store: &mut Store,
    solution: &Numbered,
    guesses: &Guesses,
    atom: &NumberedAtom,
    channel: u64,
) -> Result<(), Memory>
    requires sound { IsSound (whole store.old.older.table solution.now) }
    requires base { IsSound solution.now }
    requires there { IsIn atom.now solution.now.atoms }
    requires channel { channel_of atom.now.term ≡ Some channel }
    requires small { channel ≤ 2 ^ 63 }
    requires stored { IsStored solution.now store.old }
    ensures stored { IsStored solution.now store.new }
    ensures ok { OnOk result (Adds atom.now store.old.older.table store.new.older.table) }
    ensures err { OnErr result (store.new.older.table ≡ store.old.older.table) }
{
    let copy = atom.copy(alloc)?;
    free_channel(
        alloc,
        &mut store.waiting,
        solution,
        guesses,
        &store.older,
        channel,
    )?;
    store.older.add_message(channel, copy)
}

// A request becomes an older one.
fn settle_request(
    alloc: Global,
    store: &mut Store,
    solution: &Numbered,
    guesses: &Guesses,
    atom: &NumberedAtom,
) -> Result<(), Memory>
    requires sound { IsSound (whole store.old.older.table solution.now) }
    requires base { IsSound solution.now }
    requires there { IsIn atom.now solution.now.atoms }
    requires channel { channel_of atom.now.term ≡ None }
    requires stored { IsStored solution.now store.old }
    ensures stored { IsStored solution.now store.new }
    ensures ok { OnOk result (Adds atom.now store.old.older.table store.new.older.table) }
    ensures err { OnErr result (store.new.older.table ≡ store.old.older.table) }
{
    let copy = atom.copy(alloc)?;
    ask(&mut store.asking, solution, guesses, atom)?;
    store.older.add_request(copy)
}

// A message or a request becomes an older one.
fn settle_atom(
    alloc: Global,
    store: &mut Store,
    solution: &Numbered,
    guesses: &Guesses,
    atom: &NumberedAtom,
) -> Result<(), Memory>
    requires sound { IsSound (whole store.old.older.table solution.now) }
    requires base { IsSound solution.now }
    requires there { IsIn atom.now solution.now.atoms }
    requires stored { IsStored solution.now store.old }
    ensures stored { IsStored solution.now store.new }
    ensures ok { OnOk result (Adds atom.now store.old.older.table store.new.older.table) }
    ensures err { OnErr result (store.new.older.table ≡ store.old.older.table) }
{
    match channel_of(&atom.term) {
        Some(channel) => settle_message(alloc, store, solution, guesses, atom, channel),
        None => settle_request(alloc, store, solution, guesses, atom),
    }
}

// The message or request at this place of the newest ones becomes an older one.
fn settle_one(
    alloc: Global,
    store: &mut Store,
    solution: &mut Numbered,
    guesses: &Guesses,
    index: usize,
) -> Result<(), Memory>
    requires sound { IsSound (whole store.old.older.table solution.old) }
    requires stored { IsStored solution.old store.old }
    ensures stored { IsStored solution.new store.new }
    ensures moves { Moves solution.old store.old solution.new store.new }
{
    match solution.atoms.as_slice().get(index) {
        Some(atom) => {
            settle_atom(alloc, store, solution, guesses, atom)?;
            solution.atoms.remove(index);
            Ok(())
        }
        None => Ok(()),
    }
}

// How many newest messages and requests are set apart.
fn most_newest(solution: &Numbered, searched: bool) -> usize {
    if !searched {
        MOST_UNSEARCHED
    } else if solution.rules.len() < FEW_RULES {
        MOST_OF_FEW
    } else {
        MOST
    }
}

// Where there are many newest messages and requests, these become older ones.
fn settle(
    alloc: Global,
    store: &mut Store,
    solution: &mut Numbered,
    guesses: &Guesses,
) -> Result<(), Memory>
    requires sound { IsSound (whole store.old.older.table solution.old) }
    requires stored { IsStored solution.old store.old }
    ensures stored { IsStored solution.new store.new }
    ensures moves { Moves solution.old store.old solution.new store.new }
{
    let most = most_newest(solution, store.searched);
    if solution.atoms.len() < most {
        return Ok(());
    }
    let mut left = solution.atoms.len();
    while left > 0 {
        left -= 1;
        settle_one(alloc, store, solution, guesses, left)?;
    }
    Ok(())
}

// What is kept of a request at this site goes, since it leaves the older ones. Of a message nothing
// is kept.
fn forget_one(asking: &mut Asking, site: u32, atom: &NumberedAtom)
    ensures { KeepsAskingBut atom.now.id asking.old asking.new }
{
    match channel_of(&atom.term) {
        Some(_) => {}
        None => forget(asking, site, atom),
    }
}

// The message or request with this number becomes one of the newest.
fn bring_one(
    alloc: Global,
    store: &mut Store,
    solution: &mut Numbered,
    guesses: &Guesses,
    id: AtomId,
) -> Result<(), Memory>
    requires sound { IsSound (whole store.old.older.table solution.old) }
    requires stored { IsStored solution.old store.old }
    ensures stored { IsStored solution.new store.new }
    ensures moves { Moves solution.old store.old solution.new store.new }
    ensures gone { OnOk result (atom_at store.new.older.table id ≡ None) }
    ensures fewer { (i : Id) → atom_at store.old.older.table i ≡ None
        → atom_at store.new.older.table i ≡ None }
{
    match store.older.table.get(id) {
        Some(atom) => {
            let copy = atom.copy(alloc)?;
            let site = root_of(solution, guesses, atom.loc).site;
            solution.atoms.push(copy)?;
            match store.older.remove(id) {
                Some(atom) => {
                    forget_one(&mut store.asking, site, &atom);
                    Ok(())
                }
                None => Ok(()),
            }
        }
        None => Ok(()),
    }
}

// The messages with these numbers become newest ones.
fn bring_all(
    alloc: Global,
    store: &mut Store,
    solution: &mut Numbered,
    guesses: &Guesses,
    took: &Atoms,
) -> Result<(), Memory>
    requires sound { IsSound (whole store.old.older.table solution.old) }
    requires stored { IsStored solution.old store.old }
    ensures stored { IsStored solution.new store.new }
    ensures moves { Moves solution.old store.old solution.new store.new }
    ensures gone { OnOk result (AreGone store.new took.now) }
{
    for id in took.as_slice() {
        bring_one(alloc, store, solution, guesses, *id)?;
    }
    Ok(())
}

// What an event takes becomes one of the newest.
fn bring(
    alloc: Global,
    store: &mut Store,
    solution: &mut Numbered,
    guesses: &Guesses,
    event: &Event,
) -> Result<(), Memory>
    requires sound { IsSound (whole store.old.older.table solution.old) }
    requires stored { IsStored solution.old store.old }
    ensures stored { IsStored solution.new store.new }
    ensures moves { Moves solution.old store.old solution.new store.new }
    ensures gone { OnOk result (AreGone store.new (takes event.now)) }
{
    match event {
        Event::React { took, .. } => bring_all(alloc, store, solution, guesses, took),
        Event::Move { atom } => bring_one(alloc, store, solution, guesses, *atom),
        Event::Halt { atom } => bring_one(alloc, store, solution, guesses, *atom),
        Event::Detect { atom } => bring_one(alloc, store, solution, guesses, *atom),
    }
}

// Where the location falls, those that wait for it are candidates.
fn call_fallen(
    alloc: Global,
    store: &mut Store,
    solution: &Numbered,
    guesses: &Guesses,
    at: Loc,
    to: Loc,
) -> Result<(), Memory>
    requires sound { IsSound (whole store.old.older.table solution.now) }
    requires base { IsSound solution.now }
    requires stored { IsStored solution.now store.old }
    ensures stored { IsStored solution.now store.new }
    ensures older { store.new.older ≡ store.old.older }
    ensures called { OnOk result (falls solution.now at to ≡ true
        → AreCalled solution.now.version (standing solution.now.places) store.new.asking at
        store.new.older.table) }
{
    if falls(solution, guesses, at, to) {
        let older = &store.older;
        call(
            alloc,
            &mut store.asking,
            solution,
            guesses,
            &older.table,
            at,
        )
    } else {
        Ok(())
    }
}

// Before a location goes elsewhere its candidates are candidates there; and where it falls, those
// that wait for it are candidates.
fn send(
    alloc: Global,
    store: &mut Store,
    solution: &Numbered,
    guesses: &Guesses,
    at: Loc,
    to: Loc,
) -> Result<(), Memory>
    requires sound { IsSound (whole store.old.older.table solution.now) }
    requires base { IsSound solution.now }
    requires stored { IsStored solution.now store.old }
    ensures stored { IsStored solution.now store.new }
    ensures older { store.new.older ≡ store.old.older }
    ensures sent { OnOk result (IsSent solution.now store.new at to) }
{
    call_fallen(alloc, store, solution, guesses, at, to)?;
    send_candidates(alloc, &mut store.waiting.ready, at, to.site)?;
    send_candidates(alloc, &mut store.asking.ready, at, to.site)
}

// Readies what is kept for the move that this request asks for.
fn ready_move(
    alloc: Global,
    store: &mut Store,
    solution: &Numbered,
    guesses: &Guesses,
    id: AtomId,
) -> Result<(), Memory>
    requires sound { IsSound (whole store.old.older.table solution.now) }
    requires base { IsSound solution.now }
    requires stored { IsStored solution.now store.old }
    ensures stored { IsStored solution.now store.new }
    ensures older { store.new.older ≡ store.old.older }
    ensures after { OnOk result (IsStoredAfter solution.now (move_of id) store.new) }
{
    match atom_at(&solution.atoms, id) {
        Some(atom) => match goal(&atom.term) {
            Some(to) => send(alloc, store, solution, guesses, atom.loc, to),
            None => Ok(()),
        },
        None => Ok(()),
    }
}

// Readies what is kept for the death of the location of this request.
fn ready_halt(
    alloc: Global,
    store: &mut Store,
    solution: &Numbered,
    guesses: &Guesses,
    id: AtomId,
) -> Result<(), Memory>
    requires sound { IsSound (whole store.old.older.table solution.now) }
    requires base { IsSound solution.now }
    requires stored { IsStored solution.now store.old }
    ensures stored { IsStored solution.now store.new }
    ensures older { store.new.older ≡ store.old.older }
    ensures after { OnOk result (IsStoredAfter solution.now (halt_of id) store.new) }
{
    match atom_at(&solution.atoms, id) {
        Some(atom) => {
            let older = &store.older;
            call(
                alloc,
                &mut store.asking,
                solution,
                guesses,
                &older.table,
                atom.loc,
            )
        }
        None => Ok(()),
    }
}

// Readies what is kept for an event.
fn ready_for(
    alloc: Global,
    store: &mut Store,
    solution: &Numbered,
    guesses: &Guesses,
    event: &Event,
) -> Result<(), Memory>
    requires sound { IsSound (whole store.old.older.table solution.now) }
    requires base { IsSound solution.now }
    requires stored { IsStored solution.now store.old }
    ensures stored { IsStored solution.now store.new }
    ensures older { store.new.older ≡ store.old.older }
    ensures after { OnOk result (IsStoredAfter solution.now event.now store.new) }
{
    match event {
        Event::React { .. } => Ok(()),
        Event::Move { atom } => ready_move(alloc, store, solution, guesses, *atom),
        Event::Halt { atom } => ready_halt(alloc, store, solution, guesses, *atom),
        Event::Detect { .. } => Ok(()),
    }
}

/// The rules are noted, and the newest messages and requests are few. On want of memory some of
/// them may not be.
pub fn settle_all(
    alloc: Global,
    store: &mut Store,
    solution: &mut Numbered,
    guesses: &Guesses,
) -> Result<(), Memory>
    requires sound { IsSound (whole store.old.older.table solution.old) }
    requires stored { IsStored solution.old store.old }
    ensures stored { IsStored solution.new store.new }
    ensures moves { Moves solution.old store.old solution.new store.new }
{
    note_rules(&mut store.waiting, solution, guesses, &store.older)?;
    settle(alloc, store, solution, guesses)
}

/// Readies all for an event: the rules are noted, the newest messages and requests are few, and
/// what the event takes is among them. Once it is made nothing has to be done.
pub fn ready(
    alloc: Global,
    store: &mut Store,
    solution: &mut Numbered,
    guesses: &Guesses,
    event: &Event,
) -> Result<(), Memory>
    requires sound { IsSound (whole store.old.older.table solution.old) }
    requires stored { IsStored solution.old store.old }
    ensures stored { IsStored solution.new store.new }
    ensures moves { Moves solution.old store.old solution.new store.new }
    ensures gone { OnOk result (AreGone store.new (takes event.now)) }
    ensures after { OnOk result (IsStoredAfter solution.new event.now store.new) }
{
    settle_all(alloc, store, solution, guesses)?;
    bring(alloc, store, solution, guesses, event)?;
    ready_for(alloc, store, solution, guesses, event)
}

// The site of the root above the location of a request.
fn site_of_request(solution: &Numbered, guesses: &Guesses, id: AtomId) -> u32
    requires { IsSound solution.now }
{
    match atom_at(&solution.atoms, id) {
        Some(atom) => root_of(solution, guesses, atom.loc).site,
        None => 0,
    }
}

/// The site of the root above the location at which an event is, where there are candidates at all.
pub fn site_of(store: &Store, solution: &Numbered, guesses: &Guesses, event: &Event) -> u32
    requires { IsSound solution.now }
{
    if store.waiting.ready.sites.is_empty() && store.asking.ready.sites.is_empty() {
        return 0;
    }
    match event {
        Event::React { rule, .. } => match find_rule(solution, guesses, *rule) {
            Some(rule) => root_of(solution, guesses, rule.loc).site,
            None => 0,
        },
        Event::Move { atom } => site_of_request(solution, guesses, *atom),
        Event::Halt { atom } => site_of_request(solution, guesses, *atom),
        Event::Detect { atom } => site_of_request(solution, guesses, *atom),
    }
}

/// The first candidates of a site that aren't possible any more are none. It takes memory only to
/// file them, and leaves them where there is none.
pub fn tidy(store: &mut Store, solution: &Numbered, guesses: &Guesses, site: u32)
    requires sound { IsSound (whole store.old.older.table solution.now) }
    requires base { IsSound solution.now }
    requires stored { IsStored solution.now store.old }
    ensures stored { IsStored solution.now store.new }
    ensures older { store.new.older ≡ store.old.older }
{
    let older = &store.older;
    tidy_rules(&mut store.waiting, solution, guesses, older, site);
    tidy_requests(&mut store.asking, solution, guesses, &older.table, site);
}
