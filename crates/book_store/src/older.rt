// Older messages and requests apart from the newest ones: found by their numbers, and the least
// message on a channel by keys in order.
ghost use Rattle.std.specs.Prelude.{◌≡◌, ◌⊎◌, [], Some, None, true, OnOk, OnErr};
ghost use Rattle.std.specs.Option.{option_copied};
ghost use Rattle.chem_model.specs.Each.{IsIn};
ghost use Rattle.chem_model.specs.Apply.{atom_at, without};
ghost use Rattle.chem_causes.specs.Ready.{receives};
ghost use Rattle.book_store.specs.Walk.{IsFirstOf, walk};
ghost use Rattle.book_store.specs.Older.{are_queued, atom_before, find_at};
ghost use Rattle.book_store.specs.Keys.{Key as TheKey, KeepsKeys, channel_of};
ghost use Rattle.book_store.specs.Asked.{KeepsBut};
ghost use Rattle.book_store.specs.inside.Table.{Adds};

use crate::keys::{Key, add_key, channel_of, drop_key, number_of};
use crate::table::AtomTable;
use chem_model::{AtomId, Loc, Memory, NumberedAtom, Pat};
use chem_plain::meets;
use std::alloc::Global;
use std::collections::BTreeSet;
use std::collections::btree_set::Range;
use std::ops::Bound;

/// Messages and requests by their numbers, and for each message a key: the number of its channel,
/// and then its own. Keys of other messages may be among these.
#[derive(Drop)]
pub struct Older {
    pub table: AtomTable,
    pub keys: BTreeSet<Key>,
    ghost queued: { are_queued table keys.keys ≡ true },
}

// The key of a message goes. A request has none.
fn forget_key(keys: &mut BTreeSet<Key>, atom: &NumberedAtom)
    ensures kept { KeepsBut atom.now.id keys.old.keys keys.new.keys }
    ensures fewer { KeepsKeys keys.new.keys keys.old.keys }
{
    match channel_of(&atom.term) {
        Some(channel) => drop_key(keys, (channel, (atom.id.site, atom.id.k))),
        None => {}
    }
}

impl Older {
    // None.
    pub(crate) fn new(alloc: Global) -> Older
        ensures table { result.table ≡ [] }
        ensures keys { result.keys.keys ≡ [] }
    {
        Older {
            table: AtomTable::new(alloc),
            keys: BTreeSet::new(alloc),
        }
    }

    // Adds a message of the channel with this number. On want of memory it isn't there, but its key
    // may be.
    pub(crate) fn add_message(&mut self, channel: u64, atom: NumberedAtom) -> Result<(), Memory>
        requires absent { atom_at self.old.table atom.id ≡ None }
        requires channel { channel_of atom.term ≡ Some channel }
        ensures ok { OnOk result (Adds atom self.old.table self.new.table) }
        ensures err { OnErr result (self.new.table ≡ self.old.table) }
        ensures only { (k : TheKey) → IsIn k self.new.keys.keys
            → (k ≡ (channel, (atom.id.site, atom.id.k))) ⊎ IsIn k self.old.keys.keys }
    {
        self.table.are_different();
        add_key(&mut self.keys, (channel, (atom.id.site, atom.id.k)))?;
        self.table.insert(atom)
    }

    // Adds a request. On want of memory nothing changes.
    pub(crate) fn add_request(&mut self, atom: NumberedAtom) -> Result<(), Memory>
        requires absent { atom_at self.old.table atom.id ≡ None }
        requires channel { channel_of atom.term ≡ None }
        ensures ok { OnOk result (Adds atom self.old.table self.new.table) }
        ensures err { OnErr result (self.new.table ≡ self.old.table) }
        ensures keys { self.new.keys.keys ≡ self.old.keys.keys }
    {
        self.table.are_different();
        self.table.insert(atom)
    }

    // Takes the one with this number out. It takes no memory.
    pub(crate) fn remove(&mut self, id: AtomId) -> Option<NumberedAtom>
        ensures found { result ≡ atom_at self.old.table id }
        ensures left { self.new.table ≡ without id self.old.table }
        ensures fewer { KeepsKeys self.new.keys.keys self.old.keys.keys }
    {
        self.table.are_different();
        match self.table.remove(id) {
            Some(atom) => {
                forget_key(&mut self.keys, &atom);
                Some(atom)
            }
            None => None,
        }
    }
}

// The message with this number, where the pattern receives it at the location.
fn found_at<'a>(older: &'a Older, at: Loc, pat: &Pat, id: AtomId) -> Option<&'a NumberedAtom>
    ensures { option_copied result ≡ find_at at pat.now older.now.table (0, (id.site, id.k)) }
{
    match older.table.get(id) {
        Some(atom) => {
            if meets(at, pat, atom) {
                Some(atom)
            } else {
                None
            }
        }
        None => None,
    }
}

// The message for which the first key stands that stands for one that is received.
fn walk<'a>(keys: Range<'_, Key>, older: &'a Older, at: Loc, pat: &Pat) -> Option<&'a NumberedAtom>
    ensures { option_copied result ≡ walk (find_at at pat.now older.now.table) keys.entry }
{
    for key in keys {
        let id = AtomId {
            site: key.1.0,
            k: key.1.1,
        };
        match found_at(older, at, pat, id) {
            Some(atom) => return Some(atom),
            None => {}
        }
    }
    None
}

/// The message with the least number, of the older ones, that a pattern receives at a location. It
/// looks at those of the channel alone, and takes no memory.
pub fn first_older<'a>(older: &'a Older, at: Loc, pat: &Pat) -> Option<&'a NumberedAtom>
    ensures { IsFirstOf (receives at pat.now) atom_before older.now.table (option_copied result) }
{
    if older.keys.is_empty() {
        return None;
    }
    older.table.are_different();
    let number = number_of(pat.on);
    let keys = older.keys.range((
        Bound::Included((number, (0, 0))),
        Bound::Excluded((number + 1, (0, 0))),
    ));
    walk(keys, older, at, pat)
}
