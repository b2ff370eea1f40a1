//! What is done behind the locks, on plain values: nothing here takes a lock or waits.
ghost use Rattle.std.specs.Prelude.{◌≡◌, ◌<◌, ◌↔◌, None, IsTrue, length, map, IfOk};
ghost use Rattle.chem_model.specs.Each.{Each};
ghost use Rattle.shared_net.specs.Agrees.{row_of, all_receipts, Agrees};
ghost use Rattle.shared_net.specs.Causes.{DifferInNumber};
ghost use Rattle.shared_net.specs.Causes.{Compares};
ghost use Rattle.shared_net.specs.inside.Walk.{slot_at, Looks, LooksAll, Marks};

pub use crate::across::make_across;
use crate::differs::Differs;
pub use crate::here::make_here;
use crate::locked::Locked;
use crate::pass::Passes;
pub use crate::preparing::prepare;
use crate::receipt::Receipt;
use crate::run::Run;
pub use crate::wide::make_wide;
use chem_model::{AtomId, Event, Memory};
pub use site_turn::{arrive, choose};
use std::alloc::Global;

/// Why the receipts of the passes don't agree with the locked book's journal. None exactly where
/// the journal has each receipt's event at its place, and no place occurs twice.
///
/// The receipts are looked at pass after pass, and the first one that doesn't fit is the cause. The
/// program isn't compared: the book behind the lock is of the run's program by its type.
pub fn compare<L: Run>(
    alloc: Global,
    locked: &Locked<L>,
    passes: &Passes<L>,
) -> Result<Option<Differs>, Memory>
    requires { DifferInNumber (map row_of passes.now) }
    ensures cause { IfOk result (Compares locked.now.book.journal (map row_of passes.now)) }
    ensures exact { IfOk result (λ differs.
        Agrees locked.now.book.journal (all_receipts (map row_of passes.now)) → differs ≡ None) }
{
    let journal = locked.book().journal().as_slice();
    let mut slots: Vec<Option<u32>> = Vec::from_elem(alloc, None, journal.len())?;
    for pass in passes.as_slice() {
        let number = pass.number();
        let receipts = pass.receipts().as_slice();
        if let Some(differs) = look_all(alloc, journal, slots.as_slice(), number, receipts)? {
            return Ok(Some(differs));
        }
        mark(&mut slots, number, receipts);
    }
    Ok(None)
}

// Looks at the receipts of one worker, in order, and stops at the first that isn't fresh.
fn look_all(
    alloc: Global,
    journal: &[Event],
    slots: &[Option<u32>],
    number: u32,
    receipts: &[Receipt],
) -> Result<Option<Differs>, Memory>
    ensures { IfOk result (λ differs.
        LooksAll journal.now slots.now number receipts.now differs) }
{
    for receipt in receipts {
        if let Some(differs) = look(alloc, journal, slots, number, receipt)? {
            return Ok(Some(differs));
        }
    }
    Ok(None)
}

// Looks at one receipt.
fn look(
    alloc: Global,
    journal: &[Event],
    slots: &[Option<u32>],
    number: u32,
    receipt: &Receipt,
) -> Result<Option<Differs>, Memory>
    ensures { IfOk result (λ differs. Looks journal.now slots.now number receipt.now differs) }
{
    let Some(kept) = journal.get(receipt.place as usize) else {
        return Ok(Some(Differs::Past {
            place: receipt.place,
            length: journal.len() as u64,
        }));
    };
    if !same_event(kept, &receipt.event) {
        return Ok(Some(Differs::Event {
            place: receipt.place,
            receipt: receipt.event.copy(alloc)?,
            kept: kept.copy(alloc)?,
        }));
    }
    match slot(slots, receipt.place) {
        Some(first) => Ok(Some(Differs::Twice {
            place: receipt.place,
            first,
            second: number,
        })),
        None => Ok(None),
    }
}

// The worker whose receipt filled the slot of a place.
fn slot(slots: &[Option<u32>], place: u64) -> Option<u32>
    ensures { result ≡ slot_at slots.now place }
{
    match slots.get(place as usize) {
        Some(slot) => *slot,
        None => None,
    }
}

// Fills the slots of one worker's receipts.
fn mark(slots: &mut Vec<Option<u32>>, number: u32, receipts: &[Receipt])
    requires { Each (λ r. r.place < length slots.old.items) receipts.now }
    ensures marks { Marks slots.old.items number receipts.now slots.new.items }
    ensures length { length slots.new.items ≡ length slots.old.items }
{
    for receipt in receipts {
        slots[receipt.place as usize] = Some(number);
    }
}

// Whether two events are equal.
fn same_event(event: &Event, other: &Event) -> bool
    ensures { IsTrue result ↔ (event.now ≡ other.now) }
{
    match (event, other) {
        (
            Event::React { rule, took },
            Event::React {
                rule: from,
                took: taken,
            },
        ) => { rule == from && same_atoms(took.as_slice(), taken.as_slice()) }
        (Event::Move { atom }, Event::Move { atom: same }) => atom == same,
        (Event::Halt { atom }, Event::Halt { atom: same }) => atom == same,
        (Event::Detect { atom }, Event::Detect { atom: same }) => atom == same,
        _ => false,
    }
}

// Whether two lists of atoms are equal.
fn same_atoms(atoms: &[AtomId], others: &[AtomId]) -> bool
    ensures { IsTrue result ↔ (atoms.now ≡ others.now) }
{
    atoms == others
}
