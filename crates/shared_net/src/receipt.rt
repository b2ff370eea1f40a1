// Receipts: an event that a worker made, with its place in the journal.
ghost use Rattle.std.specs.Prelude.{◌≡◌, IfOk};

use chem_model::{Event, Items, Memory};
use std::alloc::Global;

/// That an event was made, and stands at this place of the journal.
#[derive(Debug, Drop)]
pub struct Receipt {
    pub place: u64,
    pub event: Event,
}

pub type Receipts = Items<Receipt>;

impl Receipt {
    /// A receipt that is equal to this one.
    pub fn copy(&self, alloc: Global) -> Result<Receipt, Memory>
        ensures { IfOk result (λ copy. copy ≡ self.now) }
    {
        let event = self.event.copy(alloc)?;
        Ok(Receipt {
            place: self.place,
            event,
        })
    }
}

/// A list that is equal to this one.
pub fn copy_receipts(alloc: Global, list: &Receipts) -> Result<Receipts, Memory>
    ensures { IfOk result (λ copy. copy ≡ list.now) }
{
    let mut members = Items::new(alloc);
    for member in list.as_slice() {
        members.push(member.copy(alloc)?)?;
    }
    Ok(members)
}
