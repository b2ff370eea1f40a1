// The first place at which receipts and journal differ.
use chem_model::{Event, Program};
use trace_history::Book;

/// Why the receipts of a run don't agree with its book.
#[derive(Drop)]
pub enum Differs {
    /// A receipt is for this place and event, and the journal has another event there.
    Event {
        place: u64,
        receipt: Event,
        kept: Event,
    },
    /// Two workers have a receipt for this place.
    Twice {
        place: u64,
        first: u32,
        second: u32,
    },
    /// A receipt is for this place, and the journal has only so many events.
    Past {
        place: u64,
        length: u64,
    },
    /// The book is of another program than the one that was started.
    Program {
        started: Program,
        kept: Book,
    },
}
