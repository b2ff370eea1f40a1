// Why steps don't go on.
use chem_model::Memory;
use std::alloc::{AllocError, AllocFailed};

/// Why steps don't go on.
#[derive(Clone, Copy, Debug, PartialEq, Eq)]
pub enum Fault {
    /// Memory ran out.
    Memory,
    /// Before a call something wasn't so that it needs.
    Unmet,
    /// The step at this place isn't as it says, or a call of it needs more than is there.
    Step(usize),
}

impl From<Memory> for Fault {
    fn from(_error: Memory) -> Fault {
        Fault::Memory
    }
}

impl From<AllocError> for Fault {
    fn from(_error: AllocError) -> Fault {
        Fault::Memory
    }
}

impl<T: Drop> From<AllocFailed<T>> for Fault {
    fn from(_error: AllocFailed<T>) -> Fault {
        Fault::Memory
    }
}
