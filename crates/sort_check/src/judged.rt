// What the judge answers.
ghost use Rattle.std.specs.Prelude.{◌≡◌};

use chem_model::Memory;
use std::alloc::Global;

/// Whether a tree keeps declared sorts: otherwise its first fault, as a number from 4 to 8 and a
/// place, a byte offset from 0.
#[derive(Clone, Copy, PartialEq, Eq, Debug)]
pub enum Judged {
    Yes,
    No { kind: u32, place: u32 },
}

impl Judged {
    /// An answer that is equal to this one. It takes no memory.
    pub fn copy(&self, _alloc: Global) -> Result<Judged, Memory>
        ensures { result ≡ Ok self.now }
    {
        Ok(*self)
    }
}
