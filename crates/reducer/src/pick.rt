// Picks.
ghost use Rattle.std.specs.Prelude.{◌≡◌, Ok};

use chem_model::Memory;
use std::alloc::Global;

/// A reaction that a site may make: `group` counts the groups of the site in the order in which
/// they were laid or taken in, and `guard` is the number of a guard of the code.
#[derive(Clone, Copy, PartialEq, Eq, Debug)]
pub struct Pick {
    pub group: u32,
    pub guard: u32,
}

impl Pick {
    /// A pick that is equal to this one. It takes no memory.
    pub fn copy(&self, _alloc: Global) -> Result<Pick, Memory>
        ensures { result ≡ Ok self.now }
    {
        Ok(*self)
    }
}
