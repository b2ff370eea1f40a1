// What is wanted of a log.
ghost use Rattle.std.specs.Prelude.{◌≡◌, Ok};

use chem_model::Memory;
use std::alloc::Global;

/// What is wanted of a log: the verdict on it, or why what its run leaves is left.
#[derive(Clone, Copy, Debug, PartialEq, Eq)]
pub enum Ask {
    Verdict,
    Causes,
}

impl Ask {
    /// A value that is equal to this one. It takes no memory.
    pub fn copy(&self, _alloc: Global) -> Result<Ask, Memory>
        ensures { result ≡ Ok self.now }
    {
        Ok(*self)
    }
}
