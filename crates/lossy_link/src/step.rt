// Steps over links.
ghost use Rattle.std.specs.Prelude.{◌≡◌, Ok};

use chem_model::Memory;
use net_core::Choice;
use std::alloc::Global;

/// What happens next over links.
#[derive(Clone, Copy, PartialEq, Eq, Debug)]
pub enum Step {
    /// The network makes a choice that is no delivery.
    Act(Choice),
    /// The packet of the pair with this number is put on the wire.
    Send { from: u32, into: u32, number: u64 },
    /// The frame at this place on the wire is lost.
    Lose { frame: u32 },
    /// A copy of it is put last.
    Repeat { frame: u32 },
    /// It arrives.
    Arrive { frame: u32 },
}

impl Step {
    /// A step that is equal to this one. It takes no memory.
    pub fn copy(&self, _alloc: Global) -> Result<Step, Memory>
        ensures { result ≡ Ok self.now }
    {
        Ok(*self)
    }
}
