// Choices.
ghost use Rattle.std.specs.Prelude.{◌≡◌, Ok};

use chem_model::{AtomId, Items, Memory};
use reducer::Pick;
use std::alloc::Global;

/// What a network may do next: a reaction of a site, the delivery of a packet, or a request that is
/// met.
#[derive(Clone, Copy, PartialEq, Eq, Debug)]
pub enum Choice {
    /// The site with this number makes the reaction of a pick.
    React { site: u32, pick: Pick },
    /// The packet with this place among those under way, counted from 0, is delivered.
    Deliver { flight: u32 },
    /// A location moves, by the request to go with this id.
    Move { atom: AtomId },
    /// A location halts, by the request to halt with this id.
    Halt { atom: AtomId },
    /// A failure is detected, by the request with this id.
    Detect { atom: AtomId },
}

impl Choice {
    /// A choice that is equal to this one. It takes no memory.
    pub fn copy(&self, _alloc: Global) -> Result<Choice, Memory>
        ensures { result ≡ Ok self.now }
    {
        Ok(*self)
    }
}

/// A list of choices.
pub type Choices = Items<Choice>;
