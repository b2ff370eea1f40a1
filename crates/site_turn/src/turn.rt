// What a turn at a site comes to.
ghost use Rattle.std.specs.Prelude.{◌≡◌, Ok, IfOk};
ghost use Rattle.site_turn.specs.After.{AreNone};

use chem_model::{Items, Memory};
use site_solution::Effects;
use std::alloc::Global;

/// What a worker's turn at a site came to.
#[derive(Clone, Copy, PartialEq, Eq, Debug)]
pub enum Turn {
    /// It made an event, which stands at this place of the journal.
    Did(u64),
    /// It made no event, but passed a message on.
    Passed,
    /// There was nothing to do.
    Nothing,
    /// The event that it proposed isn't possible in the book.
    NotEnabled,
    /// The journal has as many events as the budget.
    Full,
}

impl Turn {
    /// A value that is equal to this one. It takes no memory.
    pub fn copy(&self, _alloc: Global) -> Result<Turn, Memory>
        ensures { result ≡ Ok self.now }
    {
        Ok(*self)
    }
}

/// What a call that makes an event comes to, and what the site hands out at that event. At every
/// answer but `Did` these effects are empty.
#[derive(Debug, Drop)]
pub struct Made {
    pub turn: Turn,
    pub effects: Effects,
}

impl Made {
    /// A value that is equal to this one.
    pub fn copy(&self, alloc: Global) -> Result<Made, Memory>
        ensures { IfOk result (λ copy. copy ≡ self.now) }
    {
        let effects = self.effects.copy(alloc)?;
        Ok(Made {
            turn: self.turn,
            effects,
        })
    }
}

/// No effects.
pub fn no_effects(alloc: Global) -> Effects
    ensures { AreNone result }
{
    Effects {
        sends: Items::new(alloc),
        outs: Items::new(alloc),
        births: Items::new(alloc),
    }
}
