// What a call of a site hands out.
ghost use Rattle.std.specs.Prelude.{◌≡◌, IfOk};

use chem_model::{Memory, Outs};
use env_store::Locs;
use std::alloc::Global;
use wire_packet::{Flights, copy_flights};

/// What a call of a site hands out: messages for other sites and observables, each in the order of
/// pouring, and the locations that were born, in the order of naming. The site hosts these already.
#[derive(Debug, Drop)]
pub struct Effects {
    pub sends: Flights,
    pub outs: Outs,
    pub births: Locs,
}

impl Effects {
    /// Effects that are equal to these.
    pub fn copy(&self, alloc: Global) -> Result<Effects, Memory>
        ensures { IfOk result (λ copy. copy ≡ self.now) }
    {
        let sends = copy_flights(alloc, &self.sends)?;
        let outs = self.outs.copy(alloc)?;
        let births = self.births.copy(alloc)?;
        Ok(Effects {
            sends,
            outs,
            births,
        })
    }
}
