// The ids that were read.
ghost use Rattle.std.specs.Prelude.{◌≡◌, ℕ, false, not, ◌||◌, ◌&&◌, ◌==◌, IfOk, OnOk};
ghost use Rattle.wire_packet.specs.inside.Ids.{holds};

use chem_model::Memory;
use std::alloc::Global;
use std::collections::BTreeSet;

// A set of ids. A look-up takes time that grows with the logarithm of their number.
#[derive(Drop)]
pub struct Ids {
    pub pairs: BTreeSet<(u32, u64)>,
}

impl Ids {
    pub fn new(alloc: Global) -> Ids
        ensures { (s k : ℕ) → holds result s k ≡ false }
    {
        Ids {
            pairs: BTreeSet::new(alloc),
        }
    }

    pub fn has(&self, site: u32, k: u64) -> bool
        ensures { result ≡ holds self.now site k }
    {
        self.pairs.contains(&(site, k))
    }

    // Adds an id, and tells whether it is new.
    pub fn add(&mut self, site: u32, k: u64) -> Result<bool, Memory>
        ensures new { IfOk result (λ new. new ≡ not (holds self.old site k)) }
        ensures added { OnOk result ((s t : ℕ) →
            holds self.new s t ≡ ((s == site) && (t == k) || holds self.old s t)) }
    {
        let new = self.pairs.insert((site, k))?;
        Ok(new)
    }
}
