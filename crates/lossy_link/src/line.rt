// What passed between two sites.
ghost use Rattle.std.specs.Prelude.{◌≡◌, IfOk};

use chem_model::{Memory, Texts};
use std::alloc::Global;

/// All packets of an ordered pair of sites by their numbers, and all of them that were handed over
/// to the receiver.
#[derive(Drop)]
pub struct PairHistory {
    pub sent: Texts,
    pub handed: Texts,
}

impl PairHistory {
    /// A history that is equal to this one.
    pub fn copy(&self, alloc: Global) -> Result<PairHistory, Memory>
        ensures { IfOk result (λ copy. copy ≡ self.now) }
    {
        let sent = self.sent.copy(alloc)?;
        let handed = self.handed.copy(alloc)?;
        Ok(PairHistory { sent, handed })
    }
}

// A pair of sites that sent a packet: what was sent and handed over, and the number below which its
// packets are acknowledged. The receiver's next number is how many it was given.
#[derive(Drop)]
pub(crate) struct Line {
    pub(crate) from: u32,
    pub(crate) into: u32,
    pub(crate) history: PairHistory,
    pub(crate) acked: u64,
}
