// Why bytes are no packet.
ghost use Rattle.std.specs.Prelude.{◌≡◌};

use chem_model::Memory;
use std::alloc::Global;
use thiserror::Error;

/// How the reading of bytes ends without a packet.
#[derive(Clone, Copy, Debug, PartialEq, Eq, Error)]
pub enum DecodeEnd {
    /// The bytes are no packet: the field that is wrong first begins at `place`, a byte offset from
    /// 0.
    #[error("the bytes are no packet: the field at byte {place} is wrong")]
    Bad { place: u64 },
    #[error("out of memory")]
    Memory,
}

impl DecodeEnd {
    /// An end that is equal to this one. It takes no memory.
    pub fn copy(&self, _alloc: Global) -> Result<DecodeEnd, Memory>
        ensures { result ≡ Ok self.now }
    {
        Ok(*self)
    }
}

// The same while the bytes are read: how many are left where the field begins that is wrong first.
#[derive(Clone, Copy, Debug, PartialEq, Eq)]
pub enum Fault {
    Wrong { left: usize },
    Memory,
}

impl From<Memory> for Fault {
    ghost use Rattle.wire_packet.specs.declared.fault.Fault.TheVariants as fault;

    ghost from_gives = { λ _ error. error ≡ fault.Memory };

    fn from(_error: Memory) -> Fault {
        Fault::Memory
    }
}
