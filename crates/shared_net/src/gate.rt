// The gate that the workers of a run on threads pass.
ghost use Rattle.std.specs.Prelude.{◌≡◌, Ok};

use chem_model::Memory;
use std::alloc::Global;
use std::marker::Sync;

/// The two moments of a turn at which a gate is passed.
#[derive(Clone, Copy, Debug, PartialEq, Eq)]
pub enum Phase {
    /// A site's lock is held, and nothing is committed yet.
    Held,
    /// A turn that committed an event has released its locks.
    Done,
}

impl Phase {
    /// A moment that is equal to this one. It takes no memory.
    pub fn copy(&self, _alloc: Global) -> Result<Phase, Memory>
        ensures { result ≡ Ok self.now }
    {
        Ok(*self)
    }
}

/// What a worker of a run on threads passes in each turn, so that tests can hold it there. Workers
/// are numbered from 1, and their turns from 0.
pub trait Gate: Sync {
    fn pass(&self, worker: u32, turn: u64, phase: Phase);
}

/// A gate that holds nobody.
#[derive(Clone, Copy, Debug)]
pub struct OpenGate;

impl Gate for OpenGate {
    fn pass(&self, _worker: u32, _turn: u64, _phase: Phase) {}
}
