// The ids of atoms and rules, the events of a run, and its observables.
ghost use Rattle.std.specs.Prelude.{◌≡◌, IfOk};

use crate::items::Items;
use crate::memory::Memory;
use crate::name::Names;
use std::alloc::Global;

/// The name of a message or a request of a run: the site that made it, and its number there.
#[derive(Clone, Copy, PartialEq, Eq, Debug)]
pub struct AtomId {
    pub site: u32,
    pub k: u64,
}

/// The name of a rule of a run: the site that made it, and its number there.
#[derive(Clone, Copy, PartialEq, Eq, Debug)]
pub struct RuleId {
    pub site: u32,
    pub k: u64,
}

impl AtomId {
    /// The same name. It takes no memory.
    pub fn copy(&self, _alloc: Global) -> Result<AtomId, Memory>
        ensures { result ≡ Ok self.now }
    {
        Ok(*self)
    }
}

impl RuleId {
    /// The same name. It takes no memory.
    pub fn copy(&self, _alloc: Global) -> Result<RuleId, Memory>
        ensures { result ≡ Ok self.now }
    {
        Ok(*self)
    }
}

pub type Atoms = Items<AtomId>;

pub type Journal = Items<Event>;

pub type Outs = Items<Out>;

/// One reduction of a run.
#[derive(Debug, Drop)]
pub enum Event {
    /// A rule takes one message per message pattern, in the pattern's order.
    React { rule: RuleId, took: Atoms },
    /// A location moves.
    Move { atom: AtomId },
    /// A location halts.
    Halt { atom: AtomId },
    /// A failure is detected.
    Detect { atom: AtomId },
}

/// An observable: a message that left on the observed name of declaration `on`.
#[derive(Debug, Drop)]
pub struct Out {
    pub on: u32,
    pub args: Names,
}

impl Event {
    /// An event that is equal to this one.
    pub fn copy(&self, alloc: Global) -> Result<Event, Memory>
        ensures { IfOk result (λ copy. copy ≡ self.now) }
    {
        match self {
            Event::React { rule, took } => {
                let took = took.copy(alloc)?;
                Ok(Event::React { rule: *rule, took })
            }
            Event::Move { atom } => Ok(Event::Move { atom: *atom }),
            Event::Halt { atom } => Ok(Event::Halt { atom: *atom }),
            Event::Detect { atom } => Ok(Event::Detect { atom: *atom }),
        }
    }
}

impl Out {
    /// An observable that is equal to this one.
    pub fn copy(&self, alloc: Global) -> Result<Out, Memory>
        ensures { IfOk result (λ copy. copy ≡ self.now) }
    {
        let args = self.args.copy(alloc)?;
        Ok(Out { on: self.on, args })
    }
}

impl Items<Event> {
    /// A list that is equal to this one.
    pub fn copy(&self, alloc: Global) -> Result<Journal, Memory>
        ensures { IfOk result (λ copy. copy ≡ self.now) }
    {
        let mut list = Items::new(alloc);
        for member in self.as_slice() {
            list.push(member.copy(alloc)?)?;
        }
        Ok(list)
    }
}

impl Items<Out> {
    /// A list that is equal to this one.
    pub fn copy(&self, alloc: Global) -> Result<Outs, Memory>
        ensures { IfOk result (λ copy. copy ≡ self.now) }
    {
        let mut list = Items::new(alloc);
        for member in self.as_slice() {
            list.push(member.copy(alloc)?)?;
        }
        Ok(list)
    }
}
