// Where a token stands, and the faults of texts, sources and sinks.
ghost use Rattle.std.specs.Prelude.{◌≡◌};

use chem_model::Memory;
use std::alloc::{AllocError, AllocFailed, Global};
use thiserror::Error;

/// The place of a token: byte offsets from 0, of its first byte and of the first one after it.
#[derive(Clone, Copy, Debug, PartialEq, Eq)]
pub struct Span {
    pub from: u32,
    pub upto: u32,
}

impl Span {
    /// A span that is equal to this one. It takes no memory.
    pub fn copy(&self, _alloc: Global) -> Result<Span, Memory>
        ensures { result ≡ Ok self.now }
    {
        Ok(*self)
    }
}

/// Why a text is refused: a lexical fault, a fault of the grammar, one of scope, or one of arity.
#[derive(Clone, Copy, Debug, PartialEq, Eq)]
pub enum Kind {
    Lex1,
    Lex2,
    Lex3,
    Grammar1,
    Grammar2,
    Scope1,
    Scope2,
    Scope3,
    Scope4,
    Scope5,
    Scope6,
    Arity1,
    Arity2,
    Arity3,
    Arity4,
}

impl Kind {
    /// A kind that is equal to this one. It takes no memory.
    pub fn copy(&self, _alloc: Global) -> Result<Kind, Memory>
        ensures { result ≡ Ok self.now }
    {
        Ok(*self)
    }
}

/// How the reading of a program's text ends without a program.
#[derive(Clone, Copy, Debug, PartialEq, Eq, Error)]
pub enum Front {
    /// The text has this fault. `place` is a byte offset from 0.
    #[error("the text is refused at byte {place}: {kind:?}")]
    Refused { kind: Kind, place: u32 },
    #[error("out of memory")]
    Memory,
}

impl Front {
    /// A fault that is equal to this one. It takes no memory.
    pub fn copy(&self, _alloc: Global) -> Result<Front, Memory>
        ensures { result ≡ Ok self.now }
    {
        Ok(*self)
    }
}

impl From<Memory> for Front {
    ghost use Rattle.join_base.specs.declared.fault.Front.TheVariants as front;

    ghost from_gives = { λ _ error. error ≡ front.Memory };

    fn from(_error: Memory) -> Front {
        Front::Memory
    }
}

impl From<AllocError> for Front {
    ghost use Rattle.join_base.specs.declared.fault.Front.TheVariants as front;

    ghost from_gives = { λ _ error. error ≡ front.Memory };

    fn from(_error: AllocError) -> Front {
        Front::Memory
    }
}

impl<T: Drop> From<AllocFailed<T>> for Front {
    ghost use Rattle.join_base.specs.declared.fault.Front.TheVariants as front;

    ghost from_gives = { λ _ error. error ≡ front.Memory };

    fn from(_error: AllocFailed<T>) -> Front {
        Front::Memory
    }
}

/// A read or a write failed.
#[derive(Clone, Copy, Debug, PartialEq, Eq)]
pub struct Failed;

/// How the reading of a whole source ends without its bytes.
#[derive(Clone, Copy, Debug, PartialEq, Eq, Error)]
pub enum ReadEnd {
    #[error("the source has more bytes than are allowed")]
    TooLong,
    #[error("the source could not be read")]
    ReadFault,
    #[error("out of memory")]
    Memory,
}

impl ReadEnd {
    /// A fault that is equal to this one. It takes no memory.
    pub fn copy(&self, _alloc: Global) -> Result<ReadEnd, Memory>
        ensures { result ≡ Ok self.now }
    {
        Ok(*self)
    }
}

impl From<Memory> for ReadEnd {
    ghost use Rattle.join_base.specs.declared.fault.ReadEnd.TheVariants as read_end;

    ghost from_gives = { λ _ error. error ≡ read_end.Memory };

    fn from(_error: Memory) -> ReadEnd {
        ReadEnd::Memory
    }
}

impl From<AllocError> for ReadEnd {
    ghost use Rattle.join_base.specs.declared.fault.ReadEnd.TheVariants as read_end;

    ghost from_gives = { λ _ error. error ≡ read_end.Memory };

    fn from(_error: AllocError) -> ReadEnd {
        ReadEnd::Memory
    }
}

impl<T: Drop> From<AllocFailed<T>> for ReadEnd {
    ghost use Rattle.join_base.specs.declared.fault.ReadEnd.TheVariants as read_end;

    ghost from_gives = { λ _ error. error ≡ read_end.Memory };

    fn from(_error: AllocFailed<T>) -> ReadEnd {
        ReadEnd::Memory
    }
}
