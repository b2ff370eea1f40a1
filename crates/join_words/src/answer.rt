// What words can ask for, and how they ask for nothing.
ghost use Rattle.std.specs.Prelude.{◌≡◌};

use chem_model::Memory;
use std::alloc::{AllocError, AllocFailed, Global};
use thiserror::Error;

/// What is done: a program is run, or a log is judged, or what it leaves is explained, or a source
/// is judged by the sorts that it declares.
#[derive(Clone, Copy, Debug, PartialEq, Eq)]
pub enum Job {
    Run,
    Check,
    Explain,
    Sorts,
}

impl Job {
    /// A value that is equal to this one. It takes no memory.
    pub fn copy(&self, _alloc: Global) -> Result<Job, Memory>
        ensures { result ≡ Ok self.now }
    {
        Ok(*self)
    }
}

/// Who runs a program: one thread that works the sites one after another, the threads in rounds,
/// the threads freely, or one thread over links that lose, repeat and reorder what sites send.
#[derive(Clone, Copy, Debug, PartialEq, Eq)]
pub enum By {
    Alone,
    Rounds,
    Run,
    Lossy,
}

impl By {
    /// A value that is equal to this one. It takes no memory.
    pub fn copy(&self, _alloc: Global) -> Result<By, Memory>
        ensures { result ≡ Ok self.now }
    {
        Ok(*self)
    }
}

/// What a command line asks for.
#[derive(Clone, Copy, Debug, PartialEq, Eq)]
pub struct Asked {
    /// What is done. Where no program is run, what follows has its defaults.
    pub job: Job,
    /// Who runs the program.
    pub by: By,
    /// The number of sites of the ring that is generated and run, 1 to 64. Without it the program
    /// is read.
    pub ring: Option<u32>,
    /// The most events that the run may have, 0 to 4,000,000.
    pub budget: u32,
    /// The number of threads, 1 to 16. `By::Alone` and `By::Lossy` don't use it.
    pub workers: u32,
    /// Whether the log is written in place of the trace.
    pub log: bool,
    /// With which turn of four the links begin, 0 to 3. `By::Lossy` alone uses it.
    pub loss: u32,
}

impl Asked {
    /// A value that is equal to this one. It takes no memory.
    pub fn copy(&self, _alloc: Global) -> Result<Asked, Memory>
        ensures { result ≡ Ok self.now }
    {
        Ok(*self)
    }
}

/// Why words ask for nothing.
#[derive(Clone, Copy, Debug, PartialEq, Eq, Error)]
pub enum WordEnd {
    #[error("the words are not of the line's form")]
    Form,
    #[error("out of memory")]
    Memory,
}

impl WordEnd {
    /// A value that is equal to this one. It takes no memory.
    pub fn copy(&self, _alloc: Global) -> Result<WordEnd, Memory>
        ensures { result ≡ Ok self.now }
    {
        Ok(*self)
    }
}

impl From<Memory> for WordEnd {
    ghost use Rattle.join_words.specs.declared.answer.WordEnd.TheVariants as word_end;

    ghost from_gives = { λ _ error. error ≡ word_end.Memory };

    fn from(_error: Memory) -> WordEnd {
        WordEnd::Memory
    }
}

impl From<AllocError> for WordEnd {
    ghost use Rattle.join_words.specs.declared.answer.WordEnd.TheVariants as word_end;

    ghost from_gives = { λ _ error. error ≡ word_end.Memory };

    fn from(_error: AllocError) -> WordEnd {
        WordEnd::Memory
    }
}

impl<T: Drop> From<AllocFailed<T>> for WordEnd {
    ghost use Rattle.join_words.specs.declared.answer.WordEnd.TheVariants as word_end;

    ghost from_gives = { λ _ error. error ≡ word_end.Memory };

    fn from(_error: AllocFailed<T>) -> WordEnd {
        WordEnd::Memory
    }
}
