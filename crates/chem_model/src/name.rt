// Locations, names, their occurrences in terms, and patterns.
ghost use Rattle.std.specs.Prelude.{◌≡◌, IfOk};

use crate::items::Items;
use crate::memory::Memory;
use std::alloc::Global;

/// A location: the site that made it, and its number among all that this site made.
#[derive(Clone, Copy, PartialEq, Eq, Debug)]
pub struct Loc {
    pub site: u32,
    pub k: u64,
}

/// A known name.
#[derive(Clone, Copy, PartialEq, Eq, Debug)]
pub enum Name {
    /// The observed name of this declaration.
    Seen(u32),
    /// A location.
    Place(Loc),
    /// A channel: the site that made it, its number there, and the location whose rules define it.
    Chan { site: u32, k: u64, home: Loc },
    /// A number.
    Num(u64),
    /// An operation: 0 adds two numbers, 1 compares them.
    Op(u32),
}

/// A name's occurrence in a term.
#[derive(Clone, Copy, PartialEq, Eq, Debug)]
pub enum Ref {
    Binder(u32),
    Known(Name),
}

impl Loc {
    /// A location that is equal to this one. It takes no memory.
    pub fn copy(&self, _alloc: Global) -> Result<Loc, Memory>
        ensures { result ≡ Ok self.now }
    {
        Ok(*self)
    }
}

impl Name {
    /// A name that is equal to this one. It takes no memory.
    pub fn copy(&self, _alloc: Global) -> Result<Name, Memory>
        ensures { result ≡ Ok self.now }
    {
        Ok(*self)
    }
}

impl Ref {
    /// An occurrence that is equal to this one. It takes no memory.
    pub fn copy(&self, _alloc: Global) -> Result<Ref, Memory>
        ensures { result ≡ Ok self.now }
    {
        Ok(*self)
    }
}

pub type Nums = Items<u32>;

pub type Text = Items<u8>;

pub type Texts = Items<Text>;

pub type Names = Items<Name>;

pub type Refs = Items<Ref>;

pub type Pats = Items<Pat>;

/// A message pattern.
#[derive(Debug, Drop)]
pub struct Pat {
    pub on: Ref,
    pub params: Nums,
}

impl Pat {
    /// A pattern that is equal to this one.
    pub fn copy(&self, alloc: Global) -> Result<Pat, Memory>
        ensures { IfOk result (λ copy. copy ≡ self.now) }
    {
        let params = self.params.copy(alloc)?;
        Ok(Pat {
            on: self.on,
            params,
        })
    }
}

impl Items<Pat> {
    /// A list that is equal to this one.
    pub fn copy(&self, alloc: Global) -> Result<Pats, Memory>
        ensures { IfOk result (λ copy. copy ≡ self.now) }
    {
        let mut list = Items::new(alloc);
        for member in self.as_slice() {
            list.push(member.copy(alloc)?)?;
        }
        Ok(list)
    }
}

impl Items<Text> {
    /// A list that is equal to this one.
    pub fn copy(&self, alloc: Global) -> Result<Texts, Memory>
        ensures { IfOk result (λ copy. copy ≡ self.now) }
    {
        let mut list = Items::new(alloc);
        for member in self.as_slice() {
            list.push(member.copy(alloc)?)?;
        }
        Ok(list)
    }
}
