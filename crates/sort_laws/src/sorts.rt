// The sorts that a text declares.
ghost use Rattle.std.specs.Prelude.{◌≡◌, IfOk};

use chem_model::{Items, Memory, Text};
use std::alloc::Global;

/// A sort: that of locations, that of numbers, or a defined one, by its index among the
/// declarations, from 0.
#[derive(Clone, Copy, PartialEq, Eq, Debug)]
pub enum SortArg {
    Place,
    Num,
    Named(u32),
}

impl SortArg {
    /// A sort that is equal to this one. It takes no memory.
    pub fn copy(&self, _alloc: Global) -> Result<SortArg, Memory>
        ensures { result ≡ Ok self.now }
    {
        Ok(*self)
    }
}

pub type SortArgs = Items<SortArg>;

/// A defined sort of channels: its name, and the sorts of their arguments in order.
#[derive(Drop)]
pub struct SortDecl {
    pub name: Text,
    pub args: SortArgs,
}

impl SortDecl {
    /// A declaration that is equal to this one.
    pub fn copy(&self, alloc: Global) -> Result<SortDecl, Memory>
        ensures { IfOk result (λ copy. copy ≡ self.now) }
    {
        let name = self.name.copy(alloc)?;
        let args = self.args.copy(alloc)?;
        Ok(SortDecl { name, args })
    }
}

pub type SortDecls = Items<SortDecl>;

/// A list that is equal to this one.
pub fn copy_decls(alloc: Global, list: &SortDecls) -> Result<SortDecls, Memory>
    ensures { IfOk result (λ copy. copy ≡ list.now) }
{
    let mut members = Items::new(alloc);
    for member in list.as_slice() {
        members.push(member.copy(alloc)?)?;
    }
    Ok(members)
}

/// The sort of each channel and of each observed name of a spelling: `sort` is an index among the
/// declarations, from 0.
#[derive(Drop)]
pub struct SortUse {
    pub spell: Text,
    pub sort: u32,
}

impl SortUse {
    /// A use that is equal to this one.
    pub fn copy(&self, alloc: Global) -> Result<SortUse, Memory>
        ensures { IfOk result (λ copy. copy ≡ self.now) }
    {
        let spell = self.spell.copy(alloc)?;
        Ok(SortUse {
            spell,
            sort: self.sort,
        })
    }
}

pub type SortUses = Items<SortUse>;

/// A list that is equal to this one.
pub fn copy_uses(alloc: Global, list: &SortUses) -> Result<SortUses, Memory>
    ensures { IfOk result (λ copy. copy ≡ list.now) }
{
    let mut members = Items::new(alloc);
    for member in list.as_slice() {
        members.push(member.copy(alloc)?)?;
    }
    Ok(members)
}

/// The declared sorts of a text, and where they are used. Of two uses of one spelling the first
/// counts, and an index past the declarations is a sort without arguments.
#[derive(Drop)]
pub struct Sorts {
    pub decls: SortDecls,
    pub uses: SortUses,
}

impl Sorts {
    /// Sorts that are equal to these.
    pub fn copy(&self, alloc: Global) -> Result<Sorts, Memory>
        ensures { IfOk result (λ copy. copy ≡ self.now) }
    {
        let decls = copy_decls(alloc, &self.decls)?;
        let uses = copy_uses(alloc, &self.uses)?;
        Ok(Sorts { decls, uses })
    }
}

/// The sort of a location or of a parameter, by its binder: none for a parameter whose channel
/// asks for nothing at that place.
#[derive(Clone, Copy, PartialEq, Eq, Debug)]
pub struct Entry {
    pub binder: u32,
    pub sort: Option<SortArg>,
}

impl Entry {
    /// An entry that is equal to this one. It takes no memory.
    pub fn copy(&self, _alloc: Global) -> Result<Entry, Memory>
        ensures { result ≡ Ok self.now }
    {
        Ok(*self)
    }
}
