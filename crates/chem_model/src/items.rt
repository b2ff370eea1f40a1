// The one list type, of fewer than 2^32 members.
ghost use Rattle.std.specs.Prelude.{◌≡◌, [], ◌∷◌, ◌++◌, ◌<◌, ◌+◌, ◌^◌, length, take, drop};
ghost use Rattle.std.specs.Prelude.{reverse as reversed, slice_set, IfOk, OnOk, OnErr, IsTrue};
ghost use Rattle.std.specs.Prelude.{MatchOption, ◌↔◌};

use crate::memory::Memory;
use std::alloc::Global;
use std::marker::Model;

/// A vector that contracts see as the list of its members, of which there are fewer than 2^32.
#[derive(Debug, Drop)]
pub struct Items<T> {
    items: Vec<T>,
}

impl<T> Model for Items<T> {
    ghost use Rattle.std.specs.Prelude.{List, length, ◌<◌, ◌^◌};
    ghost use Rattle.std.specs.Coded.{coded_list};

    ghost Value = { List T };

    ghost coded = { coded_list T.code };

    ghost view = { λ list. list.items.items };

    ghost invariant = { λ list. length list.items.items < 2 ^ 32 };
}

impl<T> Items<T> {
    /// The list without a member.
    pub fn new(alloc: Global) -> Items<T>
        ensures { result ≡ [] }
    {
        Items {
            items: Vec::new(alloc),
        }
    }

    /// The list of a vector's members.
    pub fn from_vec(items: Vec<T>) -> Items<T>
        requires { length items.items < 2 ^ 32 }
        ensures { result ≡ items.items }
    {
        Items { items }
    }

    /// The vector of the members, in order.
    pub fn into_vec(self) -> Vec<T>
        ensures members { result.items ≡ self }
        ensures short { length result.items < 2 ^ 32 }
    {
        self.items
    }

    /// The members in order.
    pub fn as_slice(&self) -> &[T]
        ensures members { result.now ≡ self.now }
        ensures short { length self.now < 2 ^ 32 }
    {
        self.items.as_slice()
    }

    /// How many members there are.
    pub fn len(&self) -> usize
        ensures count { result ≡ length self.now }
        ensures short { length self.now < 2 ^ 32 }
    {
        self.items.len()
    }

    pub fn is_empty(&self) -> bool
        ensures { IsTrue result ↔ (self.now ≡ []) }
    {
        self.items.is_empty()
    }
}

impl<T: Drop> Items<T> {
    /// Appends a member. A list of 2^32 - 1 members takes no more: that is answered as want of
    /// memory.
    pub fn push(&mut self, member: T) -> Result<(), Memory>
        ensures ok { OnOk result (self.new ≡ self.old ++ member ∷ []) }
        ensures err { OnErr result (self.new ≡ self.old) }
    {
        if self.items.len() >= u32::MAX as usize {
            return Err(Memory);
        }
        self.items.push(member)?;
        Ok(())
    }

    /// Moves the members of the other list to the end. Where the list would have 2^32 members or
    /// more, that is answered as want of memory, and both keep theirs.
    pub fn append(&mut self, other: &mut Items<T>) -> Result<(), Memory>
        ensures ok { OnOk result (self.new ≡ self.old ++ other.old) }
        ensures moved { OnOk result (other.new ≡ []) }
        ensures err { OnErr result ((self.new ≡ self.old) × (other.new ≡ other.old)) }
    {
        if other.len() > u32::MAX as usize - self.len() {
            return Err(Memory);
        }
        self.items.append(&mut other.items)?;
        Ok(())
    }

    /// Keeps at most so many members, the first ones.
    pub fn truncate(&mut self, count: usize)
        ensures { self.new ≡ take count self.old }
    {
        self.items.truncate(count);
    }

    /// Takes the last member out. None comes exactly where there is none.
    pub fn pop(&mut self) -> Option<T>
        ensures { MatchOption result ((self.old ≡ []) × (self.new ≡ []))
            (λ member. self.old ≡ self.new ++ member ∷ []) }
    {
        self.items.pop()
    }

    /// Turns the members round: the last one is the first then.
    pub fn reverse(&mut self)
        ensures { self.new ≡ reversed self.old }
    {
        self.items.reverse();
    }

    /// Takes the member at this index out. The later ones move down.
    pub fn remove(&mut self, index: usize)
        requires { index < length self.old }
        ensures { self.new ≡ take index self.old ++ drop (index + 1) self.old }
    {
        self.items.remove(index);
    }
}

impl<T: Copy> Items<T> {
    /// Appends members, all or none. Where the list would have 2^32 members or more, that is
    /// answered as want of memory.
    pub fn extend_from_slice(&mut self, members: &[T]) -> Result<(), Memory>
        ensures ok { OnOk result (self.new ≡ self.old ++ members.now) }
        ensures err { OnErr result (self.new ≡ self.old) }
    {
        if members.len() > u32::MAX as usize - self.len() {
            return Err(Memory);
        }
        self.items.extend_from_slice(members)?;
        Ok(())
    }

    /// Puts another member in place of the one at this index, where there is one.
    pub fn set(&mut self, index: usize, member: T)
        ensures { self.new ≡ slice_set self.old index member }
    {
        if let Some(place) = self.items.get_mut(index) {
            *place = member;
        }
    }

    /// A list with these members.
    pub fn from_slice(alloc: Global, members: &[T]) -> Result<Items<T>, Memory>
        ensures { IfOk result (λ list. list ≡ members.now) }
    {
        if members.len() > u32::MAX as usize {
            return Err(Memory);
        }
        let items = Vec::from_slice(alloc, members)?;
        Ok(Items { items })
    }

    /// A list that is equal to this one.
    pub fn copy(&self, alloc: Global) -> Result<Items<T>, Memory>
        ensures { IfOk result (λ list. list ≡ self.now) }
    {
        let items = Vec::from_slice(alloc, &self.items)?;
        Ok(Items { items })
    }
}
