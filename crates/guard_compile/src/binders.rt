// A list of binders that knows the place of each of its members.
ghost use Rattle.std.specs.Prelude.{◌≡◌, ◌-◌, [], ◌∷◌, ◌++◌, OnOk, take, length};
ghost use Rattle.chem_model.specs.Binders.{is_among};
ghost use Rattle.env_store.specs.Reading.{position};

use chem_model::{Items, Memory, Nums};
use std::alloc::Global;
use std::collections::HashMap;
use std::marker::Model;

// A list of binders, seen as that list. A binder is found in it without a walk.
#[derive(Drop)]
pub(crate) struct Binders {
    list: Nums,
    first_places: HashMap<u32, u32>,
}

impl Model for Binders {
    ghost use Rattle.std.specs.Prelude.{List, ℕ, ◌≡◌, nat_eq};
    ghost use Rattle.std.specs.HashMap.{get};
    ghost use Rattle.env_store.specs.Reading.{position};

    ghost Value = { List ℕ };

    ghost view = { λ b. b.list };

    ghost invariant = { λ b. (q : ℕ) → get nat_eq b.first_places q ≡ position b.list q };
}

impl Binders {
    // No binders.
    pub(crate) fn new(alloc: Global) -> Binders
        ensures { result ≡ [] }
    {
        Binders {
            list: Items::new(alloc),
            first_places: HashMap::new(alloc),
        }
    }

    // How many binders there are.
    pub(crate) fn len(&self) -> u32
        ensures { result ≡ length self.now }
    {
        self.list.len() as u32
    }

    // The binders in order.
    pub(crate) fn as_slice(&self) -> &[u32]
        ensures { result.now ≡ self.now }
    {
        self.list.as_slice()
    }

    // The first place of a binder.
    pub(crate) fn place(&self, binder: u32) -> Option<u32>
        ensures { result ≡ position self.now binder }
    {
        self.first_places.get(&binder).copied()
    }

    pub(crate) fn contains(&self, binder: u32) -> bool
        ensures { result ≡ is_among self.now binder }
    {
        self.place(binder).is_some()
    }

    // Appends a binder.
    pub(crate) fn push(&mut self, binder: u32) -> Result<(), Memory>
        ensures { OnOk result (self.new ≡ self.old ++ binder ∷ []) }
    {
        let is_new = self.place(binder).is_none();
        let place = self.list.len();
        self.list.push(binder)?;
        if is_new && self.first_places.insert(binder, place as u32).is_err() {
            self.list.truncate(place);
            return Err(Memory);
        }
        Ok(())
    }

    // Appends binders.
    pub(crate) fn extend(&mut self, binders: &[u32]) -> Result<(), Memory>
        ensures { OnOk result (self.new ≡ self.old ++ binders.now) }
    {
        for binder in binders {
            self.push(*binder)?;
        }
        Ok(())
    }

    // Drops the last binder.
    fn pop(&mut self)
        ensures { self.new ≡ take (length self.old - 1) self.old }
    {
        if let Some(last) = self.list.as_slice().last().copied() {
            let place = self.list.len() - 1;
            if self.place(last) == Some(place as u32) {
                self.first_places.remove(&last);
            }
            self.list.truncate(place);
        }
    }

    // Keeps at most so many binders, the first ones.
    pub(crate) fn truncate(&mut self, count: u32)
        ensures { self.new ≡ take count self.old }
    {
        while self.len() > count {
            self.pop();
        }
    }
}
