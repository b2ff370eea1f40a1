// The locations that a site hosts.
ghost use Rattle.std.specs.Prelude.{◌≡◌, ◌<◌, ◌≤◌, ◌+◌, ◌^◌, ◌∷◌, ◌++◌, [], false, length};
ghost use Rattle.std.specs.Prelude.{OnOk, OnErr, IsTrue, true, is_some};
ghost use Rattle.net_laws.specs.Net.{among};
ghost use Rattle.net_laws.specs.Parcels.{locs_but};
ghost use Rattle.site_limits.specs.Hosted.{locs_of};
ghost use Rattle.site_limits.specs.Hosted.{AreNew};
ghost use Rattle.std.specs.List.{list_all};
ghost use Rattle.chem_model.specs.declared.name.Loc.{Loc};
ghost use Rattle.site_shelves.specs.Draws.{is_drawn};

use chem_model::{Loc, Memory};
use indexmap::IndexSet;
use site_shelves::{Count, is_drawn};
use std::alloc::Global;
use std::marker::Model;

/// Locations in the order in which they came, all different, and fewer than 2^32.
#[derive(Drop)]
pub struct Places {
    pairs: IndexSet<(u32, u64)>,
}

impl Model for Places {
    ghost use Rattle.std.specs.Prelude.{◌<◌, ◌-◌, ◌^◌, min, length};
    ghost use Rattle.indexmap.specs.IndexSet.{spare};
    ghost use Rattle.site_limits.specs.Hosted.{Hosted, locs_of};

    ghost Value = { Hosted };

    ghost view = { λ p. record {
      locs = locs_of p.pairs.keys;
      spare = min (spare p.pairs) (2 ^ 32 - 1 - length p.pairs.keys);
    } };

    ghost invariant = { λ p. length p.pairs.keys < 2 ^ 32 };
}

impl Places {
    /// No location.
    pub fn new(alloc: Global) -> Places
        ensures { result.locs ≡ [] }
    {
        Places {
            pairs: IndexSet::new(alloc),
        }
    }

    // Whether the location stands at this place.
    fn is_at(&self, loc: &Loc, place: usize) -> bool
        ensures { IsTrue result → among self.now.locs loc.now ≡ true }
    {
        match self.pairs.get_index(place) {
            Some(pair) => loc.site == pair.0 && loc.k == pair.1,
            None => false,
        }
    }

    /// Whether the location is one of them. Most ask for the first one or for the last, so only
    /// others are looked for by their hash.
    pub fn has(&self, loc: &Loc) -> bool
        ensures { result ≡ among self.now.locs loc.now }
    {
        if self.is_at(loc, 0) {
            return true;
        }
        if self.is_at(loc, self.pairs.len().saturating_sub(1)) {
            return true;
        }
        self.pairs.contains(&(loc.site, loc.k))
    }

    // The place of a location, if it is among them. It is looked for near a place first, there and
    // behind it, and only what isn't found so is looked for by its hash.
    pub(crate) fn find(&self, loc: &Loc, near: usize) -> Option<usize>
        ensures { is_some result ≡ among self.now.locs loc.now }
    {
        let behind = near.saturating_add(1);
        if self.is_at(loc, behind) {
            return Some(behind);
        }
        if self.is_at(loc, near) {
            return Some(near);
        }
        self.pairs.get_index_of(&(loc.site, loc.k))
    }

    /// There are few of them. It does nothing.
    pub fn are_few(&self)
        ensures { length self.now.locs < 2 ^ 32 }
    {
        let _pairs = &self.pairs;
    }

    /// The pairs of all of them.
    pub fn as_slice(&self) -> &[(u32, u64)]
        ensures { locs_of result.now ≡ self.now.locs }
    {
        self.pairs.as_slice()
    }

    pub fn reserve(&mut self, more: usize) -> Result<(), Memory>
        ensures room { OnOk result (more ≤ self.new.spare) }
        ensures same { self.new.locs ≡ self.old.locs }
    {
        if more > u32::MAX as usize - self.pairs.len() {
            return Err(Memory);
        }
        self.pairs.reserve(more)?;
        Ok(())
    }

    /// Adds a location. It takes no memory.
    pub fn add_reserved(&mut self, loc: Loc)
        requires room { 1 ≤ self.old.spare }
        requires new { among self.old.locs loc ≡ false }
        ensures locs { self.new.locs ≡ self.old.locs ++ loc ∷ [] }
        ensures spare { self.old.spare ≤ self.new.spare + 1 }
    {
        let _ = self.pairs.insert((loc.site, loc.k));
    }

    /// Adds a location.
    pub fn add(&mut self, loc: Loc) -> Result<(), Memory>
        requires new { among self.old.locs loc ≡ false }
        ensures ok { OnOk result (self.new.locs ≡ self.old.locs ++ loc ∷ []) }
        ensures err { OnErr result (self.new.locs ≡ self.old.locs) }
    {
        self.reserve(1)?;
        self.add_reserved(loc);
        Ok(())
    }

    /// Drops a location.
    pub fn remove(&mut self, loc: Loc)
        ensures { self.new.locs ≡ locs_but loc self.old.locs }
    {
        self.pairs
            .retain(|pair| pair.0 != loc.site || pair.1 != loc.k);
    }

    /// Adds locations. It takes no memory.
    pub fn add_all(&mut self, locs: &[Loc])
        requires room { length locs.now ≤ self.old.spare }
        requires new { AreNew self.old.locs locs.now }
        ensures { self.new.locs ≡ self.old.locs ++ locs.now }
    {
        for loc in locs {
            self.add_reserved(*loc);
        }
    }
}

pub fn locs_are_drawn(count: Count, pairs: &[(u32, u64)]) -> bool
    ensures { result
        ≡ list_all (λ (l : Loc). is_drawn count.number count.made l.site l.k)
        (locs_of pairs.now) }
{
    for pair in pairs {
        if !is_drawn(count, pair.0, pair.1) {
            return false;
        }
    }
    true
}
