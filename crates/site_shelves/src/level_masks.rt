// The masks of a level's guards, and which of these wait on a channel.
ghost use Rattle.std.specs.Prelude.{◌≡◌, ◌<◌, [], ℕ, true, slice_index_or, OnOk};
ghost use Rattle.chem_model.specs.Binders.{is_among};
ghost use Rattle.status_words.specs.Words.{has_bit};
ghost use Rattle.site_shelves.specs.inside.Waits.{KeepsWaits, WaitsOn, AreAllOn};

use chem_model::{Items, Memory, Nums};
use env_store::{Bits, Guard};
use std::alloc::Global;
use std::marker::Model;

// The masks of the guards of a level in order, and of each channel the places of the guards whose
// masks have it, perhaps with others. It is seen as the masks.
#[derive(Drop)]
pub(crate) struct LevelMasks {
    masks: Items<Bits>,
    waits: Vec<Nums>,
}

impl Model for LevelMasks {
    ghost use Rattle.std.specs.Prelude.{List, ℕ};
    ghost use Rattle.std.specs.Coded.{coded_list, coded_ℕ};

    ghost Value = { List (List ℕ) };

    ghost coded = { coded_list (coded_list coded_ℕ) };

    ghost use Rattle.site_shelves.specs.inside.Waits.{AreWaiting};

    ghost view = { λ m. m.masks };

    ghost invariant = { λ m. AreWaiting m.masks m.waits.items };
}

impl LevelMasks {
    // Those of no guard, where the level has so many channels.
    pub(crate) fn new(alloc: Global, channels: usize) -> Result<LevelMasks, Memory> {
        let waits = no_waits(alloc, channels)?;
        let masks = Items::new(alloc);
        Ok(LevelMasks { masks, waits })
    }

    // The masks.
    pub(crate) fn masks(&self) -> &[Bits]
        ensures { result.now ≡ self.now }
    {
        self.masks.as_slice()
    }

    // The places of the guards that wait on a channel, perhaps with others.
    pub(crate) fn waiting(&self, chan: u32) -> &[u32]
        ensures { AreAllOn chan self.now result.now }
    {
        if chan as usize >= self.waits.len() {
            return &[];
        }
        self.waits[chan as usize].as_slice()
    }

    // Adds the mask of a guard.
    pub(crate) fn add(&mut self, alloc: Global, guard: &Guard) -> Result<(), Memory>
        requires { (c : ℕ) → has_bit guard.now.mask.words c ≡ true
            → is_among guard.now.chans c ≡ true }
    {
        let mask = guard.mask.words.copy(alloc)?;
        let place = self.masks.len() as u32;
        wait_on_all(&mut self.waits, guard.chans.as_slice(), place)?;
        self.masks.push(mask)?;
        Ok(())
    }
}

// So many channels on which nothing waits.
fn no_waits(alloc: Global, channels: usize) -> Result<Vec<Nums>, Memory> {
    let mut waits: Vec<Nums> = Vec::with_capacity(alloc, channels)?;
    for _channel in 0..channels {
        waits.push(Items::new(alloc))?;
    }
    Ok(waits)
}

// Lets a guard wait on a channel. A channel that the level hasn't is answered as want of memory.
fn wait_on(waits: &mut Vec<Nums>, chan: u32, place: u32) -> Result<(), Memory>
    ensures here { OnOk result (is_among (slice_index_or waits.new.items chan []) place ≡ true) }
    ensures kept { KeepsWaits waits.old.items waits.new.items }
{
    if chan as usize >= waits.len() {
        return Err(Memory);
    }
    let list = &mut waits[chan as usize];
    list.push(place)?;
    Ok(())
}

// The same for each of these channels.
fn wait_on_all(waits: &mut Vec<Nums>, chans: &[u32], place: u32) -> Result<(), Memory>
    ensures here { OnOk result (WaitsOn waits.new.items place chans.now) }
    ensures kept { KeepsWaits waits.old.items waits.new.items }
{
    for chan in chans {
        wait_on(waits, *chan, place)?;
    }
    Ok(())
}
