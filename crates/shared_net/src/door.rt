// The way of a turn to the book: the gate, then the book's lock.
ghost use Rattle.std.specs.Prelude.{◌≡◌, ℕ, IfOk, OnErr, IsTrue};
ghost use Rattle.site_turn.specs.declared.turn.Turn.TheVariants as turns;
ghost use Rattle.shared_net.specs.Offers.{Turned};

use crate::gate::{Gate, Phase};
use crate::locked::Locked;
use crate::pass::Pass;
use crate::run::Run;
use chem_model::{Event, Memory};
use site_turn::{Desk, Turn};
use std::alloc::Global;
use std::hint::spin_loop;
use std::sync::{Mutex, MutexGuard, Wait};
use std::thread::yield_now;

// What stands behind the book's lock, as far as a turn knows it: the call that commits an event, by
// what it does to the pass. Only the locked book is one. A turn is written over any, so that its
// proof names no type with the run's parameter beside the pass.
pub(crate) trait Decides<L: Run> {
    // Proposes an event that the site, whose lock is held, has ready, and that can be made exactly
    // where it fits.
    fn decide(
        &mut self,
        alloc: Global,
        pass: &mut Pass<L>,
        event: &Event,
        fits: bool,
    ) -> Result<Turn, Memory>
        ensures pass { IfOk result (λ turn. Turned pass.old turn pass.new) }
        ensures fits { IfOk result (λ turn. (place : ℕ) → turn ≡ turns.Did place → IsTrue fits) }
        ensures err { OnErr result (pass.new ≡ pass.old) };
}

// So often a worker looks at the lock before it lets other threads run.
const LOOKS: u32 = 100;

// So often it lets others run before it sleeps.
const YIELDS: u32 = 200;

// The lock, where it is free at one of some looks.
fn look<'a, K>(door: &'a Mutex<K>) -> Option<MutexGuard<'a, K>> {
    for _look in 0..LOOKS {
        if let Some(desk) = door.try_lock() {
            return Some(desk);
        }
        spin_loop();
    }
    None
}

// Locks the book. What is done under the lock is short, and to sleep and be woken takes
// longer: so a worker looks for a while whether it is free, and lets other threads run in between.
fn enter<'a, K, R: Wait>(rt: &R, door: &'a Mutex<K>) -> MutexGuard<'a, K> {
    for _yield in 0..YIELDS {
        if let Some(desk) = look(door) {
            return desk;
        }
        yield_now();
    }
    door.lock(rt)
}

impl<L: Run> Decides<L> for Locked<L> {
    fn decide(
        &mut self,
        alloc: Global,
        pass: &mut Pass<L>,
        event: &Event,
        fits: bool,
    ) -> Result<Turn, Memory> {
        self.offer(alloc, pass, event, fits)
    }
}

// The door to the book, for the one event of a turn: a runtime that may wait, the book's lock, the
// gate, the number of the turn, and whether the gate was passed before.
#[derive(Drop)]
pub(crate) struct Door<'a, K, G, R> {
    pub(crate) rt: &'a R,
    pub(crate) lock: &'a Mutex<K>,
    pub(crate) gate: &'a G,
    pub(crate) count: u64,
    pub(crate) passed: bool,
}

// Behind the door is a desk. The book is locked for the proposal alone.
impl<'a, L: Run, K: Decides<L>, G: Gate, R: Wait> Desk<Pass<L>> for Door<'a, K, G, R> {
    ghost use Rattle.shared_net.specs.Offers.{Turned};

    ghost decides = { λ _ held e fits turn _ after. Turned held turn after };

    ghost keeps = { λ _ _. Unit {0} };

    fn propose(
        &mut self,
        alloc: Global,
        carried: &mut Pass<L>,
        event: &Event,
        fits: bool,
    ) -> Result<Turn, Memory> {
        if !self.passed {
            self.gate.pass(carried.number(), self.count, Phase::Held);
        }
        let mut book = enter(self.rt, self.lock);
        book.decide(alloc, carried, event, fits)
    }

    ghost stays = { λ _. tt };
}
