// A gate that counts who passes it, and tells whether they came in order.

use shared_net::{Gate, Phase};
use std::sync::atomic::{AtomicBool, AtomicU32, AtomicU64, Ordering};

// How often a gate was passed at each of the two moments, by whom at the last `Held`, and whether
// in order: each `Held` in a later turn than the one before, and each `Done` right after the `Held`
// of the same worker in the same turn.
#[derive(Clone, Copy, PartialEq, Eq, Debug)]
pub struct Passed {
    pub held: u32,
    pub done: u32,
    pub worker: u32,
    pub turn: u64,
    pub in_order: bool,
}

// A gate for one worker after another.
#[derive(Drop)]
pub struct CountGate {
    held: AtomicU32,
    done: AtomicU32,
    worker: AtomicU32,
    turn: AtomicU64,
    // Whether the last to pass came to `Held`.
    is_held: AtomicBool,
    out_of_order: AtomicBool,
}

impl CountGate {
    pub fn new() -> CountGate {
        CountGate {
            held: AtomicU32::new(0),
            done: AtomicU32::new(0),
            worker: AtomicU32::new(0),
            turn: AtomicU64::new(0),
            is_held: AtomicBool::new(false),
            out_of_order: AtomicBool::new(false),
        }
    }

    pub fn passed(&self) -> Passed {
        Passed {
            held: self.held.load(Ordering::SeqCst),
            done: self.done.load(Ordering::SeqCst),
            worker: self.worker.load(Ordering::SeqCst),
            turn: self.turn.load(Ordering::SeqCst),
            in_order: !self.out_of_order.load(Ordering::SeqCst),
        }
    }

    fn come_to_held(&self, worker: u32, turn: u64) {
        let is_first = self.held.fetch_add(1, Ordering::SeqCst) == 0;
        let last = self.turn.swap(turn, Ordering::SeqCst);
        if !is_first && turn <= last {
            self.out_of_order.store(true, Ordering::SeqCst);
        }
        self.worker.store(worker, Ordering::SeqCst);
        self.is_held.store(true, Ordering::SeqCst);
    }

    fn come_to_done(&self, worker: u32, turn: u64) {
        self.done.fetch_add(1, Ordering::SeqCst);
        let was_held = self.is_held.swap(false, Ordering::SeqCst);
        let is_same = self.worker.load(Ordering::SeqCst) == worker
            && self.turn.load(Ordering::SeqCst) == turn;
        if !(was_held && is_same) {
            self.out_of_order.store(true, Ordering::SeqCst);
        }
    }
}

impl Gate for CountGate {
    fn pass(&self, worker: u32, turn: u64, phase: Phase) {
        match phase {
            Phase::Held => self.come_to_held(worker, turn),
            Phase::Done => self.come_to_done(worker, turn),
        }
    }
}
