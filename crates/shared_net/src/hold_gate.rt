// A gate for tests, which shows that two workers are inside their turns at once.
use crate::gate::{Gate, Phase};
use std::sync::atomic::{AtomicBool, Ordering};

// How often a worker looks for the other before it gives up.
const LOOKS: u32 = 200_000_000;

/// Holds each of the workers 1 and 2 at its first `Held` until the other has come to a `Held`, for
/// at most 200,000,000 looks. So one thread can't pass it, whichever worker it runs first.
#[derive(Drop)]
pub struct HoldGate {
    first_came: AtomicBool,
    second_came: AtomicBool,
    looks_ran_out: AtomicBool,
}

impl HoldGate {
    pub fn new() -> HoldGate {
        HoldGate {
            first_came: AtomicBool::new(false),
            second_came: AtomicBool::new(false),
            looks_ran_out: AtomicBool::new(false),
        }
    }

    /// False exactly where both have come to a `Held` and the looks of neither ran out.
    pub fn gave_up(&self) -> bool {
        let both_came = self.first_came.load(Ordering::SeqCst)
            && self.second_came.load(Ordering::SeqCst);
        !both_came || self.looks_ran_out.load(Ordering::SeqCst)
    }

    // Says that one of the two has come. At its first time it looks for the other.
    fn meet(&self, came: &AtomicBool, other_came: &AtomicBool) {
        if came.swap(true, Ordering::SeqCst) {
            return;
        }
        for _look in 0..LOOKS {
            if other_came.load(Ordering::SeqCst) {
                return;
            }
        }
        self.looks_ran_out.store(true, Ordering::SeqCst);
    }
}

impl Gate for HoldGate {
    fn pass(&self, worker: u32, _turn: u64, phase: Phase) {
        match (worker, phase) {
            (1, Phase::Held) => self.meet(&self.first_came, &self.second_came),
            (2, Phase::Held) => self.meet(&self.second_came, &self.first_came),
            _ => {}
        }
    }
}
