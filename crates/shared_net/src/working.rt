// The workers of a run on threads.
ghost use Rattle.std.specs.Prelude.{◌≡◌};
ghost use Rattle.shared_net.specs.Turning.{owner, HaveSameOwners};

use crate::crossing::{locked_crosses, parts_are_shared};
use crate::door::Decides;
use crate::gate::Gate;
use crate::locked::Locked;
use crate::net::{Parts, SharedNet};
use crate::pass::Pass;
use crate::run::Run;
use crate::turning::Hands;
use site_turn::Turn;
use std::alloc::Global;
use std::sync::{Mutex, Wait};
use std::thread;
use std::thread::Threads;

// At most so many threads work at once.
const THREADS: usize = 16;

impl Parts {
    // Turns of one worker at one site after another, from its own on: worker 1 begins at site 0.
    fn work<L: Run, K: Decides<L>, G: Gate, R: Wait>(
        &self,
        rt: &R,
        alloc: Global,
        book: &Mutex<K>,
        pass: &mut Pass<L>,
        gate: &G,
    )
        ensures { owner pass.new ≡ owner pass.old }
    {
        let sites = self.count();
        let mut site = pass.number().saturating_sub(1) % sites;
        for _turn in rt.forever() {
            let hands = Hands {
                rt,
                alloc,
                book,
                gate,
                at: site as usize,
                count: pass.begin(),
            };
            match self.turn(&hands, pass) {
                Err(_) | Ok(Turn::Full) => return,
                Ok(_) => {}
            }
            if pass.idle() >= sites {
                return;
            }
            site = if site + 1 == sites { 0 } else { site + 1 };
        }
    }
}

// Lends one pass to each worker.
fn lend<L: Run + Send + Sync, K: Decides<L> + Send, G: Gate, R: Threads + Wait + Sync>(
    rt: &R,
    alloc: Global,
    parts: &Parts,
    book: &Mutex<K>,
    passes: &mut [Pass<L>],
    gate: &G,
)
    ensures { HaveSameOwners passes.old passes.new }
{
    parts_are_shared();
    thread::for_each_mut(
        rt,
        passes,
        THREADS,
        &|_i: usize, pass: &mut Pass<L>|
            ensures { owner pass.exit.now ≡ owner pass.entry.now }
        { parts.work(rt, alloc, book, pass, gate) },
    );
}

// Lends one pass to each worker, beside the locked book.
fn lend_locked<L: Run + Send + Sync, G: Gate, R: Threads + Wait + Sync>(
    rt: &R,
    alloc: Global,
    parts: &Parts,
    book: &Mutex<Locked<L>>,
    passes: &mut [Pass<L>],
    gate: &G,
)
    ensures { HaveSameOwners passes.old passes.new }
{
    locked_crosses::<L>();
    lend(rt, alloc, parts, book, passes, gate);
}

impl<L: Run + Send + Sync> SharedNet<L> {
    /// Lends one pass to each worker. It turns at one site after another until a turn answers
    /// `Full` or wants memory, or its last turns in sequence, as many as there are sites, found
    /// nothing. So a pass that is neither full nor idle for that many turns met want of memory. It
    /// may wait.
    pub fn work_all<G: Gate, R: Threads + Wait + Sync>(
        &self,
        rt: &R,
        alloc: Global,
        passes: &mut [Pass<L>],
        gate: &G,
    )
        ensures { HaveSameOwners passes.old passes.new }
    {
        lend_locked(rt, alloc, &self.parts, &self.locked, passes, gate);
    }
}
