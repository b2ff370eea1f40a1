// Workers for the runs that want threads.
ghost use Rattle.std.specs.Prelude.{◌≡◌, [], ◌<◌, ◌≤◌, length, IfOk, OnErr};
ghost use Rattle.env_store.specs.Reading.{IsCodeOf};
ghost use Rattle.net_laws.specs.Opened.{opened_net};
ghost use Rattle.site_runner.specs.Free.{IsFinished, IsFree, first_workers};
ghost use Rattle.site_runner.specs.Rounds.{StandForOne, RunsInRounds, RoundsOf};
ghost use Rattle.site_runner.specs.declared.outcome.How.TheVariants as how;
ghost use denote.Param.Send.{IsSync};

use crate::in_rounds::rounds;
use crate::on_threads::free_from_opening;
use crate::outcome::Done;
use chem_model::{Memory, Program};
use env_store::Code;
use net_core::Net;
use shared_net::{HoldGate, OpenGate};
use std::alloc::Global;
use std::marker::{Brand, Sync};
use std::sync::Wait;
use std::sync::ledger::Blank;
use std::thread::Threads;
use trace_history::Book;

/// Workers for the runs that want threads. A top call is passed one value of it, so that the call
/// itself is proved to return.
pub trait Team {
    /// What its calls need of the runtime: that threads may share it.
    ghost ready: { Type 0 };

    /// The run in rounds, as the function `rounds` makes it.
    fn rounds(
        &self,
        alloc: Global,
        net: Net,
        book: Book,
        workers: u32,
        budget: u32,
    ) -> Result<Done, Memory>
        requires ready { ready }
        requires workers { (1 ≤ workers) × (workers ≤ 16) }
        requires budget { budget ≤ 4000000 }
        requires within { length book.journal ≤ budget }
        requires one { StandForOne book net }
        ensures run { IfOk result (λ done. RunsInRounds net book budget done.book) }
        ensures whole { IfOk result (λ done. book.journal ≡ []
            → net.net ≡ opened_net book.program.version net.code
            → RoundsOf book.program net.code budget done.book.journal) }
        ensures how { IfOk result (λ done. done.how ≡ how.Rounds) }
        ensures left { OnErr result (length book.journal < budget) };
}

/// Workers that turn freely at sites and pass a gate of this type.
pub trait FreeTeam<G> {
    /// What its call needs of the runtime: that threads may share it.
    ghost free_ready: { Type 0 };

    /// The run on free threads of a program from its opening, as the function `free` makes it.
    fn free(
        &self,
        alloc: Global,
        program: &Program,
        code: &Code,
        workers: u32,
        budget: u32,
        gate: &G,
    ) -> Result<Done, Memory>
        requires ready { free_ready }
        requires code { IsCodeOf program.now code.now }
        requires workers { (1 ≤ workers) × (workers ≤ 16) }
        requires budget { budget ≤ 4000000 }
        ensures run { IfOk result (λ done. IsFinished program.now budget done.book) }
        ensures how { IfOk result (λ done. IsFree (length program.now.sites) (first_workers workers)
            program.now budget done.book.journal done.how) };
}

/// Workers that are threads of a runtime.
#[derive(Drop)]
pub struct Threaded<'a, R: Threads + Sync> {
    rt: &'a R,
}

impl<'a, R: Threads + Sync> Threaded<'a, R> {
    pub fn new(rt: &'a R) -> Threaded<'a, R> {
        Threaded { rt }
    }
}

impl<R: Threads + Sync> Team for Threaded<'_, R> {
    ghost ready = { IsSync R.row };

    fn rounds(
        &self,
        alloc: Global,
        net: Net,
        book: Book,
        workers: u32,
        budget: u32,
    ) -> Result<Done, Memory> {
        rounds(self.rt, alloc, net, book, workers, budget)
    }
}

impl<R: Threads + Wait + Sync> FreeTeam<OpenGate> for Threaded<'_, R> {
    ghost free_ready = { IsSync R.row };

    fn free(
        &self,
        alloc: Global,
        program: &Program,
        code: &Code,
        workers: u32,
        budget: u32,
        gate: &OpenGate,
    ) -> Result<Done, Memory> {
        let blank = Blank::new(u64::from(workers));
        free_from_opening::<Brand, OpenGate, R>(
            self.rt, alloc, program, code, workers, budget, blank, gate,
        )
    }
}

impl<R: Threads + Wait + Sync> FreeTeam<HoldGate> for Threaded<'_, R> {
    ghost free_ready = { IsSync R.row };

    fn free(
        &self,
        alloc: Global,
        program: &Program,
        code: &Code,
        workers: u32,
        budget: u32,
        gate: &HoldGate,
    ) -> Result<Done, Memory> {
        let blank = Blank::new(u64::from(workers));
        free_from_opening::<Brand, HoldGate, R>(
            self.rt, alloc, program, code, workers, budget, blank, gate,
        )
    }
}
