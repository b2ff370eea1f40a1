// The run on free threads.
ghost use Rattle.std.specs.Prelude.{◌≡◌, ◌<◌, ◌≤◌, length, map, is_some, true, None, IfOk, IfSome};
ghost use Rattle.chem_model.specs.Each.{Each};
ghost use Rattle.env_store.specs.Reading.{IsCodeOf};
ghost use Rattle.shared_net.specs.Agrees.{row_of};
ghost use Rattle.shared_net.specs.Causes.{DifferInNumber, IsOfStarted};
ghost use Rattle.shared_net.specs.Closes.{Closes, HaveBudget, IsAgreed};
ghost use Rattle.shared_net.specs.Turning.{HaveSameOwners};
ghost use Rattle.site_runner.specs.Free.{HasEnded, IsFinished, IsMadeWith, IsFree};
ghost use Rattle.site_runner.specs.Free.{first_workers};
ghost use Rattle.site_runner.specs.Schedule.{ScheduleOf};
ghost use Rattle.site_runner.specs.inside.Rows.{rows_of};

use crate::one_thread::finish;
use crate::outcome::{Done, How};
use chem_model::{Memory, Program};
use env_store::Code;
use shared_net::{Closed, Gate, Passes, Report, Run, SharedNet};
use std::alloc::Global;
use std::marker::{Send, Sync};
use std::sync::Wait;
use std::sync::ledger::Blank;
use std::thread::Threads;
use trace_history::Book;

// Whether each worker has ended: none met want of memory.
fn have_ended<L: Run>(passes: &Passes<L>, sites: u32) -> bool
    ensures { result ≡ true → Each (λ p. HasEnded sites (row_of p)) passes.now }
{
    for pass in passes.as_slice() {
        if !pass.full() && pass.idle() < sites {
            return false;
        }
    }
    true
}

// Lends one pass to each worker. Whether each worker has ended.
fn work<L: Run + Send + Sync, G: Gate, R: Threads + Wait + Sync>(
    rt: &R,
    alloc: Global,
    net: &SharedNet<L>,
    passes: &mut Passes<L>,
    gate: &G,
) -> bool
    ensures same { HaveSameOwners passes.old passes.new }
    ensures ended { result ≡ true → Each (λ p. HasEnded net.now.sites (row_of p)) passes.new }
{
    net.work_all(rt, alloc, passes.as_mut_slice(), gate);
    have_ended(passes, net.sites())
}

// Goes on from the book with which the receipts agree, on one thread.
fn shared(alloc: Global, book: Book, report: Report, budget: u32) -> Result<Done, Memory>
    requires agreed { IsAgreed book.program budget report.workers book }
    requires none { report.differs ≡ None }
    ensures run { IfOk result (λ done. IsFinished book.program budget done.book) }
    ensures how { IfOk result (λ done.
        IsMadeWith report.workers book.program budget done.book.journal done.how) }
{
    let events = book.journal().len() as u64;
    let mut book = book;
    book.expect_searches(true);
    match finish(alloc, book, budget) {
        Ok(book) => {
            let how = How::Shared { events, report };
            Ok(Done { book, how })
        }
        Err(memory) => {
            drop(report);
            Err(memory)
        }
    }
}

// The book of the whole run on one thread.
fn from_start(alloc: Global, program: &Program, budget: u32) -> Result<Book, Memory>
    ensures run { IfOk result (IsFinished program.now budget) }
    ensures whole { IfOk result (λ book. ScheduleOf program.now budget book.journal) }
{
    let book = Book::start(alloc, program)?;
    finish(alloc, book, budget)
}

// Makes the whole run on one thread, where the receipts don't agree with the book.
fn lone(alloc: Global, program: &Program, report: Report, budget: u32) -> Result<Done, Memory>
    requires some { is_some report.differs ≡ true }
    requires started { IfSome report.differs (IsOfStarted program.now) }
    ensures run { IfOk result (λ done. IsFinished program.now budget done.book) }
    ensures how { IfOk result (λ done.
        IsMadeWith report.workers program.now budget done.book.journal done.how) }
{
    let _cause = report.differs();
    match from_start(alloc, program, budget) {
        Ok(book) => {
            let how = How::Lone(report);
            Ok(Done { book, how })
        }
        Err(memory) => {
            drop(report);
            Err(memory)
        }
    }
}

// Goes on once the network is closed: from its book, or, where the receipts don't agree with that,
// with the whole run.
fn after_close(
    alloc: Global,
    program: &Program,
    closed: Closed,
    budget: u32,
) -> Result<Done, Memory>
    requires { Closes program.now budget (rows_of closed) closed }
    ensures run { IfOk result (λ done. IsFinished program.now budget done.book) }
    ensures how { IfOk result (λ done.
        IsMadeWith (rows_of closed) program.now budget done.book.journal done.how) }
{
    match closed {
        Closed::Agreed(book, report) => shared(alloc, book, report, budget),
        Closed::Differs(report) => lone(alloc, program, report, budget),
    }
}

/// Lends one pass to each worker, closes the network, and finishes on one thread from its book.
///
/// A worker turns at one site after another until the journal has `budget` events, or its last
/// turns in sequence, as many as there are sites, found nothing. Where the receipts of the passes
/// don't agree with the book, that is dropped, and the whole run is made on one thread. It may
/// wait. Network and passes are dropped on want of memory, which may come at a turn of any worker.
pub fn free<L: Run + Send + Sync, G: Gate, R: Threads + Wait + Sync>(
    rt: &R,
    alloc: Global,
    program: &Program,
    net: SharedNet<L>,
    passes: Passes<L>,
    budget: u32,
    gate: &G,
) -> Result<Done, Memory>
    requires program { net.program ≡ program.now }
    requires budget { net.budget ≡ budget }
    requires whole { length passes ≡ L.parts }
    requires some { 0 < length passes }
    requires apart { DifferInNumber (map row_of passes) }
    requires budgets { HaveBudget budget passes }
    ensures run { IfOk result (λ done. IsFinished program.now budget done.book) }
    ensures how { IfOk result (λ done. IsFree net.sites (map (λ p. p.number) passes)
        program.now budget done.book.journal done.how) }
{
    let mut passes = passes;
    if !work(rt, alloc, &net, &mut passes, gate) {
        drop(net);
        drop(passes);
        return Err(Memory);
    }
    match net.close(alloc, passes) {
        Ok(closed) => after_close(alloc, program, closed, budget),
        Err(back) => {
            drop(back);
            Err(Memory)
        }
    }
}

/// The run on free threads of a program from its opening. The blank ledger has a part for each
/// worker.
pub fn free_from_opening<L: Run + Send + Sync, G: Gate, R: Threads + Wait + Sync>(
    rt: &R,
    alloc: Global,
    program: &Program,
    code: &Code,
    workers: u32,
    budget: u32,
    blank: Blank,
    gate: &G,
) -> Result<Done, Memory>
    requires code { IsCodeOf program.now code.now }
    requires workers { (1 ≤ workers) × (workers ≤ 16) }
    requires budget { budget ≤ 4000000 }
    requires name { blank.name ≡ L.name }
    requires parts { blank.parts ≡ L.parts }
    requires one_each { blank.parts ≡ workers }
    requires program { program.now ≡ L.program }
    ensures run { IfOk result (λ done. IsFinished program.now budget done.book) }
    ensures how { IfOk result (λ done. IsFree (length program.now.sites) (first_workers workers)
        program.now budget done.book.journal done.how) }
{
    let (net, passes) = SharedNet::<L>::start(alloc, program, code, workers, budget, blank)?;
    free(rt, alloc, program, net, passes, budget, gate)
}
