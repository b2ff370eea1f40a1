// The passes of a run, lent to turns and to workers, and the run's end.
ghost use Rattle.std.specs.Prelude.{◌≡◌, ◌<◌, length};
ghost use Rattle.shared_net.specs.Passes.{new_passes};
ghost use Rattle.shared_net.specs.Turning.{owner, HaveSameOwners};

use chem_model::Memory;
use shared_net::{Closed, Gate, Pass, Passes, Report, Run, SharedNet, Turn, Worked, copy_worked};
use std::alloc::Global;
use std::sync::Wait;
use std::thread::Threads;

// What a run came to whose receipts agree with its book.
#[derive(Clone, Copy, PartialEq, Eq, Debug)]
pub struct Ended {
    pub events: usize,
    pub receipts: usize,
    // Whether each worker made an event.
    pub each: bool,
    // The last turns of the first worker, so many, found nothing.
    pub idle: u32,
    // Whether one of its turns found the budget used.
    pub full: bool,
}

// A turn of the worker of this pass.
fn one_turn<L: Run, G: Gate, R: Wait>(
    rt: &R,
    alloc: Global,
    net: &SharedNet<L>,
    pass: &mut Pass<L>,
    site: u32,
    gate: &G,
) -> Result<Turn, Memory>
    requires { site < net.now.sites }
    ensures { owner pass.new ≡ owner pass.old }
{
    net.turn(rt, alloc, pass, site, gate)
}

// A turn of one of the workers, counted from 0.
fn turn_of<L: Run, G: Gate, R: Wait>(
    rt: &R,
    alloc: Global,
    net: &SharedNet<L>,
    passes: &mut [Pass<L>],
    worker: usize,
    site: u32,
    gate: &G,
) -> Result<Turn, Memory>
    requires site { site < net.now.sites }
    requires worker { worker < length passes.old }
    ensures { HaveSameOwners passes.old passes.new }
{
    one_turn(rt, alloc, net, &mut passes[worker], site, gate)
}

// A turn of one of the workers, counted from 0, at a site. None where there is no such worker or
// site, or on want of memory.
pub fn turn_at<L: Run, G: Gate, R: Wait>(
    rt: &R,
    alloc: Global,
    net: &SharedNet<L>,
    passes: &mut Passes<L>,
    worker: usize,
    site: u32,
    gate: &G,
) -> Option<Turn>
    ensures { HaveSameOwners passes.old passes.new }
{
    if site >= net.sites() || worker >= passes.as_slice().len() {
        return None;
    }
    turn_of(rt, alloc, net, passes.as_mut_slice(), worker, site, gate).ok()
}

// All workers at once, until they stop.
pub fn work<L: Run + Send + Sync, G: Gate, R: Threads + Wait + Sync>(
    rt: &R,
    alloc: Global,
    net: &SharedNet<L>,
    passes: &mut Passes<L>,
    gate: &G,
)
    ensures { HaveSameOwners passes.old passes.new }
{
    net.work_all(rt, alloc, passes.as_mut_slice(), gate);
}

// How many receipts there are, and whether there is one in each row.
fn receipts_of(rows: &[Worked]) -> (usize, bool) {
    let mut receipts: usize = 0;
    let mut each = true;
    for worked in rows {
        let made = worked.receipts.len();
        receipts = receipts.saturating_add(made);
        each = each && made > 0;
    }
    (receipts, each)
}

// What the report of an agreed book tells, by a copy of its rows.
fn told(alloc: Global, events: usize, report: &Report) -> Option<Ended> {
    let rows = copy_worked(alloc, report.worked()).ok()?;
    let (receipts, each) = receipts_of(rows.as_slice());
    let first = rows.as_slice().first()?;
    Some(Ended {
        events,
        receipts,
        each,
        idle: first.idle,
        full: first.full,
    })
}

fn end_of(alloc: Global, closed: &Closed) -> Option<Ended> {
    match closed {
        Closed::Agreed(book, report) => told(alloc, book.journal().len(), report),
        Closed::Differs(_) => None,
    }
}

// Ends the run of these passes, which were started with their network. None where the receipts
// don't agree with the book, or on want of memory.
pub fn close_all<L: Run>(alloc: Global, net: SharedNet<L>, passes: Passes<L>) -> Option<Ended>
    requires some { 0 < L.parts }
    requires owners { HaveSameOwners (new_passes net.budget 1 L.parts) passes }
{
    let closed = net.close(alloc, passes).ok()?;
    let closed = Box::new(alloc, closed).ok()?;
    end_of(alloc, &closed)
}
