// The gate that holds two workers.
ghost use Rattle.std.specs.Prelude.{◌≡◌};

use crate::passes::{Ended, close_all, turn_at, work};
use crate::runs::begin;
use chem_model::{Memory, Program};
use join_base::Front;
use shared_net::{HoldGate, Run, Turn};
use std::alloc::Global;
use std::marker::Brand;
use std::sync::Wait;
use std::sync::ledger::Blank;
use std::thread::Threads;
use worked_programs::program_of;

// Two sites of ten messages each.
const TWENTY: &str = "site s [ x() => 0 : \
    x() | x() | x() | x() | x() | x() | x() | x() | x() | x() ] \
    site t [ y() => 0 : \
    y() | y() | y() | y() | y() | y() | y() | y() | y() | y() ]";

const BUDGET: u32 = 20;

// ---- two workers on threads

// Whether one of two workers gave up, and how their run ended.
fn run_both<L: Run + Send + Sync, R: Threads + Wait + Sync>(
    rt: &R,
    alloc: Global,
    program: &Program,
    blank: Blank,
) -> Result<(bool, Option<Ended>), Memory>
    requires name { blank.name ≡ L.name }
    requires parts { blank.parts ≡ L.parts }
    requires two { blank.parts ≡ 2 }
    requires program { program.now ≡ L.program }
{
    let (net, passes) = begin::<L>(alloc, program, 2, BUDGET, blank)?;
    let mut passes = passes;
    let gate = HoldGate::new();
    work(rt, alloc, &net, &mut passes, &gate);
    Ok((gate.gave_up(), close_all(alloc, net, passes)))
}

fn on_threads<R: Threads + Wait + Sync>(
    rt: &R,
    alloc: Global,
) -> Result<(bool, Option<Ended>), Front> {
    let program = program_of(alloc, TWENTY.as_bytes())?;
    Ok(run_both::<Brand, R>(rt, alloc, &program, Blank::new(2))?)
}

// Both are inside a turn at once, and all events have receipts, some of each worker.
#[test]
fn two_are_inside_at_once(rt: HostRuntime) {
    let ended = Ended {
        events: 20,
        receipts: 20,
        each: true,
        idle: 2,
        full: false,
    };
    assert_eq!(rt; on_threads(&rt, rt.alloc()), Ok((false, Some(ended))));
}

// ---- the same two workers on one thread

// Whether one of two workers gave up whose turns come one after the other, what these answered,
// and how their run ended.
fn run_in_turn<L: Run, R: Wait>(
    rt: &R,
    alloc: Global,
    program: &Program,
    blank: Blank,
) -> Result<(bool, [Option<Turn>; 2], Option<Ended>), Memory>
    requires name { blank.name ≡ L.name }
    requires parts { blank.parts ≡ L.parts }
    requires two { blank.parts ≡ 2 }
    requires program { program.now ≡ L.program }
{
    let (net, passes) = begin::<L>(alloc, program, 2, BUDGET, blank)?;
    let mut passes = passes;
    let gate = HoldGate::new();
    let first = turn_at(rt, alloc, &net, &mut passes, 0, 0, &gate);
    let second = turn_at(rt, alloc, &net, &mut passes, 1, 1, &gate);
    Ok((
        gate.gave_up(),
        [first, second],
        close_all(alloc, net, passes),
    ))
}

fn in_turn<R: Wait>(
    rt: &R,
    alloc: Global,
) -> Result<(bool, [Option<Turn>; 2], Option<Ended>), Front> {
    let program = program_of(alloc, TWENTY.as_bytes())?;
    Ok(run_in_turn::<Brand, R>(rt, alloc, &program, Blank::new(2))?)
}

// The first one looks for the other in vain.
#[test]
fn one_thread_gives_up(rt: HostRuntime) {
    let turns = [Some(Turn::Did(0)), Some(Turn::Did(1))];
    let ended = Ended {
        events: 2,
        receipts: 2,
        each: true,
        idle: 0,
        full: false,
    };
    assert_eq!(rt; in_turn(&rt, rt.alloc()), Ok((true, turns, Some(ended))));
}
