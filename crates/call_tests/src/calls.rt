// The four runs as calls, without the top call.
ghost use denote.Param.Send.{IsSync};

use chem_model::{Memory, Program, Text};
use guard_compile::compile;
use join_top::{OpenGate, begin};
use lossy_link::lossy;
use site_runner::{Done, FreeTeam, How, Threaded, alone, rounds};
use std::alloc::Global;
use std::marker::Sync;
use std::process::Abort;
use std::sync::Wait;
use std::test::Fail;
use std::thread::Threads;
use trace_history::Book;
use trace_text::{Ending, trace_bytes};
use worked_programs::program_of;

// A move between sites, and what the moved location then shows.
const MOVE: &str =
    "observe out/1; site a [ m[ k() => out(m) : go(b, k) ] : 0 ] site b [ none : 0 ]";

// How a run was made, without its report: on free threads with the number of events that the
// workers made.
#[derive(Clone, Copy, PartialEq, Eq, Debug)]
enum Made {
    Alone,
    Rounds,
    Shared(u64),
    Lone,
    Lossy,
}

fn how_made(how: &How) -> Made {
    match how {
        How::Alone => Made::Alone,
        How::Rounds => Made::Rounds,
        How::Shared { events, .. } => Made::Shared(*events),
        How::Lone(_) => Made::Lone,
        How::Lossy { .. } => Made::Lossy,
    }
}

// What a run left, as plain values.
#[derive(Drop)]
struct Outcome {
    made: Made,
    quiet: bool,
    events: usize,
    text: Text,
}

fn told(alloc: Global, done: &Done) -> Result<Outcome, Memory> {
    Ok(Outcome {
        made: how_made(&done.how),
        quiet: done.book.quiet(),
        events: done.book.journal().len(),
        text: trace_bytes(alloc, &done.book, Ending::Quiescent)?,
    })
}

fn outcome_of(alloc: Global, done: Done) -> Result<Outcome, Memory> {
    let done = Box::new(alloc, done)?;
    told(alloc, &done)
}

fn on_one_thread(alloc: Global, program: &Program) -> Result<Outcome, Memory> {
    let book = Book::start(alloc, program)?;
    outcome_of(alloc, alone(alloc, book, 10)?)
}

fn by_two_workers<R: AllocGlobal + Threads + Wait + Sync>(
    rt: &R,
    program: &Program,
) -> Result<Outcome, Memory> {
    let (net, book) = begin(rt.alloc(), program)?;
    outcome_of(rt.alloc(), rounds(rt, rt.alloc(), net, book, 2, 10)?)
}

fn by_two_free_workers<R: AllocGlobal + Threads + Wait + Sync>(
    rt: &R,
    program: &Program,
) -> Result<Outcome, Memory>
    requires { IsSync R.row }
{
    let code = compile(rt.alloc(), program)?;
    let team = Threaded::new(rt);
    let done = team.free(rt.alloc(), program, &code, 2, 10, &OpenGate)?;
    outcome_of(rt.alloc(), done)
}

fn over_links(alloc: Global, program: &Program) -> Result<Outcome, Memory> {
    let (net, book) = begin(alloc, program)?;
    let (book, counts) = lossy(alloc, net, book, 10, 0)?;
    let how = How::Lossy {
        sent: counts.sent,
        lost: counts.lost,
        repeated: counts.repeated,
        arrived: counts.arrived,
    };
    outcome_of(alloc, Done { book, how })
}

// That a run was made as wanted, ended quiet with two events, and shows the location.
fn expect_move(rt: &impl Abort, run: &Outcome, made: Made) {
    assert_eq!(rt; run.made, made);
    assert!(rt; run.quiet);
    assert_eq!(rt; run.events, 2);
    assert_eq!(rt; run.text.as_slice(), b"out(m)\nquiescent\n".as_slice());
}

#[test]
fn a_move_by_the_four_calls(rt: HostRuntime) -> Result<(), Fail> {
    let program = program_of(rt.alloc(), MOVE.as_bytes())?;
    expect_move(&rt, &on_one_thread(rt.alloc(), &program)?, Made::Alone);
    expect_move(&rt, &by_two_workers(&rt, &program)?, Made::Rounds);
    expect_move(&rt, &by_two_free_workers(&rt, &program)?, Made::Shared(2));
    expect_move(&rt, &over_links(rt.alloc(), &program)?, Made::Lossy);
    Ok(())
}
