// What runs on free threads have of their own: a ring, and two workers at once.
ghost use denote.Param.Send.{IsSync};

use crate::cases::expect_made;
use crate::expected::{expect_bytes, expect_status};
use chem_model::Memory;
use join_top::{HoldGate, Threaded};
use std::alloc::{AllocError, Global};
use std::marker::Sync;
use std::process::Abort;
use std::sync::Wait;
use std::test::Fail;
use std::thread::Threads;
use worked_calls::{Ends, Made, Outcome, call_through, ends_of};
use worked_texts::{Case, QUIET};

// The words of a case, and with so many workers.
fn words_with(
    alloc: Global,
    case: &Case,
    workers: &'static str,
) -> Result<Vec<&'static str>, AllocError> {
    let mut words = Vec::new(alloc);
    for word in case.words {
        words.push(*word)?;
    }
    words.push("--workers")?;
    words.push(workers)?;
    Ok(words)
}

// That a case ends as it says by so many workers, who made each event.
fn expect_shared<R: AllocGlobal + Abort + Threads + Wait + Sync>(
    rt: &R,
    case: &Case,
    workers: &'static str,
) -> Result<(), Fail>
    requires { IsSync R.row }
{
    let words = words_with(rt.alloc(), case, workers)?;
    let made = Made::Shared(case.events.unwrap_or(0) as u64);
    expect_made(rt, words.as_slice(), case, made)
}

// A ring of 64 sites.
const RING: &Case = &Case {
    words: &["gen", "64", "--budget", "1000", "--by", "run"],
    text: &[(1, "this is not read")],
    out: "events 640\nobservables 64\nquiescent\n",
    events: Some(640),
    ..QUIET
};

fn ring() -> &'static Case {
    RING
}

#[test]
fn a_ring_on_free_threads(rt: HostRuntime) -> Result<(), Fail> {
    expect_shared(&rt, ring(), "1")?;
    expect_shared(&rt, ring(), "4")
}

// Ten messages at each of two sites.
const TWO_SITES: &str = "site s [ x() => 0 : x() | x() | x() | x() | x() | x() | x() | x() | x() | \
    x() ] site t [ y() => 0 : y() | y() | y() | y() | y() | y() | y() | y() | y() | y() ]";

fn two_sites() -> &'static str {
    TWO_SITES
}

// A run of the two sites by two workers, through a gate.
fn run_through<R: AllocGlobal + Abort + Threads + Wait + Sync>(
    rt: &R,
    gate: &HoldGate,
    ends: &mut Ends,
) -> Result<Outcome, Memory>
    requires { IsSync R.row }
{
    let words = ["run", "--budget", "20", "--workers", "2"];
    let team = Threaded::new(rt);
    call_through(rt.alloc(), &words, ends, gate, &team)
}

// How such a run, which ends quiet, was made.
fn made_through<R: AllocGlobal + Abort + Threads + Wait + Sync>(
    rt: &R,
    gate: &HoldGate,
) -> Result<Option<Made>, Memory>
    requires { IsSync R.row }
{
    let mut ends = ends_of(rt.alloc(), two_sites().as_bytes())?;
    let run = run_through(rt, gate, &mut ends)?;
    expect_status(rt, &run, 0);
    expect_bytes(rt, run.out.as_slice(), b"quiescent\n");
    expect_bytes(rt, run.err.as_slice(), b"");
    Ok(run.made)
}

// How a run of the two sites by two workers was made, through a gate that holds each of them until
// the other has come, and whether one of them gave up.
fn through_the_gate<R: AllocGlobal + Abort + Threads + Wait + Sync>(
    rt: &R,
) -> Result<(Option<Made>, bool), Memory>
    requires { IsSync R.row }
{
    let gate = HoldGate::new();
    let made = made_through(rt, &gate)?;
    Ok((made, gate.gave_up()))
}

// Two workers are inside their turns at once: one thread can't pass the gate, nor one lock round
// everything.
#[test]
fn two_workers_work_at_once(rt: HostRuntime) -> Result<(), Fail> {
    let (made, gave_up) = through_the_gate(&rt)?;
    assert_eq!(rt; made, Some(Made::Shared(20)));
    assert!(rt; !gave_up);
    Ok(())
}
