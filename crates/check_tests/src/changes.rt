// What is done with one event or one byte of a log, and what is said of what comes of it, beside
// the plain program.
ghost use denote.Param.Send.{IsSync};

use crate::called::call;
use crate::plain::{Said, said_of};
use chem_model::{Event, Items, Journal, Memory, Program, Text};
use run_check::{Verdict, verdict};
use std::alloc::Global;
use std::marker::Sync;
use std::process::Abort;
use std::sync::Wait;
use std::test::Fail;
use std::thread::Threads;
use trace_text::{Log, log_of_parts, read_log};
use worked_programs::program_of;

// What is done with one event.
#[derive(Clone, Copy)]
enum Change {
    Drop,
    Double,
    SwapWithNext,
}

const CHANGES: [Change; 3] = [Change::Drop, Change::Double, Change::SwapWithNext];

// Which event comes at this place where the one at `at` is changed.
fn taken_from(change: Change, at: usize, place: usize) -> usize {
    match change {
        Change::Drop => place.saturating_add(if place < at { 0 } else { 1 }),
        Change::Double => place.saturating_sub(if place <= at { 0 } else { 1 }),
        Change::SwapWithNext => {
            if place == at {
                at.saturating_add(1)
            } else if place == at.saturating_add(1) {
                at
            } else {
                place
            }
        }
    }
}

// The events, of which the one at `at` is changed. The last one has no next one to be swapped
// with, and stays.
fn changed(alloc: Global, events: &[Event], change: Change, at: usize) -> Result<Journal, Memory> {
    let mut journal = Items::new(alloc);
    for place in 0..events.len().saturating_add(1) {
        if let Some(event) = events.get(taken_from(change, at, place)) {
            journal.push(event.copy(alloc)?)?;
        }
    }
    Ok(journal)
}

pub fn program_in(alloc: Global, log: &Log) -> Result<Box<Program>, Fail> {
    Ok(program_of(alloc, log.source.as_slice()).or(Err("the source has no program"))?)
}

pub fn log_in(alloc: Global, bytes: &[u8]) -> Result<Box<Log>, Fail> {
    let log = read_log(alloc, bytes).or(Err("it is no log"))?;
    Ok(Box::new(alloc, log)?)
}

// The bytes of a log with these events and this trace in place of its own. It may have one event
// more.
fn bytes_with(alloc: Global, log: &Log, events: &Journal, trace: &[u8]) -> Result<Text, Memory> {
    let budget = log.budget.saturating_add(1);
    log_of_parts(alloc, log.source.as_slice(), budget, events, trace)
}

// That this is said of the bytes of a log.
pub fn expect_said<R: AllocGlobal + Abort + Threads + Wait + Sync>(
    rt: &R,
    bytes: &[u8],
    said: Said,
) -> Result<(), Fail>
    requires { IsSync R.row }
{
    let judged = call(rt, &["check"], bytes)?;
    let line = said.line(rt.alloc())?;
    judged.expect(rt, said.status(), line.as_slice(), b"");
    Ok(())
}

// What is said of a log that its caller keeps. None where it has more events than any log.
fn lent_verdict(alloc: Global, program: &Program, log: &Log) -> Result<Option<Said>, Memory> {
    if log.events.len() >= u32::MAX as usize {
        return Ok(None);
    }
    match verdict(alloc, program, log)? {
        Verdict::Yes(book) => {
            drop(book);
            Ok(Some(Said::Yes))
        }
        Verdict::Event { index } => Ok(Some(Said::Event(index))),
        Verdict::Trace { place } => Ok(Some(Said::Trace(place))),
    }
}

// That this is said of the log with these bytes where its caller keeps it, each time it asks.
fn expect_lent<R: AllocGlobal + Abort>(
    rt: &R,
    program: &Program,
    bytes: &[u8],
    said: Said,
) -> Result<(), Fail> {
    let log = log_in(rt.alloc(), bytes)?;
    for _time in 0..2 {
        let lent = lent_verdict(rt.alloc(), program, &log)?;
        assert_eq!(rt; lent, Some(said));
    }
    Ok(())
}

// That of a log with these events it is said what the plain program says.
pub fn expect_plain<R: AllocGlobal + Abort + Threads + Wait + Sync>(
    rt: &R,
    program: &Program,
    log: &Log,
    events: &Journal,
) -> Result<(), Fail>
    requires { IsSync R.row }
{
    let trace = log.trace.as_slice();
    let said = said_of(rt.alloc(), program, events.as_slice(), trace)?;
    let bytes = bytes_with(rt.alloc(), log, events, trace)?;
    expect_lent(rt, program, bytes.as_slice(), said)?;
    expect_said(rt, bytes.as_slice(), said)
}

// The same where the event at `at` is changed in each way.
pub fn expect_changes<R: AllocGlobal + Abort + Threads + Wait + Sync>(
    rt: &R,
    program: &Program,
    log: &Log,
    at: usize,
) -> Result<(), Fail>
    requires { IsSync R.row }
{
    for change in CHANGES {
        let events = changed(rt.alloc(), log.events.as_slice(), change, at)?;
        expect_plain(rt, program, log, &events)?;
    }
    Ok(())
}

// The trace of a log with another byte at this place.
fn trace_but_at(alloc: Global, log: &Log, place: usize) -> Result<Text, Memory> {
    let mut trace = log.trace.copy(alloc)?;
    trace.set(place, b'!');
    Ok(trace)
}

// That a log with another byte in its trace is refused at that byte.
pub fn expect_trace<R: AllocGlobal + Abort + Threads + Wait + Sync>(
    rt: &R,
    log: &Log,
    place: usize,
) -> Result<(), Fail>
    requires { IsSync R.row }
{
    let trace = trace_but_at(rt.alloc(), log, place)?;
    let bytes = bytes_with(rt.alloc(), log, &log.events, trace.as_slice())?;
    expect_said(rt, bytes.as_slice(), Said::Trace(place as u64))
}
