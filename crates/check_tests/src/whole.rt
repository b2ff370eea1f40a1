// Whole logs by each of the three commands: of each some events are changed, and some bytes of the
// trace.
ghost use denote.Param.Send.{IsSync};

use crate::called::log_by;
use crate::changes::{expect_changes, expect_said, expect_trace, log_in, program_in};
use crate::plain::Said;
use std::alloc::{AllocError, Global};
use std::marker::Sync;
use std::process::Abort;
use std::sync::Wait;
use std::test::Fail;
use std::thread::Threads;
use trace_text::Log;
use worked_texts::{Case, examples, runs, runs_in_rounds};

// The words of the three commands.
const ALONE: &[&str] = &["alone"];

const ROUNDS: &[&str] = &["rounds", "--workers", "2"];

const RUN: &[&str] = &["run", "--workers", "2"];

// More events than any example has.
const ENOUGH: &str = "100";

// The budget that a case is run with.
fn budget_of(case: &Case) -> &'static str {
    for (place, word) in case.words.iter().enumerate() {
        if *word == "--budget" {
            if let Some(budget) = case.words.get(place.saturating_add(1)) {
                return *budget;
            }
        }
    }
    ENOUGH
}

// The words that print the log of a case by a command.
fn words_for_log(
    alloc: Global,
    command: &[&'static str],
    case: &Case,
) -> Result<Vec<&'static str>, AllocError> {
    let mut words = Vec::new(alloc);
    for word in command {
        words.push(*word)?;
    }
    words.push("--budget")?;
    words.push(budget_of(case))?;
    words.push("--log")?;
    Ok(words)
}

// The bytes of the log of a case by a command.
fn bytes_of<R: AllocGlobal + Abort + Threads + Wait + Sync>(
    rt: &R,
    command: &[&'static str],
    case: &Case,
) -> Result<Vec<u8>, Fail>
    requires { IsSync R.row }
{
    let words = words_for_log(rt.alloc(), command, case)?;
    Ok(log_by(rt, words.as_slice(), case)?)
}

// Whether a place is the first of so many, the one in the middle, or one of the last two.
fn is_chosen(place: usize, count: usize) -> bool {
    place == 0 || place == count / 2 || place.saturating_add(2) >= count
}

// That of a log with one of the chosen events changed it is said what the plain program says.
fn expect_events<R: AllocGlobal + Abort + Threads + Wait + Sync>(
    rt: &R,
    log: &Log,
) -> Result<(), Fail>
    requires { IsSync R.row }
{
    let program = program_in(rt.alloc(), log)?;
    for at in 0..log.events.len() {
        if is_chosen(at, log.events.len()) {
            expect_changes(rt, &program, log, at)?;
        }
    }
    Ok(())
}

// That a log is refused at each chosen byte of its trace, where that is another one.
fn expect_traces<R: AllocGlobal + Abort + Threads + Wait + Sync>(
    rt: &R,
    log: &Log,
) -> Result<(), Fail>
    requires { IsSync R.row }
{
    for place in 0..log.trace.len() {
        if is_chosen(place, log.trace.len()) {
            expect_trace(rt, log, place)?;
        }
    }
    Ok(())
}

// That the log of a case by a command is that of a run, and what is said where it is changed.
fn expect_case<R: AllocGlobal + Abort + Threads + Wait + Sync>(
    rt: &R,
    command: &[&'static str],
    case: &Case,
) -> Result<(), Fail>
    requires { IsSync R.row }
{
    let bytes = bytes_of(rt, command, case)?;
    expect_said(rt, bytes.as_slice(), Said::Yes)?;
    let log = log_in(rt.alloc(), bytes.as_slice())?;
    expect_events(rt, &log)?;
    expect_traces(rt, &log)
}

// Whether a case runs a ring, and no text.
fn is_ring(case: &Case) -> bool {
    case.words.iter().any(|word| *word == "gen")
}

// The same of each of these cases that runs a text.
fn expect_cases<R: AllocGlobal + Abort + Threads + Wait + Sync>(
    rt: &R,
    command: &[&'static str],
    cases: &[Case],
) -> Result<(), Fail>
    requires { IsSync R.row }
{
    for case in cases {
        if !is_ring(case) {
            expect_case(rt, command, case)?;
        }
    }
    Ok(())
}

// The same of each of these tables.
fn expect_tables<R: AllocGlobal + Abort + Threads + Wait + Sync>(
    rt: &R,
    command: &[&'static str],
    tables: &[&'static [Case]],
) -> Result<(), Fail>
    requires { IsSync R.row }
{
    for cases in tables {
        expect_cases(rt, command, *cases)?;
    }
    Ok(())
}

#[test]
fn texts_alone(rt: HostRuntime) -> Result<(), Fail> {
    expect_tables(&rt, ALONE, &runs())
}

#[test]
fn texts_in_rounds(rt: HostRuntime) -> Result<(), Fail> {
    expect_tables(&rt, ROUNDS, &runs())
}

#[test]
fn texts_on_free_threads(rt: HostRuntime) -> Result<(), Fail> {
    expect_tables(&rt, RUN, &runs())
}

#[test]
fn texts_of_rounds_alone(rt: HostRuntime) -> Result<(), Fail> {
    expect_tables(&rt, ALONE, &runs_in_rounds())
}

#[test]
fn texts_of_rounds_in_rounds(rt: HostRuntime) -> Result<(), Fail> {
    expect_tables(&rt, ROUNDS, &runs_in_rounds())
}

#[test]
fn texts_of_rounds_on_free_threads(rt: HostRuntime) -> Result<(), Fail> {
    expect_tables(&rt, RUN, &runs_in_rounds())
}

// How many tables of examples come before those with the most events.
const SMALL: usize = 7;

#[test]
fn small_examples_alone(rt: HostRuntime) -> Result<(), Fail> {
    expect_tables(&rt, ALONE, &examples()[..SMALL])
}

#[test]
fn small_examples_in_rounds(rt: HostRuntime) -> Result<(), Fail> {
    expect_tables(&rt, ROUNDS, &examples()[..SMALL])
}

#[test]
fn small_examples_on_free_threads(rt: HostRuntime) -> Result<(), Fail> {
    expect_tables(&rt, RUN, &examples()[..SMALL])
}

#[test]
fn large_examples_alone(rt: HostRuntime) -> Result<(), Fail> {
    expect_tables(&rt, ALONE, &examples()[SMALL..])
}

#[test]
fn large_examples_in_rounds(rt: HostRuntime) -> Result<(), Fail> {
    expect_tables(&rt, ROUNDS, &examples()[SMALL..])
}

#[test]
fn large_examples_on_free_threads(rt: HostRuntime) -> Result<(), Fail> {
    expect_tables(&rt, RUN, &examples()[SMALL..])
}
