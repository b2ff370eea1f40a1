// Each event of a log of ten events at most is changed, and many bytes of its trace.
ghost use denote.Param.Send.{IsSync};

use crate::called::log_by;
use crate::changes::{expect_changes, expect_plain, expect_trace, log_in, program_in};
use std::marker::Sync;
use std::process::Abort;
use std::sync::Wait;
use std::test::Fail;
use std::thread::Threads;
use trace_text::Log;
use worked_texts::{Case, examples, runs};

// That of a log it is said what the plain program says, also where one of its events is changed.
fn expect_events<R: AllocGlobal + Abort + Threads + Wait + Sync>(
    rt: &R,
    log: &Log,
) -> Result<(), Fail>
    requires { IsSync R.row }
{
    let program = program_in(rt.alloc(), log)?;
    expect_plain(rt, &program, log, &log.events)?;
    for at in 0..log.events.len() {
        expect_changes(rt, &program, log, at)?;
    }
    Ok(())
}

// Every so many bytes of a trace are changed.
const STEP: usize = 7;

// That a log is refused at some bytes of its trace, the last one too, where they are others.
fn expect_traces<R: AllocGlobal + Abort + Threads + Wait + Sync>(
    rt: &R,
    log: &Log,
) -> Result<(), Fail>
    requires { IsSync R.row }
{
    for part in 0..log.trace.len() / STEP {
        expect_trace(rt, log, part * STEP)?;
    }
    expect_trace(rt, log, log.trace.len().saturating_sub(1))
}

// All this of the log of a case, which has ten events at most.
fn expect_case<R: AllocGlobal + Abort + Threads + Wait + Sync>(
    rt: &R,
    case: &Case,
) -> Result<(), Fail>
    requires { IsSync R.row }
{
    let bytes = log_by(rt, &["alone", "--budget", "10", "--log"], case)?;
    let log = log_in(rt.alloc(), bytes.as_slice())?;
    expect_events(rt, &log)?;
    expect_traces(rt, &log)
}

fn expect_cases<R: AllocGlobal + Abort + Threads + Wait + Sync>(
    rt: &R,
    cases: &[Case],
) -> Result<(), Fail>
    requires { IsSync R.row }
{
    for case in cases {
        expect_case(rt, case)?;
    }
    Ok(())
}

#[test]
fn changed_logs_of_texts(rt: HostRuntime) -> Result<(), Fail> {
    for cases in runs() {
        expect_cases(&rt, cases)?;
    }
    Ok(())
}

#[test]
fn changed_logs_of_examples(rt: HostRuntime) -> Result<(), Fail> {
    for cases in examples() {
        expect_cases(&rt, cases)?;
    }
    Ok(())
}
