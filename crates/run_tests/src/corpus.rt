// Each worked text and example by every command: what it prints and how it ends, what is said of
// its log and of what it leaves, and what is said of its sorts.
ghost use denote.Param.Send.{IsSync};

use crate::expected::{expect_bytes, expect_status};
use crate::printing::{first_piece, prints};
use crate::reading::{left_in, log_in, tells, tells_ready, wants_a_sort};
use crate::ways::{command_of, commands, has_word, words_for};
use chem_model::Memory;
use join_top::Ended;
use std::alloc::{AllocError, Global};
use std::marker::Sync;
use std::process::Abort;
use std::sync::Wait;
use std::test::Fail;
use std::thread::Threads;
use trace_text::log_of_parts;
use worked_calls::{Made, Outcome, call, call_case, ended_with};
use worked_texts::{Case, examples, runs, runs_in_rounds};

// At least as many events as any of these runs has.
const BUDGET: u32 = 1000;

// What a case prints by its own command: without its log, where it prints that.
fn text_of(alloc: Global, case: &Case) -> Result<Vec<u8>, Fail> {
    if !has_word(case, "--log") {
        return Ok(Vec::from_slice(alloc, case.out.as_bytes())?);
    }
    let log = log_in(alloc, case.out.as_bytes())?;
    Ok(Vec::from_slice(alloc, log.trace.as_slice())?)
}

// The text of a case in one of the ways, with its log or without.
fn run_by<R: AllocGlobal + Abort + Threads + Wait + Sync>(
    rt: &R,
    case: &Case,
    way: &[&'static str],
    with_log: bool,
) -> Result<Outcome, Memory>
    requires { IsSync R.row }
{
    let words = words_for(rt.alloc(), way, case, with_log)?;
    call_case(rt, words.as_slice(), case)
}

// Whether a run by this command was so made, with so many events.
fn is_made_by(command: &str, made: Option<Made>, events: Option<usize>) -> bool {
    let events = events.map(|events| events as u64);
    match made {
        Some(Made::Alone) => command == "alone",
        Some(Made::Rounds) => command == "rounds",
        Some(Made::Shared(count)) => command == "run" && events == Some(count),
        Some(Made::Lossy(_)) => command == "lossy",
        _ => false,
    }
}

// That a case so ended by a command. There are as many events as it says where as much was printed.
fn expect_ended(rt: &impl Abort, case: &Case, text: &[u8], command: &str, run: &Outcome) {
    let printed = run.out.as_slice();
    let piece = first_piece(case);
    assert!(rt; prints(case, text, command, printed), "{command}: {piece}");
    assert!(rt;
        is_made_by(command, run.made, run.events),
        "{command}: {piece}"
    );
    assert!(rt;
        run.events == case.events || printed.len() != text.len(),
        "{command}: {piece}"
    );
    expect_status(rt, run, case.status);
    expect_bytes(rt, run.err.as_slice(), b"");
}

// That a case ends in one of the ways as it is to end there.
fn expect_run<R: AllocGlobal + Abort + Threads + Wait + Sync>(
    rt: &R,
    case: &Case,
    text: &[u8],
    way: &[&'static str],
) -> Result<(), Fail>
    requires { IsSync R.row }
{
    let run = run_by(rt, case, way, false)?;
    expect_ended(rt, case, text, command_of(way), &run);
    Ok(())
}

// The log that a case prints in one of the ways.
fn printed_log<R: AllocGlobal + Abort + Threads + Wait + Sync>(
    rt: &R,
    case: &Case,
    way: &[&'static str],
) -> Result<Vec<u8>, Memory>
    requires { IsSync R.row }
{
    let run = run_by(rt, case, way, true)?;
    expect_status(rt, &run, case.status);
    Ok(run.out)
}

// What a run of a case in one of the ways left.
fn ended_by<R: AllocGlobal + Abort + Threads + Wait + Sync>(
    rt: &R,
    case: &Case,
    way: &[&'static str],
) -> Result<Box<Ended>, Memory>
    requires { IsSync R.row }
{
    let words = words_for(rt.alloc(), way, case, false)?;
    let source = case.source(rt.alloc())?;
    ended_with(rt, words.as_slice(), source.as_slice())
}

// The log of the run that was kept, which printed this.
fn log_of_kept(alloc: Global, case: &Case, ended: &Ended, trace: &[u8]) -> Result<Vec<u8>, Fail> {
    let kept = ended.kept.as_ref().ok_or("nothing is kept")?;
    let source = case.source(alloc)?;
    let log = log_of_parts(alloc, source.as_slice(), BUDGET, &kept.journal, trace)?;
    Ok(Vec::from_slice(alloc, log.as_slice())?)
}

// The log of a case over links, which no words ask for: it is put together from what the run kept
// and what it printed.
fn log_over_links<R: AllocGlobal + Abort + Threads + Wait + Sync>(
    rt: &R,
    case: &Case,
    way: &[&'static str],
) -> Result<Vec<u8>, Fail>
    requires { IsSync R.row }
{
    let run = run_by(rt, case, way, false)?;
    let ended = ended_by(rt, case, way)?;
    log_of_kept(rt.alloc(), case, &ended, run.out.as_slice())
}

// The log of a case in one of the ways.
fn log_by<R: AllocGlobal + Abort + Threads + Wait + Sync>(
    rt: &R,
    case: &Case,
    way: &[&'static str],
) -> Result<Vec<u8>, Fail>
    requires { IsSync R.row }
{
    if command_of(way) == "lossy" {
        return log_over_links(rt, case, way);
    }
    Ok(printed_log(rt, case, way)?)
}

// That a log is one of a run.
fn expect_yes<R: AllocGlobal + Abort + Threads + Wait + Sync>(
    rt: &R,
    log: &[u8],
) -> Result<(), Fail>
    requires { IsSync R.row }
{
    let judged = call(rt, &["check"], log)?;
    expect_bytes(rt, judged.out.as_slice(), b"yes\n");
    expect_bytes(rt, judged.err.as_slice(), b"");
    expect_status(rt, &judged, 0);
    Ok(())
}

// That the trace of a log is what the case may print.
fn expect_trace<R: AllocGlobal + Abort>(
    rt: &R,
    case: &Case,
    text: &[u8],
    command: &str,
    log: &[u8],
) -> Result<(), Fail> {
    let log = log_in(rt.alloc(), log)?;
    assert!(rt; prints(case, text, command, log.trace.as_slice()));
    Ok(())
}

// That so much is told, and that something is ready where the case is stopped, and only there.
fn expect_told<R: AllocGlobal + Abort>(
    rt: &R,
    case: &Case,
    told: &[u8],
    left: usize,
) -> Result<(), Fail> {
    let tells_each = tells(rt.alloc(), told, left)?;
    assert!(rt; tells_each);
    assert_eq!(rt; tells_ready(told), case.status == 5);
    Ok(())
}

// That each message and request is told that is left at the end of a log.
fn expect_left<R: AllocGlobal + Abort + Threads + Wait + Sync>(
    rt: &R,
    case: &Case,
    log: &[u8],
) -> Result<(), Fail>
    requires { IsSync R.row }
{
    let left = left_in(rt.alloc(), log)?;
    let explained = call(rt, &["explain"], log)?;
    expect_bytes(rt, explained.err.as_slice(), b"");
    expect_status(rt, &explained, 0);
    expect_told(rt, case, explained.out.as_slice(), left)
}

// That a log is the one that the case prints, if it prints one. Where there is no event, that is
// the log by each command that prints one.
fn expect_own(rt: &impl Abort, case: &Case, command: &str, log: &[u8]) {
    let has_no_event = case.events == Some(0) && command != "lossy";
    let is_own = command == command_of(case.words) || has_no_event;
    if is_own && has_word(case, "--log") {
        expect_bytes(rt, log, case.out.as_bytes());
    }
}

// What is said of the log of a case in one of the ways. By each command but one it is the first
// one's.
fn expect_log<R: AllocGlobal + Abort + Threads + Wait + Sync>(
    rt: &R,
    case: &Case,
    text: &[u8],
    way: &[&'static str],
    first: &[u8],
) -> Result<(), Fail>
    requires { IsSync R.row }
{
    let log = log_by(rt, case, way)?;
    let command = command_of(way);
    if command != "run" {
        expect_bytes(rt, log.as_slice(), first);
    }
    expect_own(rt, case, command, log.as_slice());
    expect_yes(rt, log.as_slice())?;
    expect_trace(rt, case, text, command, log.as_slice())?;
    expect_left(rt, case, log.as_slice())
}

// All this of a case in each of the ways of one command, of which this log is that of the first.
fn expect_ways<R: AllocGlobal + Abort + Threads + Wait + Sync>(
    rt: &R,
    case: &Case,
    text: &[u8],
    ways: &[&'static [&'static str]],
    first: &[u8],
) -> Result<(), Fail>
    requires { IsSync R.row }
{
    for way in ways {
        expect_run(rt, case, text, *way)?;
        expect_log(rt, case, text, *way, first)?;
    }
    Ok(())
}

// All this of a case by one command.
fn expect_command<R: AllocGlobal + Abort + Threads + Wait + Sync>(
    rt: &R,
    case: &Case,
    text: &[u8],
    ways: &[&'static [&'static str]],
) -> Result<(), Fail>
    requires { IsSync R.row }
{
    let way = ways.first().ok_or("there is no way")?;
    let first = log_by(rt, case, *way)?;
    expect_ways(rt, case, text, ways, first.as_slice())
}

// All this of a case by every command.
fn expect_commands<R: AllocGlobal + Abort + Threads + Wait + Sync>(
    rt: &R,
    case: &Case,
) -> Result<(), Fail>
    requires { IsSync R.row }
{
    let text = text_of(rt.alloc(), case)?;
    for ways in commands() {
        expect_command(rt, case, text.as_slice(), *ways)?;
    }
    Ok(())
}

// What is said of the sorts of a source without sort lines.
fn said_of_sorts(alloc: Global, source: &[u8]) -> Result<String, AllocError> {
    match wants_a_sort(source) {
        Some(place) => format!(in alloc; "no sort 4 at {place}\n"),
        None => String::from_str(alloc, "yes\n"),
    }
}

// That this is said of the sorts of a source, with its status.
fn expect_sorts<R: AllocGlobal + Abort + Threads + Wait + Sync>(
    rt: &R,
    source: &[u8],
) -> Result<(), Fail>
    requires { IsSync R.row }
{
    let want = said_of_sorts(rt.alloc(), source)?;
    let judged = call(rt, &["sorts"], source)?;
    expect_bytes(rt, judged.out.as_slice(), want.as_bytes());
    expect_bytes(rt, judged.err.as_slice(), b"");
    expect_status(rt, &judged, if want.as_str() == "yes\n" { 0 } else { 7 });
    Ok(())
}

// All that is expected of a case.
fn expect_all<R: AllocGlobal + Abort + Threads + Wait + Sync>(
    rt: &R,
    case: &Case,
) -> Result<(), Fail>
    requires { IsSync R.row }
{
    expect_commands(rt, case)?;
    let source = case.source(rt.alloc())?;
    expect_sorts(rt, source.as_slice())
}

// All that is expected of these cases. A ring is no text.
fn expect_each<R: AllocGlobal + Abort + Threads + Wait + Sync>(
    rt: &R,
    cases: &[Case],
) -> Result<(), Fail>
    requires { IsSync R.row }
{
    for case in cases {
        if !has_word(case, "gen") {
            expect_all(rt, case)?;
        }
    }
    Ok(())
}

#[test]
fn worked_texts_by_every_command(rt: HostRuntime) -> Result<(), Fail> {
    for cases in runs() {
        expect_each(&rt, cases)?;
    }
    Ok(())
}

#[test]
fn examples_by_every_command(rt: HostRuntime) -> Result<(), Fail> {
    for cases in examples() {
        expect_each(&rt, cases)?;
    }
    Ok(())
}

#[test]
fn texts_of_rounds_by_every_command(rt: HostRuntime) -> Result<(), Fail> {
    for cases in runs_in_rounds() {
        expect_each(&rt, cases)?;
    }
    Ok(())
}
