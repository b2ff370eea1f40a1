// What runs over links have of their own: how often packets were sent, and frames lost, repeated
// and arrived.
ghost use denote.Param.Send.{IsSync};

use crate::cases::expect_made;
use crate::expected::expect_how;
use crate::ways::words_for;
use chem_model::Memory;
use std::marker::Sync;
use std::process::Abort;
use std::sync::Wait;
use std::test::Fail;
use std::thread::Threads;
use worked_calls::{Made, Outcome, call_case};
use worked_texts::{Case, QUIET, runs_and_examples};

const LOSSES: [&str; 4] = ["0", "1", "2", "3"];

// A case over links, with this loss.
fn run_over<R: AllocGlobal + Abort + Threads + Wait + Sync>(
    rt: &R,
    case: &Case,
    loss: &'static str,
) -> Result<Outcome, Memory>
    requires { IsSync R.row }
{
    let words = words_for(rt.alloc(), &["lossy", "--loss", loss], case, false)?;
    call_case(rt, words.as_slice(), case)
}

// The counts of a run over links with this loss in which so many packets came from sites, one that
// was sent on as another one. Worked out by hand: behind the first packet each one is sent once, as
// the next turn repeats its frame, and is acknowledged in three turns; the fourth one loses a copy.
fn counts_with(loss: &str, packets: u64) -> [u64; 4] {
    if packets == 0 {
        return [0, 0, 0, 0];
    }
    let one_more = packets.wrapping_add(1);
    let twice = packets.wrapping_mul(2);
    let above = twice.wrapping_add(1);
    match loss {
        "0" => [one_more, above, twice, twice],
        "1" => [packets, twice, twice, twice],
        "2" => [one_more, above.wrapping_add(1), above, above],
        _ => [one_more, above, twice, above],
    }
}

// How many packets were sent in a run whose loss is 1, in which each is sent once.
fn packets_of(made: Option<Made>) -> u64 {
    match made {
        Some(Made::Lossy(counts)) => counts[0],
        _ => 0,
    }
}

// That a run over links told the counts.
fn expect_told(rt: &impl Abort, run: &Outcome, case: &Case, loss: &'static str, packets: u64) {
    let counts = Made::Lossy(counts_with(loss, packets));
    expect_how(rt, run, case.events.map(|_| counts));
}

// That a case tells the counts with each loss.
fn expect_counts<R: AllocGlobal + Abort + Threads + Wait + Sync>(
    rt: &R,
    case: &Case,
) -> Result<(), Fail>
    requires { IsSync R.row }
{
    let packets = packets_of(run_over(rt, case, "1")?.made);
    for loss in LOSSES {
        let run = run_over(rt, case, loss)?;
        expect_told(rt, &run, case, loss, packets);
    }
    Ok(())
}

// That each of these cases tells the counts.
fn expect_each<R: AllocGlobal + Abort + Threads + Wait + Sync>(
    rt: &R,
    cases: &[Case],
) -> Result<(), Fail>
    requires { IsSync R.row }
{
    for case in cases {
        expect_counts(rt, case)?;
    }
    Ok(())
}

#[test]
fn the_counts_of_worked_texts(rt: HostRuntime) -> Result<(), Fail> {
    for cases in runs_and_examples() {
        expect_each(&rt, cases)?;
    }
    Ok(())
}

// A message to a location that moves away before it comes.
const FORWARDED: &Case = &Case {
    words: &["lossy", "--loss", "0"],
    text: &[(
        1,
        "observe out/1; site a [ m[ k() => 0 and x(u) => out(u) : go(b, k) ] : 0 ] \
        site b [ none : x(b) ]",
    )],
    out: "out(b)\nquiescent\n",
    events: Some(3),
    ..QUIET
};

fn forwarded() -> &'static Case {
    FORWARDED
}

// The packet is delivered before anything else happens. It is sent twice, since its frame is lost
// at first.
#[test]
fn the_counts_of_one_packet(rt: HostRuntime) -> Result<(), Fail> {
    expect_made(
        &rt,
        forwarded().words,
        forwarded(),
        Made::Lossy([2, 3, 2, 2]),
    )
}
