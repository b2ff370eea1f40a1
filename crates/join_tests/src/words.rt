// Words that leave the source unread, and rings.
ghost use denote.Param.Send.{IsSync};

use crate::expected::{expect_ended, expect_status, expect_unread};
use chem_model::Memory;
use std::marker::Sync;
use std::process::Abort;
use std::sync::Wait;
use std::test::Fail;
use std::thread::Threads;
use worked_calls::{Outcome, call};

// That no byte of the source is taken, and that the call ends with this status.
fn expect_untouched<R: AllocGlobal + Abort + Threads + Wait + Sync>(
    rt: &R,
    words: &[&str],
    status: u8,
) -> Result<(), Fail>
    requires { IsSync R.row }
{
    let run = call(rt, words, b"abc")?;
    expect_status(rt, &run, status);
    expect_unread(rt, &run, 3);
    Ok(())
}

// Words, and the status that they end with.
const UNREAD: &[(&[&str], u8)] = &[
    (&[], 2),
    (&["fly"], 2),
    (&["gen"], 2),
    (&["alone", "--budget", "4000001"], 2),
    (&["sorts", "5"], 2),
    (&["sorts", "--log"], 2),
    (&["lossy", "--loss", "4"], 2),
    (&["lossy", "--workers", "1"], 2),
    (&["gen", "2"], 0),
    (&["gen", "2", "--by", "rounds"], 0),
    (&["gen", "2", "--by", "run"], 0),
];

fn unread() -> &'static [(&'static [&'static str], u8)] {
    UNREAD
}

#[test]
fn the_source_is_unread(rt: HostRuntime) -> Result<(), Fail> {
    for (words, status) in unread() {
        expect_untouched(&rt, *words, *status)?;
    }
    Ok(())
}

// How the ring of this size ends with no event left.
fn ring_of<R: AllocGlobal + Abort + Threads + Wait + Sync>(
    rt: &R,
    size: u32,
) -> Result<Outcome, Memory>
    requires { IsSync R.row }
{
    let size = format!(in rt.alloc(); "{size}")?;
    call(rt, &["gen", size.as_str(), "--budget", "0"], b"")
}

// That a ring with no event left is stopped.
fn expect_stopped<R: AllocGlobal + Abort + Threads + Wait + Sync>(
    rt: &R,
    size: u32,
) -> Result<(), Fail>
    requires { IsSync R.row }
{
    let run = ring_of(rt, size)?;
    expect_ended(rt, &run, 5, "events 0\nobservables 0\nstopped\n", "");
    Ok(())
}

// No ring has a refusal: with no event left each of them is stopped.
#[test]
fn rings_of_all_sizes(rt: HostRuntime) -> Result<(), Fail> {
    for size in 1u32..65 {
        expect_stopped(&rt, size)?;
    }
    Ok(())
}
