// As many bytes as a log may have, and more.
ghost use denote.Param.Send.{IsSync};

use crate::called::{Called, judge};
use chem_model::Memory;
use join_base::{Failed, Source};
use std::marker::Sync;
use std::process::Abort;
use std::sync::Wait;
use std::test::Fail;
use std::thread::Threads;

// As many bytes as a log may have.
const MOST: usize = 134_217_728;

// Gives so many bytes, and leaves the buffer as it is: to write each of them would take most of
// the time.
#[derive(Drop)]
struct Unwritten {
    left: usize,
}

impl Source for Unwritten {
    ghost use Rattle.std.specs.Prelude.{None};

    ghost left = { λ s. None };

    ghost faults = { λ s. 0 };

    fn read(&mut self, buffer: &mut [u8]) -> Result<usize, Failed> {
        let count = self.left.min(buffer.len());
        self.left -= count;
        Ok(count)
    }
}

// What a command says of so many bytes, and how many of them it leaves.
fn judged<R: AllocGlobal + Abort + Threads + Wait + Sync>(
    rt: &R,
    command: &str,
    count: usize,
) -> Result<(Called, usize), Memory>
    requires { IsSync R.row }
{
    let mut source = Unwritten { left: count };
    let judged = judge(rt, command, &mut source)?;
    Ok((judged, source.left))
}

// That so many bytes are left.
fn expect_left(rt: &impl Abort, left: usize, want: usize) {
    assert_eq!(rt; left, want);
}

// As many bytes as there may be are read to the end. They are no log, which is said, and nothing of
// their number.
#[test]
fn as_many_bytes_as_there_may_be(rt: HostRuntime) -> Result<(), Fail> {
    let (judged, left) = judged(&rt, "check", MOST)?;
    judged.expect(&rt, 8, b"", b"log 1 at 0\n");
    expect_left(&rt, left, 0);
    Ok(())
}

// That a command refuses so many bytes more than there may be, for their number, and leaves all but
// one of those.
fn expect_too_long<R: AllocGlobal + Abort + Threads + Wait + Sync>(
    rt: &R,
    command: &str,
    more: u8,
) -> Result<(), Fail>
    requires { IsSync R.row }
{
    let (judged, left) = judged(rt, command, MOST + usize::from(more))?;
    judged.expect(rt, 8, b"", b"log 2 at 134217728\n");
    expect_left(rt, left, usize::from(more.saturating_sub(1)));
    Ok(())
}

#[test]
fn one_byte_too_many_is_not_checked(rt: HostRuntime) -> Result<(), Fail> {
    expect_too_long(&rt, "check", 1)
}

#[test]
fn bytes_too_many_are_not_explained(rt: HostRuntime) -> Result<(), Fail> {
    expect_too_long(&rt, "explain", 3)
}
