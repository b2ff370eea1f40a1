// Sources and sinks at their ends.

use crate::expected::{expect_ended, expect_unread};
use std::test::Fail;
use worked_calls::{call, call_into, ends_of, sink_with, source_with};

const FIRST: &[u8] = b"observe out/1; site s [ x(u) => out(u) : x(s) ]";

const ALONE: [&str; 3] = ["alone", "--budget", "10"];

// The first write is offered the whole text: a sink that takes it isn't asked again.
#[test]
fn one_write_is_enough(rt: HostRuntime) -> Result<(), Fail> {
    let mut ends = ends_of(rt.alloc(), FIRST)?;
    ends.out = sink_with(rt.alloc(), 64, 64, &[2])?;
    let run = call_into(&rt, &ALONE, &mut ends)?;
    expect_ended(&rt, &run, 0, "out(s)\nquiescent\n", "");
    Ok(())
}

// One byte more than the limit is refused, and no byte after it is taken.
#[test]
fn a_text_past_the_limit(rt: HostRuntime) -> Result<(), Fail> {
    let blanks = vec![in rt.alloc(); b' '; 1_048_580]?;
    let run = call(&rt, &ALONE, blanks.as_slice())?;
    expect_ended(&rt, &run, 1, "", "lex 1 at 1048576\n");
    expect_unread(&rt, &run, 3);
    Ok(())
}

// The judge of sorts refuses it too.
#[test]
fn sorts_of_a_text_past_the_limit(rt: HostRuntime) -> Result<(), Fail> {
    let blanks = vec![in rt.alloc(); b' '; 1_048_580]?;
    let run = call(&rt, &["sorts"], blanks.as_slice())?;
    expect_ended(&rt, &run, 1, "", "lex 1 at 1048576\n");
    expect_unread(&rt, &run, 3);
    Ok(())
}

// The judge of sorts tells no verdict where a read fails.
#[test]
fn sorts_of_a_source_that_fails(rt: HostRuntime) -> Result<(), Fail> {
    let mut ends = ends_of(rt.alloc(), b"")?;
    ends.source = source_with(rt.alloc(), FIRST, 16, &[2])?;
    let run = call_into(&rt, &["sorts"], &mut ends)?;
    expect_ended(&rt, &run, 3, "", "read fault\n");
    Ok(())
}

// A line that has no room leaves the status of its cause.
#[test]
fn the_line_of_a_fault_is_cut(rt: HostRuntime) -> Result<(), Fail> {
    let mut ends = ends_of(rt.alloc(), b"")?;
    ends.err = sink_with(rt.alloc(), 3, 8, &[])?;
    let run = call_into(&rt, &ALONE, &mut ends)?;
    expect_ended(&rt, &run, 1, "", "gra");
    Ok(())
}
