// The texts of the tables, judged by the top call.
ghost use denote.Param.Send.{IsSync};

use crate::called::{call, call_with};
use crate::tables::judged_texts;
use std::marker::Sync;
use std::process::Abort;
use std::sync::Wait;
use std::test::Fail;
use std::thread::Threads;
use worked_texts::Case;

// That a text ends as its case says.
fn expect<R: AllocGlobal + Abort + Threads + Wait + Sync>(rt: &R, case: &Case) -> Result<(), Fail>
    requires { IsSync R.row }
{
    let source = case.source(rt.alloc())?;
    let called = call(rt, case.words, source.as_slice())?;
    called.expect(rt, case.status, case.out.as_bytes(), case.err.as_bytes());
    Ok(())
}

fn expect_all<R: AllocGlobal + Abort + Threads + Wait + Sync>(
    rt: &R,
    cases: &[Case],
) -> Result<(), Fail>
    requires { IsSync R.row }
{
    for case in cases {
        expect(rt, case)?;
    }
    Ok(())
}

#[test]
fn texts_by_their_sorts(rt: HostRuntime) -> Result<(), Fail> {
    for cases in judged_texts() {
        expect_all(&rt, cases)?;
    }
    Ok(())
}

const SORTED: &[u8] = b"#: sort z()\n#: use x z\nsite s [ x() => 0 : x() ]";

const UNSORTED: &[u8] = b"site s [ x() => 0 : x() ]";

// A sink that fails when it has taken so many bytes, and those bytes.
fn expect_write_fault<R: AllocGlobal + Abort + Threads + Wait + Sync>(
    rt: &R,
    text: &[u8],
    room: u32,
    out: &[u8],
) -> Result<(), Fail>
    requires { IsSync R.row }
{
    let called = call_with(rt, &["sorts"], text, room)?;
    called.expect(rt, 4, out, b"write fault\n");
    Ok(())
}

#[test]
fn a_verdict_that_cannot_be_written(rt: HostRuntime) -> Result<(), Fail> {
    expect_write_fault(&rt, SORTED, 3, b"yes")?;
    expect_write_fault(&rt, UNSORTED, 14, b"no sort 4 at 9")
}
