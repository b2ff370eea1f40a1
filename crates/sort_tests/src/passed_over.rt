// Texts behind sort lines by `alone`, and their logs by `check`.
ghost use denote.Param.Send.{IsSync};

use crate::called::{Called, call};
use chem_model::Memory;
use std::alloc::Global;
use std::marker::Sync;
use std::process::Abort;
use std::sync::Wait;
use std::test::Fail;
use std::thread::Threads;
use worked_texts::{Case, examples, runs_and_examples};

// Sort lines with a fault of each kind that such lines can have.
const LINES: &[u8] = b"#: use x z\n#: sort y(y)\n#: sort y()\n#: none\n";

// A text behind sort lines.
fn behind_lines(alloc: Global, case: &Case) -> Result<Vec<u8>, Memory> {
    let mut text = Vec::new(alloc);
    text.extend_from_slice(LINES)?;
    let source = case.source(alloc)?;
    text.extend_from_slice(source.as_slice())?;
    Ok(text)
}

// Runs a text behind sort lines by these words.
fn call_behind<R: AllocGlobal + Abort + Threads + Wait + Sync>(
    rt: &R,
    words: &[&str],
    case: &Case,
) -> Result<Called, Memory>
    requires { IsSync R.row }
{
    let text = behind_lines(rt.alloc(), case)?;
    call(rt, words, text.as_slice())
}

// Whether these words ask for the log, which holds the text itself.
fn ask_for_log(words: &[&str]) -> bool {
    for word in words {
        if *word == "--log" {
            return true;
        }
    }
    false
}

// That the text runs behind sort lines as without them.
fn expect_same<R: AllocGlobal + Abort + Threads + Wait + Sync>(
    rt: &R,
    case: &Case,
) -> Result<(), Fail>
    requires { IsSync R.row }
{
    if ask_for_log(case.words) {
        return Ok(());
    }
    let called = call_behind(rt, case.words, case)?;
    called.expect(rt, case.status, case.out.as_bytes(), case.err.as_bytes());
    Ok(())
}

fn expect_all_same<R: AllocGlobal + Abort + Threads + Wait + Sync>(
    rt: &R,
    cases: &[Case],
) -> Result<(), Fail>
    requires { IsSync R.row }
{
    for case in cases {
        expect_same(rt, case)?;
    }
    Ok(())
}

#[test]
fn runs_behind_sort_lines(rt: HostRuntime) -> Result<(), Fail> {
    for cases in runs_and_examples() {
        expect_all_same(&rt, cases)?;
    }
    Ok(())
}

// That the log of a text behind sort lines is one of a run.
fn expect_run<R: AllocGlobal + Abort + Threads + Wait + Sync>(
    rt: &R,
    case: &Case,
) -> Result<(), Fail>
    requires { IsSync R.row }
{
    let run = call_behind(rt, &["alone", "--log"], case)?;
    let judged = call(rt, &["check"], run.out.as_slice())?;
    judged.expect(rt, 0, b"yes\n", b"");
    Ok(())
}

fn expect_all_run<R: AllocGlobal + Abort + Threads + Wait + Sync>(
    rt: &R,
    cases: &[Case],
) -> Result<(), Fail>
    requires { IsSync R.row }
{
    for case in cases {
        expect_run(rt, case)?;
    }
    Ok(())
}

#[test]
fn logs_of_texts_behind_sort_lines(rt: HostRuntime) -> Result<(), Fail> {
    for cases in examples() {
        expect_all_run(&rt, cases)?;
    }
    Ok(())
}
