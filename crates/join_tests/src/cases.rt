// Refused texts and lines of words as data, and the tests that run them all.
ghost use denote.Param.Send.{IsSync};

use crate::expected::expect_case;
use crate::lines::{lines, no_lines, no_losses};
use crate::refusals::refusals;
use std::marker::Sync;
use std::process::Abort;
use std::sync::Wait;
use std::test::Fail;
use std::thread::Threads;
use worked_calls::call_case;
use worked_texts::{Case, QUIET};

// A text that is refused.
pub const REFUSED: Case = Case {
    status: 1,
    out: "",
    events: None,
    ..QUIET
};

// Words that ask for nothing, beside a text that could be run.
const USAGE: &Case = &Case {
    text: &[(1, "site s [ none : 0 ]")],
    status: 2,
    err: "usage: join MODE [N] [OPTIONS]\n",
    ..REFUSED
};

fn usage() -> &'static Case {
    USAGE
}

// That a case ends as it says, run with these words.
pub fn expect<R: AllocGlobal + Abort + Threads + Wait + Sync>(
    rt: &R,
    words: &[&str],
    case: &Case,
) -> Result<(), Fail>
    requires { IsSync R.row }
{
    let run = call_case(rt, words, case)?;
    expect_case(rt, &run, case);
    Ok(())
}

// That each of these cases ends as it says.
fn expect_all<R: AllocGlobal + Abort + Threads + Wait + Sync>(
    rt: &R,
    cases: &[Case],
) -> Result<(), Fail>
    requires { IsSync R.row }
{
    for case in cases {
        expect(rt, case.words, case)?;
    }
    Ok(())
}

// The commands that run a text.
const COMMANDS: &[&[&str]] = &[&["alone"], &["rounds"], &["run"], &["lossy"]];

// That each command refuses these texts as they say.
fn expect_refused<R: AllocGlobal + Abort + Threads + Wait + Sync>(
    rt: &R,
    cases: &[Case],
) -> Result<(), Fail>
    requires { IsSync R.row }
{
    for case in cases {
        for words in COMMANDS {
            expect(rt, *words, case)?;
        }
    }
    Ok(())
}

#[test]
fn refused_texts(rt: HostRuntime) -> Result<(), Fail> {
    for cases in refusals() {
        expect_refused(&rt, cases)?;
    }
    Ok(())
}

// Texts that are refused, and words that ask for nothing, end as they do by the other commands.
const REFUSED_OVER_LINKS: &Case = &Case {
    words: &["lossy", "--loss", "3"],
    text: &[(1, "site s [ none : x() ]")],
    err: "scope 1 at 16\n",
    ..REFUSED
};

fn refused_over_links() -> &'static Case {
    REFUSED_OVER_LINKS
}

#[test]
fn a_refused_text_over_links(rt: HostRuntime) -> Result<(), Fail> {
    expect(&rt, refused_over_links().words, refused_over_links())
}

// That each of these lines of words asks for nothing.
fn expect_usage<R: AllocGlobal + Abort + Threads + Wait + Sync>(
    rt: &R,
    lines: &[&[&str]],
) -> Result<(), Fail>
    requires { IsSync R.row }
{
    for words in lines {
        expect(rt, *words, usage())?;
    }
    Ok(())
}

#[test]
fn lines_of_words(rt: HostRuntime) -> Result<(), Fail> {
    for cases in lines() {
        expect_all(&rt, cases)?;
    }
    expect_usage(&rt, no_lines())?;
    expect_usage(&rt, no_losses())
}
