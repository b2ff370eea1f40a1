// Rows of worked texts, rings too, by their own words.
ghost use denote.Param.Send.{IsSync};

use crate::expected::{expect_case, expect_how};
use std::marker::Sync;
use std::process::Abort;
use std::sync::Wait;
use std::test::Fail;
use std::thread::Threads;
use worked_calls::{Made, call_case};
use worked_texts::{Case, runs_in_rounds};

// That a case ends as it says, run with these words, and so made.
pub fn expect_made<R: AllocGlobal + Abort + Threads + Wait + Sync>(
    rt: &R,
    words: &[&str],
    case: &Case,
    made: Made,
) -> Result<(), Fail>
    requires { IsSync R.row }
{
    let run = call_case(rt, words, case)?;
    expect_case(rt, &run, case);
    expect_how(rt, &run, case.events.map(|_| made));
    Ok(())
}

// That each of these cases ends as it says.
fn expect_each<R: AllocGlobal + Abort + Threads + Wait + Sync>(
    rt: &R,
    cases: &[Case],
) -> Result<(), Fail>
    requires { IsSync R.row }
{
    for case in cases {
        let run = call_case(rt, case.words, case)?;
        expect_case(rt, &run, case);
    }
    Ok(())
}

#[test]
fn texts_of_rounds_by_their_own_words(rt: HostRuntime) -> Result<(), Fail> {
    for cases in runs_in_rounds() {
        expect_each(&rt, cases)?;
    }
    Ok(())
}
