// What is expected of how a run ended.

use std::process::Abort;
use worked_calls::{Made, Outcome};
use worked_texts::Case;

// That these bytes are the ones that are wanted.
pub fn expect_bytes(rt: &impl Abort, bytes: &[u8], want: &[u8]) {
    assert_eq!(rt; bytes, want);
}

pub fn expect_status(rt: &impl Abort, run: &Outcome, status: u8) {
    assert_eq!(rt; run.status, status);
}

pub fn expect_events(rt: &impl Abort, run: &Outcome, events: Option<usize>) {
    assert_eq!(rt; run.events, events);
}

// That the run that was kept was so made, or that none was kept.
pub fn expect_how(rt: &impl Abort, run: &Outcome, made: Option<Made>) {
    assert_eq!(rt; run.made, made);
}

// That the run ended as the case says.
pub fn expect_case(rt: &impl Abort, run: &Outcome, case: &Case) {
    expect_status(rt, run, case.status);
    expect_bytes(rt, run.out.as_slice(), case.out.as_bytes());
    expect_bytes(rt, run.err.as_slice(), case.err.as_bytes());
    expect_events(rt, run, case.events);
}
