// What is expected of how a call ended.

use std::process::Abort;
use worked_calls::Outcome;
use worked_texts::Case;

// That these bytes are the ones that are wanted.
pub fn expect_bytes(rt: &impl Abort, bytes: &[u8], want: &[u8]) {
    assert_eq!(rt; bytes, want);
}

pub fn expect_status(rt: &impl Abort, run: &Outcome, status: u8) {
    assert_eq!(rt; run.status, status);
}

pub fn expect_events(rt: &impl Abort, run: &Outcome, events: Option<usize>) {
    assert_eq!(rt; run.events, events);
}

// That the call ended with this status and these bytes.
pub fn expect_ended(rt: &impl Abort, run: &Outcome, status: u8, out: &str, err: &str) {
    expect_status(rt, run, status);
    expect_bytes(rt, run.out.as_slice(), out.as_bytes());
    expect_bytes(rt, run.err.as_slice(), err.as_bytes());
}

// That the call ended as the case says.
pub fn expect_case(rt: &impl Abort, run: &Outcome, case: &Case) {
    expect_ended(rt, run, case.status, case.out, case.err);
    expect_events(rt, run, case.events);
}

pub fn expect_unread(rt: &impl Abort, run: &Outcome, unread: usize) {
    assert_eq!(rt; run.unread, unread);
}
