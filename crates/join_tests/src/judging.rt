// Logs that are judged and explained.
ghost use denote.Param.Send.{IsSync};

use crate::expected::{expect_ended, expect_events, expect_unread};
use std::marker::Sync;
use std::process::Abort;
use std::sync::Wait;
use std::test::Fail;
use std::thread::Threads;
use worked_calls::{call, call_into, ends_of, sink_with, source_with};

// The words of a command on a log, its bytes, and how it ends.
struct Judged {
    words: &'static [&'static str],
    log: &'static str,
    status: u8,
    out: &'static str,
    err: &'static str,
}

const YES: Judged = Judged {
    words: &["check"],
    log: "",
    status: 0,
    out: "yes\n",
    err: "",
};

const WORKED: &[Judged] = &[
    Judged {
        log: "joinlog 1\nsource 47\nobserve out/1; site s [ x(u) => out(u) : x(s) ]\nbudget \
            10\nevents 1\nreact 0.2 0.3\ntrace 17\nout(s)\nquiescent\n",
        ..YES
    },
    // The message isn't there.
    Judged {
        log: "joinlog 1\nsource 47\nobserve out/1; site s [ x(u) => out(u) : x(s) ]\nbudget \
            10\nevents 1\nreact 0.2 0.4\ntrace 17\nout(s)\nquiescent\n",
        status: 7,
        out: "no event 0\n",
        ..YES
    },
    // The events are a run's, and the trace is another.
    Judged {
        log: "joinlog 1\nsource 47\nobserve out/1; site s [ x(u) => out(u) : x(s) ]\nbudget \
            10\nevents 1\nreact 0.2 0.3\ntrace 17\nout(t)\nquiescent\n",
        status: 7,
        out: "no trace 4\n",
        ..YES
    },
    Judged {
        status: 8,
        out: "",
        err: "log 1 at 0\n",
        ..YES
    },
    // The second request to go has a target that isn't a site.
    Judged {
        words: &["explain"],
        log: "joinlog 1\nsource 68\nsite a [ m[ k() => 0 : go(a, k) ] and n[ j() => 0 : \
            go(m, j) ] : 0 ]\nbudget 10\nevents 2\nmove 0.6\nreact 0.5 0.9\ntrace \
            10\nquiescent\n",
        out: "0.8 at 0.3 nosite\nleft 1\n",
        ..YES
    },
    // A message has another count than the pattern.
    Judged {
        words: &["explain"],
        log: "joinlog 1\nsource 99\nobserve out/1; site s [ y() => 0 and x(f) => f(f) and z() \
            => def r(u) => 0 in out(r) : x(y) | z() ]\nbudget 10\nevents 2\nreact 0.5 \
            0.7\nreact 0.6 0.8\ntrace 19\nout(r'1)\nquiescent\n",
        out: "0.9 at 0.0 count\nleft 1\n",
        ..YES
    },
];

const MORE: &[Judged] = &[
    // A run that stops before its budget is one too.
    Judged {
        log: "joinlog 1\nsource 47\nobserve out/1; site s [ x(u) => out(u) : x(s) ]\nbudget \
            10\nevents 0\ntrace 8\nstopped\n",
        ..YES
    },
    // What stands there may be taken, and what waits may wait for another.
    Judged {
        words: &["explain"],
        log: "joinlog 1\nsource 47\nobserve out/1; site s [ x(u) => out(u) : x(s) ]\nbudget \
            10\nevents 0\ntrace 8\nstopped\n",
        out: "0.3 at 0.0 ready\nleft 1\n",
        ..YES
    },
    // The trace goes on behind the run's, and ends before it.
    Judged {
        log: "joinlog 1\nsource 47\nobserve out/1; site s [ x(u) => out(u) : x(s) ]\nbudget \
            10\nevents 1\nreact 0.2 0.3\ntrace 18\nout(s)\nquiescent\n\n",
        status: 7,
        out: "no trace 17\n",
        ..YES
    },
    Judged {
        words: &["explain"],
        log: "joinlog 1\nsource 47\nobserve out/1; site s [ x(u) => out(u) : x(s) ]\nbudget \
            10\nevents 1\nreact 0.2 0.3\ntrace 7\nout(s)\n",
        status: 7,
        out: "no trace 7\n",
        ..YES
    },
    // The source within the log is refused.
    Judged {
        log: "joinlog 1\nsource 12\nsite s [ 0 ]\nbudget 10\nevents 0\ntrace 10\nquiescent\n",
        status: 1,
        out: "",
        err: "grammar 1 at 9\n",
        ..YES
    },
    // A byte stands behind the log.
    Judged {
        log: "joinlog 1\nsource 0\n\nbudget 0\nevents 0\ntrace 0\n.",
        status: 8,
        out: "",
        err: "log 1 at 46\n",
        ..YES
    },
];

fn worked() -> [&'static [Judged]; 2] {
    [WORKED, MORE]
}

// That the commands end as is said.
fn expect_judged<R: AllocGlobal + Abort + Threads + Wait + Sync>(
    rt: &R,
    cases: &[Judged],
) -> Result<(), Fail>
    requires { IsSync R.row }
{
    for case in cases {
        let run = call(rt, case.words, case.log.as_bytes())?;
        expect_ended(rt, &run, case.status, case.out, case.err);
        expect_events(rt, &run, None);
        expect_unread(rt, &run, 0);
    }
    Ok(())
}

#[test]
fn logs_that_are_judged(rt: HostRuntime) -> Result<(), Fail> {
    for cases in worked() {
        expect_judged(&rt, cases)?;
    }
    Ok(())
}

const LOG: &[u8] = b"joinlog 1\nsource 19\nsite s [ none : 0 ]\nbudget 10\nevents 0\ntrace \
    10\nquiescent\n";

// A read that fails, and a write that fails: of what is told, a prefix is written.
#[test]
fn faults_of_the_outside(rt: HostRuntime) -> Result<(), Fail> {
    let mut ends = ends_of(rt.alloc(), b"")?;
    ends.source = source_with(rt.alloc(), LOG, 16, &[2])?;
    let run = call_into(&rt, &["check"], &mut ends)?;
    expect_ended(&rt, &run, 3, "", "read fault\n");
    let mut ends = ends_of(rt.alloc(), LOG)?;
    ends.out = sink_with(rt.alloc(), 2, 64, &[])?;
    let run = call_into(&rt, &["check"], &mut ends)?;
    expect_ended(&rt, &run, 4, "ye", "write fault\n");
    Ok(())
}

// Its message isn't there.
const NO: &[u8] = b"joinlog 1\nsource 47\nobserve out/1; site s [ x(u) => out(u) : x(s) ]\nbudget \
    10\nevents 1\nreact 0.2 0.4\ntrace 17\nout(s)\nquiescent\n";

// That of the line with which a command refuses this log, a prefix is written.
fn expect_prefix<R: AllocGlobal + Abort + Threads + Wait + Sync>(
    rt: &R,
    words: &[&str],
) -> Result<(), Fail>
    requires { IsSync R.row }
{
    let mut ends = ends_of(rt.alloc(), NO)?;
    ends.out = sink_with(rt.alloc(), 2, 64, &[])?;
    let run = call_into(rt, words, &mut ends)?;
    expect_ended(rt, &run, 4, "no", "write fault\n");
    Ok(())
}

#[test]
fn a_no_that_cannot_be_written(rt: HostRuntime) -> Result<(), Fail> {
    expect_prefix(&rt, &["check"])?;
    expect_prefix(&rt, &["explain"])
}
