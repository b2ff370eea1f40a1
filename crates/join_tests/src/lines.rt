// Words of the command line.

use worked_texts::{Case, QUIET};

const BUDGETS: &[Case] = &[
    // The default budget.
    Case {
        words: &["--", "alone"],
        text: &[(1, "observe out/1; site s [ x(u) => out(u) : x(s) ]")],
        out: "out(s)\nquiescent\n",
        events: Some(1),
        ..QUIET
    },
    Case {
        words: &["--budget=0000001", "alone"],
        text: &[(1, "observe out/1; site s [ x(u) => out(u) : x(s) ]")],
        out: "out(s)\nquiescent\n",
        events: Some(1),
        ..QUIET
    },
    // Workers are taken and not used.
    Case {
        words: &["alone", "--workers", "16", "--budget", "4000000"],
        text: &[(1, "observe out/1; site s [ x(u) => out(u) : x(s) ]")],
        out: "out(s)\nquiescent\n",
        events: Some(1),
        ..QUIET
    },
];

fn budgets() -> &'static [Case] {
    BUDGETS
}

const LOGS: &[Case] = &[
    // The log of an event.
    Case {
        words: &["--log", "alone", "--budget", "10"],
        text: &[(1, "observe out/1; site s [ x(u) => out(u) : x(s) ]")],
        out: "joinlog 1\nsource 47\nobserve out/1; site s [ x(u) => out(u) : x(s) ]\nbudget \
            10\nevents 1\nreact 0.2 0.3\ntrace 17\nout(s)\nquiescent\n",
        events: Some(1),
        ..QUIET
    },
    // The same on free threads.
    Case {
        words: &["run", "--workers=2", "--budget", "10", "--log"],
        text: &[(1, "observe out/1; site s [ x(u) => out(u) : x(s) ]")],
        out: "joinlog 1\nsource 47\nobserve out/1; site s [ x(u) => out(u) : x(s) ]\nbudget \
            10\nevents 1\nreact 0.2 0.3\ntrace 17\nout(s)\nquiescent\n",
        events: Some(1),
        ..QUIET
    },
];

fn logs() -> &'static [Case] {
    LOGS
}

const LONGER_LOGS: &[Case] = &[
    // A move, and a run that is stopped.
    Case {
        words: &["alone", "--budget", "1", "--log"],
        text: &[(
            1,
            "observe out/1; site a [ m[ k() => out(m) : go(b, k) ] : 0 ] site b [ none : 0 ]",
        )],
        status: 5,
        out: "joinlog 1\nsource 79\nobserve out/1; site a [ m[ k() => out(m) : go(b, k) ] : \
            0 ] site b [ none : 0 ]\nbudget 1\nevents 1\nmove 0.4\ntrace 8\n\
            stopped\n",
        events: Some(1),
        ..QUIET
    },
    // The sites have their turns one after another.
    Case {
        words: &["alone", "--budget", "10", "--log"],
        text: &[(
            1,
            "site s [ x() => 0 : x() | x() ] site t [ y() => 0 : y() | y() ]",
        )],
        out: "joinlog 1\nsource 63\nsite s [ x() => 0 : x() | x() ] site t [ y() => 0 : y() | y() ]\n\
            budget 10\nevents 4\nreact 0.2 0.3\nreact 1.2 1.3\nreact 0.2 0.4\nreact 1.2 1.4\n\
            trace 10\nquiescent\n",
        events: Some(4),
        ..QUIET
    },
];

fn longer_logs() -> &'static [Case] {
    LONGER_LOGS
}

const RINGS: &[Case] = &[
    // A ring of 64 sites: the source is not read.
    Case {
        words: &["gen", "64", "--budget", "1000", "--by", "alone"],
        text: &[(1, "this is not read")],
        out: "events 640\nobservables 64\nquiescent\n",
        events: Some(640),
        ..QUIET
    },
    Case {
        words: &["gen", "1"],
        text: &[(1, "this is not read")],
        out: "events 10\nobservables 1\nquiescent\n",
        events: Some(10),
        ..QUIET
    },
    Case {
        words: &["--budget", "0", "gen", "5"],
        text: &[(1, "this is not read")],
        status: 5,
        out: "events 0\nobservables 0\nstopped\n",
        events: Some(0),
        ..QUIET
    },
    Case {
        words: &["gen", "5", "--by=run"],
        text: &[(1, "this is not read")],
        out: "events 50\nobservables 5\nquiescent\n",
        events: Some(50),
        ..QUIET
    },
];

fn rings() -> &'static [Case] {
    RINGS
}

const LOSSES: &[Case] = &[
    // No loss is given, and the text sends nothing.
    Case {
        words: &["lossy"],
        text: &[(1, "observe out/1; site s [ x(u) => out(u) : x(s) ]")],
        out: "out(s)\nquiescent\n",
        events: Some(1),
        ..QUIET
    },
    Case {
        words: &["--loss=0000003", "lossy", "--budget", "0"],
        text: &[(1, "observe out/1; site s [ x(u) => out(u) : x(s) ]")],
        status: 5,
        out: "stopped\n",
        ..QUIET
    },
    Case {
        words: &["--loss", "2", "--budget=10", "--", "lossy"],
        text: &[(1, "observe out/1; site s [ x(u) => out(u) : x(s) ]")],
        out: "out(s)\nquiescent\n",
        events: Some(1),
        ..QUIET
    },
];

fn losses() -> &'static [Case] {
    LOSSES
}

// Lines of words that ask for a run.
pub fn lines() -> [&'static [Case]; 5] {
    [budgets(), logs(), longer_logs(), rings(), losses()]
}

const NO_LINES: &[&[&str]] = &[
    &["fly"],
    &[],
    &["gen"],
    &["alone", "--budget", "4000001"],
    &["alone", "--budget", "00000001"],
    &["alone", "--budget="],
    &["alone", "--budget", "-1"],
    &["alone", "--budget", "+1"],
    &["alone", "--budget", "1x"],
    &["alone", "--budget"],
    &["alone", "--budget", "5", "--budget=5"],
    &["alone", "--log", "--log"],
    &["alone", "--log="],
    &["-"],
    &["alone", "more"],
    &["alone", "5"],
    &["alone", "--", "--log"],
    &["alone", "--workers", "17"],
    &["alone", "--workers", "0"],
    &["alone", "--by", "alone"],
    &["gen", "0"],
    &["gen", "65"],
    &["gen", "5", "6"],
    &["gen", "5", "--log"],
    &["gen", "5", "--by", "gen"],
    &["--help"],
    &["-h"],
    &["alone", "--budge", "5"],
];

// Lines of words that ask for nothing.
pub fn no_lines() -> &'static [&'static [&'static str]] {
    NO_LINES
}

const NO_LOSSES: &[&[&str]] = &[
    &["lossy", "--loss", "4"],
    &["lossy", "--loss", "00000001"],
    &["lossy", "--loss="],
    &["lossy", "--loss", "-1"],
    &["lossy", "--loss"],
    &["lossy", "--loss", "1", "--loss=1"],
    &["lossy", "--loss", "1x"],
    &["lossy", "--workers", "4"],
    &["lossy", "--log"],
    &["lossy", "5"],
    &["lossy", "--by", "alone"],
    &["lossy", "--budget", "4000001"],
    &["alone", "--loss", "0"],
    &["rounds", "--loss=1"],
    &["run", "--loss", "3"],
    &["gen", "5", "--loss", "0"],
    &["gen", "5", "--by", "lossy"],
    &["check", "--loss", "0"],
    &["explain", "--loss=0"],
    &["sorts", "--loss", "0"],
];

// Lines of words about links that ask for nothing.
pub fn no_losses() -> &'static [&'static [&'static str]] {
    NO_LOSSES
}
