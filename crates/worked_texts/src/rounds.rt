// Texts that are run in rounds, and beside them on one thread where that differs.

use crate::case::{Case, QUIET};

const SHARES: &[Case] = &[
    // Each site reacts as often as its share of the budget allows, whatever the number of workers.
    Case {
        words: &["rounds", "--budget", "10", "--workers", "1", "--log"],
        text: &[(
            1,
            "site s [ x() => 0 : x() | x() ] site t [ y() => 0 : y() | y() ]",
        )],
        out: r"joinlog 1
source 63
site s [ x() => 0 : x() | x() ] site t [ y() => 0 : y() | y() ]
budget 10
events 4
react 0.2 0.3
react 0.2 0.4
react 1.2 1.3
react 1.2 1.4
trace 10
quiescent
",
        events: Some(4),
        ..QUIET
    },
    Case {
        words: &["rounds", "--budget", "10", "--workers", "4", "--log"],
        text: &[(
            1,
            "site s [ x() => 0 : x() | x() ] site t [ y() => 0 : y() | y() ]",
        )],
        out: r"joinlog 1
source 63
site s [ x() => 0 : x() | x() ] site t [ y() => 0 : y() | y() ]
budget 10
events 4
react 0.2 0.3
react 0.2 0.4
react 1.2 1.3
react 1.2 1.4
trace 10
quiescent
",
        events: Some(4),
        ..QUIET
    },
    // The shares are the whole budget.
    Case {
        words: &["rounds", "--budget", "4", "--log"],
        text: &[(
            1,
            "site s [ x() => 0 : x() | x() ] site t [ y() => 0 : y() | y() ]",
        )],
        out: r"joinlog 1
source 63
site s [ x() => 0 : x() | x() ] site t [ y() => 0 : y() | y() ]
budget 4
events 4
react 0.2 0.3
react 0.2 0.4
react 1.2 1.3
react 1.2 1.4
trace 10
quiescent
",
        events: Some(4),
        ..QUIET
    },
    // A share of one event for each site. The event that is left then is the next one's.
    Case {
        words: &["rounds", "--budget", "3", "--log"],
        text: &[(
            1,
            "site s [ x() => 0 : x() | x() ] site t [ y() => 0 : y() | y() ]",
        )],
        status: 5,
        out: r"joinlog 1
source 63
site s [ x() => 0 : x() | x() ] site t [ y() => 0 : y() | y() ]
budget 3
events 3
react 0.2 0.3
react 1.2 1.3
react 0.2 0.4
trace 8
stopped
",
        events: Some(3),
        ..QUIET
    },
    // No event is left.
    Case {
        words: &["rounds", "--budget", "2", "--log"],
        text: &[(
            1,
            "site s [ x() => 0 : x() | x() ] site t [ y() => 0 : y() | y() ]",
        )],
        status: 5,
        out: r"joinlog 1
source 63
site s [ x() => 0 : x() | x() ] site t [ y() => 0 : y() | y() ]
budget 2
events 2
react 0.2 0.3
react 1.2 1.3
trace 8
stopped
",
        events: Some(2),
        ..QUIET
    },
    // Fewer events than sites.
    Case {
        words: &["rounds", "--budget", "1", "--log"],
        text: &[(
            1,
            "site s [ x() => 0 : x() | x() ] site t [ y() => 0 : y() | y() ]",
        )],
        status: 5,
        out: r"joinlog 1
source 63
site s [ x() => 0 : x() | x() ] site t [ y() => 0 : y() | y() ]
budget 1
events 1
react 0.2 0.3
trace 8
stopped
",
        events: Some(1),
        ..QUIET
    },
];

pub(crate) fn shares() -> &'static [Case] {
    SHARES
}

const UNDER_WAY: &[Case] = &[
    // What is under way when the budget is used up could be taken: the run is stopped.
    Case {
        words: &["rounds", "--budget", "1"],
        text: &[(
            1,
            "observe out/0; site a [ x() => y() : x() ] site b [ y() => out() : 0 ]",
        )],
        status: 5,
        out: "stopped\n",
        events: Some(1),
        ..QUIET
    },
    // The last event takes what was under way.
    Case {
        words: &["rounds", "--budget", "2"],
        text: &[(
            1,
            "observe out/0; site a [ x() => y() : x() ] site b [ y() => out() : 0 ]",
        )],
        out: "out()\nquiescent\n",
        events: Some(2),
        ..QUIET
    },
    // A reaction in each of two rounds.
    Case {
        words: &["rounds", "--budget", "10"],
        text: &[(
            1,
            "observe out/0; site a [ x() => y() : x() ] site b [ y() => out() : 0 ]",
        )],
        out: "out()\nquiescent\n",
        events: Some(2),
        ..QUIET
    },
    // What opens a location is made once all sites have worked.
    Case {
        words: &["rounds", "--budget", "10"],
        text: &[(
            1,
            "observe out/1; site a [ x() => def m[ none : out(m) ] in 0 : x() ] site b [ \
            y() => out(b) : y() ]",
        )],
        out: "out(b)\nout(m'1)\nquiescent\n",
        events: Some(2),
        ..QUIET
    },
    // The same on one thread.
    Case {
        words: &["alone", "--budget", "10"],
        text: &[(
            1,
            "observe out/1; site a [ x() => def m[ none : out(m) ] in 0 : x() ] site b [ \
            y() => out(b) : y() ]",
        )],
        out: "out(m'1)\nout(b)\nquiescent\n",
        events: Some(2),
        ..QUIET
    },
    // A location that shows nothing.
    Case {
        words: &["rounds", "--budget", "10"],
        text: &[(1, "site s [ x() => def m[ none : 0 ] in 0 : x() ]")],
        events: Some(1),
        ..QUIET
    },
    // The message is sent before its location moves, and comes to the old site. That sends it on, in
    // a round without events.
    Case {
        words: &["rounds", "--budget", "10", "--log"],
        text: &[(
            1,
            "observe out/1; site a [ m[ k() | never() => 0 and x(u) => out(u) : go(b, k) \
            ] : 0 ] site b [ start() => x(b) : start() ]",
        )],
        out: r"joinlog 1
source 120
observe out/1; site a [ m[ k() | never() => 0 and x(u) => out(u) : go(b, k) ] : 0 ] site b [ start() => x(b) : start() ]
budget 10
events 3
react 1.2 1.3
move 0.7
react 0.6 1.4
trace 17
out(b)
quiescent
",
        events: Some(3),
        ..QUIET
    },
    // The same on one thread.
    Case {
        words: &["alone", "--budget", "10", "--log"],
        text: &[(
            1,
            "observe out/1; site a [ m[ k() | never() => 0 and x(u) => out(u) : go(b, k) \
            ] : 0 ] site b [ start() => x(b) : start() ]",
        )],
        out: r"joinlog 1
source 120
observe out/1; site a [ m[ k() | never() => 0 and x(u) => out(u) : go(b, k) ] : 0 ] site b [ start() => x(b) : start() ]
budget 10
events 3
move 0.7
react 1.2 1.3
react 0.6 1.5
trace 17
out(b)
quiescent
",
        events: Some(3),
        ..QUIET
    },
];

// What one round makes in which order.
const STEPS: &[Case] = &[
    // What a site forwards goes before what it sends: the message of the third site comes to the
    // location that has moved before that of the first.
    Case {
        words: &["rounds", "--budget", "10"],
        text: &[(
            1,
            "observe out/1; site a [ y() => x(a) and m[ k() | never() => 0 and x(u) => out(u) \
            : go(b, k) ] : 0 ] site b [ none : 0 ] site c [ start() => x(c) | y() : start() ]",
        )],
        out: "out(c)\nout(a)\nquiescent\n",
        events: Some(5),
        ..QUIET
    },
    // Of the reactions that open a location each site makes one a round.
    Case {
        words: &["rounds", "--budget", "10"],
        text: &[(
            1,
            "observe out/1; site a [ x() => def m[ none : out(m) ] in 0 : x() | x() ] site b [ \
            y() => def n[ none : out(n) ] in 0 : y() ]",
        )],
        out: "out(m'1)\nout(n'2)\nout(m'3)\nquiescent\n",
        events: Some(3),
        ..QUIET
    },
    // The second request of a location is met in the round in which the first one moved it.
    Case {
        words: &["rounds", "--budget", "10", "--log"],
        text: &[(
            1,
            "site a [ m[ k() => 0 and l() => 0 : go(b, k) | go(c, l) ] : 0 ] site b [ none : 0 ] \
            site c [ none : 0 ]",
        )],
        out: r"joinlog 1
source 103
site a [ m[ k() => 0 and l() => 0 : go(b, k) | go(c, l) ] : 0 ] site b [ none : 0 ] site c [ none : 0 ]
budget 10
events 4
move 0.6
move 0.7
react 0.4 1.1
react 0.5 2.1
trace 10
quiescent
",
        events: Some(4),
        ..QUIET
    },
];

pub(crate) fn steps() -> &'static [Case] {
    STEPS
}

pub(crate) fn under_way() -> &'static [Case] {
    UNDER_WAY
}

const LONG_ROUNDS: &[Case] = &[
    // In a round a site reacts 64 times at most.
    Case {
        words: &["rounds", "--budget", "1000"],
        text: &[
            (1, "observe out/1; site s [ x() => out(s) : x()"),
            (64, " | x()"),
            (1, " ] site t [ y() => out(t) : y() ]"),
        ],
        out: r"out(s)
out(s)
out(s)
out(s)
out(s)
out(s)
out(s)
out(s)
out(s)
out(s)
out(s)
out(s)
out(s)
out(s)
out(s)
out(s)
out(s)
out(s)
out(s)
out(s)
out(s)
out(s)
out(s)
out(s)
out(s)
out(s)
out(s)
out(s)
out(s)
out(s)
out(s)
out(s)
out(s)
out(s)
out(s)
out(s)
out(s)
out(s)
out(s)
out(s)
out(s)
out(s)
out(s)
out(s)
out(s)
out(s)
out(s)
out(s)
out(s)
out(s)
out(s)
out(s)
out(s)
out(s)
out(s)
out(s)
out(s)
out(s)
out(s)
out(s)
out(s)
out(s)
out(s)
out(s)
out(t)
out(s)
quiescent
",
        events: Some(66),
        ..QUIET
    },
    // Rings.
    Case {
        words: &["gen", "64", "--budget", "1000", "--by", "rounds"],
        text: &[(1, "this is not read")],
        out: "events 640\nobservables 64\nquiescent\n",
        events: Some(640),
        ..QUIET
    },
    Case {
        words: &[
            "gen",
            "64",
            "--budget",
            "1000",
            "--by=rounds",
            "--workers=1",
        ],
        text: &[(1, "this is not read")],
        out: "events 640\nobservables 64\nquiescent\n",
        events: Some(640),
        ..QUIET
    },
    Case {
        words: &["gen", "1", "--by", "rounds"],
        text: &[(1, "this is not read")],
        out: "events 10\nobservables 1\nquiescent\n",
        events: Some(10),
        ..QUIET
    },
    Case {
        words: &["--budget", "0", "gen", "5", "--by", "rounds"],
        text: &[(1, "this is not read")],
        status: 5,
        out: "events 0\nobservables 0\nstopped\n",
        ..QUIET
    },
];

pub(crate) fn long_rounds() -> &'static [Case] {
    LONG_ROUNDS
}

// Free threads may move the location before the site is dead, so these are no texts for them.
const FALLS: &[Case] = &[
    // The site halts first, and a location that goes there dies there.
    Case {
        words: &["alone", "--budget", "10"],
        text: &[(
            1,
            "version 2; observe out/0; site b [ none : halt() ] site a [ m[ k() => out() : \
            go(b, k) ] and d() => out() : fail(m, d) ]",
        )],
        out: "out()\nquiescent\n",
        events: Some(4),
        ..QUIET
    },
    Case {
        words: &["rounds", "--budget", "10"],
        text: &[(
            1,
            "version 2; observe out/0; site b [ none : halt() ] site a [ m[ k() => out() : \
            go(b, k) ] and d() => out() : fail(m, d) ]",
        )],
        out: "out()\nquiescent\n",
        events: Some(4),
        ..QUIET
    },
    // Its four events, by their numbers.
    Case {
        words: &["alone", "--budget", "10", "--log"],
        text: &[(
            1,
            "version 2; observe out/0; site b [ none : halt() ] site a [ m[ k() => out() : \
            go(b, k) ] and d() => out() : fail(m, d) ]",
        )],
        out: r"joinlog 1
source 120
version 2; observe out/0; site b [ none : halt() ] site a [ m[ k() => out() : go(b, k) ] and d() => out() : fail(m, d) ]
budget 10
events 4
halt 0.1
move 1.6
detect 1.7
react 1.4 1.8
trace 16
out()
quiescent
",
        events: Some(4),
        ..QUIET
    },
    Case {
        words: &["rounds", "--budget", "10", "--log"],
        text: &[(
            1,
            "version 2; observe out/0; site b [ none : halt() ] site a [ m[ k() => out() : \
            go(b, k) ] and d() => out() : fail(m, d) ]",
        )],
        out: r"joinlog 1
source 120
version 2; observe out/0; site b [ none : halt() ] site a [ m[ k() => out() : go(b, k) ] and d() => out() : fail(m, d) ]
budget 10
events 4
halt 0.1
move 1.6
detect 1.7
react 1.4 1.8
trace 16
out()
quiescent
",
        events: Some(4),
        ..QUIET
    },
    // In version 1 the request stays.
    Case {
        words: &["alone", "--budget", "10"],
        text: &[(
            1,
            "observe out/0; site b [ none : halt() ] site a [ m[ k() => out() : go(b, k) ] \
            and d() => out() : fail(m, d) ]",
        )],
        events: Some(1),
        ..QUIET
    },
    Case {
        words: &["rounds", "--budget", "10"],
        text: &[(
            1,
            "observe out/0; site b [ none : halt() ] site a [ m[ k() => out() : go(b, k) ] \
            and d() => out() : fail(m, d) ]",
        )],
        events: Some(1),
        ..QUIET
    },
];

pub(crate) fn falls_in_order() -> &'static [Case] {
    FALLS
}
