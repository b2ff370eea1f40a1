// Texts that are run.

use crate::case::{Case, Freely, QUIET};

const OPENINGS: &[Case] = &[
    // The least whole run.
    Case {
        text: &[(1, "observe out/1; site s [ x(u) => out(u) : x(s) ]")],
        out: "out(s)\nquiescent\n",
        events: Some(1),
        ..QUIET
    },
    // Nothing may react.
    Case {
        words: &["alone", "--budget", "0"],
        text: &[(1, "observe out/1; site s [ x(u) => out(u) : x(s) ]")],
        status: 5,
        out: "stopped\n",
        ..QUIET
    },
    // The budget is reached, and the machine is quiet.
    Case {
        words: &["alone", "--budget", "1"],
        text: &[(1, "observe out/1; site s [ x(u) => out(u) : x(s) ]")],
        out: "out(s)\nquiescent\n",
        events: Some(1),
        ..QUIET
    },
    // An observable of the opening needs no event.
    Case {
        words: &["alone", "--budget", "0"],
        text: &[(1, "observe out/0; site s [ none : out() ]")],
        out: "out()\nquiescent\n",
        ..QUIET
    },
    // The log in place of the trace.
    Case {
        words: &["alone", "--budget", "10", "--log"],
        text: &[(1, "observe out/0; site s [ none : out() ]")],
        out: "joinlog 1\nsource 38\nobserve out/0; site s [ none : out() ]\nbudget 10\n\
            events 0\ntrace 16\nout()\nquiescent\n",
        ..QUIET
    },
    // The log of a run with a large budget.
    Case {
        words: &["alone", "--budget", "1000001", "--log"],
        text: &[(1, "observe out/0; site s [ none : out() ]")],
        out: "joinlog 2\nsource 38\nobserve out/0; site s [ none : out() ]\nbudget 1000001\n\
            events 0\ntrace 16\nout()\nquiescent\n",
        ..QUIET
    },
    // Endless.
    Case {
        words: &["alone", "--budget", "3"],
        text: &[(1, "site s [ x() => x() : x() ]")],
        status: 5,
        out: "stopped\n",
        events: Some(3),
        ..QUIET
    },
    // A move between sites.
    Case {
        text: &[(
            1,
            "observe out/1; site a [ m[ k() => out(m) : go(b, k) ] : 0 ] site b [ none : 0 ]",
        )],
        out: "out(m)\nquiescent\n",
        events: Some(2),
        ..QUIET
    },
    // A target that isn't a site, and the move of a root.
    Case {
        text: &[(
            1,
            "site a [ n[ none : 0 ] and m[ k() => 0 : go(n, k) ] : go(b, d) ] site b [ d() \
            => 0 : 0 ]",
        )],
        ..QUIET
    },
];

pub(crate) fn openings() -> &'static [Case] {
    OPENINGS
}

const FAILURES: &[Case] = &[
    // The agent fails with its host, and this is detected.
    Case {
        text: &[(
            1,
            "observe out/1; site a [ m[ k() => kill() : go(b, k) ] and d() => out(m) : \
            fail(m, d) ] site b [ kill() => halt() : 0 ]",
        )],
        out: "out(m)\nquiescent\n",
        events: Some(6),
        ..QUIET
    },
    // A whole site is dead.
    Case {
        text: &[(
            1,
            "observe out/0; site a [ none : halt() ] site b [ d() => x() : fail(a, d) ] \
            site c [ x() => out() : 0 ]",
        )],
        out: "out()\nquiescent\n",
        events: Some(4),
        ..QUIET
    },
    // The message stays in the dead site.
    Case {
        text: &[(
            1,
            "observe out/0; site a [ x() => out() : halt() ] site b [ d() => x() : fail(a, \
            d) ]",
        )],
        events: Some(3),
        ..QUIET
    },
    // A message with a wrong count stays; a fresh name is printed with its rank.
    Case {
        text: &[(
            1,
            "observe out/1; site s [ y() => 0 and x(f) => f(f) and z() => def r(u) => 0 in \
            out(r) : x(y) | z() ]",
        )],
        out: "out(r'1)\nquiescent\n",
        events: Some(2),
        ..QUIET
    },
    // Of two messages the one with the least number is taken.
    Case {
        text: &[(
            1,
            "observe out/1; site s [ a(u) | b() => out(u) : a(s) | a(t) | b() ] site t [ \
            none : 0 ]",
        )],
        out: "out(s)\nquiescent\n",
        events: Some(1),
        freely: Freely::OneOf(&["out(s)\nquiescent\n", "out(t)\nquiescent\n"]),
        ..QUIET
    },
];

pub(crate) fn failures() -> &'static [Case] {
    FAILURES
}

const SCOPES_AND_MOVES: &[Case] = &[
    // A definition takes all to its right.
    Case {
        text: &[(
            1,
            "observe out/0; site s [ none : def x() => out() in 0 | x() ]",
        )],
        out: "out()\nquiescent\n",
        events: Some(1),
        ..QUIET
    },
    // The inner name hides the outer one.
    Case {
        text: &[(
            1,
            "observe out/1; site s [ x(u) => def x(v) => out(v) in x(u) : x(s) ]",
        )],
        out: "out(s)\nquiescent\n",
        events: Some(2),
        ..QUIET
    },
    // A move to the present host; the other target isn't a site, and its request stays.
    Case {
        text: &[(
            1,
            "site a [ m[ k() => 0 : go(a, k) ] and n[ j() => 0 : go(m, j) ] : 0 ]",
        )],
        events: Some(2),
        ..QUIET
    },
    // A waiting message and all definitions move along.
    Case {
        text: &[(
            1,
            "observe out/1; site a [ m[ k() => p() | q() and q() | h(u) => out(u) and p() \
            => out(a) : h(m) | go(b, k) ] : 0 ] site b [ none : 0 ]",
        )],
        out: "out(m)\nout(a)\nquiescent\n",
        events: Some(4),
        freely: Freely::AnyOrder,
        ..QUIET
    },
    // A location that a halted site hosts doesn't react.
    Case {
        text: &[(
            1,
            "observe out/0; site a [ n[ x() => out() : 0 ] : halt() ] site b [ d() => x() : \
            fail(n, d) ]",
        )],
        events: Some(3),
        ..QUIET
    },
    // A location that moved away isn't dead.
    Case {
        text: &[(
            1,
            "observe out/0; site a [ m[ k() => 0 : go(b, k) ] and d() => out() : fail(m, d) \
            ] site b [ none : 0 ]",
        )],
        events: Some(2),
        ..QUIET
    },
    // An agent asks a shop for a price and comes home.
    Case {
        text: &[(
            1,
            "observe log/2;\n# an agent asks a shop for a price and comes home\nsite home \
            [\n  agent [\n    start() => go(shop, ask) and\n    ask() => \
            price(agent, got) and\n    got(p) => log(shop, p) | go(home, back) \
            and\n    back() => done(agent)\n    : start()\n  ] and\n  done(a) \
            => log(home, a)\n  : 0\n]\nsite shop [\n  cheap() => 0 and\n  \
            price(who, k) => k(cheap)\n  : 0\n]\n",
        )],
        out: "log(shop, cheap)\nlog(home, agent)\nquiescent\n",
        events: Some(8),
        ..QUIET
    },
];

// Without a comment, and with a budget that just suffices.
const GROUPS_AND_RINGS: &[Case] = &[
    Case {
        text: &[(1, "site s [ none : (0 | 0) ]")],
        ..QUIET
    },
    // The agent of a ring shows the sites that it comes to, the one where it began last.
    Case {
        words: &["alone", "--budget", "30"],
        text: &[
            (
                1,
                "observe out/1;\nsite s0 [ w0() => 0 and m[ k0() => out(s0) and k1() => out(s1) | \
                go(s2, k2) and k2() => out(s2) | go(s0, k0) : go(s1, k1) ] : ",
            ),
            (7, "w0() | "),
            (1, "w0() ]\nsite s1 [ w1() => 0 : "),
            (7, "w1() | "),
            (1, "w1() ]\nsite s2 [ w2() => 0 : "),
            (7, "w2() | "),
            (1, "w2() ]\n"),
        ],
        out: "out(s1)\nout(s2)\nout(s0)\nquiescent\n",
        events: Some(30),
        ..QUIET
    },
];

pub(crate) fn groups_and_rings() -> &'static [Case] {
    GROUPS_AND_RINGS
}

pub(crate) fn scopes_and_moves() -> &'static [Case] {
    SCOPES_AND_MOVES
}

const NAMES: &[Case] = &[
    // A comment and a group.
    Case {
        text: &[(1, "# c\nsite s [ none : (0 | 0) ]")],
        ..QUIET
    },
    // The site's bracket is the first of 200 levels.
    Case {
        text: &[
            (1, "site s [ none : "),
            (199, "("),
            (1, "0"),
            (199, ")"),
            (1, " ]"),
        ],
        ..QUIET
    },
    // Of each site its places' processes are poured before its own.
    Case {
        text: &[(
            1,
            "observe out/1; site a [ m[ none : out(m) ] : out(a) ] site b [ n[ none : \
            out(n) ] : out(b) ]",
        )],
        out: "out(m)\nout(a)\nout(n)\nout(b)\nquiescent\n",
        ..QUIET
    },
    // A received name may be a channel or an observed name.
    Case {
        text: &[(
            1,
            "observe out/1; site s [ y() => 0 and x(f) => f(f) | out(f) : x(y) | x(out) | \
            y() ]",
        )],
        out: "out(y)\nout(out)\nout(out)\nquiescent\n",
        events: Some(3),
        ..QUIET
    },
    // Ranks count the distinct names of all spellings together.
    Case {
        text: &[(
            1,
            "observe out/1; site s [ a() => def r(u) => 0 and q(u) => 0 in out(r) | out(q) \
            | out(r) and b() => def r(u) => 0 in out(r) : a() | b() ]",
        )],
        out: "out(r'1)\nout(q'2)\nout(r'1)\nout(r'3)\nquiescent\n",
        events: Some(2),
        ..QUIET
    },
];

pub(crate) fn names() -> &'static [Case] {
    NAMES
}

const LIMITS: &[Case] = &[
    // A join pattern of 65 messages.
    Case {
        text: &[(
            1,
            "observe out/0; site s [ c0() | c1() | c2() | c3() | c4() | c5() | c6() | \
                c7() | c8() | c9() | c10() | c11() | c12() | c13() | c14() | c15() | c16() \
                | c17() | c18() | c19() | c20() | c21() | c22() | c23() | c24() | c25() | \
                c26() | c27() | c28() | c29() | c30() | c31() | c32() | c33() | c34() | \
                c35() | c36() | c37() | c38() | c39() | c40() | c41() | c42() | c43() | \
                c44() | c45() | c46() | c47() | c48() | c49() | c50() | c51() | c52() | \
                c53() | c54() | c55() | c56() | c57() | c58() | c59() | c60() | c61() | \
                c62() | c63() | c64() => out() : c0() | c1() | c2() | c3() | c4() | c5() | \
                c6() | c7() | c8() | c9() | c10() | c11() | c12() | c13() | c14() | c15() | \
                c16() | c17() | c18() | c19() | c20() | c21() | c22() | c23() | c24() | \
                c25() | c26() | c27() | c28() | c29() | c30() | c31() | c32() | c33() | \
                c34() | c35() | c36() | c37() | c38() | c39() | c40() | c41() | c42() | \
                c43() | c44() | c45() | c46() | c47() | c48() | c49() | c50() | c51() | \
                c52() | c53() | c54() | c55() | c56() | c57() | c58() | c59() | c60() | \
                c61() | c62() | c63() | c64() ]",
        )],
        out: "out()\nquiescent\n",
        events: Some(1),
        ..QUIET
    },
    // A pattern and a message of 255 arguments.
    Case {
        text: &[
            (
                1,
                "site s [ x(u0, u1, u2, u3, u4, u5, u6, u7, u8, u9, u10, u11, u12, u13, u14, \
                u15, u16, u17, u18, u19, u20, u21, u22, u23, u24, u25, u26, u27, u28, u29, \
                u30, u31, u32, u33, u34, u35, u36, u37, u38, u39, u40, u41, u42, u43, u44, \
                u45, u46, u47, u48, u49, u50, u51, u52, u53, u54, u55, u56, u57, u58, u59, \
                u60, u61, u62, u63, u64, u65, u66, u67, u68, u69, u70, u71, u72, u73, u74, \
                u75, u76, u77, u78, u79, u80, u81, u82, u83, u84, u85, u86, u87, u88, u89, \
                u90, u91, u92, u93, u94, u95, u96, u97, u98, u99, u100, u101, u102, u103, \
                u104, u105, u106, u107, u108, u109, u110, u111, u112, u113, u114, u115, \
                u116, u117, u118, u119, u120, u121, u122, u123, u124, u125, u126, u127, \
                u128, u129, u130, u131, u132, u133, u134, u135, u136, u137, u138, u139, \
                u140, u141, u142, u143, u144, u145, u146, u147, u148, u149, u150, u151, \
                u152, u153, u154, u155, u156, u157, u158, u159, u160, u161, u162, u163, \
                u164, u165, u166, u167, u168, u169, u170, u171, u172, u173, u174, u175, \
                u176, u177, u178, u179, u180, u181, u182, u183, u184, u185, u186, u187, \
                u188, u189, u190, u191, u192, u193, u194, u195, u196, u197, u198, u199, \
                u200, u201, u202, u203, u204, u205, u206, u207, u208, u209, u210, u211, \
                u212, u213, u214, u215, u216, u217, u218, u219, u220, u221, u222, u223, \
                u224, u225, u226, u227, u228, u229, u230, u231, u232, u233, u234, u235, \
                u236, u237, u238, u239, u240, u241, u242, u243, u244, u245, u246, u247, \
                u248, u249, u250, u251, u252, u253, u254) => 0 : x(",
            ),
            (254, "s,"),
            (1, "s) ]"),
        ],
        events: Some(1),
        ..QUIET
    },
];

pub(crate) fn limits() -> &'static [Case] {
    LIMITS
}

const NUMBERS: &[Case] = &[
    // The largest number is received and printed.
    Case {
        text: &[(
            1,
            "version 2; observe out/1; site s [ x(u) => out(u) : x(18446744073709551615) ]",
        )],
        out: "out(18446744073709551615)\nquiescent\n",
        events: Some(1),
        ..QUIET
    },
    // A message on a number stays.
    Case {
        text: &[(1, "version 2; site s [ x(f) => f() : x(5) ]")],
        events: Some(1),
        ..QUIET
    },
    // A sum goes to a channel, and is no event.
    Case {
        text: &[(
            1,
            "version 2; observe out/1; site s [ k(u) => out(u) : add(2, 3, k) ]",
        )],
        out: "out(5)\nquiescent\n",
        events: Some(1),
        ..QUIET
    },
    // A sum that is too large stays, and so does one of a name.
    Case {
        text: &[(
            1,
            "version 2; observe out/1; site s [ none : add(18446744073709551615, 1, out) | \
            add(s, 1, out) ]",
        )],
        ..QUIET
    },
    // A comparison chooses, and is no event.
    Case {
        text: &[(
            1,
            "version 2; observe yes/0; observe no/0; site s [ none : same(4, 4, yes, no) | \
            same(4, 5, yes, no) ]",
        )],
        out: "yes()\nno()\nquiescent\n",
        ..QUIET
    },
    // A number counts up for ever.
    Case {
        words: &["alone", "--budget", "3"],
        text: &[(
            1,
            "version 2; observe out/1; site s [ n(u) => out(u) | add(u, 1, n) : n(0) ]",
        )],
        status: 5,
        out: "out(0)\nout(1)\nout(2)\nstopped\n",
        events: Some(3),
        ..QUIET
    },
];

pub(crate) fn numbers() -> &'static [Case] {
    NUMBERS
}

const LEVELS: &[Case] = &[
    // As many levels as a text of version 2 may have: groups in parentheses, and definitions.
    Case {
        text: &[
            (1, "version 2; site s [ none : "),
            (399, "("),
            (1, "0"),
            (399, ")"),
            (1, " ]"),
        ],
        ..QUIET
    },
    Case {
        text: &[
            (1, "version 2; site s [ none : "),
            (399, "def none in "),
            (1, "0 ]"),
        ],
        ..QUIET
    },
];

pub(crate) fn levels() -> &'static [Case] {
    LEVELS
}

const FALLS: &[Case] = &[
    // A location that goes to a dead site dies there with a message that waits in it, and this is
    // detected. What is sent to it later stays.
    Case {
        text: &[(
            1,
            "version 2; observe out/1; site b [ none : halt() ] site a [ m[ x(u) | y(v) => out(u) \
            and k() => out(m) and q() => go(b, k) : fail(b, q) ] and d() => x(a) | out(b) : y(a) | \
            fail(m, d) ]",
        )],
        out: "out(b)\nquiescent\n",
        events: Some(6),
        ..QUIET
    },
    // In version 1 the request stays.
    Case {
        text: &[(
            1,
            "observe out/1; site b [ none : halt() ] site a [ m[ x(u) | y(v) => out(u) and k() => \
            out(m) and q() => go(b, k) : fail(b, q) ] and d() => x(a) | out(b) : y(a) | fail(m, \
            d) ]",
        )],
        events: Some(3),
        ..QUIET
    },
    // A sum goes to a channel at another site, and one that waits moves along with its location.
    Case {
        text: &[(
            1,
            "version 2; observe out/1; site a [ m[ k() => 0 : add(3, 4, x) | add(m, 1, x) | go(b, k) ] : \
            0 ] site b [ x(u) => out(u) : 0 ]",
        )],
        out: "out(7)\nquiescent\n",
        events: Some(3),
        ..QUIET
    },
];

pub(crate) fn falls() -> &'static [Case] {
    FALLS
}
