// Texts in which each cause comes, worked out by hand.
ghost use denote.Param.Send.{IsSync};

use crate::called::{Called, call};
use chem_model::Memory;
use std::marker::Sync;
use std::process::Abort;
use std::sync::Wait;
use std::test::Fail;
use std::thread::Threads;

// A text, how many events its run on one thread may have, and what is said of what this leaves.
struct Left {
    text: &'static str,
    budget: &'static str,
    told: &'static str,
}

const LEFT: &[Left] = &[
    // `x()` is sent to a site that has halted.
    Left {
        text: "site a [ x() => 0 : halt() ] site b [ d() => x() : fail(a, d) ]",
        budget: "10",
        told: "1.5 at 0.0 dead\nleft 1\n",
    },
    // A request in a location that is dead with its site.
    Left {
        text: "site a [ m[ k() => 0 : fail(b, k) ] : halt() ] site b [ none : 0 ]",
        budget: "10",
        told: "0.4 at 0.1 dead\nleft 1\n",
    },
    // Either message may be taken; one was.
    Left {
        text: "site s [ x() => 0 : x() | x() ]",
        budget: "1",
        told: "0.4 at 0.0 ready\nleft 1\n",
    },
    // The second message of a channel may be taken as well as the first.
    Left {
        text: "site s [ a(u) | b() => 0 : a(s) | a(s) | b() ]",
        budget: "0",
        told: "0.4 at 0.0 ready\n0.5 at 0.0 ready\n0.6 at 0.0 ready\nleft 3\n",
    },
    // Requests that can be met.
    Left {
        text: "site a [ m[ k() => 0 : go(b, k) ] : halt() ] site b [ none : 0 ]",
        budget: "0",
        told: "0.4 at 0.1 ready\n0.5 at 0.0 ready\nleft 2\n",
    },
    Left {
        text: "site a [ none : halt() ] site b [ d() => 0 : fail(a, d) ]",
        budget: "1",
        told: "1.3 at 1.0 ready\nleft 1\n",
    },
    // A parameter is a location, a number.
    Left {
        text: "site s [ x(u) => u() : x(s) ]",
        budget: "10",
        told: "0.4 at 0.0 place\nleft 1\n",
    },
    Left {
        text: "version 2; site s [ x(u) => u() : x(5) ]",
        budget: "10",
        told: "0.4 at 0.0 number\nleft 1\n",
    },
    // A location isn't added; a sum is too large.
    Left {
        text: "version 2; site s [ x(n) => 0 and y() => 0 : add(s, 1, x) | same(1, s, y, y) | \
            add(18446744073709551615, 1, x) ]",
        budget: "10",
        told: "0.5 at 0.0 operation\n0.6 at 0.0 operation\n0.7 at 0.0 operation\nleft 3\n",
    },
    // Another count than was declared, and than the pattern has.
    Left {
        text: "observe out/1; site s [ x(f) => f() : x(out) ]",
        budget: "10",
        told: "0.4 at 0.0 count\nleft 1\n",
    },
    Left {
        text: "site s [ x(f) => f() : x(x) ]",
        budget: "10",
        told: "0.4 at 0.0 count\nleft 1\n",
    },
];

const MORE: &[Left] = &[
    // The other message isn't there.
    Left {
        text: "site s [ a() | b() => 0 : a() ]",
        budget: "10",
        told: "0.4 at 0.0 partner\nleft 1\n",
    },
    // A parameter that is a channel is no target, also not for a root.
    Left {
        text: "site s [ k() => 0 and x(u) => go(u, k) | fail(u, k) : x(k) ]",
        budget: "10",
        told: "0.6 at 0.0 target\n0.7 at 0.0 target\nleft 2\n",
    },
    // A site doesn't move, wherever it wants to go.
    Left {
        text: "site a [ d() => 0 : go(b, d) ] site b [ none : 0 ]",
        budget: "10",
        told: "0.3 at 0.0 root\nleft 1\n",
    },
    Left {
        text: "site a [ none : halt() ] site b [ k() => 0 : go(a, k) ]",
        budget: "10",
        told: "1.3 at 1.0 root\nleft 1\n",
    },
    // The target isn't a site.
    Left {
        text: "site a [ n[ none : 0 ] and m[ k() => 0 : go(n, k) ] : 0 ]",
        budget: "10",
        told: "0.5 at 0.2 nosite\nleft 1\n",
    },
    // So it is with a target that is dead too.
    Left {
        text: "site a [ n[ none : halt() ] and m[ k() => 0 : go(n, k) ] : 0 ]",
        budget: "10",
        told: "0.6 at 0.2 nosite\nleft 1\n",
    },
    // The target is dead: in the second version that is a move too.
    Left {
        text: "site a [ none : halt() ] site b [ m[ k() => 0 : go(a, k) ] : 0 ]",
        budget: "10",
        told: "1.4 at 1.1 gone\nleft 1\n",
    },
    Left {
        text: "version 2; site a [ none : halt() ] site b [ m[ k() => 0 : go(a, k) ] : 0 ]",
        budget: "10",
        told: "left 0\n",
    },
    // Nothing failed.
    Left {
        text: "site a [ d() => 0 : fail(b, d) ] site b [ none : 0 ]",
        budget: "10",
        told: "0.3 at 0.0 alive\nleft 1\n",
    },
];

fn tables() -> [&'static [Left]; 2] {
    [LEFT, MORE]
}

// What is said of what the run of a text leaves.
fn explained<R: AllocGlobal + Abort + Threads + Wait + Sync>(
    rt: &R,
    left: &Left,
) -> Result<Called, Memory>
    requires { IsSync R.row }
{
    let words = ["alone", "--budget", left.budget, "--log"];
    let log = call(rt, &words, left.text.as_bytes())?;
    call(rt, &["explain"], log.out.as_slice())
}

// That it is what was worked out.
fn expect_left<R: AllocGlobal + Abort + Threads + Wait + Sync>(
    rt: &R,
    cases: &[Left],
) -> Result<(), Fail>
    requires { IsSync R.row }
{
    for left in cases {
        let explained = explained(rt, left)?;
        explained.expect(rt, 0, left.told.as_bytes(), b"");
    }
    Ok(())
}

#[test]
fn each_cause(rt: HostRuntime) -> Result<(), Fail> {
    for cases in tables() {
        expect_left(&rt, cases)?;
    }
    Ok(())
}
