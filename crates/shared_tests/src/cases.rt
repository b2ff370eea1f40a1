// Texts, the turns that one worker makes at their sites, and what comes of them. The expected
// values were worked out by hand from the rules of turns.

use crate::counted::Passed;
use crate::passes::Ended;
use crate::texts::{FIRST, MOVED, SENT, WITHIN};
use shared_net::Turn;

// A text, its budget, and the sites of the turns with what each turn answers.
pub struct Case {
    pub text: &'static str,
    pub budget: u32,
    pub steps: &'static [(u32, Turn)],
    // How many events are made.
    pub events: u32,
    // So many turns at the end found nothing.
    pub idle: u32,
    // Whether a turn found the budget used.
    pub full: bool,
    // How often the gate was passed before an event or a refusal, and in which turn last.
    pub held: u32,
    pub last: u64,
}

impl Case {
    // What the run comes to: each event has its receipt.
    pub fn ended(&self) -> Ended {
        Ended {
            events: self.events as usize,
            receipts: self.events as usize,
            each: self.events > 0,
            idle: self.idle,
            full: self.full,
        }
    }

    // Who passes the gate: the first worker, before each proposal and after each event.
    pub fn passed(&self) -> Passed {
        Passed {
            held: self.held,
            done: self.events,
            worker: 1,
            turn: self.last,
            in_order: true,
        }
    }
}

const HALTED: &str = "observe out/0; site a [ none : halt() ] \
    site b [ d() => x() : fail(a, d) ] site c [ x() => out() : 0 ]";

// The first reaction opens a location, with a message in it.
const OPENED: &str = "observe out/1; site s [ x() => def m[ k() => out(m) : k() ] in 0 : x() ]";

// A location moves to a site that has made as many reactions as it wants to keep the tree.
const SETTLED: &str = "observe out/1; site a [ m[ k() => out(m) : go(b, k) ] : 0 ] \
    site b [ t() => t() : t() ]";

// The tree is kept from the 16th reaction on, and given back for the move.
const SETTLED_STEPS: &[(u32, Turn)] = &[
    (1, Turn::Did(0)),
    (1, Turn::Did(1)),
    (1, Turn::Did(2)),
    (1, Turn::Did(3)),
    (1, Turn::Did(4)),
    (1, Turn::Did(5)),
    (1, Turn::Did(6)),
    (1, Turn::Did(7)),
    (1, Turn::Did(8)),
    (1, Turn::Did(9)),
    (1, Turn::Did(10)),
    (1, Turn::Did(11)),
    (1, Turn::Did(12)),
    (1, Turn::Did(13)),
    (1, Turn::Did(14)),
    (1, Turn::Did(15)),
    (1, Turn::Did(16)),
    (1, Turn::Did(17)),
    (0, Turn::Did(18)),
    (1, Turn::Did(19)),
    (1, Turn::Did(20)),
    (0, Turn::Nothing),
];

const CASES: &[Case] = &[
    Case {
        text: FIRST,
        budget: 10,
        steps: &[(0, Turn::Did(0)), (0, Turn::Nothing)],
        events: 1,
        idle: 1,
        full: false,
        held: 1,
        last: 0,
    },
    // The budget leaves no event.
    Case {
        text: FIRST,
        budget: 0,
        steps: &[(0, Turn::Full)],
        events: 0,
        idle: 0,
        full: true,
        held: 1,
        last: 0,
    },
    // What the opening sent is the mail of the second site.
    Case {
        text: SENT,
        budget: 10,
        steps: &[(0, Turn::Nothing), (1, Turn::Did(0)), (1, Turn::Nothing)],
        events: 1,
        idle: 1,
        full: false,
        held: 1,
        last: 1,
    },
    // A location moves to the other site, and reacts there.
    Case {
        text: MOVED,
        budget: 10,
        steps: &[
            (1, Turn::Nothing),
            (0, Turn::Did(0)),
            (1, Turn::Did(1)),
            (0, Turn::Nothing),
            (1, Turn::Nothing),
        ],
        events: 2,
        idle: 2,
        full: false,
        held: 2,
        last: 2,
    },
    // A move within the site; the other request isn't met.
    Case {
        text: WITHIN,
        budget: 10,
        steps: &[(0, Turn::Did(0)), (0, Turn::Did(1)), (0, Turn::Nothing)],
        events: 2,
        idle: 1,
        full: false,
        held: 2,
        last: 1,
    },
    // The first site halts, the second one finds it dead and sends a message to the third.
    Case {
        text: HALTED,
        budget: 10,
        steps: &[
            (1, Turn::Nothing),
            (0, Turn::Did(0)),
            (1, Turn::Did(1)),
            (1, Turn::Did(2)),
            (2, Turn::Did(3)),
            (0, Turn::Nothing),
            (2, Turn::Nothing),
        ],
        events: 4,
        idle: 2,
        full: false,
        held: 4,
        last: 4,
    },
    // The location's own message reacts next.
    Case {
        text: OPENED,
        budget: 10,
        steps: &[(0, Turn::Did(0)), (0, Turn::Did(1)), (0, Turn::Nothing)],
        events: 2,
        idle: 1,
        full: false,
        held: 2,
        last: 1,
    },
    Case {
        text: SETTLED,
        budget: 40,
        steps: SETTLED_STEPS,
        events: 21,
        idle: 1,
        full: false,
        held: 21,
        last: 20,
    },
];

pub fn cases() -> &'static [Case] {
    CASES
}
