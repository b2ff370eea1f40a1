// What a text prints by a command, as data where that isn't what its case says, and whether a text
// is what may be printed.

use crate::ways::command_of;
use worked_texts::{Case, Freely};

// What one text prints by each command that has one order of events.
struct Row {
    alone: &'static str,
    rounds: &'static str,
    lossy: &'static str,
}

impl Row {
    // What it prints by a command.
    fn by(&self, command: &str) -> &'static str {
        match command {
            "alone" => self.alone,
            "rounds" => self.rounds,
            _ => self.lossy,
        }
    }
}

// The texts that don't print the same by these commands, worked out by hand.
const ROWS: &[Row] = &[
    // The shelf hands out what came first, and a site works until nothing is ready there.
    Row {
        alone: r"stored(bread)
stored(roll)
taken(anna, bread)
stored(ale)
taken(anna, roll)
stored(cider)
taken(ben, ale)
taken(ben, cider)
quiescent
",
        rounds: r"stored(bread)
stored(roll)
taken(anna, bread)
stored(ale)
taken(ben, roll)
stored(cider)
taken(anna, ale)
taken(ben, cider)
quiescent
",
        lossy: r"stored(bread)
stored(roll)
taken(anna, bread)
stored(ale)
taken(ben, roll)
stored(cider)
taken(anna, ale)
taken(ben, cider)
quiescent
",
    },
    // Both pieces of news are with all listeners before the first of them hears one.
    Row {
        alone: r"heard(cleo, rain)
heard(ben, rain)
heard(anna, rain)
heard(cleo, sun)
heard(ben, sun)
heard(anna, sun)
quiescent
",
        rounds: r"heard(anna, rain)
heard(anna, sun)
heard(ben, rain)
heard(ben, sun)
heard(cleo, rain)
heard(cleo, sun)
quiescent
",
        lossy: r"heard(anna, rain)
heard(anna, sun)
heard(ben, rain)
heard(ben, sun)
heard(cleo, rain)
heard(cleo, sun)
quiescent
",
    },
    // All three are called before the first of them starts.
    Row {
        alone: r"ready(anna)
ready(cleo)
ready(ben)
starts(cleo)
starts(ben)
starts(anna)
quiescent
",
        rounds: r"ready(anna)
ready(cleo)
ready(ben)
starts(anna)
starts(ben)
starts(cleo)
quiescent
",
        lossy: r"ready(anna)
ready(cleo)
ready(ben)
starts(anna)
starts(ben)
starts(cleo)
quiescent
",
    },
    // A farm that has begun goes on to its report.
    Row {
        alone: r"sold(east)
sold(north)
sold(south)
closed(market)
quiescent
",
        rounds: r"sold(north)
sold(south)
sold(east)
closed(market)
quiescent
",
        lossy: r"sold(north)
sold(south)
sold(east)
closed(market)
quiescent
",
    },
    // Ben is asked before Anna is done; over links she is free again, and done, before he begins.
    Row {
        alone: r"did(anna, mow)
did(anna, rake)
did(anna, plant)
quiescent
",
        rounds: r"did(anna, mow)
did(ben, rake)
did(anna, plant)
quiescent
",
        lossy: r"did(anna, mow)
did(anna, plant)
did(ben, rake)
quiescent
",
    },
    // What opens a location comes last in a round.
    Row {
        alone: "out(m'1)\nout(b)\nquiescent\n",
        rounds: "out(b)\nout(m'1)\nquiescent\n",
        lossy: "out(m'1)\nout(b)\nquiescent\n",
    },
    // In rounds and over links what a site forwards goes before what it sends.
    Row {
        alone: "out(a)\nout(c)\nquiescent\n",
        rounds: "out(c)\nout(a)\nquiescent\n",
        lossy: "out(c)\nout(a)\nquiescent\n",
    },
    // In rounds each site opens one location, then each once more; over links one site all of its.
    Row {
        alone: "out(m'1)\nout(n'2)\nout(m'3)\nquiescent\n",
        rounds: "out(m'1)\nout(n'2)\nout(m'3)\nquiescent\n",
        lossy: "out(m'1)\nout(m'2)\nout(n'3)\nquiescent\n",
    },
];

// The text with the long round, which prints 66 lines: on one thread the second site has its turn
// behind the first reaction, in rounds behind 64, and over links behind all.
const LONG: &[Row] = &[Row {
    alone: "out(s)\nout(t)\n\
        out(s)\nout(s)\nout(s)\nout(s)\nout(s)\nout(s)\nout(s)\nout(s)\n\
        out(s)\nout(s)\nout(s)\nout(s)\nout(s)\nout(s)\nout(s)\nout(s)\n\
        out(s)\nout(s)\nout(s)\nout(s)\nout(s)\nout(s)\nout(s)\nout(s)\n\
        out(s)\nout(s)\nout(s)\nout(s)\nout(s)\nout(s)\nout(s)\nout(s)\n\
        out(s)\nout(s)\nout(s)\nout(s)\nout(s)\nout(s)\nout(s)\nout(s)\n\
        out(s)\nout(s)\nout(s)\nout(s)\nout(s)\nout(s)\nout(s)\nout(s)\n\
        out(s)\nout(s)\nout(s)\nout(s)\nout(s)\nout(s)\nout(s)\nout(s)\n\
        out(s)\nout(s)\nout(s)\nout(s)\nout(s)\nout(s)\nout(s)\nout(s)\nquiescent\n",
    rounds: "out(s)\nout(s)\nout(s)\nout(s)\nout(s)\nout(s)\nout(s)\nout(s)\n\
        out(s)\nout(s)\nout(s)\nout(s)\nout(s)\nout(s)\nout(s)\nout(s)\n\
        out(s)\nout(s)\nout(s)\nout(s)\nout(s)\nout(s)\nout(s)\nout(s)\n\
        out(s)\nout(s)\nout(s)\nout(s)\nout(s)\nout(s)\nout(s)\nout(s)\n\
        out(s)\nout(s)\nout(s)\nout(s)\nout(s)\nout(s)\nout(s)\nout(s)\n\
        out(s)\nout(s)\nout(s)\nout(s)\nout(s)\nout(s)\nout(s)\nout(s)\n\
        out(s)\nout(s)\nout(s)\nout(s)\nout(s)\nout(s)\nout(s)\nout(s)\n\
        out(s)\nout(s)\nout(s)\nout(s)\nout(s)\nout(s)\nout(s)\nout(s)\n\
        out(t)\nout(s)\nquiescent\n",
    lossy: "out(s)\nout(s)\nout(s)\nout(s)\nout(s)\nout(s)\nout(s)\nout(s)\n\
        out(s)\nout(s)\nout(s)\nout(s)\nout(s)\nout(s)\nout(s)\nout(s)\n\
        out(s)\nout(s)\nout(s)\nout(s)\nout(s)\nout(s)\nout(s)\nout(s)\n\
        out(s)\nout(s)\nout(s)\nout(s)\nout(s)\nout(s)\nout(s)\nout(s)\n\
        out(s)\nout(s)\nout(s)\nout(s)\nout(s)\nout(s)\nout(s)\nout(s)\n\
        out(s)\nout(s)\nout(s)\nout(s)\nout(s)\nout(s)\nout(s)\nout(s)\n\
        out(s)\nout(s)\nout(s)\nout(s)\nout(s)\nout(s)\nout(s)\nout(s)\n\
        out(s)\nout(s)\nout(s)\nout(s)\nout(s)\nout(s)\nout(s)\nout(s)\n\
        out(s)\nout(t)\nquiescent\n",
}];

fn rows() -> [&'static [Row]; 2] {
    [ROWS, LONG]
}

// What a text prints by a command where it prints `text` by its own one, of these rows.
fn found_in(rows: &[Row], own: &str, text: &[u8], command: &str) -> Option<&'static str> {
    for row in rows {
        if row.by(own).as_bytes() == text {
            return Some(row.by(command));
        }
    }
    None
}

// What a text prints by a command where it prints `text` by its own one.
fn printed_by<'a>(own: &str, text: &'a [u8], command: &str) -> &'a [u8] {
    for rows in rows() {
        if let Some(other) = found_in(rows, own, text, command) {
            return other.as_bytes();
        }
    }
    text
}

// What free threads may do with a text, by its first piece.
const FREELY: &[(&str, Freely)] = &[
    (
        "observe out/1; site a [ x() => def m[ none : out(m) ] in 0 : x() ] site b [ y() => out(b) \
        : y() ]",
        Freely::AnyOrder,
    ),
    (
        "observe out/1; site s [ x() => out(s) : x()",
        Freely::AnyOrder,
    ),
    (
        "observe out/1; site a [ y() => x(a) and m[ k() | never() => 0 and x(u) => out(u) : go(b, \
        k) ] : 0 ] site b [ none : 0 ] site c [ start() => x(c) | y() : start() ]",
        Freely::AnyOrder,
    ),
    (
        "observe out/1; site a [ x() => def m[ none : out(m) ] in 0 : x() | x() ] site b [ y() => \
        def n[ none : out(n) ] in 0 : y() ]",
        Freely::OneOf(&[
            "out(m'1)\nout(m'2)\nout(n'3)\nquiescent\n",
            "out(m'1)\nout(n'2)\nout(m'3)\nquiescent\n",
            "out(n'1)\nout(m'2)\nout(m'3)\nquiescent\n",
        ]),
    ),
    // The location may be there before the site is dead, and react there.
    (
        "version 2; observe out/0; site b [ none : halt() ] site a [ m[ k() => out() : go(b, k) ] \
        and d() => out() : fail(m, d) ]",
        Freely::OneOf(&["out()\nquiescent\n", "out()\nout()\nquiescent\n"]),
    ),
    (
        "observe out/0; site b [ none : halt() ] site a [ m[ k() => out() : go(b, k) ] and d() => \
        out() : fail(m, d) ]",
        Freely::OneOf(&[
            "quiescent\n",
            "out()\nquiescent\n",
            "out()\nout()\nquiescent\n",
        ]),
    ),
];

fn free_texts() -> &'static [(&'static str, Freely)] {
    FREELY
}

// The first piece of a case's text.
pub fn first_piece(case: &Case) -> &'static str {
    match case.text.first() {
        Some(piece) => piece.1,
        None => "",
    }
}

// What free threads may print in place of the text of a case.
fn what_may_come(case: &Case) -> Freely {
    let piece = first_piece(case);
    for (text, may) in free_texts() {
        if *text == piece {
            return *may;
        }
    }
    case.freely
}

// How often a line occurs in a text.
fn times(line: &[u8], text: &[u8]) -> usize {
    text.split(|byte| *byte == b'\n')
        .filter(|other| *other == line)
        .count()
}

// Whether each line of the text occurs as often in the other, and the last one stands last there.
fn has_lines_of(other: &[u8], text: &[u8]) -> bool {
    let mut last: &[u8] = b"";
    for line in text.split(|byte| *byte == b'\n') {
        if times(line, text) != times(line, other) {
            return false;
        }
        if !line.is_empty() {
            last = line;
        }
    }
    other.len() == text.len()
        && other
            .strip_suffix(b"\n")
            .is_some_and(|it| it.ends_with(last))
}

// Whether one line stands in a text before another.
fn stands_before(line: &[u8], other: &[u8], text: &[u8]) -> bool {
    for next in text.split(|byte| *byte == b'\n') {
        if next == line {
            return true;
        }
        if next == other {
            return false;
        }
    }
    false
}

// Whether the first line of each pair stands before the second one.
fn keep_order(text: &[u8], pairs: &[(&'static str, &'static str)]) -> bool {
    for (line, other) in pairs {
        if !stands_before(line.as_bytes(), other.as_bytes(), text) {
            return false;
        }
    }
    true
}

// Whether free threads may print this where one thread prints `text`.
fn may_print(printed: &[u8], text: &[u8], may: Freely) -> bool {
    match may {
        Freely::Same => printed == text,
        Freely::AnyOrder => has_lines_of(printed, text),
        Freely::Before(pairs) => has_lines_of(printed, text) && keep_order(printed, pairs),
        Freely::OneOf(texts) => texts.iter().any(|other| printed == other.as_bytes()),
    }
}

// Whether this is what a case prints by a command, where its own one prints `text`.
pub fn prints(case: &Case, text: &[u8], command: &str, printed: &[u8]) -> bool {
    if command == "run" {
        return may_print(printed, text, what_may_come(case));
    }
    printed == printed_by(command_of(case.words), text, command)
}
