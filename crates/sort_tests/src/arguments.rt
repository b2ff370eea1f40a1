// Texts with a fault of an argument.

use crate::tables::NO;
use worked_texts::Case;

const NAMES_AS_ARGUMENTS: &[Case] = &[
    Case {
        text: &[(
            1,
            "#: sort one(place)\n\
            #: use out one\n\
            #: use x one\n\
            observe out/1; site s [ x(u) => out(u) : x(x) ]",
        )],
        out: "no sort 8 at 90\n",
        ..NO
    },
    // The second one.
    Case {
        text: &[(
            1,
            "#: sort two(place, place)\n\
            #: use x two\n\
            site s [ x(u, v) => x(v, u) : x(s, x) ]",
        )],
        out: "no sort 8 at 74\n",
        ..NO
    },
    // Equal arguments don't make sorts equal.
    Case {
        text: &[(
            1,
            "#: sort y()\n\
            #: sort z()\n\
            #: sort one(z)\n\
            #: use a y\n\
            #: use x one\n\
            site s [ a() => 0 and x(u) => u() : x(a) ]",
        )],
        out: "no sort 8 at 101\n",
        ..NO
    },
    // An observed name.
    Case {
        text: &[(
            1,
            "#: sort one(one)\n\
            #: sort two(place)\n\
            #: use out two\n\
            #: use x one\n\
            observe out/1; site s [ x(u) => u(u) : x(x) | x(out) ]",
        )],
        out: "no sort 8 at 112\n",
        ..NO
    },
    // Where to go, and what to do then.
    Case {
        text: &[(
            1,
            "#: sort z()\n\
            #: sort one(z, z)\n\
            #: use x one\n\
            #: use k z\n\
            site s [ m[ x(u, v) => go(u, v) and k() => 0 : x(k, k) ] : 0 ]",
        )],
        out: "no sort 8 at 80\n",
        ..NO
    },
    Case {
        text: &[(
            1,
            "#: sort one(place)\n\
            #: use k one\n\
            site s [ m[ k(u) => go(s, u) : k(s) ] : 0 ]",
        )],
        out: "no sort 8 at 58\n",
        ..NO
    },
    // A continuation with an argument.
    Case {
        text: &[(
            1,
            "#: sort one(place)\n\
            #: sort to(one)\n\
            #: use x to\n\
            #: use y one\n\
            site s [ x(k) => fail(s, k) and y(u) => 0 : x(y) ]",
        )],
        out: "no sort 8 at 85\n",
        ..NO
    },
    Case {
        text: &[(
            1,
            "#: sort z()\n\
            #: sort one(z)\n\
            #: use x one\n\
            #: use k z\n\
            site s [ x(u) => fail(u, u) and k() => 0 : x(k) ]",
        )],
        out: "no sort 8 at 73\n",
        ..NO
    },
];

pub fn names_as_arguments() -> &'static [Case] {
    NAMES_AS_ARGUMENTS
}

const NUMBERS_AS_ARGUMENTS: &[Case] = &[
    // A number for a place, and a place for a number.
    Case {
        text: &[(
            1,
            "#: sort one(place)\n\
            #: use x one\n\
            version 2; site s [ x(u) => 0 : x(s) | x(7) ]",
        )],
        out: "no sort 8 at 73\n",
        ..NO
    },
    Case {
        text: &[(
            1,
            "#: sort one(num)\n\
            #: use x one\n\
            version 2; site s [ x(u) => 0 : x(7) | x(s) ]",
        )],
        out: "no sort 8 at 71\n",
        ..NO
    },
    // Both that are added, and where the sum goes.
    Case {
        text: &[(
            1,
            "#: sort count(num)\n\
            #: use out count\n\
            version 2; observe out/1; site s [ none : add(1, s, out) ]",
        )],
        out: "no sort 8 at 85\n",
        ..NO
    },
    Case {
        text: &[(
            1,
            "#: sort count(place)\n\
            #: use out count\n\
            version 2; observe out/1; site s [ none : add(1, 2, out) ]",
        )],
        out: "no sort 8 at 90\n",
        ..NO
    },
    // Two arguments, of which the first is a number.
    Case {
        text: &[(
            1,
            "#: sort two(num, num)\n\
            #: sort to(two)\n\
            #: use x to\n\
            #: use y two\n\
            version 2; site s [ x(k) => add(1, 2, k) and y(u, v) => 0 : x(y) ]",
        )],
        out: "no sort 8 at 101\n",
        ..NO
    },
    // Both continuations of a comparison.
    Case {
        text: &[(
            1,
            "#: sort z()\n\
            #: sort count(num)\n\
            #: sort to(z, count)\n\
            #: use x to\n\
            #: use y z\n\
            #: use out count\n\
            version 2; observe out/1; site s [ x(k, m) => same(1, 1, k, m) and y() => 0 : \
            x(y, out) ]",
        )],
        out: "no sort 8 at 152\n",
        ..NO
    },
    Case {
        text: &[(
            1,
            "#: sort z()\n\
            #: sort to(z)\n\
            #: use x to\n\
            #: use y z\n\
            version 2; site s [ x(k) => same(k, 1, k, k) and y() => 0 : x(y) ]",
        )],
        out: "no sort 8 at 82\n",
        ..NO
    },
    // Of many faults the least place.
    Case {
        text: &[(
            1,
            "#: sort one(place)\n\
            #: use x one\n\
            version 2; site s [ x(u) => x(u) | u() : x(x) ]",
        )],
        out: "no sort 6 at 67\n",
        ..NO
    },
];

pub fn numbers_as_arguments() -> &'static [Case] {
    NUMBERS_AS_ARGUMENTS
}
