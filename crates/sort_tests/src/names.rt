// Texts with a fault where a name is defined, or of a message's name.

use crate::tables::NO;
use worked_texts::Case;

const DEFINITIONS: &[Case] = &[
    Case {
        text: &[(1, "observe out/1; site s [ x(u) => out(u) : x(s) ]")],
        out: "no sort 4 at 8\n",
        ..NO
    },
    // A channel of a `def`.
    Case {
        text: &[(
            1,
            "#: sort z()\n#: use x z\nsite s [ x() => def y() => 0 in y() : x() ]",
        )],
        out: "no sort 4 at 43\n",
        ..NO
    },
    // A message before the definition, and one on a parameter.
    Case {
        text: &[(1, "site a [ none : y(a) ] site b [ y(q) => q(q) : 0 ]")],
        out: "no sort 4 at 32\n",
        ..NO
    },
    // A spelling that differs in its last letter.
    Case {
        text: &[(
            1,
            "#: sort z()\n#: use xa z\nversion 2; site s [ xb() => 0 : xb() ]",
        )],
        out: "no sort 4 at 44\n",
        ..NO
    },
    Case {
        text: &[(
            1,
            "#: sort one(place)\n#: use x one\nsite s [ x() => 0 : x() ]",
        )],
        out: "no sort 5 at 41\n",
        ..NO
    },
    Case {
        text: &[(
            1,
            "#: sort z()\n#: use out z\nobserve out/1; site s [ none : out(s) ]",
        )],
        out: "no sort 5 at 33\n",
        ..NO
    },
    Case {
        text: &[(
            1,
            "#: sort two(num, num)\n\
            #: use x two\n\
            version 2; site s [ x(u) => 0 : x(1) ]",
        )],
        out: "no sort 5 at 55\n",
        ..NO
    },
];

pub fn definitions() -> &'static [Case] {
    DEFINITIONS
}

const MESSAGE_NAMES: &[Case] = &[
    Case {
        text: &[(
            1,
            "#: sort one(place)\n#: use x one\nsite s [ x(u) => u() : x(s) ]",
        )],
        out: "no sort 6 at 49\n",
        ..NO
    },
    Case {
        text: &[(
            1,
            "#: sort one(num)\n\
            #: use x one\n\
            version 2; site s [ x(u) => u(1) : x(7) ]",
        )],
        out: "no sort 6 at 58\n",
        ..NO
    },
    // A parameter hasn't the sort of its spelling.
    Case {
        text: &[(
            1,
            "#: sort one(place)\n\
            #: use x one\n\
            #: use u one\n\
            site s [ x(u) => u(s) and u(v) => 0 : x(s) ]",
        )],
        out: "no sort 6 at 62\n",
        ..NO
    },
    Case {
        text: &[(
            1,
            "#: sort z()\n\
            #: sort one(z)\n\
            #: use x one\n\
            #: use y z\n\
            site s [ x(u) => u(s) and y() => 0 : x(y) ]",
        )],
        out: "no sort 7 at 68\n",
        ..NO
    },
    Case {
        text: &[(
            1,
            "#: sort two(place, one)\n\
            #: sort one(two)\n\
            #: use x one\n\
            #: use y two\n\
            site s [ x(k) => k(s, x) | k(s) and y(p, q) => q(y) : x(y) ]",
        )],
        out: "no sort 7 at 94\n",
        ..NO
    },
    Case {
        text: &[(
            1,
            "#: sort z()\n\
            #: sort count(num)\n\
            #: sort to(count)\n\
            #: use x to\n\
            #: use out count\n\
            version 2; observe out/1; site s [ x(k) => k() : x(out) ]",
        )],
        out: "no sort 7 at 121\n",
        ..NO
    },
];

pub fn message_names() -> &'static [Case] {
    MESSAGE_NAMES
}
