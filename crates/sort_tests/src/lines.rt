// Texts with a fault of a sort line.

use crate::tables::{NO, YES};
use worked_texts::Case;

const OF_NEITHER_FORM: &[Case] = &[
    Case {
        text: &[(
            1,
            "#: sort one\nobserve out/1; site s [ x(u) => out(u) : x(s) ]",
        )],
        out: "no sort 1 at 0\n",
        ..NO
    },
    // Nothing.
    Case {
        text: &[(1, "#:\nsite s [ none : 0 ]")],
        out: "no sort 1 at 0\n",
        ..NO
    },
    // A byte that begins no token.
    Case {
        text: &[(1, "site s [ none : 0 ]\n#: use x $")],
        out: "no sort 1 at 20\n",
        ..NO
    },
    // A comma without a name.
    Case {
        text: &[(1, "#: sort z(,)\nsite s [ none : 0 ]")],
        out: "no sort 1 at 0\n",
        ..NO
    },
    // A comma behind the last name.
    Case {
        text: &[(1, "#: sort z(place,)\nsite s [ none : 0 ]")],
        out: "no sort 1 at 0\n",
        ..NO
    },
    // One token too many.
    Case {
        text: &[(1, "#: sort z() z\nsite s [ none : 0 ]")],
        out: "no sort 1 at 0\n",
        ..NO
    },
    // No name, and a third one.
    Case {
        text: &[(1, "#: use x\n#: use x z z\nsite s [ none : 0 ]")],
        out: "no sort 1 at 0\n",
        ..NO
    },
    // A keyword as a name.
    Case {
        text: &[(1, "#: sort z()\n#: use go z\nsite s [ none : 0 ]")],
        out: "no sort 1 at 12\n",
        ..NO
    },
    // A number as a name, also one that is too large.
    Case {
        text: &[(1, "#: sort z(7)\n#: sort y(300)\nsite s [ none : 0 ]")],
        out: "no sort 1 at 0\n",
        ..NO
    },
    // The list ends in a comment of the line.
    Case {
        text: &[(1, "#: sort z(#)\nsite s [ none : 0 ]")],
        out: "no sort 1 at 0\n",
        ..NO
    },
    // A line of version 2 is none.
    Case {
        text: &[(1, "#: version 2; sort z()\nsite s [ none : 0 ]")],
        out: "no sort 1 at 0\n",
        ..NO
    },
    // Another word.
    Case {
        text: &[(1, "#: uses x z\n#: sort z()\nsite s [ none : 0 ]")],
        out: "no sort 1 at 0\n",
        ..NO
    },
    // The last byte of a text.
    Case {
        text: &[(1, "version 2; site s [ none : 0 ] #:")],
        out: "no sort 1 at 31\n",
        ..NO
    },
];

pub fn of_neither_form() -> &'static [Case] {
    OF_NEITHER_FORM
}

const SAID_TWICE: &[Case] = &[
    Case {
        text: &[(1, "#: sort z()\n#: sort z()\nsite s [ none : 0 ]")],
        out: "no sort 2 at 12\n",
        ..NO
    },
    // With other arguments, and a third time.
    Case {
        text: &[(
            1,
            "#: sort z()\n#: sort z(place)\n#: sort z()\nsite s [ none : 0 ]",
        )],
        out: "no sort 2 at 12\n",
        ..NO
    },
    Case {
        text: &[(
            1,
            "#: sort z()\n#: use x z\n#: use x z\nsite s [ x() => 0 : x() ]",
        )],
        out: "no sort 2 at 23\n",
        ..NO
    },
    // The second line doesn't override the first.
    Case {
        text: &[(
            1,
            "#: sort z()\n\
            #: sort one(place)\n\
            #: use x z\n\
            #: use x one\n\
            site s [ x(u) => 0 : x(s) ]",
        )],
        out: "no sort 2 at 42\n",
        ..NO
    },
    Case {
        text: &[(1, "#: sort place()\nsite s [ none : 0 ]")],
        out: "no sort 2 at 0\n",
        ..NO
    },
    Case {
        text: &[(1, "version 2; site s [ none : 0 ] #: sort num(place)")],
        out: "no sort 2 at 31\n",
        ..NO
    },
    // `place` is defined then, so the first line has no fault.
    Case {
        text: &[(
            1,
            "#: use x place\n#: sort place()\nsite s [ x() => 0 : x() ]",
        )],
        out: "no sort 2 at 15\n",
        ..NO
    },
    // Of two faults of one line the least number.
    Case {
        text: &[(1, "#: sort z()\n#: sort z(y)\nsite s [ none : 0 ]")],
        out: "no sort 2 at 12\n",
        ..NO
    },
];

pub fn said_twice() -> &'static [Case] {
    SAID_TWICE
}

const NO_SUCH_SORT: &[Case] = &[
    Case {
        text: &[(1, "#: sort z(y)\nsite s [ none : 0 ]")],
        out: "no sort 3 at 0\n",
        ..NO
    },
    // The last of three.
    Case {
        text: &[(
            1,
            "#: sort y()\n#: sort z(y, place, x)\nsite s [ none : 0 ]",
        )],
        out: "no sort 3 at 12\n",
        ..NO
    },
    Case {
        text: &[(1, "#: use x z\nsite s [ x() => 0 : x() ]")],
        out: "no sort 3 at 0\n",
        ..NO
    },
    // What is used has to be defined.
    Case {
        text: &[(1, "#: use x place\nsite s [ none : 0 ]")],
        out: "no sort 3 at 0\n",
        ..NO
    },
    Case {
        text: &[(1, "version 2; #: use x num\nsite s [ none : 0 ]")],
        out: "no sort 3 at 11\n",
        ..NO
    },
    // The least place before the least number.
    Case {
        text: &[(
            1,
            "#: use x z\n#: sort\n#: sort place()\nsite s [ none : 0 ]",
        )],
        out: "no sort 3 at 0\n",
        ..NO
    },
    // A fault of a line before all others, wherever it stands.
    Case {
        text: &[(1, "site s [ x() => 0 : x() ]\n#: use y z")],
        out: "no sort 3 at 26\n",
        ..NO
    },
];

pub fn no_such_sort() -> &'static [Case] {
    NO_SUCH_SORT
}

const LONG_LISTS: &[Case] = &[
    // 255 members.
    Case {
        text: &[
            (1, "#: sort z("),
            (254, "place,"),
            (1, "place)\nsite s [ none : 0 ]"),
        ],
        ..YES
    },
    // A 256th one.
    Case {
        text: &[
            (1, "site s [ none : 0 ]\n#: sort z("),
            (255, "place,"),
            (1, "place)"),
        ],
        out: "no sort 1 at 20\n",
        ..NO
    },
];

pub fn long_lists() -> &'static [Case] {
    LONG_LISTS
}
