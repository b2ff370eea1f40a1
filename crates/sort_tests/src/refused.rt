// Texts that are refused, whatever their sort lines say.

use crate::tables::REFUSED;
use worked_texts::Case;

const NO_PROGRAMS: &[Case] = &[
    // A refusal of the text comes before a fault of its sort lines, also at the first byte and at
    // the last.
    Case {
        text: &[(1, "$ #: sort\nsite s [ none : 0 ]")],
        err: "lex 2 at 0\n",
        ..REFUSED
    },
    Case {
        text: &[(1, "#: sort\nsite s [ none : 0 ]$")],
        err: "lex 2 at 27\n",
        ..REFUSED
    },
    Case {
        text: &[(
            1,
            "#: sort\nversion 2; site s [ none : x(18446744073709551616) ]",
        )],
        err: "lex 3 at 37\n",
        ..REFUSED
    },
    Case {
        text: &[(1, "; #: sort\nsite s [ none : 0 ]")],
        err: "grammar 1 at 0\n",
        ..REFUSED
    },
    Case {
        text: &[(1, "#: sort\nsite s [ none : 0 ];")],
        err: "grammar 1 at 27\n",
        ..REFUSED
    },
    Case {
        text: &[(1, "#: sort\nsite s [ none : q() ]")],
        err: "scope 1 at 24\n",
        ..REFUSED
    },
    Case {
        text: &[(1, "#: use x z\nsite s [ x(u) => 0 : x() ]")],
        err: "arity 1 at 32\n",
        ..REFUSED
    },
    // A number is no argument in version 1, whatever the sorts say.
    Case {
        text: &[(
            1,
            "#: sort one(num)\n#: use x one\nsite s [ x(u) => 0 : x(7) ]",
        )],
        err: "grammar 1 at 53\n",
        ..REFUSED
    },
];

pub fn no_programs() -> &'static [Case] {
    NO_PROGRAMS
}
