// Texts that are refused.

use crate::cases::REFUSED;
use worked_texts::Case;

const TEXTS_OF_NO_PROGRAM: &[Case] = &[
    // A fault of the grammar before it belongs to a later phase.
    Case {
        text: &[(1, "site [ $")],
        err: "lex 2 at 7\n",
        ..REFUSED
    },
    Case {
        text: &[(1, "site s [ x() = 0 : 0 ]")],
        err: "lex 2 at 13\n",
        ..REFUSED
    },
    Case {
        text: &[(1, "observe out/256;")],
        err: "lex 3 at 12\n",
        ..REFUSED
    },
    // One byte more than the limit.
    Case {
        text: &[(1_048_577, " ")],
        err: "lex 1 at 1048576\n",
        ..REFUSED
    },
    // A program needs a site.
    Case {
        text: &[(1, "")],
        err: "grammar 1 at 0\n",
        ..REFUSED
    },
    Case {
        text: &[(1, "site s [ none : 0 ] x")],
        err: "grammar 1 at 20\n",
        ..REFUSED
    },
    Case {
        text: &[(1, "site s [ none : 1 ]")],
        err: "grammar 1 at 16\n",
        ..REFUSED
    },
    // Level 201.
    Case {
        text: &[
            (1, "site s [ none : "),
            (200, "("),
            (1, "0"),
            (200, ")"),
            (1, " ]"),
        ],
        err: "grammar 2 at 215\n",
        ..REFUSED
    },
];

fn texts_of_no_program() -> &'static [Case] {
    TEXTS_OF_NO_PROGRAM
}

const NAMES_OUT_OF_SCOPE: &[Case] = &[
    Case {
        text: &[(1, "site s [ none : q() ]")],
        err: "scope 1 at 16\n",
        ..REFUSED
    },
    // One channel at two locations.
    Case {
        text: &[(1, "site a [ x() => 0 and m[ x() => 0 : 0 ] : 0 ]")],
        err: "scope 2 at 25\n",
        ..REFUSED
    },
    // A location and a channel.
    Case {
        text: &[(1, "site s [ s() => 0 : 0 ]")],
        err: "scope 3 at 9\n",
        ..REFUSED
    },
    Case {
        text: &[(1, "observe s/0; site s [ none : 0 ]")],
        err: "scope 3 at 18\n",
        ..REFUSED
    },
    Case {
        text: &[(1, "site s [ x(u, u) => 0 : 0 ]")],
        err: "scope 4 at 14\n",
        ..REFUSED
    },
    Case {
        text: &[(1, "site s [ x() | x() => 0 : 0 ]")],
        err: "scope 5 at 15\n",
        ..REFUSED
    },
    // The repeated channel stands before its other count.
    Case {
        text: &[(1, "site s [ x() | x(u) => 0 : 0 ]")],
        err: "scope 5 at 15\n",
        ..REFUSED
    },
];

fn names_out_of_scope() -> &'static [Case] {
    NAMES_OUT_OF_SCOPE
}

const TOO_MANY_SITES: &[Case] = &[
    // The 65th site.
    Case {
        text: &[(
            1,
            "site s00 [none:0] site s01 [none:0] site s02 [none:0] site s03 [none:0] site \
            s04 [none:0] site s05 [none:0] site s06 [none:0] site s07 [none:0] \
            site s08 [none:0] site s09 [none:0] site s10 [none:0] site s11 \
            [none:0] site s12 [none:0] site s13 [none:0] site s14 [none:0] site \
            s15 [none:0] site s16 [none:0] site s17 [none:0] site s18 [none:0] \
            site s19 [none:0] site s20 [none:0] site s21 [none:0] site s22 \
            [none:0] site s23 [none:0] site s24 [none:0] site s25 [none:0] site \
            s26 [none:0] site s27 [none:0] site s28 [none:0] site s29 [none:0] \
            site s30 [none:0] site s31 [none:0] site s32 [none:0] site s33 \
            [none:0] site s34 [none:0] site s35 [none:0] site s36 [none:0] site \
            s37 [none:0] site s38 [none:0] site s39 [none:0] site s40 [none:0] \
            site s41 [none:0] site s42 [none:0] site s43 [none:0] site s44 \
            [none:0] site s45 [none:0] site s46 [none:0] site s47 [none:0] site \
            s48 [none:0] site s49 [none:0] site s50 [none:0] site s51 [none:0] \
            site s52 [none:0] site s53 [none:0] site s54 [none:0] site s55 \
            [none:0] site s56 [none:0] site s57 [none:0] site s58 [none:0] site \
            s59 [none:0] site s60 [none:0] site s61 [none:0] site s62 [none:0] \
            site s63 [none:0] site s64 [none:0] ",
        )],
        err: "scope 6 at 1152\n",
        ..REFUSED
    },
];

fn too_many_sites() -> &'static [Case] {
    TOO_MANY_SITES
}

const COUNTS_AND_KINDS: &[Case] = &[
    // The fault of a count stands before the unknown name.
    Case {
        text: &[(1, "site s [ x(u) => 0 : x() | q() ]")],
        err: "arity 1 at 21\n",
        ..REFUSED
    },
    Case {
        text: &[(1, "site s [ x() => 0 and x(u) => 0 : 0 ]")],
        err: "arity 2 at 22\n",
        ..REFUSED
    },
    // A location as a channel.
    Case {
        text: &[(1, "site s [ none : s() ]")],
        err: "arity 3 at 16\n",
        ..REFUSED
    },
    // A channel as a location.
    Case {
        text: &[(1, "site s [ x() => 0 : go(x, x) ]")],
        err: "arity 4 at 23\n",
        ..REFUSED
    },
    // A 256th parameter: the comma behind the 255th.
    Case {
        text: &[(1, "site s [ x("), (255, "u,"), (1, "u) => 0 : 0 ]")],
        err: "grammar 1 at 520\n",
        ..REFUSED
    },
    // A 256th argument.
    Case {
        text: &[(1, "site s [ none : x("), (255, "s,"), (1, "s) ]")],
        err: "grammar 1 at 527\n",
        ..REFUSED
    },
];

fn counts_and_kinds() -> &'static [Case] {
    COUNTS_AND_KINDS
}

const VERSIONS: &[Case] = &[
    // Numbers past the largest one, and past 255 in a text of version 1.
    Case {
        text: &[(
            1,
            "version 2; observe out/1; site s [ x(u) => out(u) : x(18446744073709551616) ]",
        )],
        err: "lex 3 at 54\n",
        ..REFUSED
    },
    Case {
        text: &[(1, "version 300; site s [ none : 0 ]")],
        err: "lex 3 at 8\n",
        ..REFUSED
    },
    // A number as an argument in a text of version 1.
    Case {
        text: &[(1, "observe out/1; site s [ x(u) => out(u) : x(7) ]")],
        err: "grammar 1 at 43\n",
        ..REFUSED
    },
    // No version that there is, and a line that isn't whole.
    Case {
        text: &[(1, "version 3; site s [ none : 0 ]")],
        err: "grammar 1 at 0\n",
        ..REFUSED
    },
    Case {
        text: &[(1, "version 2 observe out/1; site s [ none : 0 ]")],
        err: "grammar 1 at 0\n",
        ..REFUSED
    },
    // A count past 255.
    Case {
        text: &[(1, "version 2; observe out/256; site s [none:0]")],
        err: "grammar 1 at 23\n",
        ..REFUSED
    },
    // Level 401.
    Case {
        text: &[
            (1, "version 2; site s [ none : "),
            (400, "("),
            (1, "0"),
            (400, ")"),
            (1, " ]"),
        ],
        err: "grammar 2 at 426\n",
        ..REFUSED
    },
    // A sum for a channel without arguments.
    Case {
        text: &[(1, "version 2; site s [ x() => 0 : add(1, 2, x) ]")],
        err: "arity 1 at 41\n",
        ..REFUSED
    },
];

fn versions() -> &'static [Case] {
    VERSIONS
}

// Texts that are refused, with the kind and the place of their refusal.
pub fn refusals() -> [&'static [Case]; 5] {
    [
        texts_of_no_program(),
        names_out_of_scope(),
        too_many_sites(),
        counts_and_kinds(),
        versions(),
    ]
}
