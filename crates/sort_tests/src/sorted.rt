// Texts without a fault.

use crate::tables::YES;
use worked_texts::Case;

const WELL_SORTED: &[Case] = &[
    Case {
        text: &[(
            1,
            "#: sort one(place)\n\
            #: use out one\n\
            #: use x one\n\
            observe out/1; site s [ x(u) => out(u) : x(s) ]",
        )],
        ..YES
    },
    // No sort line, and nothing that needs one.
    Case {
        text: &[(1, "site s [ none : 0 ]")],
        ..YES
    },
    // Other comments, a comment within a sort line, and comments that are no sort lines.
    Case {
        text: &[(
            1,
            "# : sort\n\
            # #: sort z()\n\
            #: use x z # why\n\
            #: sort z() # so\n\
            site s [ x() => 0 : x() ] #",
        )],
        ..YES
    },
    // No blanks, many blanks, a carriage return, and the last line without a line feed.
    Case {
        text: &[(1, "#:sort\tz ( )\r\nsite s [ x() => 0 : x() ] #:use x  z")],
        ..YES
    },
    // Recursion, and definitions in any order.
    Case {
        text: &[(
            1,
            "#: use x a\n\
            #: sort a(b, a)\n\
            #: sort b()\n\
            #: use y b\n\
            site s [ x(u, v) => u() | v(u, v) and y() => 0 : x(y, x) ]",
        )],
        ..YES
    },
    // A sort and a spelling have names of their own.
    Case {
        text: &[(1, "#: sort x()\n#: use x x\nsite s [ x() => 0 : x() ]")],
        ..YES
    },
    // A spelling that names a site, and one that stands nowhere.
    Case {
        text: &[(
            1,
            "#: sort z()\n#: use s z\n#: use nowhere z\nsite s [ none : 0 ]",
        )],
        ..YES
    },
    // Two channels of one spelling, each with its sort.
    Case {
        text: &[(
            1,
            "#: sort z()\n#: use x z\nsite s [ x() => def x() => 0 in x() : x() ]",
        )],
        ..YES
    },
    // Places and continuations.
    Case {
        text: &[(
            1,
            "#: sort at(place)\n\
            #: sort k()\n\
            #: use m at\n\
            #: use k k\n\
            site a [ l[ m(b) => go(b, k) and k() => fail(a, k) : m(c) ] : 0 ] site c [ \
            none : halt() ]",
        )],
        ..YES
    },
    // A number of version 1 is no argument, and its sort may be asked for.
    Case {
        text: &[(1, "#: sort z(num)\n#: use x z\nsite s [ x(u) => x(u) : 0 ]")],
        ..YES
    },
];

pub fn well_sorted() -> &'static [Case] {
    WELL_SORTED
}

const WELL_SORTED_NUMBERS: &[Case] = &[
    // Numbers, sums and comparisons.
    Case {
        text: &[(
            1,
            "#: sort count(num)\n\
            #: sort z()\n\
            #: use out count\n\
            #: use x count\n\
            #: use y z\n\
            #: use n z\n\
            version 2; observe out/1;\n\
            site s [ x(u) => add(u, 1, out) | same(u, 7, y, n) and y() => 0 and n() => 0 : \
            x(7) ]",
        )],
        ..YES
    },
    // `add` and `same` are keywords of version 2, and names in its sort lines.
    Case {
        text: &[(
            1,
            "version 2; #: sort add()\n#: use same add\nsite s [ none : 0 ]",
        )],
        ..YES
    },
    // A sum as its own continuation's argument.
    Case {
        text: &[(
            1,
            "#: sort count(num)\n\
            #: sort to(num, count)\n\
            #: use sum to\n\
            #: use out count\n\
            version 2; observe out/1; site s [ sum(n, k) => add(n, n, k) : sum(3, out) ]",
        )],
        ..YES
    },
];

pub fn well_sorted_numbers() -> &'static [Case] {
    WELL_SORTED_NUMBERS
}
