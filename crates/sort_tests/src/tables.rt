// The tables together, and what their rows begin with. The places were counted by hand.

use crate::arguments::{names_as_arguments, numbers_as_arguments};
use crate::lines::{long_lists, no_such_sort, of_neither_form, said_twice};
use crate::names::{definitions, message_names};
use crate::refused::no_programs;
use crate::sorted::{well_sorted, well_sorted_numbers};
use worked_texts::{Case, QUIET};

// A text without a fault.
pub const YES: Case = Case {
    words: &["sorts"],
    out: "yes\n",
    events: None,
    ..QUIET
};

// A text with a fault.
pub const NO: Case = Case { status: 7, ..YES };

// A text that is no program.
pub const REFUSED: Case = Case {
    status: 1,
    out: "",
    ..YES
};

/// Texts that are judged by the sorts that they declare, in both versions: some without a fault,
/// some with each of the eight, and some that are refused.
pub fn judged_texts() -> [&'static [Case]; 11] {
    [
        well_sorted(),
        well_sorted_numbers(),
        of_neither_form(),
        said_twice(),
        no_such_sort(),
        long_lists(),
        definitions(),
        message_names(),
        names_as_arguments(),
        numbers_as_arguments(),
        no_programs(),
    ]
}
