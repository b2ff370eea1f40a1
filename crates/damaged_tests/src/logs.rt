// Logs, field by field.

use crate::fields::{Fields, fields_of};

fn is_digit(byte: Option<u8>) -> bool {
    matches!(byte, Some(b'0'..=b'9'))
}

fn with_digit(number: Option<u64>, digit: u8) -> Option<u64> {
    let value = u64::from(digit.wrapping_sub(b'0'));
    number?.checked_mul(10)?.checked_add(value)
}

// The number of the longest run of digits that comes next, and none where it is too large.
fn digits(fields: &mut Fields) -> Option<u64> {
    let mut number = Some(0);
    for _ in 0..fields.left() {
        if !is_digit(fields.next_byte()) {
            return number;
        }
        if let Some(digit) = fields.byte() {
            number = with_digit(number, digit);
        }
    }
    number
}

// The longest run of digits, as a number of at least and at most these sizes.
fn decimal_from(fields: &mut Fields, least: u64, most: u64) -> u64 {
    let place = fields.place();
    let leads_with_zero = fields.next_byte() == Some(b'0');
    let number = digits(fields);
    let many = fields.place().wrapping_sub(place);
    match number {
        Some(number)
            if many > 0 && number >= least && number <= most && !(leads_with_zero && many > 1) => {
            number
        }
        _ => {
            fields.refuse(place);
            0
        }
    }
}

fn decimal(fields: &mut Fields, most: u64) -> u64 {
    decimal_from(fields, 0, most)
}

fn pair(fields: &mut Fields) {
    decimal(fields, 4_294_967_295);
    fields.literal(b".");
    decimal(fields, u64::MAX);
}

// Whether these bytes come next.
fn is_next(fields: &Fields, wanted: &[u8]) -> bool {
    let mut ahead = *fields;
    ahead.literal(wanted);
    !ahead.is_wrong()
}

// One of the words of an event, with the space behind it; and whether it is that of a reaction.
fn word(fields: &mut Fields) -> bool {
    for wanted in [b"react ".as_slice(), b"move ", b"halt ", b"detect "] {
        if is_next(fields, wanted) {
            fields.literal(wanted);
            return wanted.len() == 6;
        }
    }
    fields.refuse(fields.place());
    false
}

fn atom(fields: &mut Fields) {
    fields.literal(b" ");
    pair(fields);
}

// The atoms that a reaction takes, one at least.
fn atoms(fields: &mut Fields) {
    atom(fields);
    for _ in 0..fields.left() {
        if fields.next_byte() != Some(b' ') {
            return;
        }
        atom(fields);
    }
}

fn event(fields: &mut Fields) {
    let reacts = word(fields);
    pair(fields);
    if reacts {
        atoms(fields);
    }
    fields.literal(b"\n");
}

fn events(fields: &mut Fields, many: u64) {
    for _ in 0..many {
        if fields.is_wrong() {
            return;
        }
        event(fields);
    }
}

// So many bytes behind the line that says how many they are.
fn counted(fields: &mut Fields, most: u64) {
    let many = decimal(fields, most);
    fields.literal(b"\n");
    fields.skip(many);
}

// How a log begins; and whether it is one with a large budget.
fn beginning(fields: &mut Fields) -> bool {
    let second = b"joinlog 2\nsource ";
    if is_next(fields, second) {
        fields.literal(second);
        return true;
    }
    fields.literal(b"joinlog 1\nsource ");
    false
}

fn budget(fields: &mut Fields, is_large: bool) -> u64 {
    fields.literal(b"\nbudget ");
    if is_large {
        decimal_from(fields, 1_000_001, 4_000_000)
    } else {
        decimal(fields, 1_000_000)
    }
}

fn log(fields: &mut Fields) {
    let is_large = beginning(fields);
    counted(fields, 1_048_576);
    let budget = budget(fields, is_large);
    fields.literal(b"\nevents ");
    let many = decimal(fields, budget);
    fields.literal(b"\n");
    events(fields, many);
    fields.literal(b"trace ");
    counted(fields, u64::MAX);
    fields.end();
}

/// The place of the first field that is wrong, if these bytes are no log.
pub fn log_wrong_at(bytes: &[u8]) -> Option<usize> {
    let mut fields = fields_of(bytes);
    log(&mut fields);
    fields.wrong_at()
}
