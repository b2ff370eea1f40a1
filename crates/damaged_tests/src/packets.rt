// Packets, field by field.

use crate::fields::{Fields, fields_of};
use chem_model::Memory;
use std::alloc::Global;

// A site, and a number there.
type Pair = (u64, u64);

fn pair(fields: &mut Fields) -> Pair {
    let site = fields.number(4);
    (site, fields.number(8))
}

// A number of this size, and no other.
fn exactly(fields: &mut Fields, bytes: u32, wanted: u64) {
    let place = fields.place();
    if fields.number(bytes) != wanted {
        fields.refuse(place);
    }
}

// The home of a channel: any location, or this one.
fn home(fields: &mut Fields, wanted: Option<Pair>) {
    match wanted {
        Some((site, k)) => {
            exactly(fields, 4, site);
            exactly(fields, 8, k);
        }
        None => {
            pair(fields);
        }
    }
}

// What a name is, as far as a message on it may have any number of arguments or not.
#[derive(Clone, Copy)]
enum Named {
    Plain,
    Operation(u64),
}

// One of the two operations.
fn operation(fields: &mut Fields) -> u64 {
    let place = fields.place();
    let index = fields.number(4);
    if index > 1 {
        fields.refuse(place);
    }
    index
}

// A name with one of the tags up to this one.
fn name(fields: &mut Fields, most: u8, wanted: Option<Pair>) -> Named {
    match fields.tag(0, most) {
        0 => {
            fields.number(4);
        }
        1 => {
            pair(fields);
        }
        2 => {
            pair(fields);
            home(fields, wanted);
        }
        3 => {
            fields.number(8);
        }
        _ => return Named::Operation(operation(fields)),
    }
    Named::Plain
}

fn names(fields: &mut Fields, many: u64) {
    for _ in 0..many {
        if fields.is_wrong() {
            return;
        }
        name(fields, 3, None);
    }
}

// What follows the id of a message, on a channel of this home or of any.
fn message(fields: &mut Fields, wanted: Option<Pair>) {
    let on = name(fields, 4, wanted);
    let place = fields.place();
    let many = fields.number(1);
    match on {
        Named::Operation(0) if many != 3 => fields.refuse(place),
        Named::Operation(1) if many != 4 => fields.refuse(place),
        _ => {}
    }
    names(fields, many);
}

fn group(fields: &mut Fields) {
    fields.number(4);
    pair(fields);
    pair(fields);
    let many = fields.number(4);
    names(fields, many);
}

fn groups(fields: &mut Fields) {
    for _ in 0..fields.number(4) {
        if fields.is_wrong() {
            return;
        }
        group(fields);
    }
}

// An id that is none of these.
fn new_id(fields: &mut Fields, ids: &[Pair]) -> Pair {
    let site = fields.number(4);
    let place = fields.place();
    let id = (site, fields.number(8));
    if ids.contains(&id) {
        fields.refuse(place);
    }
    id
}

// Messages on channels of this home. Their ids are kept.
fn messages(fields: &mut Fields, home: Pair, ids: &mut Vec<Pair>) -> Result<(), Memory> {
    for _ in 0..fields.number(4) {
        if fields.is_wrong() {
            return Ok(());
        }
        let id = new_id(fields, ids.as_slice());
        message(fields, Some(home));
        if ids.push(id).is_err() {
            return Err(Memory);
        }
    }
    Ok(())
}

// An id that is none of these, and above the one before it.
fn risen_id(fields: &mut Fields, ids: &[Pair], last: Option<Pair>) -> Pair {
    let place = fields.place().wrapping_add(4);
    let id = new_id(fields, ids);
    match last {
        Some(last) if id <= last => fields.refuse(place),
        _ => {}
    }
    id
}

fn request(fields: &mut Fields) {
    if fields.tag(1, 3) != 2 {
        names(fields, 2);
    }
}

// Requests whose ids are none of these.
fn requests(fields: &mut Fields, ids: &[Pair]) {
    let mut last = None;
    for _ in 0..fields.number(4) {
        if fields.is_wrong() {
            return;
        }
        last = Some(risen_id(fields, ids, last));
        request(fields);
    }
}

fn parcel(fields: &mut Fields, ids: &mut Vec<Pair>) -> Result<(), Memory> {
    let home = pair(fields);
    groups(fields);
    messages(fields, home, ids)?;
    requests(fields, ids.as_slice());
    Ok(())
}

fn packet(fields: &mut Fields, ids: &mut Vec<Pair>) -> Result<(), Memory> {
    if fields.tag(1, 2) == 2 {
        return parcel(fields, ids);
    }
    pair(fields);
    message(fields, None);
    Ok(())
}

/// A packet that is one message, and no other.
pub fn only_message(fields: &mut Fields) {
    fields.tag(1, 1);
    pair(fields);
    message(fields, None);
}

/// The place of the first field that is wrong, if these bytes are no packet.
pub fn packet_wrong_at(alloc: Global, bytes: &[u8]) -> Result<Option<usize>, Memory> {
    let mut fields = fields_of(bytes);
    let mut ids = Vec::new(alloc);
    packet(&mut fields, &mut ids)?;
    fields.end();
    Ok(fields.wrong_at())
}
