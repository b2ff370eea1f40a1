// Each byte of a worked text, changed to each other value.

use crate::frames::frame_wrong_at;
use crate::logs::log_wrong_at;
use crate::packets::packet_wrong_at;
use crate::rows::{frames, logs, packets};
use crate::spelled::{acknowledgement, carried, largest};
use chem_model::{Items, Memory, Text};
use lossy_link::read_frame;
use std::alloc::Global;
use std::process::Abort;
use trace_text::{LogEnd, read_log};
use wire_packet::{DecodeEnd, decode};

// The message 0.5 on the channel 0.1 of the location 0.0, with the location 1.0.
const MESSAGE: &[u8] = &[
    1, 0, 0, 0, 0, 0, 0, 0, 0, 0, 0, 0, 5, 2, 0, 0, 0, 0, 0, 0, 0, 0, 0, 0, 0, 1, 0, 0, 0, 0, 0, 0,
    0, 0, 0, 0, 0, 0, 1, 1, 0, 0, 0, 1, 0, 0, 0, 0, 0, 0, 0, 0,
];

// The location 0.1 with one group: level 1, the first channel 0.2 and the first rule 0.3.
const PARCEL: &[u8] = &[
    2, 0, 0, 0, 0, 0, 0, 0, 0, 0, 0, 0, 1, 0, 0, 0, 1, 0, 0, 0, 1, 0, 0, 0, 0, 0, 0, 0, 0, 0, 0, 0,
    2, 0, 0, 0, 0, 0, 0, 0, 0, 0, 0, 0, 3, 0, 0, 0, 0, 0, 0, 0, 0, 0, 0, 0, 0,
];

// The location 1.7 with two groups, the waiting messages 0.9 and 1.9, and two requests.
const FULL_PARCEL: &[u8] = &[
    2, 0, 0, 0, 1, 0, 0, 0, 0, 0, 0, 0, 7, 0, 0, 0, 1, 0, 0, 0, 3, 0, 0, 0, 1, 0, 0, 0, 0, 0, 0, 0,
    8, 0, 0, 0, 1, 0, 0, 0, 0, 0, 0, 0, 9, 0, 0, 0, 1, 0, 0, 0, 0, 2, 0, 0, 0, 2, 0, 0, 0, 0, 0, 0,
    0, 0, 0, 0, 0, 9, 2, 0, 0, 0, 1, 0, 0, 0, 0, 0, 0, 0, 8, 0, 0, 0, 1, 0, 0, 0, 0, 0, 0, 0, 7, 0,
    0, 0, 0, 1, 0, 0, 0, 0, 0, 0, 0, 9, 2, 0, 0, 0, 1, 0, 0, 0, 0, 0, 0, 0, 8, 0, 0, 0, 1, 0, 0, 0,
    0, 0, 0, 0, 7, 0, 0, 0, 0, 2, 0, 0, 0, 0, 0, 0, 0, 0, 0, 0, 0, 3, 1, 1, 0, 0, 0, 0, 0, 0, 0, 0,
    0, 0, 0, 0, 0, 0, 0, 0, 0, 0, 0, 0, 1, 0, 0, 0, 0, 0, 0, 0, 2, 2,
];

// The location 0.1, where the message 0.4 waits: a sum of 7 and the location 0.0 for the first
// observed name.
const OPERATION_PARCEL: &[u8] = &[
    2, 0, 0, 0, 0, 0, 0, 0, 0, 0, 0, 0, 1, 0, 0, 0, 0, 0, 0, 0, 1, 0, 0, 0, 0, 0, 0, 0, 0, 0, 0, 0,
    4, 4, 0, 0, 0, 0, 3, 3, 0, 0, 0, 0, 0, 0, 0, 7, 1, 0, 0, 0, 0, 0, 0, 0, 0, 0, 0, 0, 0, 0, 0, 0,
    0, 0, 0, 0, 0, 0,
];

// The log of a run of one event.
const LOG: &[u8] =
    b"joinlog 1\nsource 47\nobserve out/1; site s [ x(u) => out(u) : x(s) ]\nbudget 10\nevents 1\n\
    react 0.2 0.3\ntrace 17\nout(s)\nquiescent\n";

// Each text is handed out by a function that does nothing else: the proof of one that names it goes
// over its bytes at each step.
fn message() -> &'static [u8] {
    MESSAGE
}

fn parcel() -> &'static [u8] {
    PARCEL
}

fn full_parcel() -> &'static [u8] {
    FULL_PARCEL
}

fn operation_parcel() -> &'static [u8] {
    OPERATION_PARCEL
}

fn log() -> &'static [u8] {
    LOG
}

// Where bytes are wrong first, if they are.
type Found = Result<Option<usize>, Memory>;

fn decoded(alloc: Global, bytes: &[u8]) -> Found {
    match decode(alloc, bytes) {
        Ok(_) => Ok(None),
        Err(DecodeEnd::Bad { place }) => Ok(Some(place as usize)),
        Err(DecodeEnd::Memory) => Err(Memory),
    }
}

fn framed(alloc: Global, bytes: &[u8]) -> Found {
    match read_frame(alloc, bytes) {
        Ok(_) => Ok(None),
        Err(DecodeEnd::Bad { place }) => Ok(Some(place as usize)),
        Err(DecodeEnd::Memory) => Err(Memory),
    }
}

fn read(alloc: Global, bytes: &[u8]) -> Found {
    match read_log(alloc, bytes) {
        Ok(_) => Ok(None),
        Err(LogEnd::Bad { place }) => Ok(Some(place as usize)),
        Err(LogEnd::Memory) => Err(Memory),
    }
}

// What bytes are to be.
#[derive(Clone, Copy)]
enum Kind {
    Packet,
    Frame,
    Log,
}

// What the product finds.
fn product(alloc: Global, kind: Kind, bytes: &[u8]) -> Found {
    match kind {
        Kind::Packet => decoded(alloc, bytes),
        Kind::Frame => framed(alloc, bytes),
        Kind::Log => read(alloc, bytes),
    }
}

// What the small reader finds.
fn small_reader(alloc: Global, kind: Kind, bytes: &[u8]) -> Found {
    match kind {
        Kind::Packet => packet_wrong_at(alloc, bytes),
        Kind::Frame => Ok(frame_wrong_at(bytes)),
        Kind::Log => Ok(log_wrong_at(bytes)),
    }
}

// Whether both find the same.
fn agree(alloc: Global, kind: Kind, bytes: &[u8]) -> bool {
    product(alloc, kind, bytes) == small_reader(alloc, kind, bytes)
}

// Whether both find this place.
fn find(alloc: Global, kind: Kind, bytes: &[u8], place: usize) -> bool {
    product(alloc, kind, bytes) == Ok(Some(place)) && agree(alloc, kind, bytes)
}

// Whether both find a place, and the same one.
fn refuse(alloc: Global, kind: Kind, bytes: &[u8]) -> bool {
    product(alloc, kind, bytes) != Ok(None) && agree(alloc, kind, bytes)
}

// That both find the same where the byte at a place is changed to each value.
fn expect_each_value(rt: &impl Abort, alloc: Global, kind: Kind, text: &mut Text, at: usize) {
    for byte in 0..=255 {
        text.set(at, byte);
        assert!(rt; agree(alloc, kind, text.as_slice()), "byte {at} as {byte}");
    }
}

// That both find the same where each byte is changed, and a place where the bytes end before it.
fn expect_each_byte(rt: &impl Abort, alloc: Global, kind: Kind, text: &mut Text, bytes: &[u8]) {
    for (at, old) in bytes.iter().enumerate() {
        expect_each_value(rt, alloc, kind, text, at);
        text.set(at, *old);
        assert!(rt; refuse(alloc, kind, &bytes[..at]), "{at} bytes");
    }
}

// That the bytes are right, and both find the same where they are damaged.
fn expect_damage(rt: &impl Abort, alloc: Global, kind: Kind, bytes: &[u8]) {
    let many = bytes.len();
    assert!(rt; product(alloc, kind, bytes) == Ok(None), "all {many} bytes");
    match Items::from_slice(alloc, bytes) {
        Ok(mut text) => expect_each_byte(rt, alloc, kind, &mut text, bytes),
        Err(_) => assert!(rt; false, "no memory"),
    }
}

#[test]
fn each_byte_of_a_packet(rt: HostRuntime) {
    expect_damage(&rt, rt.alloc(), Kind::Packet, message());
    expect_damage(&rt, rt.alloc(), Kind::Packet, parcel());
    expect_damage(&rt, rt.alloc(), Kind::Packet, full_parcel());
    expect_damage(&rt, rt.alloc(), Kind::Packet, operation_parcel());
}

#[test]
fn each_byte_of_a_frame(rt: HostRuntime) {
    expect_damage(&rt, rt.alloc(), Kind::Frame, acknowledgement());
    expect_damage(&rt, rt.alloc(), Kind::Frame, largest());
    expect_damage(&rt, rt.alloc(), Kind::Frame, carried());
}

#[test]
fn each_byte_of_a_log(rt: HostRuntime) {
    expect_damage(&rt, rt.alloc(), Kind::Log, log());
}

// That the first wrong fields are at these places.
fn expect_places(rt: &impl Abort, alloc: Global, kind: Kind, rows: &[(&[u8], usize)]) {
    for (index, (bytes, place)) in rows.iter().enumerate() {
        assert!(rt; find(alloc, kind, *bytes, *place), "row {index}");
    }
}

// The table, judged by the product and by the small reader.
#[test]
fn the_first_wrong_field(rt: HostRuntime) {
    expect_places(&rt, rt.alloc(), Kind::Packet, packets());
    expect_places(&rt, rt.alloc(), Kind::Frame, frames());
    expect_places(&rt, rt.alloc(), Kind::Log, logs());
}
