// Frames and their spellings, worked out by hand.

use chem_model::{Memory, Text};
use lossy_link::{Frame, frame_bytes, read_frame};
use std::alloc::Global;
use wire_packet::DecodeEnd;

// The acknowledgement 1 of the pair of the sites 1 and 0.
const ACKNOWLEDGEMENT: &[u8] = &[2, 0, 0, 0, 1, 0, 0, 0, 0, 0, 0, 0, 0, 0, 0, 0, 1];

// The acknowledgement with the largest numbers that there are.
const LARGEST: &[u8] = &[
    2, 255, 255, 255, 255, 255, 255, 255, 255, 255, 255, 255, 255, 255, 255, 255, 255,
];

// The packet 3 of the pair of the sites 1 and 258: the message 0.5 on the channel 0.1 of the
// location 0.0, with the location 1.0.
const CARRIED: &[u8] = &[
    1, 0, 0, 0, 1, 0, 0, 1, 2, 0, 0, 0, 0, 0, 0, 0, 3, 1, 0, 0, 0, 0, 0, 0, 0, 0, 0, 0, 0, 5, 2, 0,
    0, 0, 0, 0, 0, 0, 0, 0, 0, 0, 1, 0, 0, 0, 0, 0, 0, 0, 0, 0, 0, 0, 0, 1, 1, 0, 0, 0, 1, 0, 0, 0,
    0, 0, 0, 0, 0,
];

// Each is handed out by a function that does nothing else, as in `tests`.
pub fn acknowledgement() -> &'static [u8] {
    ACKNOWLEDGEMENT
}

pub fn largest() -> &'static [u8] {
    LARGEST
}

pub fn carried() -> &'static [u8] {
    CARRIED
}

// The spelling of the frame that the bytes spell.
fn again(alloc: Global, bytes: &[u8]) -> Result<Text, DecodeEnd> {
    let frame = read_frame(alloc, bytes)?;
    match frame_bytes(alloc, &frame) {
        Ok(spelled) => Ok(spelled),
        Err(_) => Err(DecodeEnd::Memory),
    }
}

// Whether bytes spell a frame, whose spelling they are.
fn comes_back(alloc: Global, bytes: &[u8]) -> bool {
    match again(alloc, bytes) {
        Ok(spelled) => spelled.as_slice() == bytes,
        Err(_) => false,
    }
}

fn acknowledged(alloc: Global) -> Result<Text, Memory> {
    let frame = Frame::Ack {
        from: 1,
        into: 0,
        number: 1,
    };
    frame_bytes(alloc, &frame)
}

fn is_acknowledged(alloc: Global) -> bool {
    match acknowledged(alloc) {
        Ok(spelled) => spelled.as_slice() == acknowledgement(),
        Err(_) => false,
    }
}

// The sites and the number of a packet, and how many bytes it has; none where the bytes spell
// another frame, or none.
fn packet_of(alloc: Global, bytes: &[u8]) -> Option<(u32, u32, u64, usize)> {
    match read_frame(alloc, bytes) {
        Ok(
            Frame::Data {
                from,
                into,
                number,
                bytes,
            },
        ) => Some((from, into, number, bytes.len())),
        _ => None,
    }
}

// The sites and the number of an acknowledgement.
fn acknowledgement_of(alloc: Global, bytes: &[u8]) -> Option<(u32, u32, u64)> {
    match read_frame(alloc, bytes) {
        Ok(Frame::Ack { from, into, number }) => Some((from, into, number)),
        _ => None,
    }
}

#[test]
fn frames_and_their_spellings(rt: HostRuntime) {
    assert!(rt; is_acknowledged(rt.alloc()));
    assert!(rt; comes_back(rt.alloc(), acknowledgement()));
    assert!(rt; comes_back(rt.alloc(), largest()));
    assert!(rt; comes_back(rt.alloc(), carried()));
}

#[test]
fn what_frames_say(rt: HostRuntime) {
    assert!(rt; acknowledgement_of(rt.alloc(), acknowledgement()) == Some((1, 0, 1)));
    assert!(rt; acknowledgement_of(rt.alloc(), carried()) == None);
    assert!(rt; packet_of(rt.alloc(), carried()) == Some((1, 258, 3, 52)));
    assert!(rt; packet_of(rt.alloc(), acknowledgement()) == None);
}
