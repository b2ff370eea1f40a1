// Packets and their bytes. The expected values were worked out by hand from the format.
ghost use Rattle.wire_packet.specs.Operations.{IsPlain};

use chem_model::{AtomId, Items, Loc, Memory, Name, RuleId, Text};
use std::alloc::Global;
use std::process::Abort;
use wire_packet::{
    DecodeEnd, Flight, Flights, GroupInst, Msg, Packet, Parcel, SharedEnv, copy_flights, decode,
    encode,
};

// The message 0.5 on the channel 0.1 of the location 0.0, with the location 1.0.
fn message() -> &'static [u8] {
    &[
        1, 0, 0, 0, 0, 0, 0, 0, 0, 0, 0, 0, 5, 2, 0, 0, 0, 0, 0, 0, 0, 0, 0, 0, 0, 1, 0, 0, 0, 0,
        0, 0, 0, 0, 0, 0, 0, 0, 1, 1, 0, 0, 0, 1, 0, 0, 0, 0, 0, 0, 0, 0,
    ]
}

// Where the fields of the message begin.
fn message_fields() -> &'static [usize] {
    &[0, 1, 5, 13, 14, 18, 26, 30, 38, 39, 40, 44]
}

// The same message with the number 7 in place of the location.
fn number_message() -> &'static [u8] {
    &[
        1, 0, 0, 0, 0, 0, 0, 0, 0, 0, 0, 0, 5, 2, 0, 0, 0, 0, 0, 0, 0, 0, 0, 0, 0, 1, 0, 0, 0, 0,
        0, 0, 0, 0, 0, 0, 0, 0, 1, 3, 0, 0, 0, 0, 0, 0, 0, 7,
    ]
}

fn number_message_fields() -> &'static [usize] {
    &[0, 1, 5, 13, 14, 18, 26, 30, 38, 39, 40]
}

// The location 0.1, where the message 0.4 waits: a sum of 7 and the location 0.0 for the first
// observed name.
fn operation_parcel() -> &'static [u8] {
    &[
        2, 0, 0, 0, 0, 0, 0, 0, 0, 0, 0, 0, 1, 0, 0, 0, 0, 0, 0, 0, 1, 0, 0, 0, 0, 0, 0, 0, 0, 0,
        0, 0, 4, 4, 0, 0, 0, 0, 3, 3, 0, 0, 0, 0, 0, 0, 0, 7, 1, 0, 0, 0, 0, 0, 0, 0, 0, 0, 0, 0,
        0, 0, 0, 0, 0, 0, 0, 0, 0, 0,
    ]
}

fn operation_parcel_fields() -> &'static [usize] {
    &[
        0, 1, 5, 13, 17, 21, 25, 33, 34, 38, 39, 40, 48, 49, 53, 61, 62, 66,
    ]
}

// The location 0.1 with one group: level 1, the first channel 0.2 and the first rule 0.3.
fn small_parcel() -> &'static [u8] {
    &[
        2, 0, 0, 0, 0, 0, 0, 0, 0, 0, 0, 0, 1, 0, 0, 0, 1, 0, 0, 0, 1, 0, 0, 0, 0, 0, 0, 0, 0, 0,
        0, 0, 2, 0, 0, 0, 0, 0, 0, 0, 0, 0, 0, 0, 3, 0, 0, 0, 0, 0, 0, 0, 0, 0, 0, 0, 0,
    ]
}

fn small_parcel_fields() -> &'static [usize] {
    &[0, 1, 5, 13, 17, 21, 25, 33, 37, 45, 49, 53]
}

// The location 1.7 with two groups, the waiting messages 0.9, 1.9 and 0.4, and a request of each
// kind: 0.3, 0.10 and 1.2.
fn full_parcel() -> &'static [u8] {
    &[
        2, 0, 0, 0, 1, 0, 0, 0, 0, 0, 0, 0, 7, 0, 0, 0, 2, 0, 0, 0, 3, 0, 0, 0, 1, 0, 0, 0, 0, 0,
        0, 0, 8, 0, 0, 0, 1, 0, 0, 0, 0, 0, 0, 0, 9, 0, 0, 0, 3, 0, 0, 0, 0, 2, 1, 0, 0, 0, 0, 0,
        0, 0, 0, 0, 0, 0, 0, 2, 0, 0, 0, 0, 0, 0, 0, 0, 0, 0, 0, 5, 0, 0, 0, 0, 0, 0, 0, 0, 0, 0,
        0, 0, 0, 0, 0, 4, 0, 0, 0, 1, 0, 0, 0, 0, 0, 0, 0, 12, 0, 0, 0, 1, 0, 0, 0, 0, 0, 0, 0, 13,
        0, 0, 0, 0, 0, 0, 0, 3, 0, 0, 0, 0, 0, 0, 0, 0, 0, 0, 0, 9, 2, 0, 0, 0, 1, 0, 0, 0, 0, 0,
        0, 0, 8, 0, 0, 0, 1, 0, 0, 0, 0, 0, 0, 0, 7, 2, 0, 0, 0, 0, 1, 1, 0, 0, 0, 1, 0, 0, 0, 0,
        0, 0, 0, 7, 0, 0, 0, 1, 0, 0, 0, 0, 0, 0, 0, 9, 0, 0, 0, 0, 0, 0, 0, 0, 0, 0, 0, 0, 0, 0,
        0, 0, 0, 4, 1, 0, 0, 0, 0, 0, 0, 0, 0, 0, 0, 0, 0, 1, 2, 0, 0, 0, 0, 0, 0, 0, 0, 0, 0, 0,
        5, 0, 0, 0, 0, 0, 0, 0, 0, 0, 0, 0, 0, 0, 0, 0, 3, 0, 0, 0, 0, 0, 0, 0, 0, 0, 0, 0, 3, 1,
        1, 0, 0, 0, 0, 0, 0, 0, 0, 0, 0, 0, 0, 2, 0, 0, 0, 1, 0, 0, 0, 0, 0, 0, 0, 8, 0, 0, 0, 1,
        0, 0, 0, 0, 0, 0, 0, 7, 0, 0, 0, 0, 0, 0, 0, 0, 0, 0, 0, 10, 2, 0, 0, 0, 1, 0, 0, 0, 0, 0,
        0, 0, 2, 3, 0, 0, 0, 0, 1, 1, 0, 0, 0, 1, 0, 0, 0, 0, 0, 0, 0, 7,
    ]
}

fn full_parcel_fields() -> &'static [usize] {
    &[
        0, 1, 5, 13, 17, 21, 25, 33, 37, 45, 49, 50, 54, 55, 59, 67, 68, 72, 80, 84, 92, 96, 100,
        108, 112, 120, 124, 128, 132, 140, 141, 145, 153, 157, 165, 166, 167, 171, 172, 176, 184,
        188, 196, 197, 201, 202, 206, 214, 215, 219, 227, 228, 229, 233, 241, 245, 253, 257, 261,
        269, 270, 271, 275, 283, 284, 288, 296, 300, 308, 312, 320, 321, 325, 333, 334, 335, 339,
        340, 344,
    ]
}

// The answers for bytes that are a packet, and where memory runs out, where a place is asked for.
const PACKET: u64 = 1_000_000;

const NO_MEMORY: u64 = PACKET + 1;

// The place of the first wrong field.
fn place_of(alloc: Global, bytes: &[u8]) -> u64 {
    match decode(alloc, bytes) {
        Ok(_) => PACKET,
        Err(DecodeEnd::Bad { place }) => place,
        Err(DecodeEnd::Memory) => NO_MEMORY,
    }
}

// The place, once the byte at this index is another.
fn place_with(alloc: Global, bytes: &[u8], index: usize, byte: u8) -> u64 {
    match Items::from_slice(alloc, bytes) {
        Ok(mut changed) => {
            changed.set(index, byte);
            place_of(alloc, changed.as_slice())
        }
        Err(_) => NO_MEMORY,
    }
}

// The bytes, and a byte more.
fn longer(alloc: Global, bytes: &[u8]) -> Result<Text, Memory> {
    let mut longer = Items::from_slice(alloc, bytes)?;
    longer.push(0)?;
    Ok(longer)
}

// The place, once a byte more follows.
fn place_behind(alloc: Global, bytes: &[u8]) -> u64 {
    match longer(alloc, bytes) {
        Ok(longer) => place_of(alloc, longer.as_slice()),
        Err(_) => NO_MEMORY,
    }
}

// The spelling of a copy of the packet.
fn spelled(alloc: Global, packet: &Packet) -> Result<Text, Memory> {
    let copy = packet.copy(alloc)?;
    encode(alloc, &copy)
}

// Whether these are the bytes of the packet.
fn has_bytes(alloc: Global, packet: &Packet, bytes: &[u8]) -> bool {
    match spelled(alloc, packet) {
        Ok(text) => text.as_slice() == bytes,
        Err(_) => false,
    }
}

// Whether the packet of these bytes has them as its spelling.
fn is_again(alloc: Global, bytes: &[u8]) -> bool {
    match decode(alloc, bytes) {
        Ok(packet) => has_bytes(alloc, &packet, bytes),
        Err(_) => false,
    }
}

// The message of `message`, with this argument.
fn made_message(alloc: Global, arg: Name) -> Result<Packet, Memory>
    requires { IsPlain arg }
{
    let mut args = Items::new(alloc);
    args.push(arg)?;
    let home = Loc { site: 0, k: 0 };
    Ok(Packet::Message(Msg {
        id: AtomId { site: 0, k: 5 },
        on: Name::Chan {
            site: 0,
            k: 1,
            home,
        },
        args,
    }))
}

// The parcel of `small_parcel`.
fn made_parcel(alloc: Global) -> Result<Packet, Memory> {
    let loc = Loc { site: 0, k: 1 };
    let mut groups = Items::new(alloc);
    let env = SharedEnv::new(alloc, Items::new(alloc))?;
    groups.push(GroupInst {
        loc,
        level: 1,
        chans: AtomId { site: 0, k: 2 },
        rules: RuleId { site: 0, k: 3 },
        env,
    })?;
    Ok(Packet::Parcel(Parcel {
        loc,
        groups,
        waiting: Items::new(alloc),
        requests: Items::new(alloc),
    }))
}

// Whether a packet is made, and has these bytes.
fn is_spelled(alloc: Global, made: Result<Packet, Memory>, bytes: &[u8]) -> bool {
    match made {
        Ok(packet) => has_bytes(alloc, &packet, bytes),
        Err(_) => false,
    }
}

#[test]
fn there_and_back(rt: HostRuntime) {
    let alloc = rt.alloc();
    let place = Name::Place(Loc { site: 1, k: 0 });
    assert!(rt; is_spelled(alloc, made_message(alloc, place), message()));
    assert!(rt; is_spelled(alloc, made_message(alloc, Name::Num(7)), number_message()));
    assert!(rt; is_spelled(alloc, made_parcel(alloc), small_parcel()));
    assert!(rt; is_again(alloc, message()));
    assert!(rt; is_again(alloc, small_parcel()));
    assert!(rt; is_again(alloc, full_parcel()));
    assert!(rt; is_again(alloc, number_message()));
    assert!(rt; is_again(alloc, operation_parcel()));
}

// That the bytes, cut at each place, are wrong at the field within which they end.
fn ends_within(rt: &impl Abort, alloc: Global, bytes: &[u8], fields: &[usize]) {
    let mut field = 0;
    for end in 0..bytes.len() {
        if fields.contains(&end) {
            field = end;
        }
        expect_place(rt, alloc, &bytes[..end], field as u64);
    }
}

#[test]
fn cut_off(rt: HostRuntime) {
    let alloc = rt.alloc();
    ends_within(&rt, alloc, message(), message_fields());
    ends_within(&rt, alloc, small_parcel(), small_parcel_fields());
    ends_within(&rt, alloc, full_parcel(), full_parcel_fields());
    ends_within(&rt, alloc, number_message(), number_message_fields());
    ends_within(&rt, alloc, operation_parcel(), operation_parcel_fields());
}

// A byte that is changed: its index, its new value, and the place of the field that is then wrong
// first.
type Change = (usize, u8, u64);

fn message_changes() -> &'static [Change] {
    &[
        // kinds of packets, tags of names
        (0, 0, 0),
        (0, 3, 0),
        (13, 5, 13),
        (39, 4, 39),
        // the channel as an observed name, as a location and as a number: then a byte follows the
        // message; as an operation: then its count is wrong
        (13, 0, 19),
        (13, 1, 27),
        (13, 3, 23),
        (13, 4, 18),
        // no argument, and two
        (38, 0, 39),
        (38, 2, 52),
        // any home
        (29, 9, PACKET),
        (37, 9, PACKET),
    ]
}

fn small_parcel_changes() -> &'static [Change] {
    &[
        // an environment of one name, a message that waits, a request
        (48, 1, 54),
        (52, 1, 57),
        (56, 1, 57),
    ]
}

fn full_parcel_changes() -> &'static [Change] {
    &[
        (0, 3, 0),
        // tags of names: in an environment, of a waiting message, of its argument, of requests
        (49, 4, 49),
        (140, 5, 140),
        (166, 255, 166),
        (270, 4, 270),
        (283, 4, 283),
        (334, 4, 334),
        (339, 4, 339),
        // another home's site, another home's number
        (156, 2, 153),
        (164, 8, 157),
        // the second and the third waiting message with the id of the first
        (187, 0, 188),
        (213, 9, 206),
        // a request with the id of the first waiting message, and of the third
        (268, 9, 261),
        (268, 4, 261),
        // the second request with the id of the first, and with a lower one
        (319, 3, 312),
        (319, 2, 312),
        // the third request with a lower number at the site of the second, and with a lower site
        (324, 0, 325),
        (311, 2, 325),
        // tags of requests, and Fail for Go
        (269, 0, 269),
        (320, 4, 320),
        (333, 255, 333),
        (269, 3, PACKET),
    ]
}

fn operation_parcel_changes() -> &'static [Change] {
    &[
        // no operation, counts of another operation and of none, an operation as an argument
        (33, 5, 33),
        (37, 2, 34),
        (37, 1, 38),
        (38, 2, 38),
        (38, 4, 38),
        (39, 4, 39),
        // a number for the location: then the parcel ends before the bytes do
        (48, 3, 66),
    ]
}

fn with_changes(rt: &impl Abort, alloc: Global, bytes: &[u8], changes: &[Change]) {
    for (index, byte, place) in changes {
        let found = place_with(alloc, bytes, *index, *byte);
        assert!(rt; found == *place, "{byte} at {index}: {found}");
    }
}

// That the bytes are wrong at this place.
fn expect_place(rt: &impl Abort, alloc: Global, bytes: &[u8], place: u64) {
    let found = place_of(alloc, bytes);
    assert!(rt; found == place, "{found} in place of {place}");
}

// That the bytes, with one more behind them, are wrong at this place.
fn expect_behind(rt: &impl Abort, alloc: Global, bytes: &[u8], place: u64) {
    let found = place_behind(alloc, bytes);
    assert!(rt; found == place, "{found} in place of {place}");
}

#[test]
fn wrong_fields(rt: HostRuntime) {
    let alloc = rt.alloc();
    with_changes(&rt, alloc, message(), message_changes());
    with_changes(&rt, alloc, small_parcel(), small_parcel_changes());
    with_changes(&rt, alloc, full_parcel(), full_parcel_changes());
    with_changes(&rt, alloc, operation_parcel(), operation_parcel_changes());
    expect_behind(&rt, alloc, message(), 52);
    expect_behind(&rt, alloc, small_parcel(), 57);
    expect_behind(&rt, alloc, full_parcel(), 352);
    expect_place(&rt, alloc, &[3], 0);
    expect_place(&rt, alloc, &[2, 0, 0, 0, 0], 5);
}

// A parcel without a group that claims lists of some length.
fn claims() -> &'static [(&'static [u8], u64)] {
    &[
        // 1,000,000 groups
        (&[2, 0, 0, 0, 0, 0, 0, 0, 0, 0, 0, 0, 1, 0, 15, 66, 64], 17),
        // 4,294,967,295 names in an environment
        (
            &[
                2, 0, 0, 0, 0, 0, 0, 0, 0, 0, 0, 0, 1, 0, 0, 0, 1, 0, 0, 0, 1, 0, 0, 0, 0, 0, 0, 0,
                0, 0, 0, 0, 2, 0, 0, 0, 0, 0, 0, 0, 0, 0, 0, 0, 3, 255, 255, 255, 255, 0, 0, 0, 0,
                0, 0, 0, 0,
            ],
            55,
        ),
        // two requests, the first with the largest id
        (
            &[
                2, 0, 0, 0, 0, 0, 0, 0, 0, 0, 0, 0, 1, 0, 0, 0, 0, 0, 0, 0, 0, 0, 0, 0, 2, 255,
                255, 255, 255, 255, 255, 255, 255, 255, 255, 255, 255, 2, 0, 0, 0, 0, 0, 0, 0, 0,
                0, 0, 0, 0, 2,
            ],
            42,
        ),
    ]
}

#[test]
fn claimed_lengths(rt: HostRuntime) {
    let alloc = rt.alloc();
    for (bytes, place) in claims() {
        expect_place(&rt, alloc, *bytes, *place);
    }
}

fn one_flight(alloc: Global) -> Result<Flights, Memory> {
    let bytes = Items::from_slice(alloc, message())?;
    let mut flights = Items::new(alloc);
    flights.push(Flight { target: 3, bytes })?;
    Ok(flights)
}

// A copy of a list of one flight.
fn copied_flights(alloc: Global) -> Result<Flights, Memory> {
    let flights = one_flight(alloc)?;
    copy_flights(alloc, &flights)
}

// Whether it is one flight with its bytes and its target.
fn are_the_flights(flights: &[Flight]) -> bool {
    match flights {
        [one] => one.target == 3 && one.bytes.as_slice() == message(),
        _ => false,
    }
}

fn are_copied(alloc: Global) -> bool {
    match copied_flights(alloc) {
        Ok(copy) => are_the_flights(copy.as_slice()),
        Err(_) => false,
    }
}

#[test]
fn flights(rt: HostRuntime) {
    assert!(rt; are_copied(rt.alloc()));
}
