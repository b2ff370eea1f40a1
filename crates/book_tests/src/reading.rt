// Logs read back, and bytes that are no log. The places were counted by hand.
use chem_model::{AtomId, Event, Journal, Memory, Text};
use std::alloc::Global;
use std::process::Abort;
use trace_text::{Log, LogEnd, log_of_parts, read_log};

// The log of a run of one event.
const LOG: &[u8] =
    b"joinlog 1\nsource 47\nobserve out/1; site s [ x(u) => out(u) : x(s) ]\nbudget 10\nevents 1\n\
    react 0.2 0.3\ntrace 17\nout(s)\nquiescent\n";

// Where the fields of that log begin. A number that ends with the input is a whole one, so within
// a number of two digits the field behind it begins, too.
const FIELDS: &[usize] = &[
    0, 17, 18, 19, 20, 67, 75, 76, 77, 85, 86, 87, 93, 94, 95, 96, 97, 98, 99, 100, 101, 107, 108,
    109, 110,
];

const EACH_KIND: &[u8] = b"joinlog 1\nsource 0\n\nbudget 1000000\nevents 4\n\
    react 0.2 0.3 4294967295.18446744073709551615\n\
    move 4294967295.18446744073709551615\nhalt 10.100\ndetect 7.0\ntrace 8\nstopped\n";

// A log of the second kind.
const LARGE: &[u8] = b"joinlog 2\nsource 0\n\nbudget 4000000\nevents 0\ntrace 0\n";

// Bytes that are no log, and where they are wrong first. The line of an event begins at 38, and
// what follows `halt 7.0` at 47.
const WRONG: &[(&[u8], u64)] = &[
    (b"joinlog 3\nsource 0", 0),
    (b"joinlog 2\nsource", 0),
    (b"joinlog 1\nsource 00\n", 17),
    (b"joinlog 1\nsource 047\n", 17),
    (b"joinlog 1\nsource +1\n", 17),
    (b"joinlog 1\nsource 1048577\n", 17),
    (b"joinlog 1\nsource 1048576\nab", 25),
    (b"joinlog 1\nsource 0\n\nBudget 1\nevents 0\ntrace 0\n", 19),
    (
        b"joinlog 1\nsource 0\n\nbudget 1000001\nevents 0\ntrace 0\n",
        27,
    ),
    (
        b"joinlog 2\nsource 0\n\nbudget 4000001\nevents 0\ntrace 0\n",
        27,
    ),
    // A budget that a log of the first kind has.
    (
        b"joinlog 2\nsource 38\nobserve out/0; site s [ none : out() ]\nbudget 1000000\nevents 0\n\
            trace 16\nout()\nquiescent\n",
        66,
    ),
    (
        b"joinlog 1\nsource 0\n\nbudget 1\nevents 2\nhalt 7.0\nhalt 7.0\ntrace 0\n",
        36,
    ),
    (
        b"joinlog 1\nsource 0\n\nbudget 1\nevents 1\nmoves 0.1\n",
        38,
    ),
    (
        b"joinlog 1\nsource 0\n\nbudget 1\nevents 1\nmove 4294967296.0\n",
        43,
    ),
    (
        b"joinlog 1\nsource 0\n\nbudget 1\nevents 1\nmove 4294967295.18446744073709551616\n",
        54,
    ),
    (
        b"joinlog 1\nsource 0\n\nbudget 1\nevents 1\nreact 0.1\n",
        47,
    ),
    (
        b"joinlog 1\nsource 0\n\nbudget 1\nevents 1\nreact 0.1 0.2;",
        51,
    ),
    (
        b"joinlog 1\nsource 0\n\nbudget 1\nevents 1\nreact 0.1 0.2 \n",
        52,
    ),
    (
        b"joinlog 1\nsource 0\n\nbudget 1\nevents 1\nhalt 7.0\nTrace 0\n",
        47,
    ),
    (
        b"joinlog 1\nsource 0\n\nbudget 1\nevents 1\nhalt 7.0\ntrace 18446744073709551616\n",
        53,
    ),
    (
        b"joinlog 1\nsource 0\n\nbudget 1\nevents 1\nhalt 7.0\ntrace 3\nab",
        55,
    ),
    (
        b"joinlog 1\nsource 0\n\nbudget 1\nevents 1\nhalt 7.0\ntrace 1\nab",
        56,
    ),
];

// The proof of a function that names a table goes over the table at each step, so each is handed
// out by one that does nothing else.
fn log_of_one_event() -> &'static [u8] {
    LOG
}

fn fields() -> &'static [usize] {
    FIELDS
}

fn wrong() -> &'static [(&'static [u8], u64)] {
    WRONG
}

// Where bytes are wrong first, if they are no log.
fn wrong_at(alloc: Global, bytes: &[u8]) -> Result<Option<u64>, Memory> {
    match read_log(alloc, bytes) {
        Ok(_) => Ok(None),
        Err(LogEnd::Bad { place }) => Ok(Some(place)),
        Err(LogEnd::Memory) => Err(Memory),
    }
}

// That bytes are no log, and wrong first at this place.
fn expect_wrong(rt: &impl Abort, alloc: Global, bytes: &[u8], place: u64) {
    assert_eq!(rt; wrong_at(alloc, bytes), Ok(Some(place)));
}

// The last field of `LOG` that begins at this place or before.
fn field_before(place: usize) -> u64 {
    let mut last = 0;
    for field in fields() {
        if *field <= place {
            last = *field as u64;
        }
    }
    last
}

// That a log that ends at any place before its end is wrong in its last field.
fn expect_cut(rt: &impl Abort, alloc: Global, log: &[u8]) {
    for (place, _) in log.iter().enumerate() {
        let (front, _) = log.split_at(place);
        expect_wrong(rt, alloc, front, field_before(place));
    }
}

#[test]
fn the_first_field_that_is_wrong(rt: HostRuntime) {
    expect_cut(&rt, rt.alloc(), log_of_one_event());
    for (bytes, place) in wrong() {
        expect_wrong(&rt, rt.alloc(), bytes, *place);
    }
}

fn copied_log(alloc: Global, log: &Log) -> Result<Box<Log>, Memory> {
    let copy = log.copy(alloc)?;
    Ok(Box::new(alloc, copy)?)
}

// The text of a log.
fn text_of(alloc: Global, log: &Log) -> Result<Text, Memory> {
    log_of_parts(
        alloc,
        log.source.as_slice(),
        log.budget,
        &log.events,
        log.trace.as_slice(),
    )
}

// Whether a copy of a log has the text that the log was read from.
fn copy_is_spelled(alloc: Global, log: &Log, bytes: &[u8]) -> Result<bool, Memory> {
    let copy = copied_log(alloc, log)?;
    let text = text_of(alloc, &copy)?;
    Ok(text.as_slice() == bytes)
}

fn spelled_again(alloc: Global, bytes: &[u8]) -> Result<bool, LogEnd> {
    let log = read_log(alloc, bytes)?;
    let is_same = copy_is_spelled(alloc, &log, bytes);
    drop(log);
    is_same.map_err(|_memory| LogEnd::Memory)
}

// The last atom that the first event of a journal takes.
fn last_of_first(journal: &Journal) -> Option<AtomId> {
    match journal.as_slice().first() {
        Some(Event::React { took, .. }) => took.as_slice().last().copied(),
        _ => None,
    }
}

// The last atom that the first event of a log takes.
fn last_taken(alloc: Global, bytes: &[u8]) -> Result<Option<AtomId>, LogEnd> {
    let log = read_log(alloc, bytes)?;
    let last = last_of_first(&log.events);
    drop(log);
    Ok(last)
}

// That these bytes are a log, which a copy of what is read spells again.
fn expect_spelled(rt: &impl Abort, alloc: Global, bytes: &[u8]) {
    assert_eq!(rt; spelled_again(alloc, bytes), Ok(true));
}

#[test]
fn logs_there_and_back(rt: HostRuntime) {
    let last = AtomId {
        site: 4_294_967_295,
        k: 18_446_744_073_709_551_615,
    };
    expect_spelled(&rt, rt.alloc(), log_of_one_event());
    expect_spelled(&rt, rt.alloc(), EACH_KIND);
    expect_spelled(&rt, rt.alloc(), LARGE);
    assert_eq!(rt; last_taken(rt.alloc(), EACH_KIND), Ok(Some(last)));
}
