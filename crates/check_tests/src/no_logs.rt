// Bytes that are no log, and logs whose source is refused.
ghost use denote.Param.Send.{IsSync};

use crate::called::{Called, call};
use chem_model::{Items, Memory, Text};
use std::alloc::Global;
use std::marker::Sync;
use std::process::Abort;
use std::sync::Wait;
use std::test::Fail;
use std::thread::Threads;
use trace_text::log_of_parts;

const LOG: &[u8] = b"joinlog 1\nsource 47\nobserve out/1; site s [ x(u) => out(u) : x(s) ]\n\
    budget 10\nevents 1\nreact 0.2 0.3\ntrace 17\nout(s)\nquiescent\n";

// How many bytes of the log there are, and the line that says where the field begins that is
// wrong first.
const CUTS: &[(usize, &str)] = &[
    (0, "log 1 at 0\n"),
    (16, "log 1 at 0\n"),
    (17, "log 1 at 17\n"),
    // The number is 4, and no line ends behind it.
    (18, "log 1 at 18\n"),
    (19, "log 1 at 19\n"),
    (20, "log 1 at 20\n"),
    (66, "log 1 at 20\n"),
    (67, "log 1 at 67\n"),
    (76, "log 1 at 76\n"),
    (87, "log 1 at 87\n"),
    (93, "log 1 at 93\n"),
    (96, "log 1 at 96\n"),
    (100, "log 1 at 100\n"),
    (101, "log 1 at 101\n"),
    (126, "log 1 at 110\n"),
];

// Bytes that aren't those of a log, and the line that says where.
const WRONG: &[(&str, &str)] = &[
    ("it is no log", "log 1 at 0\n"),
    (
        "joinlog 3\nsource 0\n\nbudget 0\nevents 0\ntrace 0\n",
        "log 1 at 0\n",
    ),
    // A number is too large, or has a zero before it.
    ("joinlog 1\nsource 1048577\n", "log 1 at 17\n"),
    ("joinlog 1\nsource 18446744073709551616\n", "log 1 at 17\n"),
    (
        "joinlog 1\nsource 0\n\nbudget 1000001\nevents 0\ntrace 0\n",
        "log 1 at 27\n",
    ),
    (
        "joinlog 2\nsource 0\n\nbudget 4000001\nevents 0\ntrace 0\n",
        "log 1 at 27\n",
    ),
    (
        "joinlog 1\nsource 0\n\nbudget 10\nevents 11\ntrace 0\n",
        "log 1 at 37\n",
    ),
    (
        "joinlog 1\nsource 0\n\nbudget 1\nevents 1\nhalt 4294967296.0\n",
        "log 1 at 43\n",
    ),
    (
        "joinlog 1\nsource 0\n\nbudget 1\nevents 1\nhalt 0.18446744073709551616\n",
        "log 1 at 45\n",
    ),
    (
        "joinlog 1\nsource 0\n\nbudget 10\nevents 10\ntrace 0\n",
        "log 1 at 40\n",
    ),
    (
        "joinlog 1\nsource 0\n\nbudget 10\nevents 0\ntrace 1048576\n",
        "log 1 at 53\n",
    ),
];

// That the commands say of bytes that they are no log.
fn expect_no_log<R: AllocGlobal + Abort + Threads + Wait + Sync>(
    rt: &R,
    bytes: &[u8],
    line: &str,
) -> Result<(), Fail>
    requires { IsSync R.row }
{
    let judged = call(rt, &["check"], bytes)?;
    judged.expect(rt, 8, b"", line.as_bytes());
    let explained = call(rt, &["explain"], bytes)?;
    explained.expect(rt, 8, b"", line.as_bytes());
    Ok(())
}

// The first bytes of the log.
fn first_bytes(count: usize) -> &'static [u8] {
    match LOG.get(0..count) {
        Some(first) => first,
        None => LOG,
    }
}

#[test]
fn logs_that_are_cut_off(rt: HostRuntime) -> Result<(), Fail> {
    for (count, line) in CUTS {
        expect_no_log(&rt, first_bytes(*count), line)?;
    }
    Ok(())
}

// That a log is one only with its last byte.
fn expect_cut<R: AllocGlobal + Abort + Threads + Wait + Sync>(
    rt: &R,
    count: usize,
) -> Result<(), Fail>
    requires { IsSync R.row }
{
    let judged = call(rt, &["check"], first_bytes(count))?;
    judged.expect_untouched(rt, 8);
    Ok(())
}

#[test]
fn a_log_cut_off_anywhere(rt: HostRuntime) -> Result<(), Fail> {
    for count in 0..LOG.len() {
        expect_cut(&rt, count)?;
    }
    let judged = call(&rt, &["check"], LOG)?;
    judged.expect(&rt, 0, b"yes\n", b"");
    Ok(())
}

#[test]
fn bytes_that_are_no_log(rt: HostRuntime) -> Result<(), Fail> {
    for (bytes, line) in WRONG {
        expect_no_log(&rt, bytes.as_bytes(), line)?;
    }
    Ok(())
}

// Texts that are refused, and the lines that say so.
const REFUSED: &[(&str, &str)] = &[
    ("", "grammar 1 at 0\n"),
    ("site s [ none : 0 ] $", "lex 2 at 20\n"),
    ("site s [ none : x() ]", "scope 1 at 16\n"),
    ("site s [ x(u) => 0 : x() ]", "arity 1 at 21\n"),
];

// A log of this source, without an event.
fn log_with(alloc: Global, source: &[u8]) -> Result<Text, Memory> {
    let events = Items::new(alloc);
    log_of_parts(alloc, source, 10, &events, b"quiescent\n")
}

// What the commands say of a log of this source.
fn judged_with<R: AllocGlobal + Abort + Threads + Wait + Sync>(
    rt: &R,
    words: &[&str],
    source: &str,
) -> Result<Called, Memory>
    requires { IsSync R.row }
{
    let log = log_with(rt.alloc(), source.as_bytes())?;
    call(rt, words, log.as_slice())
}

// That a log of this source is refused as the source is.
fn expect_refused<R: AllocGlobal + Abort + Threads + Wait + Sync>(
    rt: &R,
    source: &str,
    line: &str,
) -> Result<(), Fail>
    requires { IsSync R.row }
{
    let alone = call(rt, &["alone"], source.as_bytes())?;
    alone.expect(rt, 1, b"", line.as_bytes());
    let judged = judged_with(rt, &["check"], source)?;
    judged.expect(rt, 1, b"", line.as_bytes());
    let explained = judged_with(rt, &["explain"], source)?;
    explained.expect(rt, 1, b"", line.as_bytes());
    Ok(())
}

#[test]
fn logs_of_refused_sources(rt: HostRuntime) -> Result<(), Fail> {
    for (source, line) in REFUSED {
        expect_refused(&rt, source, line)?;
    }
    Ok(())
}
