// One call of the top call over memory, and what it left.
ghost use denote.Param.Send.{IsSync};

use chem_model::{Items, Memory};
use join_base::{MemSink, MemSource, Source};
use join_top::{OpenGate, Threaded, run_join};
use std::alloc::Global;
use std::marker::Sync;
use std::process::Abort;
use std::sync::Wait;
use std::thread::Threads;
use worked_texts::Case;

// More bytes than any log of these tests has.
const ROOM: u32 = 65_536;

// More bytes than what is said of a log has.
const LINES: u32 = 1024;

// How a call ended: its status, and what the sinks took.
#[derive(Drop)]
pub struct Called {
    pub status: u8,
    pub out: Vec<u8>,
    pub err: Vec<u8>,
}

// What a call writes to.
#[derive(Drop)]
struct Sinks {
    out: Box<MemSink>,
    err: Box<MemSink>,
}

fn source_of(alloc: Global, bytes: &[u8]) -> Result<Box<MemSource>, Memory> {
    let bytes = Items::from_slice(alloc, bytes)?;
    let fails = Items::new(alloc);
    Ok(Box::new(alloc, MemSource::new(bytes, ROOM, fails))?)
}

fn sink_of(alloc: Global, room: u32) -> Result<Box<MemSink>, Memory> {
    let fails = Items::new(alloc);
    Ok(Box::new(alloc, MemSink::new(alloc, room, ROOM, fails)?)?)
}

// Two sinks, the first of so much room, none of which fails.
fn sinks_of(alloc: Global, room: u32) -> Result<Sinks, Memory> {
    let out = sink_of(alloc, room)?;
    let err = sink_of(alloc, 64)?;
    Ok(Sinks { out, err })
}

fn owned(alloc: Global, words: &[&str]) -> Result<Vec<String>, Memory> {
    let mut owned = Vec::new(alloc);
    for word in words {
        owned.push(String::from_str(alloc, word)?)?;
    }
    Ok(owned)
}

// Runs the words over a source, and answers the status.
fn status_of<R: AllocGlobal + Abort + Threads + Wait + Sync, S: Source>(
    rt: &R,
    words: &[&str],
    source: &mut S,
    sinks: &mut Sinks,
) -> Result<u8, Memory>
    requires { IsSync R.row }
{
    let words = owned(rt.alloc(), words)?;
    let team = Threaded::new(rt);
    let ended = run_join(
        rt.alloc(),
        words.as_slice(),
        source,
        &mut *sinks.out,
        &mut *sinks.err,
        &OpenGate,
        &team,
    );
    Ok(ended.status)
}

// Runs the words over a source, where so many bytes may be printed.
fn call_over<R: AllocGlobal + Abort + Threads + Wait + Sync, S: Source>(
    rt: &R,
    words: &[&str],
    source: &mut S,
    room: u32,
) -> Result<Called, Memory>
    requires { IsSync R.row }
{
    let mut sinks = sinks_of(rt.alloc(), room)?;
    let status = status_of(rt, words, source, &mut sinks)?;
    Ok(Called {
        status,
        out: Vec::from_slice(rt.alloc(), sinks.out.taken())?,
        err: Vec::from_slice(rt.alloc(), sinks.err.taken())?,
    })
}

// Judges what a source gives by a command. What is printed needs little room.
pub fn judge<R: AllocGlobal + Abort + Threads + Wait + Sync, S: Source>(
    rt: &R,
    command: &str,
    source: &mut S,
) -> Result<Called, Memory>
    requires { IsSync R.row }
{
    call_over(rt, &[command], source, LINES)
}

// Runs the words over a source of these bytes, where so many bytes may be printed.
fn call_with<R: AllocGlobal + Abort + Threads + Wait + Sync>(
    rt: &R,
    words: &[&str],
    bytes: &[u8],
    room: u32,
) -> Result<Called, Memory>
    requires { IsSync R.row }
{
    let mut source = source_of(rt.alloc(), bytes)?;
    call_over(rt, words, &mut *source, room)
}

// Runs the words over a source of these bytes. What is printed needs little room.
pub fn call<R: AllocGlobal + Abort + Threads + Wait + Sync>(
    rt: &R,
    words: &[&str],
    bytes: &[u8],
) -> Result<Called, Memory>
    requires { IsSync R.row }
{
    call_with(rt, words, bytes, LINES)
}

// Runs the text of a case by these words.
fn call_of<R: AllocGlobal + Abort + Threads + Wait + Sync>(
    rt: &R,
    words: &[&str],
    case: &Case,
) -> Result<Called, Memory>
    requires { IsSync R.row }
{
    let source = case.source(rt.alloc())?;
    call_with(rt, words, source.as_slice(), ROOM)
}

// The log of a case by these words. It is that of a run that ended quiet, or was stopped.
pub fn log_by<R: AllocGlobal + Abort + Threads + Wait + Sync>(
    rt: &R,
    words: &[&str],
    case: &Case,
) -> Result<Vec<u8>, Memory>
    requires { IsSync R.row }
{
    let run = call_of(rt, words, case)?;
    expect_run(rt, run.status);
    Ok(run.out)
}

// That a run with this status has a log.
fn expect_run(rt: &impl Abort, status: u8) {
    assert!(rt; status == 0 || status == 5, "the status is {status}");
}

impl Called {
    // That the call ended with this status and these bytes.
    pub fn expect(&self, rt: &impl Abort, status: u8, out: &[u8], err: &[u8]) {
        expect_bytes(rt, self.out.as_slice(), out);
        expect_bytes(rt, self.err.as_slice(), err);
        expect_status(rt, self.status, status);
    }

    // That the call ended with this status, and `out` took nothing.
    pub fn expect_untouched(&self, rt: &impl Abort, status: u8) {
        expect_status(rt, self.status, status);
        expect_bytes(rt, self.out.as_slice(), b"");
    }
}

fn expect_status(rt: &impl Abort, status: u8, want: u8) {
    assert_eq!(rt; status, want);
}

// That these bytes are the ones that are wanted.
fn expect_bytes(rt: &impl Abort, bytes: &[u8], want: &[u8]) {
    assert_eq!(rt; bytes, want);
}
