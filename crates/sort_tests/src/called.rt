// One call of the top call over memory, and what it left.
ghost use denote.Param.Send.{IsSync};

use chem_model::{Items, Memory};
use join_base::{MemSink, MemSource};
use join_top::{OpenGate, Threaded, run_join};
use std::alloc::Global;
use std::marker::Sync;
use std::process::Abort;
use std::sync::Wait;
use std::thread::Threads;

// More bytes than any text of these tests has, and than any of them prints.
const ROOM: u32 = 65_536;

// How a call ended: its status, and what the sinks took.
#[derive(Drop)]
pub struct Called {
    pub status: u8,
    pub out: Vec<u8>,
    pub err: Vec<u8>,
}

// What a call reads from, and what it writes to.
#[derive(Drop)]
struct Ends {
    source: Box<MemSource>,
    out: Box<MemSink>,
    err: Box<MemSink>,
}

fn source_of(alloc: Global, bytes: &[u8]) -> Result<Box<MemSource>, Memory> {
    let bytes = Items::from_slice(alloc, bytes)?;
    let fails = Items::new(alloc);
    Ok(Box::new(alloc, MemSource::new(bytes, ROOM, fails))?)
}

fn sink_of(alloc: Global, room: u32) -> Result<Box<MemSink>, Memory> {
    let fails = Items::new(alloc);
    Ok(Box::new(alloc, MemSink::new(alloc, room, ROOM, fails)?)?)
}

// A source of these bytes and two sinks, the first of so much room.
fn ends_of(alloc: Global, bytes: &[u8], room: u32) -> Result<Box<Ends>, Memory> {
    let source = source_of(alloc, bytes)?;
    let out = sink_of(alloc, room)?;
    let err = sink_of(alloc, ROOM)?;
    Ok(Box::new(alloc, Ends { source, out, err })?)
}

fn owned(alloc: Global, words: &[&str]) -> Result<Vec<String>, Memory> {
    let mut owned = Vec::new(alloc);
    for word in words {
        owned.push(String::from_str(alloc, word)?)?;
    }
    Ok(owned)
}

// Runs the words over these ends, and answers the status.
fn status_of<R: AllocGlobal + Abort + Threads + Wait + Sync>(
    rt: &R,
    words: &[&str],
    ends: &mut Ends,
) -> Result<u8, Memory>
    requires { IsSync R.row }
{
    let words = owned(rt.alloc(), words)?;
    let team = Threaded::new(rt);
    let ended = run_join(
        rt.alloc(),
        words.as_slice(),
        &mut *ends.source,
        &mut *ends.out,
        &mut *ends.err,
        &OpenGate,
        &team,
    );
    Ok(ended.status)
}

// Runs the words over a source of these bytes.
pub fn call<R: AllocGlobal + Abort + Threads + Wait + Sync>(
    rt: &R,
    words: &[&str],
    bytes: &[u8],
) -> Result<Called, Memory>
    requires { IsSync R.row }
{
    call_with(rt, words, bytes, ROOM)
}

// Runs the words over a source of these bytes, where so many bytes may be printed.
pub fn call_with<R: AllocGlobal + Abort + Threads + Wait + Sync>(
    rt: &R,
    words: &[&str],
    bytes: &[u8],
    room: u32,
) -> Result<Called, Memory>
    requires { IsSync R.row }
{
    let mut ends = ends_of(rt.alloc(), bytes, room)?;
    let status = status_of(rt, words, &mut ends)?;
    Ok(Called {
        status,
        out: Vec::from_slice(rt.alloc(), ends.out.taken())?,
        err: Vec::from_slice(rt.alloc(), ends.err.taken())?,
    })
}

impl Called {
    // That the call ended with this status and these bytes.
    pub fn expect(&self, rt: &impl Abort, status: u8, out: &[u8], err: &[u8]) {
        expect_bytes(rt, self.out.as_slice(), out);
        expect_bytes(rt, self.err.as_slice(), err);
        expect_status(rt, self.status, status);
    }
}

fn expect_status(rt: &impl Abort, status: u8, want: u8) {
    assert_eq!(rt; status, want);
}

// That these bytes are the ones that are wanted.
fn expect_bytes(rt: &impl Abort, bytes: &[u8], want: &[u8]) {
    assert_eq!(rt; bytes, want);
}
