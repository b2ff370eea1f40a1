// What a call reads from and writes to, over memory.
ghost use Rattle.std.specs.Prelude.{◌<◌};

use chem_model::{Items, Memory};
use join_base::{MemSink, MemSource};
use std::alloc::Global;

// More bytes than any line or text of the tests has.
const ROOM: u32 = 16_384;

/// A source of these bytes that gives at most `piece` of them a call, and fails in these calls.
pub fn source_with(
    alloc: Global,
    bytes: &[u8],
    piece: u32,
    fails: &[u32],
) -> Result<Box<MemSource>, Memory>
    requires { 0 < piece }
{
    let bytes = Items::from_slice(alloc, bytes)?;
    let fails = Items::from_slice(alloc, fails)?;
    Ok(Box::new(alloc, MemSource::new(bytes, piece, fails))?)
}

// A source of these bytes that never fails.
fn source_of(alloc: Global, bytes: &[u8]) -> Result<Box<MemSource>, Memory> {
    source_with(alloc, bytes, ROOM, &[])
}

/// A sink of so much room that takes at most `piece` bytes a call, and fails in these calls.
pub fn sink_with(
    alloc: Global,
    room: u32,
    piece: u32,
    fails: &[u32],
) -> Result<Box<MemSink>, Memory>
    requires { 0 < piece }
{
    let fails = Items::from_slice(alloc, fails)?;
    Ok(Box::new(alloc, MemSink::new(alloc, room, piece, fails)?)?)
}

// A sink that never fails while there is room.
fn roomy_sink(alloc: Global) -> Result<Box<MemSink>, Memory> {
    sink_with(alloc, ROOM, ROOM, &[])
}

/// What a call reads from, and what it writes to.
#[derive(Drop)]
pub struct Ends {
    pub source: Box<MemSource>,
    pub out: Box<MemSink>,
    pub err: Box<MemSink>,
}

/// A source of these bytes and two sinks, none of which fails.
pub fn ends_of(alloc: Global, bytes: &[u8]) -> Result<Box<Ends>, Memory> {
    let source = source_of(alloc, bytes)?;
    let out = roomy_sink(alloc)?;
    let err = roomy_sink(alloc)?;
    Ok(Box::new(alloc, Ends { source, out, err })?)
}
