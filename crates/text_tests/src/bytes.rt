// Runs of the sources and sinks. The expected values were worked out by hand.
ghost use Rattle.std.specs.Prelude.{◌<◌, ◌≤◌};

use chem_model::{Items, Memory};
use join_base::{
    Failed, MemSink, MemSource, ReadEnd, Sink, Source, StdSink, StdSource, read_all, write_piece,
};
use std::alloc::Global;
use std::io;
use std::io::Write;
use std::process::Abort;

const PROGRAM: &[u8] = b"observe out/1; site s [ x(u) => out(u) : x(s) ]";

// The program, 16 bytes a call.
fn program(alloc: Global, fails: &[u32]) -> Result<MemSource, Memory> {
    let bytes = Items::from_slice(alloc, PROGRAM)?;
    let fails = Items::from_slice(alloc, fails)?;
    Ok(MemSource::new(bytes, 16, fails))
}

// Whether a read takes so many bytes.
fn reads(source: &mut MemSource, want: usize) -> bool {
    let mut buffer = [0u8; 64];
    source.read(&mut buffer) == Ok(want)
}

// Whether the source has three pieces.
fn has_pieces(source: &mut MemSource) -> bool {
    reads(source, 16) && reads(source, 16) && reads(source, 15) && reads(source, 0)
}

#[test]
fn reads_a_program_piece_by_piece(rt: HostRuntime) {
    match program(rt.alloc(), &[]) {
        Ok(mut source) => assert!(rt; has_pieces(&mut source)),
        Err(_) => assert!(rt; false, "no memory"),
    }
}

// Whether all that a source has is the program.
fn has_program<S: Source>(alloc: Global, source: &mut S, limit: u32) -> bool
    requires { limit ≤ 1048576 }
{
    match read_all(alloc, source, limit) {
        Ok(text) => text.as_slice() == PROGRAM,
        Err(_) => false,
    }
}

#[test]
fn reads_a_whole_program(rt: HostRuntime) {
    match program(rt.alloc(), &[]) {
        Ok(mut source) => assert!(rt; has_program(rt.alloc(), &mut source, 1_048_576)),
        Err(_) => assert!(rt; false, "no memory"),
    }
}

// Whether reading ends so, without a text or with one, where this call fails.
fn ends_with(alloc: Global, limit: u32, call: u32, want: Option<ReadEnd>) -> bool
    requires { limit < 100 }
{
    match program(alloc, &[call]) {
        Ok(mut source) => read_all(alloc, &mut source, limit).err() == want,
        Err(_) => false,
    }
}

#[test]
fn ends_without_a_text(rt: HostRuntime) {
    assert!(rt; ends_with(rt.alloc(), 47, 9, None));
    assert!(rt; ends_with(rt.alloc(), 46, 9, Some(ReadEnd::TooLong)));
    assert!(rt; ends_with(rt.alloc(), 47, 2, Some(ReadEnd::ReadFault)));
}

// A piece that is written, whether it is taken whole, and what the sink holds then.
type Piece = (&'static [u8], bool, &'static [u8]);

// Whether a sink holds these bytes.
fn holds(sink: &MemSink, held: &[u8]) -> bool {
    sink.taken() == held
}

// Whether a piece is taken so.
fn takes(sink: &mut MemSink, (piece, whole, held): &Piece) -> bool {
    write_piece(sink, *piece).is_ok() == *whole && holds(sink, *held)
}

// That each piece is taken as it says.
fn expect_taken(rt: &impl Abort, sink: &mut MemSink, pieces: &[Piece]) {
    for (index, piece) in pieces.iter().enumerate() {
        assert!(rt; takes(sink, piece), "piece {index}");
    }
}

// The first two of three bytes are taken.
const TOO_LONG: &[Piece] = &[(b"abc", false, b"ab")];

#[test]
fn holds_what_fits(rt: HostRuntime) {
    match MemSink::new(rt.alloc(), 2, 8, Items::new(rt.alloc())) {
        Ok(mut full) => expect_taken(&rt, &mut full, TOO_LONG),
        Err(_) => assert!(rt; false, "no memory"),
    }
}

// The second call fails, and the next one goes on.
const WITH_A_FAULT: &[Piece] = &[(b"out(s)", false, b"out("), (b"s)", true, b"out(s)")];

// A sink that takes four bytes a call.
fn failing_sink(alloc: Global, fails: &[u32]) -> Result<MemSink, Memory> {
    let fails = Items::from_slice(alloc, fails)?;
    MemSink::new(alloc, 100, 4, fails)
}

#[test]
fn holds_what_came_before_a_fault(rt: HostRuntime) {
    match failing_sink(rt.alloc(), &[2]) {
        Ok(mut sink) => expect_taken(&rt, &mut sink, WITH_A_FAULT),
        Err(_) => assert!(rt; false, "no memory"),
    }
}

// A writer that takes nothing.
#[derive(Drop)]
struct Deaf;

impl Write for Deaf {
    fn write(&mut self, _buf: &[u8]) -> io::Result<usize> {
        Ok(0)
    }

    fn flush(&mut self) -> io::Result<()> {
        Ok(())
    }
}

// Whether the program is read from a stream.
fn reads_a_stream(alloc: Global) -> bool {
    let mut source = StdSource::new(PROGRAM);
    has_program(alloc, &mut source, 47)
}

// Whether a stream holds the program that is written to it.
fn writes_a_stream(alloc: Global) -> bool {
    let mut held = Vec::new(alloc);
    let mut sink = StdSink::new(&mut held);
    let written = write_piece(&mut sink, PROGRAM);
    written == Ok(()) && held.as_slice() == PROGRAM
}

#[test]
fn adapts_real_streams(rt: HostRuntime) {
    assert!(rt; reads_a_stream(rt.alloc()));
    assert!(rt; writes_a_stream(rt.alloc()));
    let mut deaf = StdSink::new(Deaf);
    assert!(rt; deaf.write(b"a") == Err(Failed));
}
