// Texts of traces and logs, byte for byte. The expected texts were written out by hand.
ghost use Rattle.std.specs.Prelude.{◌≤◌, length};

use crate::books::book_with;
use chem_model::{AtomId, Event, Items, Journal, Memory, RuleId, Text};
use join_base::Front;
use std::alloc::Global;
use std::process::Abort;
use std::test::Fail;
use trace_text::{Ending, log_bytes, log_of_parts, trace_bytes};
use worked_programs::program_of;

// The trace of the book of a text before any event, and the log that says it was stopped there.
fn before_any_event(alloc: Global, source: &[u8]) -> Result<(Text, Text), Front>
    requires { length source.now ≤ 1048576 }
{
    let program = program_of(alloc, source)?;
    let book = book_with(alloc, &program)?;
    let trace = trace_bytes(alloc, &book, Ending::Quiescent)?;
    let log = log_bytes(alloc, source, 10, &book, Ending::Stopped)?;
    Ok((trace, log))
}

// That these bytes are the ones that are wanted.
pub fn expect_bytes(rt: &impl Abort, bytes: &[u8], want: &[u8]) {
    assert_eq!(rt; bytes, want);
}

#[test]
fn the_texts_of_a_book(rt: HostRuntime) -> Result<(), Fail> {
    let source = b"observe out/0; site s [ none : out() ]";
    let (trace, log) = before_any_event(rt.alloc(), source).or(Err("there is no book"))?;
    expect_bytes(&rt, trace.as_slice(), b"out()\nquiescent\n");
    let want: &[u8] =
        b"joinlog 1\nsource 38\nobserve out/0; site s [ none : out() ]\nbudget 10\nevents 0\n\
            trace 14\nout()\nstopped\n";
    expect_bytes(&rt, log.as_slice(), want);
    Ok(())
}

// The log of a text without an event.
fn log_without_an_event(alloc: Global, budget: u32) -> Result<Text, Memory> {
    let source = b"observe out/0; site s [ none : out() ]";
    let journal = Items::new(alloc);
    log_of_parts(alloc, source, budget, &journal, b"out()\nquiescent\n")
}

#[test]
fn a_run_without_an_event(rt: HostRuntime) -> Result<(), Fail> {
    let log = log_without_an_event(rt.alloc(), 10)?;
    let want: &[u8] =
        b"joinlog 1\nsource 38\nobserve out/0; site s [ none : out() ]\nbudget 10\nevents 0\n\
            trace 16\nout()\nquiescent\n";
    expect_bytes(&rt, log.as_slice(), want);
    Ok(())
}

#[test]
fn a_log_of_the_second_kind(rt: HostRuntime) -> Result<(), Fail> {
    let log = log_without_an_event(rt.alloc(), 1_000_001)?;
    let want: &[u8] =
        b"joinlog 2\nsource 38\nobserve out/0; site s [ none : out() ]\nbudget 1000001\nevents 0\n\
            trace 16\nout()\nquiescent\n";
    expect_bytes(&rt, log.as_slice(), want);
    Ok(())
}

// The greatest numbers of a site and of an atom.
const LAST: AtomId = AtomId {
    site: 4_294_967_295,
    k: 18_446_744_073_709_551_615,
};

fn a_reaction(alloc: Global) -> Result<Event, Memory> {
    let took = Items::from_slice(alloc, &[AtomId { site: 0, k: 3 }, LAST])?;
    Ok(Event::React {
        rule: RuleId { site: 0, k: 2 },
        took,
    })
}

// Adds a reaction and each kind of request.
fn push_each_kind(alloc: Global, journal: &mut Journal) -> Result<(), Memory> {
    journal.push(a_reaction(alloc)?)?;
    journal.push(Event::Move { atom: LAST })?;
    journal.push(Event::Halt {
        atom: AtomId { site: 10, k: 100 },
    })?;
    journal.push(Event::Detect {
        atom: AtomId { site: 7, k: 0 },
    })
}

fn log_of_each_kind(alloc: Global) -> Result<Text, Memory> {
    let mut journal = Items::new(alloc);
    push_each_kind(alloc, &mut journal)?;
    log_of_parts(alloc, b"", 1_000_000, &journal, b"stopped\n")
}

#[test]
fn an_event_of_each_kind(rt: HostRuntime) -> Result<(), Fail> {
    let log = log_of_each_kind(rt.alloc())?;
    let want: &[u8] = b"joinlog 1\nsource 0\n\nbudget 1000000\nevents 4\n\
            react 0.2 0.3 4294967295.18446744073709551615\n\
            move 4294967295.18446744073709551615\nhalt 10.100\ndetect 7.0\n\
            trace 8\nstopped\n";
    expect_bytes(&rt, log.as_slice(), want);
    Ok(())
}
