// The crates as a library, by the lines of docs/CALLING.md.

use crate::texts::expect_bytes;
use chem_model::{Memory, Program, Text};
use join_base::Front;
use join_lex::lex;
use join_parse::parse;
use scope_check::check;
use std::alloc::Global;
use std::test::Fail;
use trace_history::Book;
use trace_text::{Ending, trace_bytes};

// The program of a text.
fn program_of(alloc: Global, text: &str) -> Result<Program, Front> {
    let tokens = lex(alloc, text.as_bytes())?;
    let tree = parse(alloc, &tokens)?;
    check(alloc, &tree)
}

// What a program shows after the event that comes first, where one is possible.
fn after_one_event(alloc: Global, program: &Program) -> Result<Text, Memory> {
    let _ = &program.tops;
    let mut book = Box::new(alloc, Book::start(alloc, program)?)?;
    if let Some(found) = book.first_enabled(alloc, 0)? {
        book.commit(alloc, &found.event)?;
    }
    let ending = if book.quiet() {
        Ending::Quiescent
    } else {
        Ending::Stopped
    };
    trace_bytes(alloc, &book, ending)
}

// What the program of a text shows after one event.
fn shown_of(alloc: Global, text: &str) -> Result<Text, Front> {
    let program = Box::new(alloc, program_of(alloc, text)?)?;
    Ok(after_one_event(alloc, &program)?)
}

#[test]
fn the_lines_of_the_document(rt: HostRuntime) -> Result<(), Fail> {
    let text = "observe out/1; site s [ x(u) => out(u) : x(s) ]";
    let shown = shown_of(rt.alloc(), text).or(Err("nothing is shown"))?;
    expect_bytes(&rt, shown.as_slice(), b"out(s)\nquiescent\n");
    Ok(())
}
