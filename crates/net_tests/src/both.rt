// A network, and a book that makes the same events.
ghost use Rattle.env_store.specs.Reading.{IsCodeOf};

use chem_model::{Event, Out, Program};
use env_store::Code;
use guard_compile::compile;
use net_core::{Choice, Net};
use std::alloc::Global;
use trace_history::{Book, Commit};
use worked_programs::program_of;

// More events than any run of these tests has.
const MOST_EVENTS: u32 = 10_000;

// The network of a program, a book of the same program, and how many sites and guards there are.
#[derive(Drop)]
pub struct Both {
    pub net: Box<Net>,
    pub book: Box<Book>,
    pub sites: u32,
    pub guards: u32,
}

// What became of a choice: it was made, and the book made its event too, where it is one; it isn't
// enabled, or there are too many events; the book doesn't make its event; or there was no memory.
#[derive(Clone, Copy, PartialEq, Eq)]
pub enum Step {
    Made,
    Not,
    Refused,
    NoMemory,
}

fn net_with(alloc: Global, program: &Program, code: &Code) -> Option<Box<Net>>
    requires { IsCodeOf program.now code.now }
{
    match Net::start(alloc, program, code) {
        Ok(net) => Box::new(alloc, net).ok(),
        Err(_) => None,
    }
}

fn book_with(alloc: Global, program: &Program) -> Option<Box<Book>> {
    match Book::start(alloc, program) {
        Ok(book) => Box::new(alloc, book).ok(),
        Err(_) => None,
    }
}

fn both_with(alloc: Global, program: &Program, code: &Code) -> Option<Both>
    requires { IsCodeOf program.now code.now }
{
    let net = net_with(alloc, program, code)?;
    Some(Both {
        net,
        book: book_with(alloc, program)?,
        sites: program.sites.len() as u32,
        guards: code.guards.len() as u32,
    })
}

// The network of a text after its opening.
pub fn net_of(alloc: Global, text: &[u8]) -> Option<Box<Net>> {
    let program = program_of(alloc, text).ok()?;
    let code = Box::new(alloc, compile(alloc, &program).ok()?).ok()?;
    net_with(alloc, &program, &code)
}

// The network and the book of a text, each after its opening.
pub fn both_of(alloc: Global, text: &[u8]) -> Option<Both> {
    let program = program_of(alloc, text).ok()?;
    let code = Box::new(alloc, compile(alloc, &program).ok()?).ok()?;
    both_with(alloc, &program, &code)
}

// Makes an event in the book, where it is possible.
pub fn commit(alloc: Global, book: &mut Book, event: &Event) -> Step {
    if book.journal().len() >= MOST_EVENTS as usize {
        return Step::Not;
    }
    match book.commit(alloc, event) {
        Ok(Commit::Place(_)) => Step::Made,
        Ok(Commit::NotEnabled) => Step::Refused,
        Err(_) => Step::NoMemory,
    }
}

fn same_out(one: &Out, other: &Out) -> bool {
    one.on == other.on && one.args.as_slice() == other.args.as_slice()
}

fn same_outs(one: &[Out], other: &[Out]) -> bool {
    if one.len() != other.len() {
        return false;
    }
    for at in 0..one.len() {
        if !same_out(&one[at], &other[at]) {
            return false;
        }
    }
    true
}

impl Both {
    // Makes a choice, and its event in the book.
    pub fn make(&mut self, alloc: Global, choice: &Choice) -> Step {
        if self.net.events() >= MOST_EVENTS || !self.net.enabled(choice) {
            return Step::Not;
        }
        match self.net.act(alloc, choice) {
            Ok(Some(event)) => commit(alloc, &mut self.book, &event),
            Ok(None) => Step::Made,
            Err(_) => Step::NoMemory,
        }
    }

    // Delivers what is under way, the first packet first. No event comes of it.
    pub fn deliver_all(&mut self, alloc: Global) -> Step {
        for _ in 0..MOST_EVENTS {
            if self.net.flights() == 0 {
                return Step::Made;
            }
            let step = self.make(alloc, &Choice::Deliver { flight: 0 });
            if step != Step::Made {
                return step;
            }
        }
        Step::Not
    }

    // Whether the network and the book have the same trace, and the book is quiet exactly where
    // the network has no next choice.
    pub fn agree(&self, alloc: Global) -> bool {
        match self.net.trace(alloc) {
            Ok(trace) => {
                same_outs(trace.as_slice(), self.book.trace().as_slice())
                    && self.net.next().is_none() == self.book.quiet()
            }
            Err(_) => false,
        }
    }
}
