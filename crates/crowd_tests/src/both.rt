// A book, and the plain program that does the same on copies of whole lists.

use crate::any::{any_by_lists, near};
use crate::by_lists::first_by_lists;
use chem_model::{Atoms, Event, Memory, Named, Numbered, Out, Program};
use chem_plain::{apply, atom_at, is_enabled, opening};
use join_base::Front;
use std::alloc::Global;
use trace_history::{Book, Commit, Found};
use worked_programs::program_of;

// More events than any run of these tests has.
const MOST_EVENTS: usize = 20_000;

// A book, the solution of the plain program, the site that both look at first, and a number by
// which events are chosen.
#[derive(Drop)]
pub struct Both {
    pub book: Box<Book>,
    pub plain: Box<Numbered>,
    pub from: u32,
    pub number: u64,
}

// Which event a run makes: the one that comes first; the same, where before it one is tried that
// isn't possible; or any one that is possible.
#[derive(Clone, Copy, PartialEq, Eq, Debug)]
pub enum Manner {
    First,
    Tried,
    Any,
}

// How a run ended: both found that nothing is possible; all events were made that the run may
// have; or the two weren't the same.
#[derive(Clone, Copy, PartialEq, Eq, Debug)]
pub enum End {
    Quiet,
    Spent,
    Differ,
}

// The book of a program, before any event.
pub fn book_with(alloc: Global, program: &Program) -> Result<Box<Book>, Memory> {
    let book = Book::start(alloc, program)?;
    Ok(Box::new(alloc, book)?)
}

fn plain_with(alloc: Global, program: &Program) -> Result<Box<Numbered>, Memory> {
    let plain = opening(alloc, program)?;
    Ok(Box::new(alloc, plain)?)
}

fn both_started(alloc: Global, program: &Program) -> Result<Both, Memory> {
    let plain = plain_with(alloc, program)?;
    Ok(Both {
        book: book_with(alloc, program)?,
        plain,
        from: 0,
        number: 1,
    })
}

// A text's book and the plain program, each after the opening.
pub fn both_of(alloc: Global, text: &[u8]) -> Result<Both, Front> {
    let program = program_of(alloc, text)?;
    Ok(both_started(alloc, &program)?)
}

fn is_same_event(one: &Event, other: &Event) -> bool {
    match (one, other) {
        (
            Event::React { rule, took },
            Event::React {
                rule: other_rule,
                took: other_took,
            },
        ) => *rule == *other_rule && took.as_slice() == other_took.as_slice(),
        (Event::Move { atom }, Event::Move { atom: other_atom }) => *atom == *other_atom,
        (Event::Halt { atom }, Event::Halt { atom: other_atom }) => *atom == *other_atom,
        (Event::Detect { atom }, Event::Detect { atom: other_atom }) => *atom == *other_atom,
        _ => false,
    }
}

// Whether both are the same event at the same site.
fn is_same(one: &Found, other: &Found) -> bool {
    one.site == other.site && is_same_event(&one.event, &other.event)
}

// The same, or whether both are none.
fn is_same_found(one: &Option<Found>, other: &Option<Found>) -> bool {
    match (one, other) {
        (Some(found), Some(against)) => is_same(found, against),
        (None, None) => true,
        _ => false,
    }
}

// The event that comes first in a book, and its site.
pub fn first_of_book(alloc: Global, book: &Book, from: u32) -> Result<Option<Found>, Memory> {
    if from as usize >= book.program().sites.len() {
        return Ok(None);
    }
    book.first_enabled(alloc, from)
}

// Whether a book makes an event, and this then stands last in its journal.
pub fn is_made(alloc: Global, book: &mut Book, event: &Event) -> Result<bool, Memory> {
    let place = book.journal().len();
    if place >= MOST_EVENTS {
        return Ok(false);
    }
    let made = book.commit(alloc, event)?;
    Ok(made == Commit::Place(place as u64))
}

// Whether a book makes nothing of an event.
fn is_refused(alloc: Global, book: &mut Book, event: &Event) -> Result<bool, Memory> {
    if book.journal().len() >= MOST_EVENTS {
        return Ok(false);
    }
    let made = book.commit(alloc, event)?;
    Ok(made == Commit::NotEnabled)
}

fn are_same_outs(one: &[Out], other: &[Out]) -> bool {
    if one.len() != other.len() {
        return false;
    }
    for at in 0..one.len() {
        if one[at].on != other[at].on || one[at].args.as_slice() != other[at].args.as_slice() {
            return false;
        }
    }
    true
}

// Whether these are the numbers of all messages and requests of a solution, which has none twice.
fn are_all(ids: &Atoms, solution: &Numbered) -> bool {
    for id in ids.as_slice() {
        match atom_at(&solution.atoms, *id) {
            Some(_) => {}
            None => return false,
        }
    }
    ids.len() == solution.atoms.len()
}

// The site whose turn comes after this one.
pub fn after(sites: usize, site: u32) -> u32 {
    let next = site.saturating_add(1);
    if next as usize >= sites { 0 } else { next }
}

// The number by which the next event is chosen.
fn next_number(number: u64) -> u64 {
    number % 1_000_003 * 7_919 + 12_345
}

impl Both {
    // Whether the book finds the same event as the plain search did, and is quiet exactly where
    // there is none.
    fn finds(&self, alloc: Global, by_lists: &Option<Found>) -> Result<bool, Memory> {
        let by_book = first_of_book(alloc, &self.book, self.from)?;
        Ok(is_same_found(&by_book, by_lists) && self.book.quiet() == by_lists.is_none())
    }

    // The event that comes first by the plain search, and whether the book finds the same one.
    fn found(&self, alloc: Global) -> Result<(bool, Option<Found>), Memory> {
        let by_lists = first_by_lists(alloc, &self.plain, self.from)?;
        match self.finds(alloc, &by_lists) {
            Ok(is_same) => Ok((is_same, by_lists)),
            Err(memory) => {
                drop(by_lists);
                Err(memory)
            }
        }
    }

    // Whether both say of an event that it is possible.
    fn allow(&self, event: &Event) -> bool {
        self.book.enabled(event) && is_enabled(&self.plain, event)
    }

    // Whether both say of an event that it isn't.
    fn forbid(&self, event: &Event) -> bool {
        !self.book.enabled(event) && !is_enabled(&self.plain, event)
    }

    // Whether both make an event.
    fn make(&mut self, alloc: Global, event: &Event) -> Result<bool, Memory> {
        match apply(alloc, &self.plain, event)? {
            Some(reached) => {
                self.plain = Box::new(alloc, reached)?;
                is_made(alloc, &mut self.book, event)
            }
            None => Ok(false),
        }
    }

    // Whether both say of an event that it is possible, and make it.
    fn allow_and_make(&mut self, alloc: Global, event: &Event) -> Result<bool, Memory> {
        Ok(self.allow(event) && self.make(alloc, event)?)
    }

    // Whether this event comes first in the book.
    fn finds_again(&self, alloc: Global, first: &Found) -> Result<bool, Memory> {
        match first_of_book(alloc, &self.book, self.from)? {
            Some(found) => Ok(is_same(&found, first)),
            None => Ok(false),
        }
    }

    // Whether both refuse an event that isn't possible.
    fn refuse(&mut self, alloc: Global, wrong: &Event) -> Result<bool, Memory> {
        Ok(self.forbid(wrong) && is_refused(alloc, &mut self.book, wrong)?)
    }

    // Any event that is possible.
    fn any(&mut self, alloc: Global) -> Result<Option<Event>, Memory> {
        self.number = next_number(self.number);
        any_by_lists(alloc, &self.plain, self.number)
    }

    // Whether both refuse an event that takes the same as any that is possible. What the book had
    // set apart of it comes back then, and stays.
    fn refuse_any(&mut self, alloc: Global) -> Result<bool, Memory> {
        match self.any(alloc)? {
            Some(event) => {
                let wrong = near(alloc, &event)?;
                self.refuse(alloc, &wrong)
            }
            None => Ok(false),
        }
    }

    // Whether both make any event that is possible.
    fn make_any(&mut self, alloc: Global) -> Result<bool, Memory> {
        match self.any(alloc)? {
            Some(event) => self.allow_and_make(alloc, &event),
            None => Ok(false),
        }
    }

    // Whether both go on by an event, where this one comes first.
    fn go_on(&mut self, alloc: Global, manner: Manner, first: &Found) -> Result<bool, Memory> {
        match manner {
            Manner::First => self.allow_and_make(alloc, &first.event),
            Manner::Tried => Ok(
                self.refuse_any(alloc)?
                    && self.finds_again(alloc, first)?
                    && self.allow_and_make(alloc, &first.event)?,
            ),
            Manner::Any => self.make_any(alloc),
        }
    }

    // One event more, unless both are quiet. It answers how the run ends, if it does.
    fn step(&mut self, alloc: Global, manner: Manner) -> Result<Option<End>, Memory> {
        match self.found(alloc)? {
            (true, Some(found)) => {
                if self.go_on(alloc, manner, &found)? {
                    self.from = after(self.plain.counts.len(), found.site);
                    Ok(None)
                } else {
                    Ok(Some(End::Differ))
                }
            }
            (true, None) => Ok(Some(End::Quiet)),
            (false, _) => Ok(Some(End::Differ)),
        }
    }

    // So many events at most, one after another.
    pub fn run(&mut self, alloc: Global, manner: Manner, budget: u32) -> Result<End, Memory> {
        for _ in 0..budget {
            if let Some(end) = self.step(alloc, manner)? {
                return Ok(end);
            }
        }
        Ok(End::Spent)
    }

    // Whether both have the same observables, and gave the same names to the same binders.
    fn show_the_same(&self) -> bool {
        let names: &[Named] = self.book.names().as_slice();
        names == self.plain.named.as_slice()
            && are_same_outs(self.book.trace().as_slice(), self.plain.trace.as_slice())
    }

    // Whether both have the same observables, names, messages and requests.
    pub fn agree(&self, alloc: Global) -> Result<bool, Memory> {
        let ids = self.book.atoms(alloc)?;
        Ok(self.show_the_same() && are_all(&ids, &self.plain))
    }
}
