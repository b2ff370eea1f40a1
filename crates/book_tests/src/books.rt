// Books: what is first, and what is made or isn't.
ghost use Rattle.std.specs.Prelude.{◌≡◌, [], IfOk};

use chem_model::{AtomId, Event, Memory, Program};
use join_base::Front;
use std::alloc::{AllocError, Global};
use std::process::Abort;
use std::test::Fail;
use trace_history::{Book, Commit, Found};
use worked_programs::program_of;

// More events than any book of these tests has.
const MOST_EVENTS: usize = 100;

// The book of a program, before any event.
pub fn book_with(alloc: Global, program: &Program) -> Result<Box<Book>, Memory>
    ensures { IfOk result (λ book. book.value.journal ≡ []) }
{
    let book = Book::start(alloc, program)?;
    Ok(Box::new(alloc, book)?)
}

fn book_of(alloc: Global, text: &str) -> Result<Box<Book>, Front> {
    let program = program_of(alloc, text.as_bytes())?;
    Ok(book_with(alloc, &program)?)
}

// What becomes of the move that a request of the first site asks for. None where the book is too
// long for these tests.
fn commit_move(alloc: Global, book: &mut Book, k: u64) -> Result<Option<Commit>, Memory> {
    if book.journal().len() > MOST_EVENTS {
        return Ok(None);
    }
    let event = Event::Move {
        atom: AtomId { site: 0, k },
    };
    Ok(Some(book.commit(alloc, &event)?))
}

// The site of an event and its request, by a copy of what was found. None if it isn't a move.
fn copied_move(alloc: Global, found: &Found) -> Result<Option<(u32, u64)>, Memory> {
    let copy = found.copy(alloc)?;
    match &copy.event {
        Event::Move { atom } => Ok(Some((copy.site, atom.k))),
        _ => Ok(None),
    }
}

// The site and the request of the event that comes first from the first site on.
fn first_move(alloc: Global, book: &Book) -> Result<Option<(u32, u64)>, Memory> {
    if book.program().sites.is_empty() {
        return Ok(None);
    }
    match book.first_enabled(alloc, 0)? {
        Some(found) => copied_move(alloc, &found),
        None => Ok(None),
    }
}

// The site and the request of the event that comes first in the opening of a text.
fn first_request(alloc: Global, text: &str) -> Result<Option<(u32, u64)>, Front> {
    let book = book_of(alloc, text)?;
    Ok(first_move(alloc, &book)?)
}

// What becomes of two moves, and how many events there are then.
type Moved = (Option<Commit>, Option<Commit>, usize);

// Two moves, one after the other.
fn make_moves(alloc: Global, book: &mut Book, one: u64, other: u64) -> Result<Moved, Memory> {
    let first = commit_move(alloc, book, one)?;
    let second = commit_move(alloc, book, other)?;
    Ok((first, second, book.journal().len()))
}

// Two moves, one after the other, from the opening of a text.
fn moved(alloc: Global, text: &str, one: u64, other: u64) -> Result<Moved, Front> {
    let mut book = book_of(alloc, text)?;
    Ok(make_moves(alloc, &mut book, one, other)?)
}

// The binders of the names in the observables of a book.
fn binders_of(alloc: Global, book: &Book) -> Result<Vec<Option<u32>>, AllocError> {
    let mut binders = Vec::new(alloc);
    for out in book.trace().as_slice() {
        if let Some(name) = out.args.as_slice().first() {
            binders.push(book.binder_of(name))?;
        }
    }
    Ok(binders)
}

// The binders of the names in the observables of an opening.
fn shown(alloc: Global, text: &str) -> Result<Vec<Option<u32>>, Front> {
    let book = book_of(alloc, text)?;
    Ok(binders_of(alloc, &book)?)
}

fn is_quiet(alloc: Global, text: &str) -> Result<bool, Front> {
    let book = book_of(alloc, text)?;
    Ok(book.quiet())
}

// The number of a message or request, and that of the location at which it is left. None where
// there is no such one.
fn left_at(book: &Book, site: u32, k: u64) -> Option<(u32, u64, u64)> {
    match book.cause(&AtomId { site, k }) {
        Some(left) => Some((left.atom.site, left.atom.k, left.loc.k)),
        None => None,
    }
}

// Where each message and request of a book is left, by rising number.
fn places_left(alloc: Global, book: &Book) -> Result<Vec<Option<(u32, u64, u64)>>, Memory> {
    let ids = book.atoms(alloc)?;
    let mut found = Vec::new(alloc);
    for id in ids.as_slice() {
        found.push(left_at(book, id.site, id.k))?;
    }
    Ok(found)
}

// Where each message and request of the opening of a text is left, by rising number.
fn left_of_text(alloc: Global, text: &str) -> Result<Vec<Option<(u32, u64, u64)>>, Front> {
    let book = book_of(alloc, text)?;
    Ok(places_left(alloc, &book)?)
}

// Where the opening of a text leaves the message or request with this number of the first site.
fn left_in_text(alloc: Global, text: &str, k: u64) -> Result<Option<(u32, u64, u64)>, Front> {
    let book = book_of(alloc, text)?;
    Ok(left_at(&book, 0, k))
}

// The names are 0.1 to 0.4, the rules 0.5 and 0.7, and the requests 0.6 and 0.8. The second target
// isn't a site.
const TWO_MOVES: &str = "site a [ m[ k() => 0 : go(a, k) ] and n[ j() => 0 : go(m, j) ] : 0 ]";

// The site has the first binder. No number has one, be it written or a sum.
const NUMBERS: &str =
    "version 2; observe out/1; site s [ none : out(7) | out(s) | add(2, 3, out) ]";

const FOUR_LOCATIONS: &str = "observe out/1; site a [ m[ none : out(m) ] : out(a) ] \
    site b [ n[ none : out(n) ] : out(b) ]";

// That this is the site and the request of the event that comes first in the opening of a text.
fn expect_first(rt: &impl Abort, alloc: Global, text: &str, want: Option<(u32, u64)>) {
    assert_eq!(rt; first_request(alloc, text), Ok(want));
}

#[test]
fn the_first_event(rt: HostRuntime) {
    expect_first(&rt, rt.alloc(), TWO_MOVES, Some((0, 6)));
    expect_first(&rt, rt.alloc(), FOUR_LOCATIONS, None);
}

// That this becomes of two moves, one after the other.
fn expect_moved(rt: &impl Abort, alloc: Global, one: u64, other: u64, want: Moved) {
    assert_eq!(rt; moved(alloc, TWO_MOVES, one, other), Ok(want));
}

#[test]
fn a_move_is_made_and_another_is_not(rt: HostRuntime) {
    let made = Some(Commit::Place(0));
    let refused = Some(Commit::NotEnabled);
    expect_moved(&rt, rt.alloc(), 6, 8, (made, refused, 1));
}

// A request that was met is gone.
#[test]
fn a_move_is_made_once(rt: HostRuntime) {
    let made = Some(Commit::Place(0));
    let refused = Some(Commit::NotEnabled);
    expect_moved(&rt, rt.alloc(), 6, 6, (made, refused, 1));
    expect_moved(&rt, rt.alloc(), 8, 6, (refused, made, 1));
}

// The places' processes are poured before the sites' own, and nothing is left to happen.
#[test]
fn an_opening_in_order(rt: HostRuntime) -> Result<(), Fail> {
    let binders = shown(rt.alloc(), FOUR_LOCATIONS).or(Err("the text is refused"))?;
    let expected = [Some(1), Some(0), Some(3), Some(2)];
    assert_eq!(rt; binders.as_slice(), expected.as_slice());
    Ok(())
}

#[test]
fn binders_of_numbers(rt: HostRuntime) -> Result<(), Fail> {
    let binders = shown(rt.alloc(), NUMBERS).or(Err("the text is refused"))?;
    let expected = [None, Some(0), None];
    assert_eq!(rt; binders.as_slice(), expected.as_slice());
    Ok(())
}

// The first request stands at 0.1, and the second at 0.3. The number of a rule is that of none.
#[test]
fn what_an_opening_leaves(rt: HostRuntime) -> Result<(), Fail> {
    let left = left_of_text(rt.alloc(), TWO_MOVES).or(Err("the text is refused"))?;
    let expected = [Some((0, 6, 1)), Some((0, 8, 3))];
    assert_eq!(rt; left.as_slice(), expected.as_slice());
    assert_eq!(rt; left_in_text(rt.alloc(), TWO_MOVES, 7), Ok(None));
    Ok(())
}

// That the opening of a text is quiet, or that it isn't.
fn expect_quiet(rt: &impl Abort, alloc: Global, text: &str, want: bool) {
    assert_eq!(rt; is_quiet(alloc, text), Ok(want));
}

#[test]
fn quiet_books(rt: HostRuntime) {
    expect_quiet(&rt, rt.alloc(), FOUR_LOCATIONS, true);
    expect_quiet(&rt, rt.alloc(), TWO_MOVES, false);
}
