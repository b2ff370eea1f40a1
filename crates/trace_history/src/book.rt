// A book: what contracts see of it is a program and a journal alone.
ghost use Rattle.std.specs.Prelude.{◌≡◌, [], ◌<◌, ◌-◌, ◌^◌, length, Ok, Some, IfOk, IfSome, OnErr};
ghost use Rattle.std.specs.Prelude.{IsTrue, ◌↔◌, List, ◌++◌, ◌∷◌};
ghost use Rattle.chem_model.specs.declared.event.Event.{Event as EventValue};
ghost use Rattle.chem_model.specs.Numbered.{binder_in};
ghost use Rattle.chem_model.specs.Sound.{IsSound};
ghost use Rattle.chem_model.specs.Runs.{IsRun};
ghost use Rattle.chem_model.specs.Laws.{erase_all};
ghost use Rattle.chem_model.specs.Apply.{apply, states};
ghost use Rattle.chem_model.specs.Opening.{opening};
ghost use Rattle.trace_history.specs.Kept.{is_enabled};
ghost use Rattle.trace_history.specs.inside.Holds.{Holds};
ghost use Rattle.chem_commit.specs.Replaces.{Replaces};
ghost use Rattle.book_store.specs.Older.{whole};
ghost use Rattle.book_store.specs.Stored.{IsStored, Moves};
ghost use Rattle.trace_history.specs.Book.{Commits, IsAStart, IsAReduction, OnItsSolution, IsStuck};
ghost use Rattle.trace_history.specs.Book.{IsQuiet, Finds, Replays};
ghost use Rattle.trace_history.specs.Left.{IsLeftAt, AreLeft, AreAtomsOf};

use crate::all_causes::{all_left, ids_of};
use crate::causes::left_at;
use crate::search::{first_event, is_stuck};
use book_store::{Store, is_possible, ready, settle_all, site_of, tidy};
use chem_causes::{Left, Lefts};
use chem_commit::{Guesses, make_event, note};
use chem_laws::{event_is_a_reduction, opening_is_a_start, replay_is_a_run, stuck_is_quiet};
use chem_model::{
    AtomId, Atoms, Event, Items, Journal, Memory, Name, Naming, Numbered, Outs, Program,
};
use chem_plain::opening;
use std::alloc::Global;
use std::marker::Model;

/// What became of an event that was to be made.
#[derive(Clone, Copy, PartialEq, Eq, Debug)]
pub enum Commit {
    /// It was made, and stands at this place of the journal.
    Place(u64),
    /// It isn't possible.
    NotEnabled,
}

impl Commit {
    /// A value that is equal to this one. It takes no memory.
    pub fn copy(&self, _alloc: Global) -> Result<Commit, Memory>
        ensures { result ≡ Ok self.now }
    {
        Ok(*self)
    }
}

/// An event that is possible, and the site within whose root it is.
#[derive(Drop)]
pub struct Found {
    pub site: u32,
    pub event: Event,
}

impl Found {
    /// A value that is equal to this one.
    pub fn copy(&self, alloc: Global) -> Result<Found, Memory>
        ensures { IfOk result (λ copy. copy ≡ self.now) }
    {
        let event = self.event.copy(alloc)?;
        Ok(Found {
            site: self.site,
            event,
        })
    }
}

/// A program, the events since its opening, and the numbered solution to which they lead, but for
/// the order of messages and requests: older ones stand apart, in a store that knows where to look
/// for the next event.
#[derive(Drop)]
pub struct Book {
    program: Program,
    journal: Journal,
    solution: Numbered,
    guesses: Guesses,
    store: Store,
}

impl Model for Book {
    ghost use Rattle.chem_model.specs.Apply.{replay};
    ghost use Rattle.trace_history.specs.Kept.{BookKept, kept_code};

    ghost Value = { BookKept };

    ghost coded = { kept_code };

    ghost view = { λ b. record { program = b.program; journal = b.journal } };

    ghost use Rattle.trace_history.specs.inside.Holds.{Holds};
    ghost use Rattle.book_store.specs.Stored.{IsStored};

    ghost invariant = { λ b. Holds (replay b.program b.journal) b.store.older.table b.solution
        × IsStored b.solution b.store };
}

// The opening of a program, of which all but the newest messages and requests are set apart.
fn set_apart(
    alloc: Global,
    solution: &mut Numbered,
    guesses: &mut Guesses,
    store: &mut Store,
) -> Result<(), Memory>
    requires sound { IsSound (whole store.old.older.table solution.old) }
    requires stored { IsStored solution.old store.old }
    ensures stored { IsStored solution.new store.new }
    ensures moves { Moves solution.old store.old solution.new store.new }
{
    note(alloc, guesses, solution)?;
    settle_all(alloc, store, solution, guesses)
}

// The opening of a program, with guesses and a store.
fn opened(alloc: Global, program: &Program) -> Result<(Numbered, Guesses, Store), Memory>
    ensures holds { IfOk result (λ r.
        Holds (Some (opening program.now)) r.2.older.table r.0) }
    ensures stored { IfOk result (λ r. IsStored r.0 r.2) }
{
    opening_is_a_start();
    let _ = &program.tops;
    let mut solution = opening(alloc, program)?;
    let mut guesses = Guesses::new(alloc);
    let mut store = Store::new(alloc);
    match set_apart(alloc, &mut solution, &mut guesses, &mut store) {
        Ok(()) => Ok((solution, guesses, store)),
        Err(memory) => {
            drop(solution);
            Err(memory)
        }
    }
}

// Makes the last event of a journal in place, where it is possible.
fn make_last(
    alloc: Global,
    solution: &mut Numbered,
    guesses: &Guesses,
    journal: &Journal,
) -> Result<bool, Memory>
    requires { IsSound solution.old }
    ensures done { IfOk result (λ made. (event : EventValue) (before : List EventValue)
        → journal.now ≡ before ++ event ∷ []
        → Replaces (apply solution.old event) solution.old made solution.new) }
    ensures err { OnErr result (solution.new ≡ solution.old) }
{
    let events = journal.as_slice();
    match events.get(events.len().saturating_sub(1)) {
        Some(event) => make_event(alloc, solution, guesses, event),
        None => Ok(false),
    }
}

impl Book {
    /// The book of a program's opening, which stands for a start of the program.
    pub fn start(alloc: Global, program: &Program) -> Result<Book, Memory>
        ensures opening { IfOk result (λ book.
            book ≡ record { program = program.now; journal = [] }) }
        ensures start { IfOk result IsAStart }
    {
        opening_is_a_start();
        let _ = &program.tops;
        let program = program.copy(alloc)?;
        match opened(alloc, &program) {
            Ok((solution, guesses, store)) => Ok(Book {
                program,
                journal: Items::new(alloc),
                solution,
                guesses,
                store,
            }),
            Err(memory) => {
                drop(program);
                Err(memory)
            }
        }
    }

    /// Makes an event where it is possible, and appends it to the journal: what the book stands for
    /// then is one reduction away, as the event names it. Where it isn't possible, and on want of
    /// memory, nothing changes.
    pub fn commit(&mut self, alloc: Global, event: &Event) -> Result<Commit, Memory>
        requires { length self.old.journal < 2 ^ 32 - 1 }
        ensures done { IfOk result (λ c. Commits self.old event.now c self.new) }
        ensures reduction { IfOk result (λ c. IsAReduction self.old event.now c self.new) }
        ensures err { OnErr result (self.new ≡ self.old) }
    {
        let copy = event.copy(alloc)?;
        self.append(alloc, copy)
    }

    /// The same of an event that goes into the journal itself. Where it doesn't, it is dropped.
    #[tactic(auto, using(crate::proofs::Committing::moved_holds))]
    pub fn append(&mut self, alloc: Global, event: Event) -> Result<Commit, Memory>
        requires { length self.old.journal < 2 ^ 32 - 1 }
        ensures done { IfOk result (λ c. Commits self.old event c self.new) }
        ensures reduction { IfOk result (λ c. IsAReduction self.old event c self.new) }
        ensures err { OnErr result (self.new ≡ self.old) }
    {
        self.is_sound();
        event_is_a_reduction();
        note(alloc, &mut self.guesses, &self.solution)?;
        let place = self.journal.len();
        ready(
            alloc,
            &mut self.store,
            &mut self.solution,
            &self.guesses,
            &event,
        )?;
        let site = site_of(&self.store, &self.solution, &self.guesses, &event);
        self.journal.push(event)?;
        match make_last(alloc, &mut self.solution, &self.guesses, &self.journal) {
            Ok(true) => {
                tidy(&mut self.store, &self.solution, &self.guesses, site);
                Ok(Commit::Place(place as u64))
            }
            Ok(false) => {
                self.journal.truncate(place);
                Ok(Commit::NotEnabled)
            }
            Err(memory) => {
                self.journal.truncate(place);
                Err(memory)
            }
        }
    }

    /// Whether events are searched for between commits, as they are where nothing is said. Where
    /// they aren't, more messages and requests stay beside each other before they are set apart: a
    /// commit finds them sooner so, and a search would have to walk along them.
    pub fn expect_searches(&mut self, searches: bool)
        ensures { self.new ≡ self.old }
    {
        self.store.searched = searches;
    }

    /// Whether an event is possible.
    pub fn enabled(&self, event: &Event) -> bool
        ensures { result ≡ is_enabled self.now event.now }
    {
        self.is_sound();
        is_possible(&self.solution, &self.store.older, event)
    }

    /// Whether no event is possible, which is so exactly where the machine is quiet.
    pub fn quiet(&self) -> bool
        ensures stuck { IsTrue result ↔ IsStuck self.now }
        ensures machine { IsTrue result ↔ IsQuiet self.now }
    {
        self.is_sound();
        stuck_is_quiet();
        is_stuck(&self.solution, &self.guesses, &self.store)
    }

    /// The event that comes first, where the site `from` is looked at first, and its site. None
    /// where no event is possible: to find none takes no memory.
    pub fn first_enabled(&self, alloc: Global, from: u32) -> Result<Option<Found>, Memory>
        requires { from < length self.now.program.sites }
        ensures first { IfOk result (λ found. Finds self.now from found) }
        ensures site { IfOk result (λ found.
            IfSome found (λ f. f.site < length self.now.program.sites)) }
        ensures memory { OnErr result (IsStuck self.now → ⊥) }
    {
        self.is_sound();
        first_event(alloc, &self.solution, &self.guesses, &self.store, from)
    }

    /// The events since the opening.
    pub fn journal(&self) -> &Journal
        ensures { result.now ≡ self.now.journal }
    {
        &self.journal
    }

    /// The observables so far.
    pub fn trace(&self) -> &Outs
        ensures { OnItsSolution self.now (λ n. result.now ≡ n.trace) }
    {
        &self.solution.trace
    }

    pub fn program(&self) -> &Program
        ensures { result.now ≡ self.now.program }
    {
        &self.program
    }

    /// The binder for which a location or a channel was made. None where this book made no such
    /// name.
    pub fn binder_of(&self, name: &Name) -> Option<u32>
        ensures { OnItsSolution self.now (λ n. result ≡ binder_in n.named name.now) }
    {
        self.solution.binder_of(name)
    }

    /// The names that were given in the run, each with the binder for which it was made.
    pub fn names(&self) -> &Naming
        ensures { OnItsSolution self.now (λ n. result.now ≡ n.named) }
    {
        &self.solution.named
    }

    /// The message or request with this number: where it is left, and why. None where there is no
    /// such one. It takes no memory.
    pub fn cause(&self, atom: &AtomId) -> Option<Left>
        ensures { OnItsSolution self.now (λ n. IsLeftAt n atom.now result) }
    {
        self.is_sound();
        left_at(&self.solution, &self.guesses, &self.store.older, *atom)
    }

    /// Every message and request, by rising number, and why it is left.
    pub fn causes(&self, alloc: Global) -> Result<Lefts, Memory>
        ensures { IfOk result (λ lefts. OnItsSolution self.now (λ n. AreLeft n lefts)) }
    {
        self.is_sound();
        all_left(alloc, &self.solution, &self.guesses, &self.store.older)
    }

    /// The numbers of all messages and requests, by rising number.
    pub fn atoms(&self, alloc: Global) -> Result<Atoms, Memory>
        ensures { IfOk result (λ ids. OnItsSolution self.now (λ n. AreAtomsOf n ids)) }
    {
        let lefts = self.causes(alloc)?;
        ids_of(alloc, lefts.as_slice())
    }

    /// The program, and the events since its opening.
    pub fn into_parts(self) -> (Program, Journal)
        ensures program { result.0 ≡ self.program }
        ensures journal { result.1 ≡ self.journal }
    {
        (self.program, self.journal)
    }

    /// The solutions that the journal passes stand for a run of the machine. It does nothing.
    pub fn is_a_run(&self)
        ensures { IsRun self.now.program (erase_all (states self.now.program self.now.journal)) }
    {
        self.replays();
        let program = &self.program;
        let _ = &program.tops;
        replay_is_a_run();
    }

    /// The journal replays. It does nothing.
    pub fn replays(&self)
        ensures { Replays self.now }
    {
        let _ = &self.solution;
    }

    // The solution is sound. It does nothing.
    fn is_sound(&self)
        ensures { OnItsSolution self.now IsSound }
    {
        let program = &self.program;
        let _ = &program.tops;
        replay_is_a_run();
    }
}
