// The book behind its lock, with its part of the ledger.
ghost use Rattle.std.specs.Prelude.{◌≡◌, [], ◌↔◌, length, IfOk, OnErr, IsTrue};
ghost use Rattle.std.specs.Coded.{Coded-set};
ghost use Rattle.chem_model.specs.ProgramCode.{program_code};
ghost use Rattle.trace_history.specs.Book.{Commits};
ghost use Rattle.shared_net.specs.Passes.{new_passes};
ghost use Rattle.shared_net.specs.Offers.{Turned, Offers, IsUntouched};
ghost use Rattle.shared_net.specs.Proposes.{HasRoom, IsFull, IsBehind, Proposes};
ghost use Rattle.shared_net.specs.inside.Receives.{Receives};

use crate::pass::{Pass, Passes};
use crate::receipt::Receipt;
use crate::run::Run;
use chem_model::{Event, Memory};
use site_turn::{Desk, Turn};
use std::alloc::Global;
use std::sync::ledger;
use std::sync::ledger::{Blank, Share};
use trace_history::{Book, Commit};

/// What stands behind the lock of a run's book. Its type keeps that the book is of the run's
/// program, and that the ledger counts its events.
#[derive(Drop)]
pub struct Locked<L: Run> {
    book: Book,
    count: ledger::Book<L>,
    ghost counted: { count.total ≡ length book.journal },
    ghost same: { book.program ≡ L.program } by { Coded-set program_code _ _ },
}

// So many new passes, numbered from 1, each with its part of the ledger.
fn pass_each<L: Run>(
    alloc: Global,
    whole: Share<L>,
    passes: u32,
    budget: u32,
) -> Result<Passes<L>, Memory>
    requires one_each { whole.parts ≡ passes }
    requires nothing { whole.amount ≡ 0 }
    ensures { IfOk result (λ list. list ≡ new_passes budget 1 passes) }
{
    let mut rest = whole;
    let mut list = Vec::new(alloc);
    for i in 0..passes {
        let share = rest.split_off(1, 0);
        list.push(Pass::new(alloc, i + 1, budget, share))?;
    }
    Ok(Passes::from_vec(list))
}

// A book that is to stand behind a lock, and so many new passes, numbered from 1. The blank ledger
// has a part for each.
pub(crate) fn open<L: Run>(
    alloc: Global,
    blank: Blank,
    book: Book,
    passes: u32,
    budget: u32,
) -> Result<(Locked<L>, Passes<L>), Memory>
    requires name { blank.name ≡ L.name }
    requires parts { blank.parts ≡ L.parts }
    requires one_each { blank.parts ≡ passes }
    requires program { book.program ≡ L.program }
    requires no_event { book.journal ≡ [] }
    ensures book { IfOk result (λ r. r.0.book ≡ book) }
    ensures passes { IfOk result (λ r. r.1 ≡ new_passes budget 1 passes) }
{
    let (count, whole) = blank.open::<L>();
    match pass_each(alloc, whole, passes, budget) {
        Ok(passes) => Ok((Locked::new(book, count), passes)),
        Err(memory) => {
            drop(book);
            Err(memory)
        }
    }
}

impl<L: Run> Locked<L> {
    // A book and what counts its events.
    pub(crate) fn new(book: Book, count: ledger::Book<L>) -> Locked<L>
        requires program { book.program ≡ L.program }
        requires counted { count.total ≡ length book.journal }
        ensures { result.book ≡ book }
    {
        Locked { book, count }
    }

    pub fn book(&self) -> &Book
        ensures book { result.now ≡ self.now.book }
        ensures program { result.now.program ≡ L.program }
    {
        &self.book
    }

    // Whether the journal has as many events as the pass's budget, or more.
    pub(crate) fn is_full(&self, pass: &Pass<L>) -> bool
        ensures { IsTrue result ↔ IsFull self.now.book pass.now }
    {
        self.book.journal().len() >= pass.budget as usize
    }

    // Whether the pass has a receipt, and the journal is no longer than the place of the last one.
    pub(crate) fn is_behind(&self, pass: &Pass<L>) -> bool
        ensures { IsTrue result ↔ IsBehind self.now.book pass.now }
    {
        (self.book.journal().len() as u64) < pass.next
    }

    // Makes an event where it is possible, and writes its receipt into the pass. Where it isn't
    // possible, and on want of memory, nothing changes.
    fn commit(&mut self, alloc: Global, pass: &mut Pass<L>, event: &Event) -> Result<Commit, Memory>
        requires { HasRoom self.old.book pass.old }
        ensures made { IfOk result (λ c. Commits self.old.book event.now c self.new.book) }
        ensures receipt { IfOk result (λ c.
            Receives pass.old (length self.old.book.journal) event.now c pass.new) }
        ensures err { OnErr result ((self.new.book ≡ self.old.book) × (pass.new ≡ pass.old)) }
    {
        let place = self.book.journal().len() as u64;
        let count = pass.receipts.len();
        let copy = event.copy(alloc)?;
        pass.receipts.push(Receipt { place, event: copy })?;
        match self.book.commit(alloc, event) {
            Ok(Commit::Place(made)) => {
                self.count.add(&mut pass.share, 1);
                pass.next = place + 1;
                Ok(Commit::Place(made))
            }
            Ok(Commit::NotEnabled) => {
                pass.receipts.truncate(count);
                Ok(Commit::NotEnabled)
            }
            Err(memory) => {
                pass.receipts.truncate(count);
                Err(memory)
            }
        }
    }

    // Makes an event where the budget leaves one, the journal is past the pass's receipts, and the
    // event is possible, and writes its receipt into the pass. In all else, and on want of memory,
    // nothing changes.
    pub(crate) fn propose(
        &mut self,
        alloc: Global,
        pass: &mut Pass<L>,
        event: &Event,
    ) -> Result<Turn, Memory>
        ensures proposed { IfOk result (λ turn.
            Proposes self.old.book pass.old event.now turn self.new.book pass.new) }
        ensures pass { IfOk result (λ turn. Turned pass.old turn pass.new) }
        ensures err { OnErr result ((self.new.book ≡ self.old.book) × (pass.new ≡ pass.old)) }
        ensures err_pass { OnErr result (pass.new ≡ pass.old) }
    {
        if self.is_full(pass) {
            return Ok(Turn::Full);
        }
        if self.is_behind(pass) {
            return Ok(Turn::Nothing);
        }
        match self.commit(alloc, pass, event)? {
            Commit::Place(place) => Ok(Turn::Did(place)),
            Commit::NotEnabled => Ok(Turn::NotEnabled),
        }
    }

    // Proposes an event that can be made exactly where it fits.
    pub(crate) fn offer(
        &mut self,
        alloc: Global,
        pass: &mut Pass<L>,
        event: &Event,
        fits: bool,
    ) -> Result<Turn, Memory>
        ensures offered { IfOk result (λ turn.
            Offers (IsTrue fits) self.old.book pass.old event.now turn self.new.book pass.new) }
        ensures err { OnErr result (IsUntouched self.old.book pass.old self.new.book pass.new) }
    {
        if !fits && !self.is_full(pass) {
            return Ok(Turn::Nothing);
        }
        self.propose(alloc, pass, event)
    }

    // The book, which has as many events as all passes together have in the ledger.
    pub(crate) fn into_book(self, all: Share<L>) -> Book
        requires { all.parts ≡ L.parts }
        ensures book { result ≡ self.book }
        ensures program { result.program ≡ L.program }
        ensures counted { length result.journal ≡ all.amount }
    {
        let Locked { book, mut count } = self;
        let mut all = all;
        count.audit(&mut all);
        book
    }
}

// The locked book is a desk, at which each worker's pass gets its receipts.
impl<L: Run> Desk<Pass<L>> for Locked<L> {
    ghost use Rattle.std.specs.Prelude.{◌≡◌, IsTrue, refl};
    ghost use Rattle.shared_net.specs.Offers.{Offers};

    ghost decides = { λ old held e fits turn new after.
        Offers (IsTrue fits) old.book held e turn new.book after };

    ghost keeps = { λ old new. new.book ≡ old.book };

    fn propose(
        &mut self,
        alloc: Global,
        carried: &mut Pass<L>,
        event: &Event,
        fits: bool,
    ) -> Result<Turn, Memory> {
        self.offer(alloc, carried, event, fits)
    }

    ghost stays = { λ desk. refl };
}
