// The end of a run on threads: all passes are compared with the book.
ghost use Rattle.std.specs.Prelude.{◌≡◌, ℕ, ◌<◌, length, map, IfOk, OnOk};
ghost use Rattle.chem_model.specs.Each.{Each};
ghost use Rattle.shared_net.specs.Passes.{Rise};
ghost use Rattle.shared_net.specs.Agrees.{row_of};
ghost use Rattle.shared_net.specs.Causes.{DifferInNumber};
ghost use Rattle.shared_net.specs.Causes.{Compares};
ghost use Rattle.shared_net.specs.Closes.{HaveBudget, Closes};
ghost use Rattle.shared_net.specs.inside.Closes.{Settles};

use crate::differs::Differs;
use crate::inside::compare;
use crate::locked::Locked;
use crate::pass::Passes;
use crate::receipt::copy_receipts;
use crate::report::{Report, Worked, WorkedList};
use crate::run::Run;
use chem_model::{Items, Memory};
use std::alloc::Global;
use trace_history::Book;

/// What the end of a run on threads answers.
#[derive(Drop)]
pub enum Closed {
    /// The book, with which the receipts of all passes agree.
    Agreed(Book, Report),
    /// They don't agree with it, and the report says why.
    Differs(Report),
}

// The rows of a report, and why they don't agree with the book.
#[derive(Drop)]
pub(crate) struct Settled {
    rows: WorkedList,
    differs: Option<Differs>,
}

// What the passes hold, and how that compares with the book.
pub(crate) fn settle<L: Run>(
    alloc: Global,
    locked: &Locked<L>,
    passes: &Passes<L>,
) -> Result<Settled, Memory>
    requires { DifferInNumber (map row_of passes.now) }
    ensures rows { IfOk result (λ s. s.rows ≡ map row_of passes.now) }
    ensures rise { OnOk result (Each (λ p. Rise 0 p.budget p.receipts) passes.now) }
    ensures differs { IfOk result (λ s.
        Compares locked.now.book.journal (map row_of passes.now) s.differs) }
{
    let rows = rows(alloc, passes)?;
    let differs = compare(alloc, locked, passes)?;
    Ok(Settled { rows, differs })
}

// What each pass holds.
fn rows<L: Run>(alloc: Global, passes: &Passes<L>) -> Result<WorkedList, Memory>
    ensures rows { IfOk result (λ rows. rows ≡ map row_of passes.now) }
    ensures rise { OnOk result (Each (λ p. Rise 0 p.budget p.receipts) passes.now) }
{
    let mut rows = Items::new(alloc);
    for pass in passes.as_slice() {
        let receipts = copy_receipts(alloc, pass.receipts())?;
        rows.push(Worked {
            number: pass.number(),
            idle: pass.idle(),
            full: pass.full(),
            receipts,
        })?;
    }
    Ok(rows)
}

// The end of a run: its book, where the receipts of all its passes agree with it, and a report of
// what each pass held. No memory is wanted for it.
pub(crate) fn finish<L: Run>(locked: Locked<L>, passes: Passes<L>, settled: Settled) -> Closed
    requires whole { length passes ≡ L.parts }
    requires some { 0 < length passes }
    requires rows { settled.rows ≡ map row_of passes }
    requires rise { Each (λ p. Rise 0 p.budget p.receipts) passes }
    requires differs { Compares locked.book.journal (map row_of passes) settled.differs }
    ensures settled { Settles locked.book (map row_of passes) result }
    ensures closed { (budget : ℕ) → HaveBudget budget passes →
        Closes L.program budget (map row_of passes) result }
{
    let Settled { rows, differs } = settled;
    match differs {
        Some(cause) => {
            drop(locked);
            drop(passes);
            Closed::Differs(Report::new(rows, Some(cause)))
        }
        None => {
            let all = passes.into_share();
            let book = locked.into_book(all);
            Closed::Agreed(book, Report::new(rows, None))
        }
    }
}
