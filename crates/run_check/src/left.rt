// Why what a run left is left.
ghost use Rattle.std.specs.Prelude.{IfOk};
ghost use Rattle.trace_history.specs.Book.{OnItsSolution};
ghost use Rattle.trace_history.specs.Left.{AreLeft};

use chem_causes::Lefts;
use chem_model::Memory;
use std::alloc::Global;
use trace_history::Book;

/// Every message and request that a run leaves, by rising number, and why it is left.
pub fn explain(alloc: Global, book: &Book) -> Result<Lefts, Memory>
    ensures { IfOk result (λ lefts. OnItsSolution book.now (λ n. AreLeft n lefts)) }
{
    book.causes(alloc)
}
