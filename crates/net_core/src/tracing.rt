// Copies of what is kept in pieces.
ghost use Rattle.std.specs.Prelude.{◌≡◌, ◌++◌, IfOk, OnOk};
ghost use Rattle.net_core.specs.Parts.{joined};

use chem_model::{Items, Memory, Outs};
use std::alloc::Global;

// Appends copies of the members of a piece.
fn add_copies(alloc: Global, all: &mut Outs, piece: &Outs) -> Result<(), Memory>
    ensures { OnOk result (all.new ≡ all.old ++ piece.now) }
{
    for out in piece.as_slice() {
        all.push(out.copy(alloc)?)?;
    }
    Ok(())
}

// A copy of the members of all pieces, in order.
pub(crate) fn copy_all(alloc: Global, pieces: &[Outs]) -> Result<Outs, Memory>
    ensures { IfOk result (λ all. all ≡ joined pieces.now) }
{
    let mut all = Items::new(alloc);
    for piece in pieces {
        add_copies(alloc, &mut all, piece)?;
    }
    Ok(all)
}
