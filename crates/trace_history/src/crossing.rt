// A book may go to another thread. Nothing here does anything.
ghost use denote.Param.Send.{IsSend};
ghost use Rattle.trace_history.specs.inside.Crosses.{GuessesCross, ProgramCrosses, JournalCrosses};
ghost use Rattle.trace_history.specs.inside.Crosses.{NumberedCrosses};
ghost use Rattle.trace_history.specs.Crosses.{BookCrosses};

use book_store::store_crosses;
use chem_commit::Guesses;
use chem_model::{Journal, Numbered, Program};

// Values of this type may go to another thread.
fn crosses<T: Send>()
    ensures { IsSend T.row }
{}

fn guesses_cross()
    ensures { GuessesCross }
{
    crosses::<Guesses>();
}

fn program_crosses()
    ensures { ProgramCrosses }
{
    crosses::<Program>();
}

fn journal_crosses()
    ensures { JournalCrosses }
{
    crosses::<Journal>();
}

fn numbered_crosses()
    ensures { NumberedCrosses }
{
    crosses::<Numbered>();
}

/// A book may go to another thread. It does nothing.
pub fn book_crosses()
    ensures { BookCrosses }
{
    program_crosses();
    journal_crosses();
    numbered_crosses();
    guesses_cross();
    store_crosses();
}
