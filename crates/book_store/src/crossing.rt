// A store may go to another thread. Nothing here does anything.
ghost use denote.Param.Send.{IsSend};
ghost use Rattle.book_store.specs.inside.Crosses.{TableCrosses, OlderCrosses, CandidatesCross};
ghost use Rattle.book_store.specs.inside.Crosses.{WaitingCrosses, AskingCrosses};
ghost use Rattle.book_store.specs.Crosses.{StoreCrosses};

use crate::asking::Asking;
use crate::candidates::Candidates;
use crate::older::Older;
use crate::store::Store;
use crate::table::AtomTable;
use crate::waiting::Waiting;

// Values of this type may go to another thread.
fn crosses<T: Send>()
    ensures { IsSend T.row }
{}

fn table_crosses()
    ensures { TableCrosses }
{
    crosses::<AtomTable>();
}

fn older_crosses()
    ensures { OlderCrosses }
{
    table_crosses();
    crosses::<Older>();
}

fn candidates_cross()
    ensures { CandidatesCross }
{
    crosses::<Candidates>();
}

fn waiting_crosses()
    ensures { WaitingCrosses }
{
    candidates_cross();
    crosses::<Waiting>();
}

fn asking_crosses()
    ensures { AskingCrosses }
{
    candidates_cross();
    crosses::<Asking>();
}

/// A store may go to another thread. It does nothing.
pub fn store_crosses()
    ensures { StoreCrosses }
{
    older_crosses();
    waiting_crosses();
    asking_crosses();
    crosses::<Store>();
}
