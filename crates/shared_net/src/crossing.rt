// What of a network may go to another thread, and what threads may share. Nothing here does
// anything.
ghost use denote.Param.Send.{IsSend, IsSync};
ghost use Rattle.shared_net.specs.inside.Crosses.{MailboxCrosses, ProgramIsShared};
ghost use Rattle.shared_net.specs.inside.Crosses.{LockedTreeIsShared, LockedSitesAreShared};
ghost use Rattle.shared_net.specs.inside.Crosses.{LockedMailIsShared, PartsAreShared};
ghost use Rattle.shared_net.specs.inside.Crosses.{LockedCrosses};

use crate::locked::Locked;
use crate::mail::Mailbox;
use crate::net::{LockedMail, LockedSites, LockedTree, Parts};
use crate::run::Run;
use chem_model::Program;
use site_turn::{kept_site_crosses, kept_tree_goes_about, shared_code_goes_about};
use trace_history::book_crosses;

// Values of this type may go to another thread.
fn crosses<T: Send>()
    ensures { IsSend T.row }
{}

// Threads may share values of this type.
fn is_shared<T: Sync>()
    ensures { IsSync T.row }
{}

fn program_is_shared()
    ensures { ProgramIsShared }
{
    is_shared::<Program>();
}

fn mailbox_crosses()
    ensures { MailboxCrosses }
{
    crosses::<Mailbox>();
}

fn locked_tree_is_shared()
    ensures { LockedTreeIsShared }
{
    kept_tree_goes_about();
    is_shared::<LockedTree>();
}

fn locked_sites_are_shared()
    ensures { LockedSitesAreShared }
{
    kept_site_crosses();
    is_shared::<LockedSites>();
}

fn locked_mail_is_shared()
    ensures { LockedMailIsShared }
{
    mailbox_crosses();
    is_shared::<LockedMail>();
}

// All of a network but its book may be shared.
pub(crate) fn parts_are_shared()
    ensures { PartsAreShared }
{
    program_is_shared();
    shared_code_goes_about();
    locked_tree_is_shared();
    locked_sites_are_shared();
    locked_mail_is_shared();
    is_shared::<Parts>();
}

// The locked book may go to another thread.
pub(crate) fn locked_crosses<L: Run + Send + Sync>()
    ensures { LockedCrosses L.row (record { program = L.program })
        (record { name = L.name; parts = L.parts }) }
{
    book_crosses();
    crosses::<Locked<L>>();
}
