// What may go to another thread, and what threads may share. Nothing here does anything.
ghost use denote.Param.Send.{IsSend, IsSync};
ghost use Rattle.site_turn.specs.Crosses.{SharedCodeCrosses, SharedCodeIsShared};
ghost use Rattle.site_turn.specs.Crosses.{KeptTreeCrosses, KeptTreeIsShared, KeptSiteCrosses};
ghost use Rattle.site_turn.specs.inside.Crosses.{TreeCrosses, TreeIsShared, SiteCrosses};
ghost use Rattle.site_turn.specs.inside.Crosses.{CodeCrosses, CodeIsShared};
ghost use Rattle.site_turn.specs.inside.Crosses.{SharedTreeCrosses, SharedTreeIsShared};

use crate::kept::{KeptSite, KeptTree};
use crate::shared::{SharedCode, SharedTree};
use env_store::Code;
use loc_tree::LocTree;
use site_solution::Site;

// Values of this type may go to another thread.
fn crosses<T: Send>()
    ensures { IsSend T.row }
{}

// Threads may share values of this type.
fn is_shared<T: Sync>()
    ensures { IsSync T.row }
{}

fn tree_goes_about()
    ensures crosses { TreeCrosses }
    ensures shared { TreeIsShared }
{
    crosses::<LocTree>();
    is_shared::<LocTree>();
}

fn code_goes_about()
    ensures crosses { CodeCrosses }
    ensures shared { CodeIsShared }
{
    crosses::<Code>();
    is_shared::<Code>();
}

fn site_crosses()
    ensures { SiteCrosses }
{
    crosses::<Site>();
}

fn shared_tree_goes_about()
    ensures crosses { SharedTreeCrosses }
    ensures shared { SharedTreeIsShared }
{
    tree_goes_about();
    crosses::<SharedTree>();
    is_shared::<SharedTree>();
}

/// Code that is shared may go to another thread, and threads may share it. It does nothing.
pub fn shared_code_goes_about()
    ensures crosses { SharedCodeCrosses }
    ensures shared { SharedCodeIsShared }
{
    code_goes_about();
    crosses::<SharedCode>();
    is_shared::<SharedCode>();
}

/// A kept tree may go to another thread, and threads may share it. It does nothing.
pub fn kept_tree_goes_about()
    ensures crosses { KeptTreeCrosses }
    ensures shared { KeptTreeIsShared }
{
    shared_tree_goes_about();
    crosses::<KeptTree>();
    is_shared::<KeptTree>();
}

/// A kept site may go to another thread. It does nothing.
pub fn kept_site_crosses()
    ensures { KeptSiteCrosses }
{
    site_crosses();
    shared_tree_goes_about();
    shared_code_goes_about();
    crosses::<KeptSite>();
}
