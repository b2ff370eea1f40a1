// The laws of steps and of runs over links.
ghost use Rattle.lossy_link.specs.Laws.{StepsLead, ListsReplayOverLinks};
ghost use Rattle.lossy_link.specs.OverBook.{RunsWithoutLinksAreOne, RunsOverLinksAreOne};
ghost use Rattle.lossy_link.specs.OverBook.{HasOneRunWithoutLinks, LossIsHidden};

/// A step over links, whatever it is, keeps what their type keeps, and the links stand for what its
/// event leads to, from each solution for which they stood; without one they stand for the same. It
/// does nothing.
pub fn steps_lead()
    ensures { StepsLead }
{}

/// Any list of steps keeps it too: its events replay from each solution for which the links stood,
/// and of each pair of sites what was handed over is the front of what was sent. It does nothing.
pub fn lists_replay_over_links()
    ensures { ListsReplayOverLinks }
{}

/// A program's code has at most one run without links for each budget. It does nothing.
pub fn runs_without_links_are_one()
    ensures { RunsWithoutLinksAreOne }
{}

/// A program's code has at most one run over links for each budget and each loss. It does nothing.
pub fn runs_over_links_are_one()
    ensures { RunsOverLinksAreOne }
{}

/// Whatever is lost, a run over links makes the events of the run without them, and leaves the same
/// network. It does nothing.
pub fn loss_is_hidden()
    ensures { LossIsHidden }
{}

/// A program's code has one run without links for each budget. It does nothing.
pub fn one_run_without_links()
    ensures { HasOneRunWithoutLinks }
{}
