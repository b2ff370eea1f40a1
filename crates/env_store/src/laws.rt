// The laws of compiled code. Whoever calls one of these functions has its law.
ghost use Rattle.env_store.specs.Laws.{RunningIsPouring, ReactingIsPouring, OpeningIsPouring};
ghost use Rattle.env_store.specs.Laws.{RunsLayGroups, OpeningsLayGroups, ReadsUnderEach};

/// What a body makes, run under an environment, is what pouring its process makes with the names of
/// that environment for its binders, and as many locations and messages are made as are counted. It
/// does nothing.
pub fn running_is_pouring()
    ensures { RunningIsPouring }
{}

/// What a guard's body makes, run under its group's environment and the received names, is what
/// pouring the body of the group's rule makes with these names. It does nothing.
pub fn reacting_is_pouring()
    ensures { ReactingIsPouring }
{}

/// What the opening of a site makes by its code is what naming, laying and pouring its source make.
/// It does nothing.
pub fn opening_is_pouring()
    ensures { OpeningIsPouring }
{}

/// Each group that a run lays has its level's channels at their places, and no two groups of a run
/// share a rule or a channel. It does nothing.
pub fn runs_lay_groups()
    ensures { RunsLayGroups }
{}

/// The same of the opening of a site. It does nothing.
pub fn openings_lay_groups()
    ensures { OpeningsLayGroups }
{}

/// A body that reads under a layout reads under every environment of its length, with every list of
/// new names for each `def` in it. It does nothing.
pub fn reads_under_each()
    ensures { ReadsUnderEach }
{}
