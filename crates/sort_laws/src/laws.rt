// The laws of declared sorts, each on a function that does nothing.
ghost use Rattle.sort_laws.specs.Laws.{OpeningIsWellSorted, EventKeepsSorts, NoAtomIsWrong};
ghost use Rattle.sort_laws.specs.Laws.{WhatPassesIsSorted, ChannelsAreOwned};

/// Where a program keeps the sorts of its names, its opening is well sorted: each message, each
/// request and each rule keeps them, and each name was given to a binder of its sort. It does
/// nothing.
pub fn opening_is_well_sorted()
    ensures { OpeningIsWellSorted }
{}

/// Each event keeps a solution well sorted. It does nothing.
pub fn event_keeps_sorts()
    ensures { EventKeepsSorts }
{}

/// Where a program keeps the sorts of its names, no solution of a replay of it holds a wrong atom.
/// It does nothing.
pub fn no_atom_is_wrong()
    ensures { NoAtomIsWrong }
{}

/// Where nothing that is asked of a program's names is answered wrongly by declared sorts, the
/// program keeps them. It does nothing.
pub fn what_passes_is_sorted()
    ensures { WhatPassesIsSorted }
{}

/// In each solution of a replay each channel that was made is on a pattern of a rule. It does
/// nothing.
pub fn channels_are_owned()
    ensures { ChannelsAreOwned }
{}
