// The laws of what a network does.
ghost use Rattle.net_core.specs.Falling.{DeliveriesFall};
ghost use Rattle.net_core.specs.Enabled.{NoneEnabledIsQuiet};
ghost use Rattle.net_core.specs.Laws.{ActsLead};
ghost use Rattle.net_core.specs.Playing.{ListsReplay, OpenedPlay};
ghost use Rattle.net_core.specs.Rising.{CountsRise, ReactionsBearNew};

/// What a network does by code is one event of each solution for which it stands, or none, and the
/// network stands for what that leads to. It does nothing.
pub fn acts_lead()
    ensures { ActsLead }
{}

/// For every list of choices, the events replay from each solution for which the network stood, to
/// one for which it then stands. It does nothing.
pub fn lists_replay()
    ensures { ListsReplay }
{}

/// From the network that a program's code opens, the events of every list of choices replay from
/// the program's opening, and no site has made more than 1,048,576 numbers for each event and one
/// time more. It does nothing.
pub fn opened_play()
    ensures { OpenedPlay }
{}

/// No choice is enabled exactly where nothing is under way and the machine is quiet. It does
/// nothing.
pub fn none_enabled_is_quiet()
    ensures { NoneEnabledIsQuiet }
{}

/// Each delivery leaves one less of those that can follow one another. It does nothing.
pub fn deliveries_fall()
    ensures { DeliveriesFall }
{}

/// An event draws at most 1,048,576 numbers, and a delivery none. It does nothing.
pub fn counts_rise()
    ensures { CountsRise }
{}

/// The locations that a reaction bears are new to the tree. It does nothing.
pub fn reactions_bear_new()
    ensures { ReactionsBearNew }
{}
