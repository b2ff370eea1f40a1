// The laws of schedules.
ghost use Rattle.net_core.specs.Lending.{LentSitesHaveTurns};
ghost use Rattle.net_core.specs.OneAnswer.{ActsAreOne};
ghost use Rattle.net_core.specs.Rounds.{RoundsReplay};
ghost use Rattle.net_core.specs.Scheduling.{HasOneScheduleOfRounds, SchedulesOfRoundsAreOne};

/// What a network does by a choice is one thing: the network that it leaves is a function of the
/// one before and of the choice. It does nothing.
pub fn acts_are_one()
    ensures { ActsAreOne }
{}

/// A program's code has at most one schedule of rounds for each budget. It does nothing.
pub fn schedules_of_rounds_are_one()
    ensures { SchedulesOfRoundsAreOne }
{}

/// A program's code has one schedule of rounds for each budget. It does nothing.
pub fn one_schedule_of_rounds()
    ensures { HasOneScheduleOfRounds }
{}

/// The events of a schedule of rounds replay from the program's opening to what the network in the
/// end stands for. They are no more than the budget; and they are as many, or the machine is quiet
/// and nothing is under way. It does nothing.
pub fn rounds_replay()
    ensures { RoundsReplay }
{}

/// What sites that are lent at once leave of a round, in order, is what their turns leave, one
/// after another. It does nothing.
pub fn lent_sites_have_turns()
    ensures { LentSitesHaveTurns }
{}
