// The laws of the numbered solution, each on a function that does nothing.
ghost use Rattle.chem_model.specs.Laws.{OpeningIsAStart, EventIsAReduction, StuckIsQuiet};
ghost use Rattle.chem_model.specs.Laws.{ReplayIsARun};
ghost use Rattle.chem_laws.specs.Within.{DeadIsWithin};
ghost use Rattle.chem_laws.specs.Hosts.{RunsKeepRoots};
ghost use Rattle.chem_laws.specs.Order.{ReactionsCommute, ReactionsTakeAndMake};
ghost use Rattle.chem_laws.specs.Order.{ReactionsStayAtHome, ReactionsAreLocal, SitesAtOnce};
ghost use Rattle.chem_laws.specs.Twice.{NothingIsTakenTwice};
ghost use Rattle.chem_laws.specs.Declared.{DeclaredCountsStay, VersionStays};

/// A location is dead exactly where it is within a marked location. It does nothing.
pub fn dead_is_within()
    ensures { DeadIsWithin }
{}

/// In each solution of a run every host is a root: a location of the solution that has no host. It
/// does nothing.
pub fn hosts_are_roots()
    ensures { RunsKeepRoots }
{}

/// The opening of each program is sound, and what it stands for is reached from a start of the
/// program by heating, Comm, Out, Add and Same alone. It does nothing.
pub fn opening_is_a_start()
    ensures { OpeningIsAStart }
{}

/// Where a sound numbered solution has an event's effect, that is sound, and what the two stand for
/// are one React, Go, Fall, Halt or Detect apart, as the event names it (a move is Go or Fall),
/// followed by heating, Comm, Out, Add and Same alone. It does nothing.
pub fn event_is_a_reduction()
    ensures { EventIsAReduction }
{}

/// In a sound numbered solution no event is possible exactly where the machine is quiet on what it
/// stands for. It does nothing.
pub fn stuck_is_quiet()
    ensures { StuckIsQuiet }
{}

/// The solutions that the replay of a journal passes stand for a run of the machine, and the last
/// of them is sound. It does nothing.
pub fn replay_is_a_run()
    ensures { ReplayIsARun }
{}

/// The observed names that a solution of a run declares, with their counts, are the program's. It
/// does nothing.
pub fn declared_counts_stay()
    ensures { DeclaredCountsStay }
{}

/// A solution of a run has the version of its program. It does nothing.
pub fn version_stays()
    ensures { VersionStays }
{}

/// In a sound numbered solution two reactions of rules under different roots can be made in either
/// order, and both orders lead to the same but for the order of the observables that the two
/// append. It does nothing.
pub fn reactions_commute()
    ensures { ReactionsCommute }
{}

/// Each reaction that is possible takes atoms that stand in the solution, and makes what its rule's
/// body makes where it is poured with the names received. It does nothing.
pub fn reactions_take_and_make()
    ensures { ReactionsTakeAndMake }
{}

/// Reactions of rules under the root of one site lead to a sound solution, and change what they
/// take and make there and nothing under another root. It does nothing.
pub fn reactions_stay_at_home()
    ensures { ReactionsStayAtHome }
{}

/// Reactions of rules under the root of one site are possible, and take and make the same, in each
/// sound solution that has all that stands under that root. It does nothing.
pub fn reactions_are_local()
    ensures { ReactionsAreLocal }
{}

/// What sites do at once, each by reactions from the same sound solution, can be done site after
/// site, in the order of their numbers. It does nothing.
pub fn sites_at_once()
    ensures { SitesAtOnce }
{}

/// In a journal that replays no two events are equal, and no atom is taken more than once: as a
/// message of a reaction, or as the request of a move, a halt or a detection. It does nothing.
pub fn nothing_is_taken_twice()
    ensures { NothingIsTakenTwice }
{}
