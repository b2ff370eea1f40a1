// The laws that tie the tree to a numbered solution, each on a function that does nothing.
ghost use Rattle.loc_tree.specs.Places.{IsTree};
ghost use Rattle.loc_tree.specs.Laws.{HoldsWhatIsThere, AliveIsLive, NumberIsOfRoot};
ghost use Rattle.loc_tree.specs.Laws.{MovesAsGoNeeds, FallsAsFallNeeds, DiesAsDetectNeeds};
ghost use Rattle.loc_tree.specs.Laws.{RootsAreOpened, BirthFollows, MoveFollows, MarkFollows};
ghost use Rattle.loc_tree.specs.Laws.{SoundHasTree, RootsAreSites};

/// A tree has the locations that are there. It does nothing.
pub fn holds_what_is_there()
    ensures { HoldsWhatIsThere }
{}

/// A location is alive exactly where it is live: neither it nor its root is marked. It does
/// nothing.
pub fn alive_is_live()
    ensures { AliveIsLive }
{}

/// The root of a location is that of its number. It does nothing.
pub fn number_is_of_root()
    ensures { NumberIsOfRoot }
{}

/// A location can move exactly where the rule Go has what it needs: it is live and has a host, and
/// the target is a live root. It does nothing.
pub fn moves_as_go_needs()
    ensures { MovesAsGoNeeds }
{}

/// A location can fall exactly where the rule Fall has what it needs, save for the version: it is
/// live and has a host, and the target is a dead root. It does nothing.
pub fn falls_as_fall_needs()
    ensures { FallsAsFallNeeds }
{}

/// Death is that of the machine: the rule Detect has what it needs exactly where the one location
/// is alive and the other is there and dead. It does nothing.
pub fn dies_as_detect_needs()
    ensures { DiesAsDetectNeeds }
{}

/// Unmarked roots are the locations with which an opening begins. It does nothing.
pub fn roots_are_opened()
    ensures { RootsAreOpened }
{}

/// A birth follows the solution that has the location more. It does nothing.
pub fn birth_follows()
    ensures { BirthFollows }
{}

/// A move follows the solution in which the host of the location is the target. It does nothing.
pub fn move_follows()
    ensures { MoveFollows }
{}

/// A mark follows the solution in which the location is marked. It does nothing.
pub fn mark_follows()
    ensures { MarkFollows }
{}

/// Each sound numbered solution has a tree: that of its locations, with their hosts' sites and
/// their marks. It does nothing.
pub fn sound_has_tree()
    ensures { SoundHasTree }
{}

/// A tree has as many roots as the sound solution has sites. It does nothing.
pub fn roots_are_sites()
    ensures { RootsAreSites }
{}
