// The law of reactions. Whoever calls it has the law.
ghost use Rattle.reducer.specs.Reacting.{ReactionIsOneEvent};

/// Where a site takes the fronts of a covered guard of a live location and runs the guard's body,
/// this is the event of the pick, in each sound solution of which the site is a part. It does
/// nothing.
pub fn reaction_is_one_event()
    ensures { ReactionIsOneEvent }
{}
