// The law of which names have a binder, on a function that does nothing.
ghost use Rattle.trace_history.specs.Given.{OnlyMadeNamesHaveBinders};

/// A number, an operation or an observed name has no binder in any solution of a run. It does
/// nothing.
pub fn only_made_names_have_binders()
    ensures { OnlyMadeNamesHaveBinders }
{}
