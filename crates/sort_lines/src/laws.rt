// Laws of sort lines. Each function does nothing.
ghost use Rattle.sort_lines.specs.Lines.{LinesAreRead};
ghost use Rattle.sort_lines.specs.Outcomes.{LinesHaveOneOutcome};
ghost use Rattle.sort_lines.specs.inside.Reading.{ContentIsRead};

/// The sort lines among the pieces of a text are found by reading its bytes one after another. So
/// a text has the same ones in each version.
pub fn lines_of_pieces()
    ensures { LinesAreRead }
{}

/// A line reads so exactly where its tokens, read one after another, say so.
pub fn content_is_read()
    ensures { ContentIsRead }
{}

/// The sort lines of a text declare sorts or have a first fault, never both, and never two of them.
pub fn one_outcome()
    ensures { LinesHaveOneOutcome }
{}
