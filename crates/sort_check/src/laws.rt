// The laws of the judge, each on a function that does nothing.
ghost use Rattle.sort_check.specs.Judged.{NoFaultNoWrongAtom, TreesHaveOneJudgement};

/// Where a tree has no fault by declared sorts, no solution of a replay of its program holds a
/// wrong atom. It does nothing.
pub fn no_fault_no_wrong_atom()
    ensures { NoFaultNoWrongAtom }
{}

/// By declared sorts a tree has no fault or a first one, and never both. It does nothing.
pub fn one_judgement()
    ensures { TreesHaveOneJudgement }
{}
