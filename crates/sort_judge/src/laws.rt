// The law of verdicts, on a function that does nothing.
ghost use Rattle.std.specs.Prelude.{ℕ, List};
ghost use Rattle.sort_judge.specs.Verdict.{HasOneVerdict};

/// A text with a program has one verdict. It does nothing.
pub fn one_verdict()
    ensures { (text : List ℕ) → HasOneVerdict text }
{
    text_program::one_outcome();
    join_lex::one_outcome();
    join_parse::one_outcome();
    sort_lines::one_outcome();
    sort_check::one_judgement();
    sort_check::no_fault_no_wrong_atom();
}
