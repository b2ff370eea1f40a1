// Which run it is.
use std::marker::Brand;
use std::sync::ledger::Ledger;

/// A run on threads: its ledger, and its program. Whoever begins a run passes `Brand` for it, and
/// its proof picks both there; so what is of one run is never taken for what is of another.
pub trait Run: Ledger {
    ghost use Rattle.chem_model.specs.ProgramFacts.{ProgramTerms};

    ghost program: { ProgramTerms };
}

impl Run for Brand {
    ghost use Rattle.std.specs.Prelude.{[]};

    ghost program = { record { version = 1; seen = []; sites = []; tops = 0; spell = [] } };
}
