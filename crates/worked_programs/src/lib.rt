//! The program of a text, as the crates of tests want it.
#![tactic(auto)]

use chem_model::Program;
use join_base::Front;
use join_lex::lex;
use join_parse::parse;
use scope_check::check;
use std::alloc::Global;

/// The program of a text, or its first fault: the lexical one, else the grammar's, else that of
/// scope or arity.
pub fn program_of(alloc: Global, text: &[u8]) -> Result<Box<Program>, Front> {
    let tokens = lex(alloc, text)?;
    let tree = parse(alloc, &tokens)?;
    let program = check(alloc, &tree)?;
    Ok(Box::new(alloc, program)?)
}
