//! The program of a text, or its refusal.
ghost use Rattle.std.specs.Prelude.{◌≡◌, ◌++◌, ℕ, List, IfOk, IfErr};
ghost use Rattle.text_program.specs.Text.{IsProgramOfText, HasOneOutcome};
ghost use Rattle.text_program.specs.inside.Text.{NamesRefusal};
ghost use Rattle.text_program.specs.Text.{kind_text, refusal_line};

use chem_model::{Items, Memory, Program, Text};
use join_base::{Front, Kind};
use join_lex::lex;
use join_parse::parse;
use scope_check::check;
use std::alloc::Global;
use trace_text::{push_all, push_number};

/// The program of a text, or its first fault: the lexical one, else the grammar's, else that of
/// scope or arity.
pub fn program_of(alloc: Global, text: &[u8]) -> Result<Program, Front>
    ensures program { IfOk result (λ program. IsProgramOfText text.now program) }
    ensures refusal { IfErr result (λ front. NamesRefusal text.now front) }
{
    let tokens = lex(alloc, text)?;
    let tree = parse(alloc, &tokens)?;
    check(alloc, &tree)
}

/// A text has one program or one refusal, and never both. It does nothing.
pub fn one_outcome()
    ensures { (text : List ℕ) → HasOneOutcome text }
{
    join_lex::one_outcome();
    join_parse::one_outcome();
    scope_check::one_outcome();
}

/// The line of a refusal.
pub fn refusal_line(alloc: Global, kind: Kind, place: u32) -> Result<Text, Memory>
    ensures { IfOk result (λ line. line ≡ refusal_line kind place) }
{
    let mut line = Items::new(alloc);
    push_all(&mut line, kind_text(kind))?;
    push_all(&mut line, b" at ")?;
    push_number(&mut line, u64::from(place))?;
    push_all(&mut line, b"\n")?;
    Ok(line)
}

// The two words of a kind.
fn kind_text(kind: Kind) -> &'static [u8]
    ensures { result.now ≡ kind_text kind }
{
    match kind {
        Kind::Lex1 => b"lex 1",
        Kind::Lex2 => b"lex 2",
        Kind::Lex3 => b"lex 3",
        Kind::Grammar1 => b"grammar 1",
        Kind::Grammar2 => b"grammar 2",
        Kind::Scope1 => b"scope 1",
        Kind::Scope2 => b"scope 2",
        Kind::Scope3 => b"scope 3",
        Kind::Scope4 => b"scope 4",
        Kind::Scope5 => b"scope 5",
        Kind::Scope6 => b"scope 6",
        Kind::Arity1 => b"arity 1",
        Kind::Arity2 => b"arity 2",
        Kind::Arity3 => b"arity 3",
        Kind::Arity4 => b"arity 4",
    }
}
