// What is said of a text, and how it is told.
ghost use Rattle.std.specs.Prelude.{◌≡◌, ◌≤◌, length, IfOk, IfErr};
ghost use Rattle.scope_check.specs.Checked.{IsProgramOf};
ghost use Rattle.sort_check.specs.Judged.{MeansNoWrongAtom};
ghost use Rattle.text_program.specs.inside.Text.{NamesRefusal};
ghost use Rattle.sort_lines.specs.Lines.{lines_of};
ghost use Rattle.sort_judge.specs.Verdict.{IsVerdict, verdict_text, verdict_status};
ghost use Rattle.sort_judge.specs.Command.{IsTold};
ghost use Rattle.sort_judge.specs.inside.Said.{IsFaultOf};

use chem_model::{Items, Memory, Program, Text};
use join_base::Front;
use join_lex::lex;
use join_parse::{Tree, parse};
use scope_check::check;
use sort_check::{Judged, judge};
use sort_lines::{SortEnd, read_sorts};
use std::alloc::Global;
use trace_text::{push_all, push_number};

const YES: u8 = 0;

const NO: u8 = 7;

// A text, and the status that goes with it.
#[derive(Drop)]
pub struct Told {
    pub text: Text,
    pub status: u8,
}

// What is told of a text; or why it has no program. The text is let go before it is answered.
pub fn told_of(alloc: Global, text: Text) -> Result<Told, Front>
    requires { length text ≤ 1048576 }
    ensures told { IfOk result (λ told. IsTold text told.text told.status) }
    ensures refusal { IfErr result (NamesRefusal text) }
{
    let told = told_in(alloc, text.as_slice());
    drop(text);
    told
}

fn told_in(alloc: Global, text: &[u8]) -> Result<Told, Front>
    requires { length text.now ≤ 1048576 }
    ensures told { IfOk result (λ told. IsTold text.now told.text told.status) }
    ensures refusal { IfErr result (NamesRefusal text.now) }
{
    let tokens = lex(alloc, text)?;
    let tree = parse(alloc, &tokens)?;
    drop(tokens);
    let program = check(alloc, &tree)?;
    let verdict = verdict(alloc, text, &tree, &program)?;
    Ok(tell(alloc, verdict)?)
}

// The first fault of the sort lines of a text, and else what the judge answers by the sorts that
// they declare.
fn verdict(alloc: Global, text: &[u8], tree: &Tree, program: &Program) -> Result<Judged, Memory>
    requires short { length text.now ≤ 1048576 }
    requires program { IsProgramOf tree.now program.now }
    ensures verdict { IfOk result (IsVerdict (lines_of text.now) tree.now program.now) }
    ensures keeps { IfOk result (MeansNoWrongAtom program.now) }
{
    match read_sorts(alloc, text) {
        Ok(sorts) => judge(alloc, tree, program, &sorts),
        Err(end) => fault(end),
    }
}

// The fault that ends the reading of sort lines, as a verdict.
fn fault(end: SortEnd) -> Result<Judged, Memory>
    ensures { IfOk result (IsFaultOf end) }
{
    match end {
        SortEnd::Fault { kind, place } => Ok(Judged::No { kind, place }),
        SortEnd::Memory => Err(Memory),
    }
}

// The text that tells a verdict, and the status that goes with it.
fn tell(alloc: Global, verdict: Judged) -> Result<Told, Memory>
    ensures text { IfOk result (λ told. told.text ≡ verdict_text verdict) }
    ensures status { IfOk result (λ told. told.status ≡ verdict_status verdict) }
{
    match verdict {
        Judged::Yes => {
            let text = yes_text(alloc)?;
            Ok(Told { text, status: YES })
        }
        Judged::No { kind, place } => {
            let text = no_text(alloc, kind, place)?;
            Ok(Told { text, status: NO })
        }
    }
}

fn yes_text(alloc: Global) -> Result<Text, Memory>
    ensures { IfOk result (λ text. text ≡ verdict_text Judged.Yes) }
{
    let mut text = Items::new(alloc);
    push_all(&mut text, b"yes\n")?;
    Ok(text)
}

fn no_text(alloc: Global, kind: u32, place: u32) -> Result<Text, Memory>
    ensures { IfOk result (λ text. text ≡ verdict_text (Judged.No kind place)) }
{
    let mut text = Items::new(alloc);
    push_all(&mut text, b"no sort ")?;
    push_number(&mut text, u64::from(kind))?;
    push_all(&mut text, b" at ")?;
    push_number(&mut text, u64::from(place))?;
    push_all(&mut text, b"\n")?;
    Ok(text)
}
