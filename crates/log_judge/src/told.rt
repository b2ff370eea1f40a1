// What is told of a log.
ghost use Rattle.std.specs.Prelude.{◌≡◌, ◌<◌, ◌-◌, ◌^◌, length, IfOk, IfErr};
ghost use Rattle.run_check.specs.declared.answer.Verdict.{Verdict as verdict};
ghost use Rattle.run_check.specs.Verdict.{Judges};
ghost use Rattle.text_program.specs.inside.Text.{NamesRefusal};
ghost use Rattle.trace_text.specs.ReadLog.{parts};
ghost use Rattle.log_judge.specs.Judged.{no_text, IsYes, IsTold, IsJudgedAs};

use crate::ask::Ask;
use chem_model::{Items, Memory, Program, Text};
use join_base::Front;
use run_check::{Verdict, explain, explain_bytes, into_verdict};
use std::alloc::Global;
use text_program::program_of;
use trace_history::Book;
use trace_text::{Log, push_all, push_number};

const YES: u8 = 0;

const NO: u8 = 7;

// A text, and the status that goes with it.
#[derive(Drop)]
pub struct Told {
    pub text: Text,
    pub status: u8,
}

// What is told of a log, which is let go; or why its source has no program.
pub fn told_of(alloc: Global, ask: Ask, log: Log) -> Result<Told, Front>
    requires { length log.events < 2 ^ 32 - 1 }
    ensures told { IfOk result (λ told. IsJudgedAs ask (parts log) told.text told.status) }
    ensures refusal { IfErr result (NamesRefusal log.source) }
{
    let program = program_of(alloc, log.source.as_slice())?;
    Ok(tell_log(alloc, ask, &program, log)?)
}

// The same of a log whose source has this program.
fn tell_log(alloc: Global, ask: Ask, program: &Program, log: Log) -> Result<Told, Memory>
    requires { length log.events < 2 ^ 32 - 1 }
    ensures { IfOk result (λ told. (v : verdict) × Judges program.now (parts log) v
        × IsTold ask v told.text told.status) }
{
    let verdict = into_verdict(alloc, program, log)?;
    tell(alloc, ask, &verdict)
}

// The text that tells a verdict, and the status that goes with it.
fn tell(alloc: Global, ask: Ask, verdict: &Verdict) -> Result<Told, Memory>
    ensures { IfOk result (λ told. IsTold ask verdict.now told.text told.status) }
{
    match verdict {
        Verdict::Yes(book) => {
            let text = yes_text(alloc, ask, book)?;
            Ok(Told { text, status: YES })
        }
        Verdict::Event { index } => {
            let text = no_text(alloc, b"no event ", *index)?;
            Ok(Told { text, status: NO })
        }
        Verdict::Trace { place } => {
            let text = no_text(alloc, b"no trace ", *place)?;
            Ok(Told { text, status: NO })
        }
    }
}

// The text that tells a yes: that, or why what the run left is left.
fn yes_text(alloc: Global, ask: Ask, book: &Book) -> Result<Text, Memory>
    ensures { IfOk result (IsYes ask book.now) }
{
    match ask {
        Ask::Verdict => {
            let mut text = Items::new(alloc);
            push_all(&mut text, b"yes\n")?;
            Ok(text)
        }
        Ask::Causes => {
            let lefts = explain(alloc, book)?;
            explain_bytes(alloc, &lefts)
        }
    }
}

// The text that tells a no: what is wrong, and where.
fn no_text(alloc: Global, what: &[u8], place: u64) -> Result<Text, Memory>
    ensures { IfOk result (λ text. text ≡ no_text what.now place) }
{
    let mut text = Items::new(alloc);
    push_all(&mut text, what)?;
    push_number(&mut text, place)?;
    push_all(&mut text, b"\n")?;
    Ok(text)
}
