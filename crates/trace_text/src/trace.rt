// The trace of a run as a text, a line an observable.
ghost use Rattle.std.specs.Prelude.{◌≡◌, ◌+◌, ◌++◌, codes, decimal, IfOk, OnOk, OnErr};
ghost use Rattle.trace_text.specs.TraceText.{place_in, name_text, made_text, names_text};
ghost use Rattle.trace_text.specs.TraceText.{out_text, outs_text, ending_text, trace_text};
ghost use Rattle.trace_text.specs.inside.Later.{later_text};
ghost use Rattle.trace_text.specs.Printed.{IsTraceOf};

use crate::names::{binder_spelling, is_ranked, ranked, seen_spelling};
use crate::tables::{Binders, Ranks};
use crate::text::{Ending, push_all, push_number};
use chem_model::{Items, Memory, Name, Names, Naming, Out, Outs, Program, Text};
use std::alloc::Global;
use trace_history::Book;

/// The text of a book's trace, where the run ends so: a line for each observable in order, then how
/// the run ended. Each line ends with a line feed.
///
/// A line is the observed name's spelling and, in round brackets, the arguments joined by a comma
/// and a space. Observed and site-level names are written by their spelling. Any other name has `'`
/// and its rank behind it, which counts such names from 1 by first appearance in the trace. A
/// number is written in decimal, without leading zeros.
pub fn trace_bytes(alloc: Global, book: &Book, ending: Ending) -> Result<Text, Memory>
    ensures { IfOk result (λ text. IsTraceOf book.now ending text) }
{
    run_text(alloc, book.program(), book.names(), book.trace(), ending)
}

// The text of these observables, where `named` are the names that were given in the run.
fn run_text(
    alloc: Global,
    program: &Program,
    named: &Naming,
    outs: &Outs,
    ending: Ending,
) -> Result<Text, Memory>
    ensures { IfOk result (λ text. text ≡ trace_text program.now named.now outs.now ending) }
{
    let binders = Binders::of(alloc, named)?;
    let text = text_by(alloc, program, &binders, outs, ending);
    drop(binders);
    text
}

// The same, where it is known for which binder each name was made.
fn text_by(
    alloc: Global,
    program: &Program,
    binders: &Binders,
    outs: &Outs,
    ending: Ending,
) -> Result<Text, Memory>
    ensures { IfOk result (λ text. text ≡ trace_text program.now binders.now outs.now ending) }
{
    let ranks = ranked(alloc, program, binders, outs)?;
    let text = ranked_text(alloc, program, binders, &ranks, outs, ending);
    drop(ranks);
    text
}

// The same, where the names that have a rank are known too.
fn ranked_text(
    alloc: Global,
    program: &Program,
    binders: &Binders,
    ranks: &Ranks,
    outs: &Outs,
    ending: Ending,
) -> Result<Text, Memory>
    ensures { IfOk result (λ text. text
        ≡ outs_text program.now binders.now ranks.now outs.now ++ ending_text ending) }
{
    let mut text = Items::new(alloc);
    push_outs(&mut text, program, binders, ranks, outs)?;
    push_ending(&mut text, ending)?;
    Ok(text)
}

/// Appends the line of an ending: all of it, or nothing.
pub fn push_ending(text: &mut Text, ending: Ending) -> Result<(), Memory>
    ensures ok { OnOk result (text.new ≡ text.old ++ ending_text ending) }
    ensures err { OnErr result (text.new ≡ text.old) }
{
    match ending {
        Ending::Quiescent => push_all(text, b"quiescent\n"),
        Ending::Stopped => push_all(text, b"stopped\n"),
    }
}

// Appends the line of each observable.
fn push_outs(
    text: &mut Text,
    program: &Program,
    binders: &Binders,
    ranks: &Ranks,
    outs: &Outs,
) -> Result<(), Memory>
    ensures { OnOk result (text.new ≡
        text.old ++ outs_text program.now binders.now ranks.now outs.now) }
{
    for out in outs.as_slice() {
        push_out(text, program, binders, ranks, out)?;
    }
    Ok(())
}

fn push_out(
    text: &mut Text,
    program: &Program,
    binders: &Binders,
    ranks: &Ranks,
    out: &Out,
) -> Result<(), Memory>
    ensures { OnOk result (text.new ≡
        text.old ++ out_text program.now binders.now ranks.now out.now) }
{
    push_all(text, seen_spelling(program, out.on))?;
    push_all(text, b"(")?;
    push_names(text, program, binders, ranks, &out.args)?;
    push_all(text, b")\n")
}

// Appends names, joined by a comma and a space.
fn push_names(
    text: &mut Text,
    program: &Program,
    binders: &Binders,
    ranks: &Ranks,
    names: &Names,
) -> Result<(), Memory>
    ensures { OnOk result (text.new ≡
        text.old ++ names_text program.now binders.now ranks.now names.now) }
{
    let members = names.as_slice();
    let [first, others @ ..] = members else {
        return Ok(());
    };
    push_name(text, program, binders, ranks, *first)?;
    push_later(text, program, binders, ranks, others)?;
    Ok(())
}

// Appends names, each behind a comma and a space.
fn push_later(
    text: &mut Text,
    program: &Program,
    binders: &Binders,
    ranks: &Ranks,
    names: &[Name],
) -> Result<(), Memory>
    ensures { OnOk result (text.new ≡
        text.old ++ later_text program.now binders.now ranks.now names.now) }
{
    for name in names {
        push_all(text, b", ")?;
        push_name(text, program, binders, ranks, *name)?;
    }
    Ok(())
}

fn push_name(
    text: &mut Text,
    program: &Program,
    binders: &Binders,
    ranks: &Ranks,
    name: Name,
) -> Result<(), Memory>
    ensures { OnOk result (text.new ≡
        text.old ++ name_text program.now binders.now ranks.now name) }
{
    match name {
        Name::Seen(declaration) => push_all(text, seen_spelling(program, declaration)),
        Name::Place(_) | Name::Chan { .. } => push_made(text, program, binders, ranks, name),
        Name::Num(number) => push_number(text, number),
        // An operation is no argument, so it is in no trace.
        Name::Op(_) => Ok(()),
    }
}

// Appends a name that was made.
fn push_made(
    text: &mut Text,
    program: &Program,
    binders: &Binders,
    ranks: &Ranks,
    name: Name,
) -> Result<(), Memory>
    ensures { OnOk result (text.new ≡
        text.old ++ made_text program.now binders.now ranks.now name) }
{
    push_all(text, binder_spelling(program, binders.get(name)))?;
    if is_ranked(program, binders, name) {
        push_rank(text, ranks, name)
    } else {
        Ok(())
    }
}

// Appends `'` and the rank of a name.
fn push_rank(text: &mut Text, ranks: &Ranks, name: Name) -> Result<(), Memory>
    ensures { OnOk result (text.new ≡
        text.old ++ codes "'" ++ decimal (place_in name ranks.now + 1)) }
{
    push_all(text, b"'")?;
    push_number(text, ranks.place(name) as u64 + 1)
}
