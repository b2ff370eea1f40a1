// The names of a trace: their spellings and their ranks.
ghost use Rattle.std.specs.Prelude.{◌≡◌, IfOk, OnOk};
ghost use Rattle.trace_text.specs.TraceText.{seen_spelling, binder_spelling, is_ranked};
ghost use Rattle.trace_text.specs.TraceText.{arguments, ranked_after, ranked};

use crate::tables::{Binders, Ranks};
use chem_model::{Memory, Name, Names, Outs, Program};
use std::alloc::Global;

// The spelling of the observed name of a declaration.
pub(crate) fn seen_spelling(program: &Program, declaration: u32) -> &[u8]
    ensures { result.now ≡ seen_spelling program.now.seen declaration }
{
    match program.seen.as_slice().get(declaration as usize) {
        Some(declared) => declared.spell.as_slice(),
        None => &[],
    }
}

// The spelling of the binder for which a name was made.
pub(crate) fn binder_spelling(program: &Program, binder: Option<u32>) -> &[u8]
    ensures { result.now ≡ binder_spelling program.now binder }
{
    match binder {
        Some(binder) => match program.spell.as_slice().get(binder as usize) {
            Some(spelling) => spelling.as_slice(),
            None => &[],
        },
        None => &[],
    }
}

// Whether a name has a rank: it was made, and for no site-level binder.
pub(crate) fn is_ranked(program: &Program, binders: &Binders, name: Name) -> bool
    ensures { result ≡ is_ranked program.now binders.now name }
{
    match name {
        Name::Seen(_) | Name::Num(_) | Name::Op(_) => false,
        Name::Place(_) | Name::Chan { .. } => match binders.get(name) {
            Some(binder) => binder >= program.tops,
            None => false,
        },
    }
}

// The names of a trace that have a rank, in order of first appearance.
pub(crate) fn ranked(
    alloc: Global,
    program: &Program,
    binders: &Binders,
    outs: &Outs,
) -> Result<Ranks, Memory>
    ensures { IfOk result (λ ranks. ranks ≡ ranked program.now binders.now outs.now) }
{
    let mut ranks = Ranks::new(alloc);
    match add_all_ranked(&mut ranks, program, binders, outs) {
        Ok(()) => Ok(ranks),
        Err(memory) => {
            drop(ranks);
            Err(memory)
        }
    }
}

// Appends those arguments of observables that have a rank and don't stand there yet.
fn add_all_ranked(
    ranks: &mut Ranks,
    program: &Program,
    binders: &Binders,
    outs: &Outs,
) -> Result<(), Memory>
    ensures { OnOk result
        (ranks.new ≡ ranked_after program.now binders.now ranks.old (arguments outs.now)) }
{
    for out in outs.as_slice() {
        add_ranked(ranks, program, binders, &out.args)?;
    }
    Ok(())
}

// Appends those arguments that have a rank and don't stand there yet.
fn add_ranked(
    ranks: &mut Ranks,
    program: &Program,
    binders: &Binders,
    args: &Names,
) -> Result<(), Memory>
    ensures { OnOk result (ranks.new ≡ ranked_after program.now binders.now ranks.old args.now) }
{
    for arg in args.as_slice() {
        if is_ranked(program, binders, *arg) {
            ranks.add(*arg)?;
        }
    }
    Ok(())
}
