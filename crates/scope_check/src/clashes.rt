// The faults of definitions: what stands twice in a block or in a join pattern.
ghost use Rattle.std.specs.Prelude.{◌≡◌, [], OnOk, is_some};
ghost use Rattle.join_parse.specs.Source.{processes, definitions as source_definitions};
ghost use Rattle.scope_names.specs.Frames.{in_frame};
ghost use Rattle.join_base.specs.declared.fault.Kind.TheVariants as kind;
ghost use Rattle.scope_check.specs.inside.Order.{first_of};
ghost use Rattle.scope_check.specs.Blocks.{block as block_of, place_of};
ghost use Rattle.scope_check.specs.inside.FaultList.{fault as fault_at, clash as clash_of};
ghost use Rattle.scope_check.specs.inside.FaultList.{clashes as clashes_of, pattern_faults};
ghost use Rattle.scope_check.specs.inside.FaultList.{process_faults, processes_faults};
ghost use Rattle.scope_check.specs.inside.FaultList.{definition_faults, level_faults, repeated_if};
ghost use Rattle.scope_check.specs.inside.Clashes.{clash_with, remember, remember_all, clashes_in};
ghost use Rattle.scope_check.specs.inside.Clashes.{repeats_in, channel_repeats, parameter_repeats};

use crate::block::{Defining, block};
use crate::fault::{Fault, note};
use chem_model::Memory;
use join_base::Kind;
use join_parse::{
    DefNode, DefTree, DefTrees, PatTree, PlaceTree, ProcNode, ProcTree, ProcTrees, Word,
};
use scope_names::{Entry, Scope, Sort};
use std::alloc::Global;

fn note_at(least: &mut Option<Fault>, kind: Kind, word: &Word)
    ensures { least.new ≡ first_of least.old (fault_at kind word.now) }
{
    note(
        least,
        Fault {
            kind,
            place: word.place,
        },
    );
}

// A defining occurrence after the first one of its spelling.
fn clash(first: Sort, word: &Word, later: Sort, least: &mut Option<Fault>)
    ensures { least.new ≡ first_of least.old (clash_of first word.now later) }
{
    match (first, later) {
        (
            Sort::Channel { count, at },
            Sort::Channel {
                count: given,
                at: here,
            },
        ) => {
            if count != given {
                note_at(least, Kind::Arity2, word);
            }
            if at != here {
                note_at(least, Kind::Scope2, word);
            }
        }
        _ => note_at(least, Kind::Scope3, word),
    }
}

// Adds a spelling that isn't there yet.
fn keep<'a>(so_far: &mut Scope<'a>, word: &'a Word, sort: Sort) -> Result<(), Memory>
    ensures { OnOk result (so_far.new ≡ remember so_far.old word.now sort) }
{
    let text = word.text.as_slice();
    if so_far.find(text).is_none() {
        so_far.add(text, Entry { sort, binder: 0 })?;
    }
    Ok(())
}

fn clash_with_first(so_far: &Scope<'_>, word: &Word, later: Sort, least: &mut Option<Fault>)
    ensures { least.new
        ≡ first_of least.old (clash_with (in_frame word.now.text so_far.now) word.now later) }
{
    if let Some(entry) = so_far.find(word.text.as_slice()) {
        clash(entry.sort, word, later, least);
    }
}

// The faults of a block's names.
pub fn clashes(
    alloc: Global,
    names: &[Defining<'_>],
    least: &mut Option<Fault>,
) -> Result<(), Memory>
    ensures { OnOk result (least.new ≡ first_of least.old (clashes_in [] names.now)) }
{
    let mut so_far = Scope::new(alloc);
    for d in names {
        clash_with_first(&so_far, d.word, d.sort, least);
        keep(&mut so_far, d.word, d.sort)?;
    }
    Ok(())
}

fn repeat(so_far: &Scope<'_>, kind: Kind, word: &Word, least: &mut Option<Fault>)
    ensures { least.new
        ≡ first_of least.old
        (repeated_if (is_some (in_frame word.now.text so_far.now)) kind word.now) }
{
    if so_far.find(word.text.as_slice()).is_some() {
        note_at(least, kind, word);
    }
}

// The words with the spelling of an earlier one.
fn repeats<'a>(
    so_far: &mut Scope<'a>,
    words: &'a [Word],
    least: &mut Option<Fault>,
) -> Result<(), Memory>
    ensures so_far { OnOk result (so_far.new ≡ remember_all so_far.old words.now) }
    ensures least { OnOk result
        (least.new ≡ first_of least.old (repeats_in kind.Scope4 so_far.old words.now)) }
{
    for word in words {
        repeat(&*so_far, Kind::Scope4, word, least);
        keep(so_far, word, Sort::Parameter)?;
    }
    Ok(())
}

// The channels with the spelling of an earlier one.
fn repeated_channels(
    alloc: Global,
    pats: &[PatTree],
    least: &mut Option<Fault>,
) -> Result<(), Memory>
    ensures { OnOk result (least.new ≡ first_of least.old (channel_repeats [] pats.now)) }
{
    let mut so_far = Scope::new(alloc);
    for pat in pats {
        repeat(&so_far, Kind::Scope5, &pat.on, least);
        keep(&mut so_far, &pat.on, Sort::Parameter)?;
    }
    Ok(())
}

// The parameters with the spelling of an earlier one.
fn repeated_parameters(
    alloc: Global,
    pats: &[PatTree],
    least: &mut Option<Fault>,
) -> Result<(), Memory>
    ensures { OnOk result (least.new ≡ first_of least.old (parameter_repeats [] pats.now)) }
{
    let mut so_far = Scope::new(alloc);
    for pat in pats {
        repeats(&mut so_far, pat.params.as_slice(), least)?;
    }
    Ok(())
}

// The faults of a join pattern.
fn join(alloc: Global, pats: &[PatTree], least: &mut Option<Fault>) -> Result<(), Memory>
    ensures { OnOk result (least.new ≡ first_of least.old (pattern_faults pats.now)) }
{
    repeated_channels(alloc, pats, least)?;
    repeated_parameters(alloc, pats, least)?;
    Ok(())
}

// The faults of the names of a `def`.
#[tactic(auto, using(crate::proofs::Declares::all_clashes))]
fn block_faults(alloc: Global, defs: &DefTrees, least: &mut Option<Fault>) -> Result<(), Memory>
    ensures { OnOk result
        (least.new ≡ first_of least.old (clashes_of [] (block_of (source_definitions defs.now)))) }
{
    let mut names = Vec::new(alloc);
    block(&mut names, defs)?;
    clashes(alloc, names.as_slice(), least)?;
    Ok(())
}

// The faults of all definitions in a process.
#[cycle(declared)]
fn process(alloc: Global, p: &ProcTree, least: &mut Option<Fault>) -> Result<(), Memory>
    ensures { OnOk result (least.new ≡ first_of least.old (process_faults p.now)) }
{
    match p.node() {
        ProcNode::Zero
        | ProcNode::Msg { .. }
        | ProcNode::Add { .. }
        | ProcNode::Same { .. }
        | ProcNode::Go { .. }
        | ProcNode::Fail { .. }
        | ProcNode::Halt => Ok(()),
        ProcNode::Group(list) => body(alloc, list, least),
        ProcNode::Def { defs, body: list } => {
            block_faults(alloc, defs, least)?;
            level(alloc, defs, least)?;
            body(alloc, list, least)?;
            Ok(())
        }
    }
}

#[cycle(declared)]
fn body(alloc: Global, list: &ProcTrees, least: &mut Option<Fault>) -> Result<(), Memory>
    ensures { OnOk result (least.new ≡ first_of least.old (processes_faults (processes list.now))) }
{
    for p in list.as_slice() {
        process(alloc, p, least)?;
    }
    Ok(())
}

#[cycle(declared)]
fn definition(alloc: Global, d: &DefTree, least: &mut Option<Fault>) -> Result<(), Memory>
    ensures { OnOk result (least.new ≡ first_of least.old (definition_faults d.now)) }
{
    match d.node() {
        DefNode::Rule { pats, body: list } => {
            join(alloc, pats.as_slice(), least)?;
            body(alloc, list, least)?;
            Ok(())
        }
        DefNode::Place(tree) => place(alloc, tree, least),
    }
}

#[cycle(declared)]
pub fn place(alloc: Global, tree: &PlaceTree, least: &mut Option<Fault>) -> Result<(), Memory>
    ensures { OnOk result (least.new ≡ first_of least.old (definition_faults (place_of tree.now))) }
{
    level(alloc, &tree.defs, least)?;
    body(alloc, &tree.body, least)?;
    Ok(())
}

#[cycle(declared)]
fn level(alloc: Global, list: &DefTrees, least: &mut Option<Fault>) -> Result<(), Memory>
    ensures { OnOk result
        (least.new ≡ first_of least.old (level_faults (source_definitions list.now))) }
{
    for d in list.as_slice() {
        definition(alloc, d, least)?;
    }
    Ok(())
}
