// Terms, programs and events: what is made, kept, copied and dropped.
ghost use denote.Param.Send.{IsSync};

use crate::expected::expect_bytes;
use chem_model::{
    AtomId, Defn, DefnNode, Defs, Event, Items, Journal, Loc, Memory, Name, Names, Out, Outs, Pat,
    Pats, Proc, ProcNode, Program, Ref, RuleId,
};
use chem_plain::replay;
use join_top::{Ended, Kept};
use std::alloc::{AllocError, Global};
use std::marker::Sync;
use std::process::Abort;
use std::sync::Wait;
use std::test::Fail;
use std::thread::Threads;
use worked_calls::ended_with;

// `def none in (process)`.
fn one_level(alloc: Global, process: Proc) -> Result<Proc, Memory> {
    let mut members = Items::new(alloc);
    members.push(process)?;
    Proc::def(alloc, Items::new(alloc), Proc::par(members))
}

// `def none in (def none in ( .. halt()))`, so many levels deep, each in a parallel composition.
fn nested(alloc: Global, levels: u32) -> Result<Proc, Memory> {
    let mut process = Proc::halt();
    for _level in 0..levels {
        process = one_level(alloc, process)?;
    }
    Ok(process)
}

#[test]
fn four_hundred_levels_are_copied_and_dropped(rt: HostRuntime) -> Result<(), Fail> {
    let process = nested(rt.alloc(), 400)?;
    let _copy = process.copy(rt.alloc())?;
    Ok(())
}

// `b()`, as the pattern of a rule.
fn a_pattern(alloc: Global) -> Result<Pats, Memory> {
    let mut pats: Pats = Items::new(alloc);
    pats.push(Pat {
        on: Ref::Binder(4),
        params: Items::new(alloc),
    })?;
    Ok(pats)
}

// `def b() => process in 0`.
fn one_rule(alloc: Global, process: Proc) -> Result<Proc, Memory> {
    let rule = Defn::rule(alloc, a_pattern(alloc)?, process)?;
    let mut defs: Defs = Items::new(alloc);
    defs.push(rule)?;
    Proc::def(alloc, defs, Proc::par(Items::new(alloc)))
}

// A rule in the body of a rule, and so on, so many levels deep.
fn nested_rules(alloc: Global, levels: u32) -> Result<Proc, Memory> {
    let mut process = Proc::halt();
    for _level in 0..levels {
        process = one_rule(alloc, process)?;
    }
    Ok(process)
}

#[test]
fn four_hundred_levels_of_rules_are_copied_and_dropped(rt: HostRuntime) -> Result<(), Fail> {
    let process = nested_rules(rt.alloc(), 400)?;
    let _copy = process.copy(rt.alloc())?;
    Ok(())
}

// A received name and a place.
fn two_names(alloc: Global) -> Result<Names, Memory> {
    let mut names: Names = Items::new(alloc);
    names.push(Name::Seen(3))?;
    names.push(Name::Place(Loc { site: 1, k: 0 }))?;
    Ok(names)
}

// That a copy has two names, those of the list.
fn expect_names(rt: &impl Abort, copy: &Names, names: &Names) {
    assert_eq!(rt; copy.len(), 2);
    assert_eq!(rt; copy.as_slice(), names.as_slice());
}

#[test]
fn a_list_and_its_copy(rt: HostRuntime) -> Result<(), Fail> {
    let names = two_names(rt.alloc())?;
    let copy = names.copy(rt.alloc())?;
    expect_names(&rt, &copy, &names);
    Ok(())
}

// `b[ none : go(t, k) ]`, with a binder for the place, and for the target and the continuation.
fn a_place(alloc: Global) -> Result<Defs, Memory> {
    let body = Proc::go(Ref::Binder(7), Ref::Binder(8));
    let place = Defn::place(alloc, Ref::Binder(4), Items::new(alloc), body)?;
    let mut defs: Defs = Items::new(alloc);
    defs.push(place)?;
    Ok(defs)
}

fn copied_place(alloc: Global) -> Result<Defs, Memory> {
    let defs = a_place(alloc)?;
    defs.copy(alloc)
}

// The names of a place and of the move that is its body.
fn names_of(place: &Defn) -> Option<(Ref, Ref, Ref)> {
    match place.node() {
        DefnNode::Place { name, body, .. } => match body.node() {
            ProcNode::Go { target, cont } => Some((*name, *target, *cont)),
            _ => None,
        },
        DefnNode::Rule { .. } => None,
    }
}

#[test]
fn a_place_and_its_copy(rt: HostRuntime) -> Result<(), Fail> {
    let copy = copied_place(rt.alloc())?;
    let place = copy.as_slice().first().ok_or("the place is gone")?;
    assert_eq!(rt;
        names_of(place),
        Some((Ref::Binder(4), Ref::Binder(7), Ref::Binder(8)))
    );
    Ok(())
}

// What a run of a text on one thread left.
fn ended_alone<R: AllocGlobal + Abort + Threads + Wait + Sync>(
    rt: &R,
    text: &str,
) -> Result<Box<Ended>, Memory>
    requires { IsSync R.row }
{
    ended_with(rt, &["alone", "--budget", "10"], text.as_bytes())
}

// The run that a call kept.
fn kept_of(ended: &Ended) -> Result<&Kept, Fail> {
    Ok(ended.kept.as_ref().ok_or("nothing is kept")?)
}

// The first message that the last event took, if it is a reaction.
fn last_taken(journal: &Journal) -> Option<u64> {
    match journal.as_slice().last() {
        Some(Event::React { took, .. }) => took.as_slice().first().map(|atom| atom.k),
        _ => None,
    }
}

// That a journal has ten events, the last of which took the message 12.
fn expect_journal(rt: &impl Abort, journal: &Journal) {
    assert_eq!(rt; journal.len(), 10);
    assert_eq!(rt; last_taken(journal), Some(12));
}

#[test]
fn a_journal_and_its_copy(rt: HostRuntime) -> Result<(), Fail> {
    let ended = ended_alone(&rt, "site s [ x() => x() : x() ]")?;
    let copy = kept_of(&ended)?.journal.copy(rt.alloc())?;
    expect_journal(&rt, &copy);
    Ok(())
}

// An observable with one name.
fn one_observable(alloc: Global) -> Result<Outs, Memory> {
    let args = Items::from_slice(alloc, &[Name::Seen(3)])?;
    let mut outs = Items::new(alloc);
    outs.push(Out { on: 5, args })?;
    Ok(outs)
}

fn copied_observable(alloc: Global) -> Result<Outs, Memory> {
    let outs = one_observable(alloc)?;
    outs.copy(alloc)
}

// That an observable is that one.
fn expect_observable(rt: &impl Abort, out: &Out) {
    assert_eq!(rt; out.on, 5);
    assert_eq!(rt; out.args.as_slice(), [Name::Seen(3)].as_slice());
}

#[test]
fn observables_and_their_copy(rt: HostRuntime) -> Result<(), Fail> {
    let copy = copied_observable(rt.alloc())?;
    let first = copy.as_slice().first().ok_or("the observable is gone")?;
    expect_observable(&rt, first);
    Ok(())
}

fn copied_program(alloc: Global, program: &Program) -> Result<Box<Program>, Memory> {
    let copy = program.copy(alloc)?;
    Ok(Box::new(alloc, copy)?)
}

// The spellings of a program's binders, one behind the other.
fn spellings(alloc: Global, program: &Program) -> Result<Vec<u8>, AllocError> {
    let mut spell = Vec::new(alloc);
    for text in program.spell.as_slice() {
        spell.extend_from_slice(text.as_slice())?;
    }
    Ok(spell)
}

// That the site defines two of a program's binders, and that one name is observed.
fn expect_counts(rt: &impl Abort, program: &Program) {
    assert_eq!(rt; program.tops, 2);
    let declared = program.seen.as_slice().first();
    assert_eq!(rt; declared.map(|declared| declared.count), Some(1));
}

// That a program has three binders, two of which the site defines, and one observed name.
fn expect_program(rt: &impl Abort, alloc: Global, program: &Program) -> Result<(), Fail> {
    expect_counts(rt, program);
    let spell = spellings(alloc, program)?;
    expect_bytes(rt, spell.as_slice(), b"sxu");
    Ok(())
}

// The names that the site defines are the first two binders, and the received name is the third.
#[test]
fn the_program_of_a_text(rt: HostRuntime) -> Result<(), Fail> {
    let ended = ended_alone(&rt, "observe out/1; site s [ x(u) => out(u) : x(s) ]")?;
    let copy = copied_program(rt.alloc(), &kept_of(&ended)?.program)?;
    expect_program(&rt, rt.alloc(), &copy)
}

// The rule of the first event, and the first message that it took.
fn first_reaction(journal: &Journal) -> Option<(RuleId, AtomId)> {
    match journal.as_slice().first() {
        Some(Event::React { rule, took }) => took.as_slice().first().map(|atom| (*rule, *atom)),
        _ => None,
    }
}

// The root has the number 0 and the channel 1, so that the rule is 0.2 and the message 0.3.
#[test]
fn the_kept_event(rt: HostRuntime) -> Result<(), Fail> {
    let ended = ended_alone(&rt, "observe out/1; site s [ x(u) => out(u) : x(s) ]")?;
    assert_eq!(rt;
        first_reaction(&kept_of(&ended)?.journal),
        Some((RuleId { site: 0, k: 2 }, AtomId { site: 0, k: 3 }))
    );
    Ok(())
}

// How many observables, and how many messages and requests, the replay of a kept journal ends
// with.
fn replayed(alloc: Global, kept: &Kept) -> Result<Option<(usize, usize)>, Memory> {
    let reached = replay(alloc, &kept.program, &kept.journal)?;
    Ok(reached.map(|solution| (solution.trace.len(), solution.atoms.len())))
}

#[test]
fn the_kept_journal_replays(rt: HostRuntime) -> Result<(), Fail> {
    let text = "observe out/1; site s [ x(u) => out(u) and y(u) => 0 : x(s) ]";
    let ended = ended_alone(&rt, text)?;
    assert_eq!(rt; replayed(rt.alloc(), kept_of(&ended)?), Ok(Some((1, 0))));
    Ok(())
}
