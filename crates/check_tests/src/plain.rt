// What is said of a log by the plain program, which makes each event on copies of whole lists.

use chem_model::{
    Event, Items, Memory, Name, Names, Numbered, NumberedRule, Out, Pat, Program, Text, same_name,
};
use chem_plain::{apply, can_be_told, can_halt, can_move, meets, opening};
use std::alloc::Global;
use trace_text::{push_all, push_number};

// What is said of the events and the trace of a log.
#[derive(Clone, Copy, PartialEq, Eq, Debug)]
pub enum Said {
    Yes,
    // The first event that isn't possible.
    Event(u64),
    // The first byte of the trace that differs.
    Trace(u64),
}

// The solution that events lead to, or the first of them that isn't possible.
enum Reached {
    At(Box<Numbered>),
    Refused(u64),
}

fn opened(alloc: Global, program: &Program) -> Result<Box<Numbered>, Memory> {
    let solution = opening(alloc, program)?;
    Ok(Box::new(alloc, solution)?)
}

// One event more.
fn after(
    alloc: Global,
    solution: &Numbered,
    event: &Event,
) -> Result<Option<Box<Numbered>>, Memory> {
    match apply(alloc, solution, event)? {
        Some(next) => Ok(Some(Box::new(alloc, next)?)),
        None => Ok(None),
    }
}

fn made_all(alloc: Global, program: &Program, events: &[Event]) -> Result<Reached, Memory> {
    let mut solution = opened(alloc, program)?;
    for (index, event) in events.iter().enumerate() {
        match after(alloc, &solution, event)? {
            Some(next) => solution = next,
            None => return Ok(Reached::Refused(index as u64)),
        }
    }
    Ok(Reached::At(solution))
}

// Whether some message stands at the rule's location for this pattern.
fn is_met(solution: &Numbered, rule: &NumberedRule, pat: &Pat) -> bool {
    for atom in solution.atoms.as_slice() {
        if meets(rule.loc, pat, atom) {
            return true;
        }
    }
    false
}

// Whether a rule can react: its patterns are on channels that differ, so no message is met twice.
fn reacts(solution: &Numbered, rule: &NumberedRule) -> bool {
    for pat in rule.pats.as_slice() {
        if !is_met(solution, rule, pat) {
            return false;
        }
    }
    solution.is_live(rule.loc)
}

fn some_rule_reacts(solution: &Numbered) -> bool {
    for rule in solution.rules.as_slice() {
        if reacts(solution, rule) {
            return true;
        }
    }
    false
}

fn some_request_is_met(solution: &Numbered) -> bool {
    for atom in solution.atoms.as_slice() {
        let id = atom.id;
        if can_move(solution, id, atom)
            || can_halt(solution, id, atom)
            || can_be_told(solution, id, atom)
        {
            return true;
        }
    }
    false
}

// How the run ends that led to a solution.
fn ending(solution: &Numbered) -> &'static [u8] {
    if some_rule_reacts(solution) || some_request_is_met(solution) {
        b"stopped\n"
    } else {
        b"quiescent\n"
    }
}

// The binder for which a name was made.
fn binder_of(solution: &Numbered, name: Name) -> Option<u32> {
    for named in solution.named.as_slice() {
        if same_name(named.name, name) {
            return Some(named.binder);
        }
    }
    None
}

fn spelling(program: &Program, binder: u32) -> &[u8] {
    match program.spell.as_slice().get(binder as usize) {
        Some(spelling) => spelling.as_slice(),
        None => b"?",
    }
}

fn seen_spelling(program: &Program, declaration: u32) -> &[u8] {
    match program.seen.as_slice().get(declaration as usize) {
        Some(declared) => declared.spell.as_slice(),
        None => b"?",
    }
}

// The rank of a name, from 1: it gets the next one where it has none yet.
fn rank_of(ranked: &mut Names, name: Name) -> Result<u64, Memory> {
    for (place, other) in ranked.as_slice().iter().enumerate() {
        if same_name(*other, name) {
            return Ok((place as u64).saturating_add(1));
        }
    }
    ranked.push(name)?;
    Ok(ranked.len() as u64)
}

// Appends a name that was made, which has a rank where no site defines it.
fn push_made(
    text: &mut Text,
    program: &Program,
    ranked: &mut Names,
    binder: u32,
    name: Name,
) -> Result<(), Memory> {
    push_all(text, spelling(program, binder))?;
    if binder < program.tops {
        return Ok(());
    }
    push_all(text, b"'")?;
    push_number(text, rank_of(ranked, name)?)
}

fn push_name(
    text: &mut Text,
    program: &Program,
    solution: &Numbered,
    ranked: &mut Names,
    name: Name,
) -> Result<(), Memory> {
    match name {
        Name::Seen(declaration) => push_all(text, seen_spelling(program, declaration)),
        Name::Num(number) => push_number(text, number),
        _ => push_made(
            text,
            program,
            ranked,
            binder_of(solution, name).unwrap_or(0),
            name,
        ),
    }
}

fn push_names(
    text: &mut Text,
    program: &Program,
    solution: &Numbered,
    ranked: &mut Names,
    names: &[Name],
) -> Result<(), Memory> {
    for (place, name) in names.iter().enumerate() {
        if place > 0 {
            push_all(text, b", ")?;
        }
        push_name(text, program, solution, ranked, *name)?;
    }
    Ok(())
}

fn push_out(
    text: &mut Text,
    program: &Program,
    solution: &Numbered,
    ranked: &mut Names,
    out: &Out,
) -> Result<(), Memory> {
    push_all(text, seen_spelling(program, out.on))?;
    push_all(text, b"(")?;
    push_names(text, program, solution, ranked, out.args.as_slice())?;
    push_all(text, b")\n")
}

fn push_outs(
    text: &mut Text,
    ranked: &mut Names,
    program: &Program,
    solution: &Numbered,
) -> Result<(), Memory> {
    for out in solution.trace.as_slice() {
        push_out(text, program, solution, ranked, out)?;
    }
    push_all(text, ending(solution))
}

// The text of the trace of a solution.
fn trace_of(alloc: Global, program: &Program, solution: &Numbered) -> Result<Text, Memory> {
    let mut text = Items::new(alloc);
    let mut ranked = Items::new(alloc);
    push_outs(&mut text, &mut ranked, program, solution)?;
    Ok(text)
}

// What is said of a trace beside the one that the events have.
fn compared(trace: &[u8], want: &[u8]) -> Said {
    for (place, byte) in trace.iter().enumerate() {
        if want.get(place) != Some(byte) {
            return Said::Trace(place as u64);
        }
    }
    if trace.len() == want.len() {
        Said::Yes
    } else {
        Said::Trace(trace.len() as u64)
    }
}

// What is said of these events and this trace.
pub fn said_of(
    alloc: Global,
    program: &Program,
    events: &[Event],
    trace: &[u8],
) -> Result<Said, Memory> {
    match made_all(alloc, program, events)? {
        Reached::Refused(index) => Ok(Said::Event(index)),
        Reached::At(solution) => {
            let want = trace_of(alloc, program, &solution)?;
            Ok(compared(trace, want.as_slice()))
        }
    }
}

fn told(alloc: Global, what: &[u8], place: u64) -> Result<Text, Memory> {
    let mut text = Items::from_slice(alloc, what)?;
    push_number(&mut text, place)?;
    push_all(&mut text, b"\n")?;
    Ok(text)
}

impl Said {
    // The status that goes with it.
    pub fn status(self) -> u8 {
        match self {
            Said::Yes => 0,
            Said::Event(_) | Said::Trace(_) => 7,
        }
    }

    // The line that tells it.
    pub fn line(self, alloc: Global) -> Result<Text, Memory> {
        match self {
            Said::Yes => Items::from_slice(alloc, b"yes\n"),
            Said::Event(index) => told(alloc, b"no event ", index),
            Said::Trace(place) => told(alloc, b"no trace ", place),
        }
    }
}
