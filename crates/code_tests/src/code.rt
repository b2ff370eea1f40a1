// What is expected of the code of a text.

use chem_model::{Loc, Memory, Name};
use env_store::{Bits, Code, Instr, Slot};
use guard_compile::{compile, top_names};
use std::alloc::Global;
use std::process::Abort;
use worked_programs::program_of;

// Whose body it is.
#[derive(Clone, Copy)]
pub enum Body {
    // That of the rule with this guard.
    Rule(usize),
    // That of the place of this level.
    Place(usize),
    // That of the first site.
    Site,
}

// What a code has. Levels, guards and the instructions of a body go by their numbers.
#[derive(Clone, Copy)]
pub enum Fact {
    // So many levels, guards, blocks, bodies and sites.
    Sizes([usize; 5]),
    // The counts of the observed names.
    Seen(&'static [u32]),
    // The locations that the sites define.
    Tops(&'static [Loc]),
    // The depth of a level, the first of its guards and how many there are, and its place.
    Level(usize, [u32; 3], Option<u32>),
    // The counts of a level's channels: how many there are, and the first.
    Counts(usize, usize, u32),
    // The levels of the block of a level, and how many names it makes.
    Block(usize, &'static [u32], u32),
    // A guard's level, and how many locations its body opens and messages it pours.
    Guard(usize, [u32; 3]),
    // The words of a guard's mask.
    Mask(usize, &'static [u64]),
    // An instruction that sends, with at most one argument.
    Send(Body, usize, Slot, Option<Slot>),
    // An instruction that enters a block with so many names.
    Enter(Body, usize, u32),
    // An instruction that drops so many names.
    Leave(Body, usize, u32),
    // How many instructions a body has.
    Length(Body, usize),
}

fn has_sizes(code: &Code, sizes: [usize; 5]) -> bool {
    code.levels.len() == sizes[0]
        && code.guards.len() == sizes[1]
        && code.blocks.len() == sizes[2]
        && code.bodies.len() == sizes[3]
        && code.sites.len() == sizes[4]
}

fn has_level(code: &Code, number: usize, numbers: [u32; 3], place: Option<u32>) -> bool {
    match code.levels.as_slice().get(number) {
        Some(level) => [level.depth, level.first, level.guards] == numbers && level.place == place,
        None => false,
    }
}

fn has_counts(code: &Code, number: usize, many: usize, first: u32) -> bool {
    match code.levels.as_slice().get(number) {
        Some(level) => {
            level.counts.len() == many && level.counts.as_slice().first() == Some(&first)
        }
        None => false,
    }
}

// Whether a block has these levels and makes so many names.
fn is_block(code: &Code, number: u32, levels: &[u32], names: u32) -> bool {
    match code.blocks.as_slice().get(number as usize) {
        Some(block) => block.levels.as_slice() == levels && block.names == names,
        None => false,
    }
}

fn has_block(code: &Code, of_level: usize, levels: &[u32], names: u32) -> bool {
    match code.levels.as_slice().get(of_level) {
        Some(level) => is_block(code, level.block, levels, names),
        None => false,
    }
}

fn has_guard(code: &Code, number: usize, numbers: [u32; 3]) -> bool {
    match code.guards.as_slice().get(number) {
        Some(guard) => [guard.level, guard.births, guard.sends] == numbers,
        None => false,
    }
}

fn has_words(mask: &Bits, words: &[u64]) -> bool {
    if mask.len() != words.len() {
        return false;
    }
    for place in 0..words.len() {
        if mask.word(place) != words[place] {
            return false;
        }
    }
    true
}

fn has_mask(code: &Code, number: usize, words: &[u64]) -> bool {
    match code.guards.as_slice().get(number) {
        Some(guard) => has_words(&guard.mask.words, words),
        None => false,
    }
}

// The number of a body.
fn body_of(code: &Code, whose: Body) -> Option<u32> {
    match whose {
        Body::Rule(guard) => code.guards.as_slice().get(guard).map(|g| g.body),
        Body::Place(level) => code.levels.as_slice().get(level)?.body,
        Body::Site => code.sites.as_slice().first().map(|s| s.body),
    }
}

fn instr(code: &Code, whose: Body, at: usize) -> Option<&Instr> {
    let instrs = code.bodies.as_slice().get(body_of(code, whose)? as usize)?;
    instrs.as_slice().get(at)
}

fn length(code: &Code, whose: Body) -> Option<usize> {
    let instrs = code.bodies.as_slice().get(body_of(code, whose)? as usize)?;
    Some(instrs.len())
}

fn sends(instr: Option<&Instr>, channel: Slot, arg: Option<Slot>) -> bool {
    match instr {
        Some(Instr::Send { on, args }) => {
            *on == channel && args.len() <= 1 && args.as_slice().first().copied() == arg
        }
        _ => false,
    }
}

// Whether a block makes so many names.
fn has_names(code: &Code, block: u32, names: u32) -> bool {
    match code.blocks.as_slice().get(block as usize) {
        Some(block) => block.names == names,
        None => false,
    }
}

fn enters(code: &Code, instr: Option<&Instr>, names: u32) -> bool {
    match instr {
        Some(Instr::Enter { block }) => has_names(code, *block, names),
        _ => false,
    }
}

fn leaves(instr: Option<&Instr>, names: u32) -> bool {
    match instr {
        Some(Instr::Leave { count }) => *count == names,
        _ => false,
    }
}

// Whether the code is as the fact says.
fn holds(code: &Code, fact: &Fact) -> bool {
    match fact {
        Fact::Sizes(sizes) => has_sizes(code, *sizes),
        Fact::Seen(counts) => code.seen.as_slice() == *counts,
        Fact::Tops(tops) => code.tops.as_slice() == *tops,
        Fact::Level(number, numbers, place) => has_level(code, *number, *numbers, *place),
        Fact::Counts(number, many, first) => has_counts(code, *number, *many, *first),
        Fact::Block(of_level, levels, names) => has_block(code, *of_level, *levels, *names),
        Fact::Guard(number, numbers) => has_guard(code, *number, *numbers),
        Fact::Mask(number, words) => has_mask(code, *number, *words),
        Fact::Send(whose, at, on, arg) => sends(instr(code, *whose, *at), *on, *arg),
        Fact::Enter(whose, at, names) => enters(code, instr(code, *whose, *at), *names),
        Fact::Leave(whose, at, names) => leaves(instr(code, *whose, *at), *names),
        Fact::Length(whose, count) => length(code, *whose) == Some(*count),
    }
}

fn boxed(alloc: Global, code: Result<Code, Memory>) -> Option<Box<Code>> {
    match code {
        Ok(code) => Box::new(alloc, code).ok(),
        Err(_) => None,
    }
}

fn code_of(alloc: Global, text: &[u8]) -> Option<Box<Code>> {
    match program_of(alloc, text) {
        Ok(program) => boxed(alloc, compile(alloc, &program)),
        Err(_) => None,
    }
}

// A copy of the code of a text.
fn copied(alloc: Global, text: &[u8]) -> Option<Box<Code>> {
    let code = code_of(alloc, text)?;
    boxed(alloc, code.copy(alloc))
}

// That the code is as each of these facts says.
fn expect_each(rt: &impl Abort, code: &Code, facts: &[Fact]) {
    for (index, fact) in facts.iter().enumerate() {
        assert!(rt; holds(code, fact), "fact {index}");
    }
}

// That a copy of the code of this text is as each of these facts says.
pub fn expect_code(rt: &impl Abort, alloc: Global, text: &[u8], facts: &[Fact]) {
    match copied(alloc, text) {
        Some(code) => expect_each(rt, &code, facts),
        None => assert!(rt; false, "no code"),
    }
}

// Whether these are the names of the site-level binders of a text.
pub fn has_top_names(alloc: Global, text: &[u8], names: &[Name]) -> bool {
    match program_of(alloc, text) {
        Ok(program) => match top_names(alloc, &program) {
            Ok(found) => found.as_slice() == names,
            Err(_) => false,
        },
        Err(_) => false,
    }
}
