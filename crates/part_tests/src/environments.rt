// Environments by their worked row, and copies of code.
use chem_model::{Items, Loc, Memory, Name};
use env_store::{Bits, Env, Guard, Instr, Instrs, Level, Mask, Slot, copy_instrs, extend, lookup};
use std::alloc::Global;
use wire_packet::SharedEnv;

const ROOT: Name = Name::Place(Loc { site: 0, k: 0 });

// No names, and then the root.
fn one_more(alloc: Global) -> Result<Env, Memory> {
    let more = Items::from_slice(alloc, &[ROOT])?;
    extend(alloc, &Items::new(alloc), &more)
}

// Whether it is the root alone, and a known name isn't looked for in it.
fn has_the_root(env: &Env) -> bool {
    env.len() == 1
        && lookup(env, &Slot::Env(0)) == ROOT
        && lookup(env, &Slot::Known(Name::Seen(7))) == Name::Seen(7)
}

fn is_extended(alloc: Global) -> bool {
    match one_more(alloc) {
        Ok(env) => has_the_root(&env),
        Err(_) => false,
    }
}

#[test]
fn one_name_more(rt: HostRuntime) {
    assert!(rt; is_extended(rt.alloc()));
}

// The root alone, shared once more. The first share is gone.
fn shared_once_more(alloc: Global) -> Result<SharedEnv, Memory> {
    let names = one_more(alloc)?;
    let first = SharedEnv::new(alloc, names)?;
    first.share()
}

fn is_shared(alloc: Global) -> bool {
    match shared_once_more(alloc) {
        Ok(env) => env.len() == 1 && has_the_root(env.names()),
        Err(_) => false,
    }
}

#[test]
fn a_share_outlives_the_first(rt: HostRuntime) {
    assert!(rt; is_shared(rt.alloc()));
}

fn a_guard(alloc: Global) -> Result<Guard, Memory> {
    let mut words = Bits::zeros(alloc, 1);
    words.set(2)?;
    words.set(0)?;
    Ok(Guard {
        level: 1,
        mask: Mask { words },
        chans: Items::from_slice(alloc, &[2, 0])?,
        body: 3,
        births: 4,
        sends: 6,
    })
}

fn is_the_guard(guard: &Guard) -> bool {
    guard.level == 1
        && guard.mask.words.len() == 1
        && guard.mask.words.word(0) == 5
        && guard.chans.as_slice() == [2u32, 0].as_slice()
        && guard.body == 3
        && guard.births == 4
        && guard.sends == 6
}

fn copied_guard(alloc: Global) -> Result<Guard, Memory> {
    let guard = a_guard(alloc)?;
    guard.copy(alloc)
}

fn is_guard_copied(alloc: Global) -> bool {
    match copied_guard(alloc) {
        Ok(copy) => is_the_guard(&copy),
        Err(_) => false,
    }
}

fn a_level(alloc: Global) -> Result<Level, Memory> {
    Ok(Level {
        block: 1,
        place: Some(2),
        counts: Items::from_slice(alloc, &[3])?,
        depth: 4,
        first: 5,
        guards: 6,
        body: Some(7),
    })
}

fn is_the_level(level: &Level) -> bool {
    level.block == 1
        && level.place == Some(2)
        && level.counts.as_slice() == [3u32].as_slice()
        && level.depth == 4
        && level.first == 5
        && level.guards == 6
        && level.body == Some(7)
}

fn copied_level(alloc: Global) -> Result<Level, Memory> {
    let level = a_level(alloc)?;
    level.copy(alloc)
}

fn is_level_copied(alloc: Global) -> bool {
    match copied_level(alloc) {
        Ok(copy) => is_the_level(&copy),
        Err(_) => false,
    }
}

fn push_two(list: &mut Instrs) -> Result<(), Memory> {
    list.push(Instr::Enter { block: 1 })?;
    list.push(Instr::Leave { count: 2 })
}

fn copied_instrs(alloc: Global) -> Result<Instrs, Memory> {
    let mut list = Items::new(alloc);
    push_two(&mut list)?;
    copy_instrs(alloc, &list)
}

fn are_instrs_copied(alloc: Global) -> bool {
    match copied_instrs(alloc) {
        Ok(copy) => copy.len() == 2,
        Err(_) => false,
    }
}

#[test]
fn copies_are_equal(rt: HostRuntime) {
    assert!(rt; is_guard_copied(rt.alloc()));
    assert!(rt; is_level_copied(rt.alloc()));
    assert!(rt; are_instrs_copied(rt.alloc()));
}
