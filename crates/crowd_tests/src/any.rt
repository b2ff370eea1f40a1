// Any event that is possible, looked for slowly, and events near to it that aren't.

use crate::by_lists::{received, with_one_more};
use chem_model::{AtomId, Atoms, Event, Memory, Numbered, NumberedRule};
use chem_plain::is_enabled;
use std::alloc::{AllocError, Global};

// Adds an event, where it is possible.
fn add_event(events: &mut Vec<Event>, solution: &Numbered, event: Event) -> Result<(), AllocError> {
    if is_enabled(solution, &event) {
        events.push(event)?;
    }
    Ok(())
}

// Adds the reactions of a rule.
fn add_reactions(
    alloc: Global,
    events: &mut Vec<Event>,
    solution: &Numbered,
    rule: &NumberedRule,
) -> Result<(), Memory> {
    for took in received(alloc, solution, rule)? {
        let event = Event::React {
            rule: rule.id,
            took,
        };
        add_event(events, solution, event)?;
    }
    Ok(())
}

// Adds the events that meet a request.
fn add_meetings(
    events: &mut Vec<Event>,
    solution: &Numbered,
    atom: AtomId,
) -> Result<(), AllocError> {
    add_event(events, solution, Event::Move { atom })?;
    add_event(events, solution, Event::Halt { atom })?;
    add_event(events, solution, Event::Detect { atom })
}

// All events that are possible.
fn all_events(alloc: Global, solution: &Numbered) -> Result<Vec<Event>, Memory> {
    let mut events = Vec::new(alloc);
    for rule in solution.rules.as_slice() {
        add_reactions(alloc, &mut events, solution, rule)?;
    }
    for atom in solution.atoms.as_slice() {
        add_meetings(&mut events, solution, atom.id)?;
    }
    Ok(events)
}

// One of these events, by a number.
fn one_of(alloc: Global, events: &[Event], number: u64) -> Result<Option<Event>, Memory> {
    let count = events.len() as u64;
    if count == 0 {
        return Ok(None);
    }
    match events.get((number % count) as usize) {
        Some(event) => Ok(Some(event.copy(alloc)?)),
        None => Ok(None),
    }
}

// One of the events that are possible, by a number.
pub fn any_by_lists(
    alloc: Global,
    solution: &Numbered,
    number: u64,
) -> Result<Option<Event>, Memory> {
    let events = all_events(alloc, solution)?;
    one_of(alloc, events.as_slice(), number)
}

// The list with its first message once more at the end.
fn with_the_first_again(alloc: Global, took: &Atoms) -> Result<Atoms, Memory> {
    match took.as_slice().first() {
        Some(id) => with_one_more(alloc, took, *id),
        None => took.copy(alloc),
    }
}

// An event that takes the same as one that is possible, and isn't possible itself.
pub fn near(alloc: Global, event: &Event) -> Result<Event, Memory> {
    match event {
        Event::React { rule, took } => {
            let took = with_the_first_again(alloc, took)?;
            Ok(Event::React { rule: *rule, took })
        }
        Event::Move { atom } => Ok(Event::Halt { atom: *atom }),
        Event::Halt { atom } => Ok(Event::Detect { atom: *atom }),
        Event::Detect { atom } => Ok(Event::Move { atom: *atom }),
    }
}
