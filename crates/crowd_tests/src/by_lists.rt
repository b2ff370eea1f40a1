// The event that comes first, looked for slowly: of all reactions of all rules with all messages,
// and all requests, the least one that is possible.

use chem_model::{AtomId, Atoms, Event, Items, Loc, Memory, Numbered, NumberedRule, Pat, RuleId};
use chem_plain::{atom_at, is_enabled, meets, rule_at};
use std::alloc::{AllocError, Global};
use trace_history::Found;

// Whether a site and a number come before others.
fn is_less(site: u32, k: u64, other_site: u32, other_k: u64) -> bool {
    site < other_site || (site == other_site && k < other_k)
}

fn is_lesser_rule(one: RuleId, other: RuleId) -> bool {
    is_less(one.site, one.k, other.site, other.k)
}

fn is_lesser_atom(one: AtomId, other: AtomId) -> bool {
    is_less(one.site, one.k, other.site, other.k)
}

// Whether the first atom in which they differ is lesser in the one list.
fn are_lesser(one: &[AtomId], other: &[AtomId]) -> bool {
    for (at, atom) in one.iter().enumerate() {
        match other.get(at) {
            Some(against) => {
                if *atom != *against {
                    return is_lesser_atom(*atom, *against);
                }
            }
            None => return false,
        }
    }
    one.len() < other.len()
}

// The request of an event. A reaction has none.
fn request_of(event: &Event) -> Option<AtomId> {
    match event {
        Event::React { .. } => None,
        Event::Move { atom } => Some(*atom),
        Event::Halt { atom } => Some(*atom),
        Event::Detect { atom } => Some(*atom),
    }
}

fn is_lesser_request(one: Option<AtomId>, other: Option<AtomId>) -> bool {
    match (one, other) {
        (Some(atom), Some(against)) => is_lesser_atom(atom, against),
        (None, Some(_)) => true,
        _ => false,
    }
}

// Whether an event comes before another one at the same site: a reaction before a request.
fn is_lesser_event(one: &Event, other: &Event) -> bool {
    match (one, other) {
        (
            Event::React { rule, took },
            Event::React {
                rule: other_rule,
                took: other_took,
            },
        ) => {
            if *rule == *other_rule {
                are_lesser(took.as_slice(), other_took.as_slice())
            } else {
                is_lesser_rule(*rule, *other_rule)
            }
        }
        _ => is_lesser_request(request_of(one), request_of(other)),
    }
}

// The location at which the rule or the request of an event is.
fn place_of(solution: &Numbered, event: &Event) -> Option<Loc> {
    match event {
        Event::React { rule, .. } => match rule_at(solution, *rule) {
            Some(found) => Some(found.loc),
            None => None,
        },
        _ => match request_of(event) {
            Some(id) => match atom_at(&solution.atoms, id) {
                Some(atom) => Some(atom.loc),
                None => None,
            },
            None => None,
        },
    }
}

// How many turns after the site that is looked at first a site comes.
fn turns(solution: &Numbered, from: u32, site: u32) -> u64 {
    if site < from {
        let sites = solution.counts.len() as u64;
        (sites + u64::from(site)).saturating_sub(u64::from(from))
    } else {
        u64::from(site - from)
    }
}

fn is_before(solution: &Numbered, from: u32, one: &Found, other: &Found) -> bool {
    let here = turns(solution, from, one.site);
    let there = turns(solution, from, other.site);
    here < there || (here == there && is_lesser_event(&one.event, &other.event))
}

fn earlier(solution: &Numbered, from: u32, one: Found, other: Option<Found>) -> Found {
    match other {
        Some(found) => {
            if is_before(solution, from, &one, &found) {
                one
            } else {
                found
            }
        }
        None => one,
    }
}

// What comes first of what was found and an event, where this is possible.
fn or_event(solution: &Numbered, from: u32, found: Option<Found>, event: Event) -> Option<Found> {
    if !is_enabled(solution, &event) {
        return found;
    }
    match place_of(solution, &event) {
        Some(loc) => {
            let site = solution.root(loc).site;
            Some(earlier(solution, from, Found { site, event }, found))
        }
        None => found,
    }
}

// The list with one more message.
pub fn with_one_more(alloc: Global, list: &Atoms, id: AtomId) -> Result<Atoms, Memory> {
    let mut copy = list.copy(alloc)?;
    copy.push(id)?;
    Ok(copy)
}

// Adds these lists, each with one more message.
fn add_longer(
    alloc: Global,
    longer: &mut Vec<Atoms>,
    lists: &[Atoms],
    id: AtomId,
) -> Result<(), Memory> {
    for list in lists {
        longer.push(with_one_more(alloc, list, id)?)?;
    }
    Ok(())
}

// These lists, each with one more message that the pattern receives at the location.
fn lengthened(
    alloc: Global,
    solution: &Numbered,
    at: Loc,
    pat: &Pat,
    lists: &[Atoms],
) -> Result<Vec<Atoms>, Memory> {
    let mut longer = Vec::new(alloc);
    for atom in solution.atoms.as_slice() {
        if meets(at, pat, atom) {
            add_longer(alloc, &mut longer, lists, atom.id)?;
        }
    }
    Ok(longer)
}

// One list, which is empty.
fn one_empty(alloc: Global) -> Result<Vec<Atoms>, AllocError> {
    let mut lists = Vec::new(alloc);
    lists.push(Items::new(alloc))?;
    Ok(lists)
}

// All lists of messages that a rule receives, one for each pattern.
pub fn received(
    alloc: Global,
    solution: &Numbered,
    rule: &NumberedRule,
) -> Result<Vec<Atoms>, Memory> {
    let mut lists = one_empty(alloc)?;
    for pat in rule.pats.as_slice() {
        lists = lengthened(alloc, solution, rule.loc, pat, lists.as_slice())?;
    }
    Ok(lists)
}

// What comes first of what was found and the reactions of a rule.
fn or_rule(
    alloc: Global,
    solution: &Numbered,
    from: u32,
    found: Option<Found>,
    rule: &NumberedRule,
) -> Result<Option<Found>, Memory> {
    let mut first = found;
    for took in received(alloc, solution, rule)? {
        let event = Event::React {
            rule: rule.id,
            took,
        };
        first = or_event(solution, from, first, event);
    }
    Ok(first)
}

// What comes first of what was found and the events that meet a request.
fn or_request(solution: &Numbered, from: u32, found: Option<Found>, atom: AtomId) -> Option<Found> {
    let first = or_event(solution, from, found, Event::Move { atom });
    let first = or_event(solution, from, first, Event::Halt { atom });
    or_event(solution, from, first, Event::Detect { atom })
}

// The reaction that comes first, where the site `from` is looked at first, and its site.
fn first_reaction(alloc: Global, solution: &Numbered, from: u32) -> Result<Option<Found>, Memory> {
    let mut first = None;
    for rule in solution.rules.as_slice() {
        first = or_rule(alloc, solution, from, first, rule)?;
    }
    Ok(first)
}

// The event that comes first, where the site `from` is looked at first, and its site.
pub fn first_by_lists(
    alloc: Global,
    solution: &Numbered,
    from: u32,
) -> Result<Option<Found>, Memory> {
    let mut first = first_reaction(alloc, solution, from)?;
    for atom in solution.atoms.as_slice() {
        first = or_request(solution, from, first, atom.id);
    }
    Ok(first)
}
