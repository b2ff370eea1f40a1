// The search for the event that comes first: of the rules and requests that may be possible.
ghost use Rattle.std.specs.Prelude.{◌≡◌, ◌<◌, ◌≤◌, ◌^◌, ◌++◌, ◌&&◌, ◌↔◌, length, true, Some, IfOk};
ghost use Rattle.std.specs.Prelude.{IfSome, IsTrue, OnErr, None};
ghost use Rattle.std.specs.List.{list_all};
ghost use Rattle.std.specs.Option.{option_copied};
ghost use Rattle.chem_model.specs.Sound.{IsSound};
ghost use Rattle.chem_model.specs.Each.{IsIn};
ghost use Rattle.trace_history.specs.First.{turns, less};
ghost use Rattle.book_store.specs.Walk.{IsFirstOf, walk};
ghost use Rattle.trace_history.specs.inside.Search.{first_of, beats, AreLeast, turn, rule_before};
ghost use Rattle.trace_history.specs.inside.Search.{request_before, event_of, IsReaction};
ghost use Rattle.trace_history.specs.inside.Search.{IsMeeting, IsFound};
ghost use Rattle.chem_causes.specs.Ready.{receives, is_met, is_ready, can_act};
ghost use Rattle.book_store.specs.Older.{atom_before, whole};
ghost use Rattle.trace_history.specs.inside.Passed.{Betters, IsPassed, ArePassed, IsPassedAt};
ghost use Rattle.book_store.specs.Stored.{IsStored};
ghost use Rattle.trace_history.specs.inside.Looked.{AreFiledPassed, LooksAtNewest};
ghost use Rattle.trace_history.specs.inside.Chosen.{rule_for, request_for, IsFirstReady};
ghost use Rattle.trace_history.specs.inside.Chosen.{IsFirstAsking};

use crate::book::Found;
use book_store::{
    AtomTable, Candidates, Key, Older, Store, Waiting, can_act, channel_of, first_older, is_ready,
};
use chem_commit::{Guesses, find_rule, root_of};
use chem_model::{
    AtomId, Atoms, Event, Items, Loc, Memory, Numbered, NumberedAtom, NumberedRule, Pat, Pats,
    Proc, ProcNode, RuleId,
};
use chem_plain::meets;
use std::alloc::Global;
use std::collections::btree_set::Range;
use std::ops::Bound;

// Where there are fewer rules, each is looked at.
const FEW: usize = 4;

// How many turns after the site that is looked at first a site comes.
fn turns(sites: usize, from: u32, site: u32) -> u64
    requires { sites < 2 ^ 32 }
    ensures { result ≡ turns sites from site }
{
    if site < from {
        site as u64 + (sites as u64).saturating_sub(from as u64)
    } else {
        (site - from) as u64
    }
}

// The turn of the site at which a location is.
fn turn(numbered: &Numbered, guesses: &Guesses, from: u32, at: Loc) -> u64
    requires { IsSound numbered.now }
    ensures { result ≡ turn numbered.now from at }
{
    turns(
        numbered.counts.len(),
        from,
        root_of(numbered, guesses, at).site,
    )
}

// Whether a site and a number come before others.
fn less(site: u32, k: u64, other_site: u32, other_k: u64) -> bool
    ensures { result ≡ less site k other_site other_k }
{
    site < other_site || (site == other_site && k < other_k)
}

// Whether a message has a lesser number than the one that was found so far.
fn is_lesser(atom: &NumberedAtom, least: Option<&NumberedAtom>) -> bool
    ensures { result ≡ beats atom_before atom.now (option_copied least.entry) }
{
    match least {
        Some(other) => less(atom.id.site, atom.id.k, other.id.site, other.id.k),
        None => true,
    }
}

// The one with the least number that a pattern receives at a location, of these and the one that
// was found so far.
fn least_of<'a>(
    atoms: &'a [NumberedAtom],
    at: Loc,
    pat: &Pat,
    found: Option<&'a NumberedAtom>,
) -> Option<&'a NumberedAtom>
    ensures { first_of (receives at pat.now) atom_before (option_copied found.entry) atoms.now
        ≡ option_copied result }
{
    let mut least = found;
    for atom in atoms {
        if is_lesser(atom, least) && meets(at, pat, atom) {
            least = Some(atom);
        }
    }
    least
}

// The message with the least number that a pattern receives at a location.
fn least_message<'a>(
    numbered: &'a Numbered,
    older: &'a Older,
    at: Loc,
    pat: &Pat,
) -> Option<&'a NumberedAtom>
    ensures { IsFirstOf (receives at pat.now) atom_before
        (older.now.table ++ numbered.now.atoms) (option_copied result) }
{
    let kept = first_older(older, at, pat);
    least_of(numbered.atoms.as_slice(), at, pat, kept)
}

// The least message for each pattern of a rule.
fn least_messages(
    alloc: Global,
    numbered: &Numbered,
    older: &Older,
    at: Loc,
    pats: &Pats,
) -> Result<Atoms, Memory>
    requires { list_all (is_met (older.now.table ++ numbered.now.atoms) at) pats.now ≡ true }
    ensures { IfOk result (λ took.
        AreLeast (older.now.table ++ numbered.now.atoms) at pats.now took) }
{
    let mut took = Items::from_vec(Vec::with_capacity(alloc, pats.len())?);
    for pat in pats.as_slice() {
        match least_message(numbered, older, at, pat) {
            Some(atom) => took.push(atom.id)?,
            None => {}
        }
    }
    Ok(took)
}

// Whether a rule comes before the one that was found so far.
fn is_earlier_rule(
    numbered: &Numbered,
    guesses: &Guesses,
    from: u32,
    rule: &NumberedRule,
    first: Option<&NumberedRule>,
) -> bool
    requires { IsSound numbered.now }
    ensures { result ≡ beats (rule_before numbered.now from) rule.now (option_copied first.entry) }
{
    match first {
        Some(other) => {
            let here = turn(numbered, guesses, from, rule.loc);
            let there = turn(numbered, guesses, from, other.loc);
            here < there
                || (here == there && less(rule.id.site, rule.id.k, other.id.site, other.id.k))
        }
        None => true,
    }
}

// What the search for the first rule goes by: the solution with what is guessed of it, the older
// messages, and the site that is looked at first.
#[derive(Clone, Copy)]
struct Sight<'a, 's> {
    numbered: &'a Numbered,
    guesses: &'s Guesses,
    older: &'s Older,
    from: u32,
}

// The first of the rules that are ready, where there are few rules.
fn first_of_few<'a>(sight: Sight<'a, '_>) -> Option<&'a NumberedRule>
    requires { IsSound sight.numbered.now }
    ensures { IsFirstOf (is_ready (whole sight.entry.older.now.table sight.entry.numbered.now))
        (rule_before sight.entry.numbered.now sight.entry.from) sight.entry.numbered.now.rules
        (option_copied result) }
{
    let mut first: Option<&NumberedRule> = None;
    for rule in sight.numbered.rules.as_slice() {
        if is_earlier_rule(sight.numbered, sight.guesses, sight.from, rule, first)
            && is_ready(sight.numbered, sight.guesses, sight.older, rule)
        {
            first = Some(rule);
        }
    }
    first
}

// The better one of a rule, where it is ready, and of the one that was found so far.
fn better<'a>(
    sight: Sight<'a, '_>,
    rule: &'a NumberedRule,
    found: Option<&'a NumberedRule>,
) -> Option<&'a NumberedRule>
    requires sound { IsSound sight.numbered.now }
    requires there { IsIn rule.now sight.numbered.now.rules }
    ensures better { Betters (whole sight.entry.older.now.table sight.entry.numbered.now)
        sight.entry.from (option_copied found.entry) (option_copied result) }
    ensures passed { IsPassed (whole sight.entry.older.now.table sight.entry.numbered.now)
        sight.entry.from (option_copied result) rule.now }
{
    if is_earlier_rule(sight.numbered, sight.guesses, sight.from, rule, found)
        && is_ready(sight.numbered, sight.guesses, sight.older, rule)
    {
        Some(rule)
    } else {
        found
    }
}

// The best one of the rules that were not noted.
fn best_of_rest<'a>(sight: Sight<'a, '_>, noted: usize) -> Option<&'a NumberedRule>
    requires { IsSound sight.numbered.now }
    ensures better { Betters (whole sight.entry.older.now.table sight.entry.numbered.now)
        sight.entry.from None (option_copied result) }
    ensures passed { ArePassed (whole sight.entry.older.now.table sight.entry.numbered.now)
        sight.entry.from noted (length sight.entry.numbered.now.rules) (option_copied result) }
{
    let rules = sight.numbered.rules.as_slice();
    let mut best = None;
    for place in noted..rules.len() {
        best = better(sight, &rules[place], best);
    }
    best
}

// The better one of the rule with this number, where it is ready, and of the one that was found so
// far.
fn better_at<'a>(
    sight: Sight<'a, '_>,
    id: RuleId,
    found: Option<&'a NumberedRule>,
) -> Option<&'a NumberedRule>
    requires { IsSound sight.numbered.now }
    ensures better { Betters (whole sight.entry.older.now.table sight.entry.numbered.now)
        sight.entry.from (option_copied found.entry) (option_copied result) }
    ensures passed { IsPassedAt (whole sight.entry.older.now.table sight.entry.numbered.now)
        sight.entry.from (option_copied result) id }
{
    match find_rule(sight.numbered, sight.guesses, id) {
        Some(rule) => better(sight, rule, found),
        None => found,
    }
}

// The best one of the rules that are filed at a channel, and of the one that was found so far.
fn best_of_channel<'a>(
    sight: Sight<'a, '_>,
    waiting: &Waiting,
    channel: u64,
    found: Option<&'a NumberedRule>,
) -> Option<&'a NumberedRule>
    requires sound { IsSound sight.numbered.now }
    requires small { channel ≤ 2 ^ 63 }
    ensures better { Betters (whole sight.entry.older.now.table sight.entry.numbered.now)
        sight.entry.from (option_copied found.entry) (option_copied result) }
    ensures passed { AreFiledPassed (whole sight.entry.older.now.table sight.entry.numbered.now)
        sight.entry.from waiting.now (Some channel) (option_copied result) }
{
    let filed = waiting.filed.range((
        Bound::Included((channel, (0, 0))),
        Bound::Excluded((channel + 1, (0, 0))),
    ));
    let mut best = found;
    for key in filed {
        let id = RuleId {
            site: key.1.0,
            k: key.1.1,
        };
        best = better_at(sight, id, best);
    }
    best
}

// The same where those of another channel were looked at, which may be this one, or there is none.
fn best_of_next<'a>(
    sight: Sight<'a, '_>,
    waiting: &Waiting,
    channel: Option<u64>,
    last: Option<u64>,
    found: Option<&'a NumberedRule>,
) -> Option<&'a NumberedRule>
    requires sound { IsSound sight.numbered.now }
    requires small { IfSome channel (λ c. c ≤ 2 ^ 63) }
    requires last { AreFiledPassed (whole sight.older.now.table sight.numbered.now) sight.from
        waiting.now last (option_copied found) }
    ensures better { Betters (whole sight.entry.older.now.table sight.entry.numbered.now)
        sight.entry.from (option_copied found.entry) (option_copied result) }
    ensures passed { AreFiledPassed (whole sight.entry.older.now.table sight.entry.numbered.now)
        sight.entry.from waiting.now channel (option_copied result) }
{
    match channel {
        Some(number) => {
            if is_same(number, last) {
                found
            } else {
                best_of_channel(sight, waiting, number, found)
            }
        }
        None => found,
    }
}

// Whether this is the number of the last channel.
fn is_same(number: u64, last: Option<u64>) -> bool
    ensures { result ≡ true → last ≡ Some number }
{
    match last {
        Some(other) => number == other,
        None => false,
    }
}

// The best one of the rules that were not noted, and of those that are filed at the channel of a
// newest message.
fn best_of_newest<'a>(sight: Sight<'a, '_>, waiting: &Waiting) -> Option<&'a NumberedRule>
    requires { IsSound sight.numbered.now }
    ensures { LooksAtNewest (whole sight.entry.older.now.table sight.entry.numbered.now)
        sight.entry.from waiting.now sight.entry.numbered.now.atoms (option_copied result) }
{
    let mut best = best_of_rest(sight, waiting.noted);
    let mut last = None;
    for atom in sight.numbered.atoms.as_slice() {
        let channel = channel_of(&atom.term);
        best = best_of_next(sight, waiting, channel, last, best);
        last = channel;
    }
    best
}

// The rule for which a key stands, where it is at the key's site and is ready.
fn rule_of<'a>(
    numbered: &'a Numbered,
    guesses: &Guesses,
    older: &Older,
    key: Key,
) -> Option<&'a NumberedRule>
    requires { IsSound numbered.now }
    ensures { option_copied result ≡ rule_for (whole older.now.table numbered.now) key }
{
    let id = RuleId {
        site: key.1.0,
        k: key.1.1,
    };
    match find_rule(numbered, guesses, id) {
        Some(rule) => {
            if root_of(numbered, guesses, rule.loc).site as u64 == key.0
                && is_ready(numbered, guesses, older, rule)
            {
                Some(rule)
            } else {
                None
            }
        }
        None => None,
    }
}

// The rule for which the first key stands that stands for one.
fn walk_rules<'a>(
    keys: Range<'_, Key>,
    numbered: &'a Numbered,
    guesses: &Guesses,
    older: &Older,
) -> Option<&'a NumberedRule>
    requires { IsSound numbered.now }
    ensures { option_copied result
        ≡ walk (rule_for (whole older.now.table numbered.now)) keys.entry }
{
    for key in keys {
        match rule_of(numbered, guesses, older, *key) {
            Some(rule) => return Some(rule),
            None => {}
        }
    }
    None
}

// The first of the candidates that are ready.
fn first_ready<'a>(sight: Sight<'a, '_>, candidates: &Candidates) -> Option<&'a NumberedRule>
    requires { IsSound sight.numbered.now }
    ensures { IsFirstReady (whole sight.entry.older.now.table sight.entry.numbered.now)
        sight.entry.from candidates.now (option_copied result) }
{
    if candidates.sites.is_empty() {
        return None;
    }
    let first = (sight.from as u64, (0, 0));
    let later = candidates
        .sites
        .range((Bound::Included(first), Bound::Unbounded));
    match walk_rules(later, sight.numbered, sight.guesses, sight.older) {
        Some(rule) => Some(rule),
        None => {
            let earlier = candidates
                .sites
                .range((Bound::Unbounded, Bound::Excluded(first)));
            walk_rules(earlier, sight.numbered, sight.guesses, sight.older)
        }
    }
}

// The first of the rules that are ready, of those that are filed at the channel of a newest message
// and the candidates.
fn first_watched<'a>(
    numbered: &'a Numbered,
    guesses: &Guesses,
    store: &Store,
    from: u32,
) -> Option<&'a NumberedRule>
    requires all { IsSound (whole store.now.older.table numbered.now) }
    requires sound { IsSound numbered.now }
    requires stored { IsStored numbered.now store.now }
    ensures { IsFirstOf (is_ready (whole store.now.older.table numbered.now))
        (rule_before numbered.now from) numbered.now.rules (option_copied result) }
{
    let sight = Sight {
        numbered,
        guesses,
        older: &store.older,
        from,
    };
    let best = best_of_newest(sight, &store.waiting);
    match first_ready(sight, &store.waiting.ready) {
        Some(rule) => {
            if is_earlier_rule(numbered, guesses, from, rule, best) {
                Some(rule)
            } else {
                best
            }
        }
        None => best,
    }
}

// The first of the rules that are ready.
fn first_rule<'a>(
    numbered: &'a Numbered,
    guesses: &Guesses,
    store: &Store,
    from: u32,
) -> Option<&'a NumberedRule>
    requires all { IsSound (whole store.now.older.table numbered.now) }
    requires sound { IsSound numbered.now }
    requires stored { IsStored numbered.now store.now }
    ensures { IsFirstOf (is_ready (whole store.now.older.table numbered.now))
        (rule_before numbered.now from) numbered.now.rules (option_copied result) }
{
    if numbered.rules.len() < FEW {
        first_of_few(Sight {
            numbered,
            guesses,
            older: &store.older,
            from,
        })
    } else {
        first_watched(numbered, guesses, store, from)
    }
}

// Whether a request comes before the one that was found so far.
fn is_earlier_request(
    numbered: &Numbered,
    guesses: &Guesses,
    from: u32,
    atom: &NumberedAtom,
    first: Option<&NumberedAtom>,
) -> bool
    requires { IsSound numbered.now }
    ensures { result ≡
        beats (request_before numbered.now from) atom.now (option_copied first.entry) }
{
    match first {
        Some(other) => {
            let here = turn(numbered, guesses, from, atom.loc);
            let there = turn(numbered, guesses, from, other.loc);
            here < there
                || (here == there && less(atom.id.site, atom.id.k, other.id.site, other.id.k))
        }
        None => true,
    }
}

// The first of these that are requests that can be met.
fn first_request_of<'a>(
    numbered: &Numbered,
    guesses: &Guesses,
    from: u32,
    atoms: &'a [NumberedAtom],
) -> Option<&'a NumberedAtom>
    requires { IsSound numbered.now }
    ensures { IsFirstOf (can_act numbered.now) (request_before numbered.now from) atoms.now
        (option_copied result) }
{
    let mut first: Option<&NumberedAtom> = None;
    for atom in atoms {
        if is_earlier_request(numbered, guesses, from, atom, first)
            && can_act(numbered, guesses, atom)
        {
            first = Some(atom);
        }
    }
    first
}

// The request for which a key stands, where it is at the key's site and can be met.
fn request_of<'a>(
    numbered: &Numbered,
    guesses: &Guesses,
    table: &'a AtomTable,
    key: Key,
) -> Option<&'a NumberedAtom>
    requires { IsSound numbered.now }
    ensures { option_copied result ≡ request_for numbered.now table.now key }
{
    let id = AtomId {
        site: key.1.0,
        k: key.1.1,
    };
    match table.get(id) {
        Some(atom) => {
            if root_of(numbered, guesses, atom.loc).site as u64 == key.0
                && can_act(numbered, guesses, atom)
            {
                Some(atom)
            } else {
                None
            }
        }
        None => None,
    }
}

// The request for which the first key stands that stands for one.
fn walk_requests<'a>(
    keys: Range<'_, Key>,
    numbered: &Numbered,
    guesses: &Guesses,
    table: &'a AtomTable,
) -> Option<&'a NumberedAtom>
    requires { IsSound numbered.now }
    ensures { option_copied result ≡ walk (request_for numbered.now table.now) keys.entry }
{
    for key in keys {
        match request_of(numbered, guesses, table, *key) {
            Some(atom) => return Some(atom),
            None => {}
        }
    }
    None
}

// The first of the candidates that can be met.
fn first_asking<'a>(
    numbered: &Numbered,
    guesses: &Guesses,
    table: &'a AtomTable,
    candidates: &Candidates,
    from: u32,
) -> Option<&'a NumberedAtom>
    requires { IsSound numbered.now }
    ensures { IsFirstAsking numbered.now from candidates.now table.now (option_copied result) }
{
    if candidates.sites.is_empty() {
        return None;
    }
    table.are_different();
    let first = (from as u64, (0, 0));
    let later = candidates
        .sites
        .range((Bound::Included(first), Bound::Unbounded));
    match walk_requests(later, numbered, guesses, table) {
        Some(atom) => Some(atom),
        None => {
            let earlier = candidates
                .sites
                .range((Bound::Unbounded, Bound::Excluded(first)));
            walk_requests(earlier, numbered, guesses, table)
        }
    }
}

// The first of the requests that can be met.
fn first_request<'a>(
    numbered: &'a Numbered,
    guesses: &Guesses,
    store: &'a Store,
    from: u32,
) -> Option<&'a NumberedAtom>
    requires all { IsSound (whole store.now.older.table numbered.now) }
    requires sound { IsSound numbered.now }
    requires stored { IsStored numbered.now store.now }
    ensures { IsFirstOf (can_act (whole store.now.older.table numbered.now))
        (request_before numbered.now from) (store.now.older.table ++ numbered.now.atoms)
        (option_copied result) }
{
    let newest = first_request_of(numbered, guesses, from, numbered.atoms.as_slice());
    let table = &store.older.table;
    match first_asking(numbered, guesses, table, &store.asking.ready, from) {
        Some(atom) => {
            if is_earlier_request(numbered, guesses, from, atom, newest) {
                Some(atom)
            } else {
                newest
            }
        }
        None => newest,
    }
}

// The reaction of a rule, by the least message for each of its patterns.
fn reaction(
    alloc: Global,
    numbered: &Numbered,
    guesses: &Guesses,
    older: &Older,
    rule: &NumberedRule,
) -> Result<Found, Memory>
    requires sound { IsSound numbered.now }
    requires ready { is_ready (whole older.now.table numbered.now) rule.now ≡ true }
    ensures { IfOk result (λ found.
        IsReaction (whole older.now.table numbered.now) rule.now found) }
{
    let took = least_messages(alloc, numbered, older, rule.loc, &rule.pats)?;
    Ok(Found {
        site: root_of(numbered, guesses, rule.loc).site,
        event: Event::React {
            rule: rule.id,
            took,
        },
    })
}

// The event that meets a request.
fn event_of(id: AtomId, term: &Proc) -> Option<Event>
    ensures { result ≡ event_of id term.now }
{
    match term.node() {
        ProcNode::Go { .. } => Some(Event::Move { atom: id }),
        ProcNode::Halt => Some(Event::Halt { atom: id }),
        ProcNode::Fail { .. } => Some(Event::Detect { atom: id }),
        _ => None,
    }
}

// The event that meets a request, and its site.
fn meeting(numbered: &Numbered, guesses: &Guesses, atom: &NumberedAtom) -> Option<Found>
    requires { IsSound numbered.now }
    ensures { IsMeeting numbered.now atom.now result }
{
    match event_of(atom.id, &atom.term) {
        Some(event) => Some(Found {
            site: root_of(numbered, guesses, atom.loc).site,
            event,
        }),
        None => None,
    }
}

// The event that comes first. A reaction comes before a request at the same site. It takes memory
// only where an event is possible.
pub(crate) fn first_event(
    alloc: Global,
    numbered: &Numbered,
    guesses: &Guesses,
    store: &Store,
    from: u32,
) -> Result<Option<Found>, Memory>
    requires all { IsSound (whole store.now.older.table numbered.now) }
    requires sound { IsSound numbered.now }
    requires stored { IsStored numbered.now store.now }
    ensures found { IfOk result (λ found.
        IsFound (whole store.now.older.table numbered.now) from found) }
    ensures memory { OnErr result
        (IsFound (whole store.now.older.table numbered.now) from None → ⊥) }
{
    match first_rule(numbered, guesses, store, from) {
        Some(rule) => match first_request(numbered, guesses, store, from) {
            Some(request) => {
                if turn(numbered, guesses, from, request.loc)
                    < turn(numbered, guesses, from, rule.loc)
                {
                    return Ok(meeting(numbered, guesses, request));
                }
                let found = reaction(alloc, numbered, guesses, &store.older, rule)?;
                Ok(Some(found))
            }
            None => {
                let found = reaction(alloc, numbered, guesses, &store.older, rule)?;
                Ok(Some(found))
            }
        },
        None => match first_request(numbered, guesses, store, from) {
            Some(request) => Ok(meeting(numbered, guesses, request)),
            None => Ok(None),
        },
    }
}

// Whether no event is possible.
pub(crate) fn is_stuck(numbered: &Numbered, guesses: &Guesses, store: &Store) -> bool
    requires all { IsSound (whole store.now.older.table numbered.now) }
    requires sound { IsSound numbered.now }
    requires stored { IsStored numbered.now store.now }
    ensures { IsTrue result ↔ IsFound (whole store.now.older.table numbered.now) 0 None }
{
    match first_rule(numbered, guesses, store, 0) {
        Some(_) => false,
        None => match first_request(numbered, guesses, store, 0) {
            Some(_) => false,
            None => true,
        },
    }
}
