// Which rules may be ready, and at which channels the others wait for a message.
ghost use Rattle.std.specs.Prelude.{◌≡◌, ◌≤◌, ◌^◌, ◌⊎◌, [], ◌∷◌, IfSome, OnOk};
ghost use Rattle.chem_model.specs.Numbered.{standing};
ghost use Rattle.chem_model.specs.Sound.{IsSound};
ghost use Rattle.chem_model.specs.Each.{IsIn};
ghost use Rattle.book_store.specs.Keys.{Key as TheKey};
ghost use Rattle.book_store.specs.Watched.{IsBare, IsWatched, AreWatched, no_number, IsWatchedAt};
ghost use Rattle.book_store.specs.Watched.{KeepsWaiting};

use crate::candidates::{Candidates, add_candidate, drop_candidate};
use crate::keys::{
    Key, NO_NUMBER, add_key, channel_of, drop_key, first_with, has_number, keys_with, number_of,
};
use crate::older::Older;
use crate::possible::is_ready;
use chem_commit::{Guesses, find_rule, is_dead, root_of};
use chem_model::{Memory, Numbered, NumberedRule, Pat, Pats, RuleId};
use std::alloc::Global;
use std::collections::BTreeSet;

/// Of the first rules, so many as were noted: those that may be ready by older messages alone, and
/// each other one by the number of a channel of its that has no older message.
#[derive(Drop)]
pub struct Waiting {
    pub noted: usize,
    pub filed: BTreeSet<Key>,
    pub ready: Candidates,
}

impl Waiting {
    // No rule was noted.
    pub(crate) fn new(alloc: Global) -> Waiting
        ensures { result.noted ≡ 0 }
    {
        Waiting {
            noted: 0,
            filed: BTreeSet::new(alloc),
            ready: Candidates::new(alloc),
        }
    }
}

// So many of the newest messages are looked at. There are more of them only before the first ones
// are set apart, when all messages of a text are among them.
const LOOKED_AT: usize = 64;

// Whether one of the newest messages is on the channel with this number, as far as they are looked
// at.
fn is_newest(numbered: &Numbered, number: u64) -> bool {
    let newest = numbered.atoms.as_slice();
    for atom in &newest[..newest.len().min(LOOKED_AT)] {
        if channel_of(&atom.term) == Some(number) {
            return true;
        }
    }
    false
}

// The number of a pattern's channel, where it has no older message and is another than `but`, and
// none was chosen so far or it has no newest message either; else what was chosen.
fn chosen(
    older: &Older,
    numbered: &Numbered,
    pat: &Pat,
    but: u64,
    found: Option<u64>,
) -> Option<u64>
    ensures { (result ≡ found) ⊎ IfSome result (IsBare but older.now.keys.keys (pat.now ∷ [])) }
{
    let number = number_of(pat.on);
    if number == but {
        return found;
    }
    if has_number(&older.keys, number) {
        return found;
    }
    if found.is_some() && is_newest(numbered, number) {
        return found;
    }
    Some(number)
}

// The number of the channel of one of these patterns, which has no older message and is another
// than `but`.
fn bare_channel(older: &Older, numbered: &Numbered, pats: &Pats, but: u64) -> Option<u64>
    ensures { IfSome result (IsBare but older.now.keys.keys pats.now) }
{
    let mut found = None;
    for pat in pats.as_slice() {
        found = chosen(older, numbered, pat, but, found);
    }
    found
}

// A rule is filed, but not at the channel `but`, or is a candidate.
fn watch(
    waiting: &mut Waiting,
    numbered: &Numbered,
    guesses: &Guesses,
    older: &Older,
    rule: &NumberedRule,
    but: u64,
) -> Result<(), Memory>
    requires { IsSound numbered.now }
    ensures watched { OnOk result (IsWatched but (standing numbered.now.places)
        older.now.keys.keys waiting.new rule.now) }
    ensures kept { KeepsWaiting waiting.old waiting.new }
{
    let id = (rule.id.site, rule.id.k);
    match bare_channel(older, numbered, &rule.pats, but) {
        Some(number) => add_key(&mut waiting.filed, (number, id)),
        None => {
            let site = root_of(numbered, guesses, rule.loc).site;
            add_candidate(&mut waiting.ready, site, rule.loc, id)
        }
    }
}

// Notes the rule that comes next.
fn note_next(
    waiting: &mut Waiting,
    numbered: &Numbered,
    guesses: &Guesses,
    older: &Older,
) -> Result<(), Memory>
    requires sound { IsSound numbered.now }
    requires watched { AreWatched no_number (standing numbered.now.places)
        older.now.keys.keys waiting.old numbered.now.rules }
    ensures { AreWatched no_number (standing numbered.now.places)
        older.now.keys.keys waiting.new numbered.now.rules }
{
    let place = waiting.noted;
    match numbered.rules.as_slice().get(place) {
        Some(rule) => {
            watch(waiting, numbered, guesses, older, rule, NO_NUMBER)?;
            waiting.noted = place + 1;
            Ok(())
        }
        None => Ok(()),
    }
}

// Notes the rules that were not noted yet. On want of memory some of them may not be noted.
pub(crate) fn note_rules(
    waiting: &mut Waiting,
    numbered: &Numbered,
    guesses: &Guesses,
    older: &Older,
) -> Result<(), Memory>
    requires sound { IsSound numbered.now }
    requires watched { AreWatched no_number (standing numbered.now.places)
        older.now.keys.keys waiting.old numbered.now.rules }
    ensures { AreWatched no_number (standing numbered.now.places)
        older.now.keys.keys waiting.new numbered.now.rules }
{
    for _place in waiting.noted..numbered.rules.len() {
        note_next(waiting, numbered, guesses, older)?;
    }
    Ok(())
}

// The rule with this number is filed elsewhere than at the channel `but`, or is a candidate.
fn watch_again(
    waiting: &mut Waiting,
    numbered: &Numbered,
    guesses: &Guesses,
    older: &Older,
    id: RuleId,
    but: u64,
) -> Result<(), Memory>
    requires { IsSound numbered.now }
    ensures watched { OnOk result (IsWatchedAt but (standing numbered.now.places)
        older.now.keys.keys waiting.new numbered.now.rules id) }
    ensures kept { KeepsWaiting waiting.old waiting.new }
{
    match find_rule(numbered, guesses, id) {
        Some(rule) => watch(waiting, numbered, guesses, older, rule, but),
        None => Ok(()),
    }
}

// The rules that are filed at a channel are filed at others, or are candidates.
pub(crate) fn free_channel(
    alloc: Global,
    waiting: &mut Waiting,
    numbered: &Numbered,
    guesses: &Guesses,
    older: &Older,
    channel: u64,
) -> Result<(), Memory>
    requires sound { IsSound numbered.now }
    requires small { channel ≤ 2 ^ 63 }
    requires watched { AreWatched no_number (standing numbered.now.places)
        older.now.keys.keys waiting.old numbered.now.rules }
    ensures watched { AreWatched no_number (standing numbered.now.places)
        older.now.keys.keys waiting.new numbered.now.rules }
    ensures free { OnOk result (AreWatched channel (standing numbered.now.places)
        older.now.keys.keys waiting.new numbered.now.rules) }
{
    let filed = keys_with(alloc, &waiting.filed, channel)?;
    for key in filed.as_slice() {
        let id = RuleId {
            site: key.1.0,
            k: key.1.1,
        };
        watch_again(waiting, numbered, guesses, older, id, channel)?;
    }
    forget_filed(&mut waiting.filed, filed.as_slice());
    Ok(())
}

// Takes these keys out.
fn forget_filed(filed: &mut BTreeSet<Key>, keys: &[Key])
    ensures { (k : TheKey) → IsIn k filed.old.keys → IsIn k keys.now ⊎ IsIn k filed.new.keys }
{
    for key in keys {
        drop_key(filed, *key);
    }
}

// A rule that isn't ready is filed, where a channel of its has no older message, and is no
// candidate any more. False where there is no such channel, or no memory.
fn file_again(
    waiting: &mut Waiting,
    numbered: &Numbered,
    older: &Older,
    rule: &NumberedRule,
    site: u32,
) -> bool
    requires sound { IsSound numbered.now }
    requires there { IsIn rule.now numbered.now.rules }
    requires watched { AreWatched no_number (standing numbered.now.places)
        older.now.keys.keys waiting.old numbered.now.rules }
    ensures { AreWatched no_number (standing numbered.now.places)
        older.now.keys.keys waiting.new numbered.now.rules }
{
    let id = (rule.id.site, rule.id.k);
    match bare_channel(older, numbered, &rule.pats, NO_NUMBER) {
        Some(number) => match add_key(&mut waiting.filed, (number, id)) {
            Ok(()) => {
                drop_candidate(&mut waiting.ready, site, rule.loc, id);
                true
            }
            Err(_) => false,
        },
        None => false,
    }
}

// Looks at a rule again that is a candidate at this site: where it isn't ready, it is none any
// more. False where it is ready, or has to stay one.
fn judge_again(
    waiting: &mut Waiting,
    numbered: &Numbered,
    guesses: &Guesses,
    older: &Older,
    rule: &NumberedRule,
    site: u32,
) -> bool
    requires sound { IsSound numbered.now }
    requires there { IsIn rule.now numbered.now.rules }
    requires watched { AreWatched no_number (standing numbered.now.places)
        older.now.keys.keys waiting.old numbered.now.rules }
    ensures { AreWatched no_number (standing numbered.now.places)
        older.now.keys.keys waiting.new numbered.now.rules }
{
    if is_ready(numbered, guesses, older, rule) {
        false
    } else if is_dead(numbered, guesses, rule.loc) {
        drop_candidate(
            &mut waiting.ready,
            site,
            rule.loc,
            (rule.id.site, rule.id.k),
        );
        true
    } else {
        file_again(waiting, numbered, older, rule, site)
    }
}

// Looks at the candidate with this key again. False where it has to stay one.
fn look_again(
    waiting: &mut Waiting,
    numbered: &Numbered,
    guesses: &Guesses,
    older: &Older,
    key: Key,
) -> bool
    requires sound { IsSound numbered.now }
    requires watched { AreWatched no_number (standing numbered.now.places)
        older.now.keys.keys waiting.old numbered.now.rules }
    ensures { AreWatched no_number (standing numbered.now.places)
        older.now.keys.keys waiting.new numbered.now.rules }
{
    let id = RuleId {
        site: key.1.0,
        k: key.1.1,
    };
    match find_rule(numbered, guesses, id) {
        Some(rule) => {
            let site = root_of(numbered, guesses, rule.loc).site;
            if site as u64 == key.0 {
                judge_again(waiting, numbered, guesses, older, rule, site)
            } else {
                drop_key(&mut waiting.ready.sites, key);
                true
            }
        }
        None => {
            drop_key(&mut waiting.ready.sites, key);
            true
        }
    }
}

// The first candidates of a site that aren't ready any more are none.
pub(crate) fn tidy_rules(
    waiting: &mut Waiting,
    numbered: &Numbered,
    guesses: &Guesses,
    older: &Older,
    site: u32,
)
    requires sound { IsSound numbered.now }
    requires watched { AreWatched no_number (standing numbered.now.places)
        older.now.keys.keys waiting.old numbered.now.rules }
    ensures { AreWatched no_number (standing numbered.now.places)
        older.now.keys.keys waiting.new numbered.now.rules }
{
    let mut left = waiting.ready.sites.len();
    while left > 0 {
        left -= 1;
        match first_with(&waiting.ready.sites, site as u64) {
            Some(key) => {
                if !look_again(waiting, numbered, guesses, older, key) {
                    return;
                }
            }
            None => return,
        }
    }
}
