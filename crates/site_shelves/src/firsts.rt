// Where the groups of each level begin. A search for the guard that goes first need compare with the
// code no level whose groups all begin behind the guard that it finds.
ghost use Rattle.std.specs.Prelude.{◌≡◌, ◌<◌, ◌≤◌, ◌+◌, ℕ, false, length, IsTrue, OnOk};
ghost use Rattle.chem_model.specs.Each.{Each};
ghost use Rattle.site_shelves.specs.Guards.{precedes};
ghost use Rattle.site_shelves.specs.inside.Covered.{key_from};
ghost use Rattle.site_shelves.specs.inside.New.{told_of_new, IsNewGroup};
ghost use Rattle.site_shelves.specs.inside.Begun.{rule_of, IsBegunAt, IsBegun, KeepsKeys};

use crate::covering::Key;
use crate::told::NewGroup;
use chem_model::{Memory, RuleId};
use std::alloc::Global;
use std::collections::BTreeSet;

// The site and the number of the first rule of groups, and their level: of each level at least one
// that is no later than those of its groups that are there. Of each level it is remembered which
// was noted last, by which most groups that come are found to be noted.
#[derive(Drop)]
pub(crate) struct Firsts {
    pub(crate) keys: BTreeSet<Key>,
    pub(crate) last: Vec<Option<(u32, u64)>>,
}

// Those of no group.
pub(crate) fn no_firsts(alloc: Global) -> Firsts {
    Firsts {
        keys: BTreeSet::new(alloc),
        last: Vec::new(alloc),
    }
}

// Whether groups that begin there have rules behind that of the key only.
pub(crate) fn is_behind(begin: Key, key: Key) -> bool
    ensures { result ≡ precedes (rule_of key) (rule_of begin) }
{
    key.0 < begin.0 || (key.0 == begin.0 && key.1 < begin.1)
}

// How many of so many guards, from a group's first on, have rules up to that of the key, where the
// group begins there; perhaps more.
pub(crate) fn reach(begin: Key, key: Key, guards: usize) -> usize
    ensures most { result ≤ guards }
    ensures up_to { (i : ℕ) → i < guards
        → precedes (rule_of key) (rule_of (key_from begin i)) ≡ false → i < result }
{
    if begin.0 != key.0 || key.1 < begin.1 {
        return guards;
    }
    let places = key.1 - begin.1;
    if places >= guards as u64 {
        return guards;
    }
    places as usize + 1
}

// Whether what was noted last of a level is no later than these rules.
fn begins(firsts: &Firsts, level: u32, rules: RuleId) -> bool
    ensures { IsTrue result → IsBegunAt firsts.now.keys level rules }
{
    match firsts.last.get(level as usize) {
        Some(Some((site, k))) => {
            let begin = (*site, *k, level as u64);
            !is_behind(begin, (rules.site, rules.k, 0)) && firsts.keys.contains(&begin)
        }
        _ => false,
    }
}

// Remembers it.
fn remember(last: &mut Vec<Option<(u32, u64)>>, level: usize, rules: RuleId) -> Result<(), Memory> {
    for _at in last.len()..=level {
        last.push(None)?;
    }
    if let Some(place) = last.get_mut(level) {
        *place = Some((rules.site, rules.k));
    }
    Ok(())
}

// Notes where a group of a level begins.
fn begin(firsts: &mut Firsts, level: u32, rules: RuleId) -> Result<(), Memory>
    ensures begun { OnOk result (IsBegunAt firsts.new.keys level rules) }
    ensures kept { KeepsKeys firsts.old.keys firsts.new.keys }
{
    if begins(firsts, level, rules) {
        return Ok(());
    }
    firsts.keys.insert((rules.site, rules.k, level as u64))?;
    remember(&mut firsts.last, level as usize, rules)
}

// Notes where these groups begin.
pub(crate) fn begin_all(firsts: &mut Firsts, groups: &[NewGroup]) -> Result<(), Memory>
    requires { Each IsNewGroup groups.now }
    ensures begun { OnOk result (Each (IsBegun firsts.new.keys) (told_of_new groups.now)) }
    ensures kept { KeepsKeys firsts.old.keys firsts.new.keys }
{
    for group in groups {
        begin(firsts, group.level, group.rules)?;
    }
    Ok(())
}
