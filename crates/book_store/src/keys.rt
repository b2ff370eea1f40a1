// Keys in order: a number, and then the number of a message, a request or a rule.
ghost use Rattle.std.specs.Prelude.{◌≡◌, ◌≤◌, ◌<◌, ◌^◌, ◌⊎◌, IfOk, IfSome, OnOk, OnErr, false};
ghost use Rattle.std.specs.Prelude.{None};
ghost use Rattle.chem_model.specs.Each.{IsIn};
ghost use Rattle.book_store.specs.Keys.{Key as TheKey, KeepsKeys, HasNone, HasAll, HasOnly, joined};
ghost use Rattle.book_store.specs.Keys.{number_of, place_number, channel_of};

use chem_model::{Loc, Memory, Name, Proc, ProcNode, Ref};
use std::alloc::Global;
use std::collections::BTreeSet;
use std::collections::btree_set::Range;
use std::ops::Bound;

/// A number, and then a site and a number there.
pub type Key = (u64, (u32, u64));

// A number that no channel has.
pub(crate) const NO_NUMBER: u64 = u64::MAX;

// A site and a number in one.
fn joined(site: u32, k: u64) -> u64
    ensures is { result ≡ joined site k }
    ensures small { result < 2 ^ 63 }
{
    k % 2_147_483_648 * 4_294_967_296 + site as u64
}

// The number of a channel. All other names have one, which no channel has.
pub(crate) fn number_of(on: Ref) -> u64
    ensures is { result ≡ number_of on }
    ensures small { result ≤ 2 ^ 63 }
{
    match on {
        Ref::Known(Name::Chan { site, k, .. }) => joined(site, k),
        _ => 9_223_372_036_854_775_808,
    }
}

// The number of a location.
pub(crate) fn place_number(at: Loc) -> u64
    ensures is { result ≡ place_number at }
    ensures small { result < 2 ^ 63 }
{
    joined(at.site, at.k)
}

/// The number of a message's channel. A request has none. Two channels whose numbers are below 2^31
/// have different ones.
pub fn channel_of(term: &Proc) -> Option<u64>
    ensures is { result ≡ channel_of term.now }
    ensures small { IfSome result (λ c. c ≤ 2 ^ 63) }
{
    match term.node() {
        ProcNode::Msg { on, .. } => Some(number_of(*on)),
        _ => None,
    }
}

// Adds a key. On want of memory nothing changes.
pub(crate) fn add_key(keys: &mut BTreeSet<Key>, key: Key) -> Result<(), Memory>
    ensures there { OnOk result (IsIn key keys.new.keys) }
    ensures kept { KeepsKeys keys.old.keys keys.new.keys }
    ensures only { (k : TheKey) → IsIn k keys.new.keys → (k ≡ key) ⊎ IsIn k keys.old.keys }
    ensures err { OnErr result (keys.new.keys ≡ keys.old.keys) }
{
    match keys.insert(key) {
        Ok(_) => Ok(()),
        Err(_) => Err(Memory),
    }
}

// Takes a key out. The others stay. It takes no memory.
pub(crate) fn drop_key(keys: &mut BTreeSet<Key>, key: Key)
    ensures kept { (k : TheKey) → IsIn k keys.old.keys → (k ≡ key) ⊎ IsIn k keys.new.keys }
    ensures fewer { KeepsKeys keys.new.keys keys.old.keys }
{
    keys.remove(&key);
}

// The keys with this number, in order.
fn range_of(keys: &BTreeSet<Key>, number: u64) -> Range<'_, Key>
    requires { number ≤ 2 ^ 63 }
    ensures all { HasAll number keys.now.keys result }
    ensures only { HasOnly number result }
{
    keys.range((
        Bound::Included((number, (0, 0))),
        Bound::Excluded((number + 1, (0, 0))),
    ))
}

// The first key with this number.
pub(crate) fn first_with(keys: &BTreeSet<Key>, number: u64) -> Option<Key>
    requires { number ≤ 2 ^ 63 }
    ensures { result ≡ None → HasNone number keys.now.keys }
{
    if keys.is_empty() {
        return None;
    }
    let mut found = range_of(keys, number);
    match found.next() {
        Some(key) => Some(*key),
        None => None,
    }
}

// Whether a key has this number.
pub(crate) fn has_number(keys: &BTreeSet<Key>, number: u64) -> bool
    requires { number ≤ 2 ^ 63 }
    ensures { result ≡ false → HasNone number keys.now.keys }
{
    match first_with(keys, number) {
        Some(_) => true,
        None => false,
    }
}

// The keys with this number.
pub(crate) fn keys_with(
    alloc: Global,
    keys: &BTreeSet<Key>,
    number: u64,
) -> Result<Vec<Key>, Memory>
    requires { number ≤ 2 ^ 63 }
    ensures all { IfOk result (λ list. HasAll number keys.now.keys list.items) }
    ensures only { IfOk result (λ list. HasOnly number list.items) }
{
    let mut list = Vec::new(alloc);
    if keys.is_empty() {
        return Ok(list);
    }
    for key in range_of(keys, number) {
        list.push(*key)?;
    }
    Ok(list)
}

// All keys.
pub(crate) fn all_keys(alloc: Global, keys: &BTreeSet<Key>) -> Result<Vec<Key>, Memory>
    ensures { IfOk result (λ list. (k : TheKey) → IsIn k keys.now.keys → IsIn k list.items) }
{
    let mut list = Vec::new(alloc);
    for key in keys.iter() {
        list.push(*key)?;
    }
    Ok(list)
}
