// Rules that may be ready, or requests that may be met: by the sites at which they are, and by
// their locations. Others may stand there too.
ghost use Rattle.std.specs.Prelude.{◌≡◌, ◌⊎◌, [], OnOk};
ghost use Rattle.chem_model.specs.Each.{IsIn};
ghost use Rattle.book_store.specs.Keys.{Key as TheKey, place_number};
ghost use Rattle.book_store.specs.Candidates.{KeepsCandidates, AreAtSite};

use crate::keys::{Key, add_key, drop_key, keys_with, place_number};
use chem_model::{Loc, Memory};
use std::alloc::Global;
use std::collections::BTreeSet;

/// Keys by site, and keys by the number of a location.
#[derive(Drop)]
pub struct Candidates {
    pub sites: BTreeSet<Key>,
    pub places: BTreeSet<Key>,
}

impl Candidates {
    // None.
    pub(crate) fn new(alloc: Global) -> Candidates
        ensures sites { result.sites.keys ≡ [] }
        ensures places { result.places.keys ≡ [] }
    {
        Candidates {
            sites: BTreeSet::new(alloc),
            places: BTreeSet::new(alloc),
        }
    }
}

// What has this number and stands at this location, at this site, is a candidate.
pub(crate) fn add_candidate(
    candidates: &mut Candidates,
    site: u32,
    at: Loc,
    id: (u32, u64),
) -> Result<(), Memory>
    ensures at_site { OnOk result (IsIn {X = TheKey} (site, id) candidates.new.sites.keys) }
    ensures at_place { OnOk result
        (IsIn {X = TheKey} (place_number at, id) candidates.new.places.keys) }
    ensures kept { KeepsCandidates candidates.old candidates.new }
{
    add_key(&mut candidates.places, (place_number(at), id))?;
    add_key(&mut candidates.sites, (site as u64, id))
}

// It is none any more. The others stay. It takes no memory.
pub(crate) fn drop_candidate(candidates: &mut Candidates, site: u32, at: Loc, id: (u32, u64))
    ensures sites { (k : TheKey) → IsIn k candidates.old.sites.keys
        → (k.1 ≡ id) ⊎ IsIn k candidates.new.sites.keys }
    ensures places { (k : TheKey) → IsIn k candidates.old.places.keys
        → (k.1 ≡ id) ⊎ IsIn k candidates.new.places.keys }
{
    drop_key(&mut candidates.places, (place_number(at), id));
    drop_key(&mut candidates.sites, (site as u64, id));
}

// Those of a location are candidates at this site too.
pub(crate) fn send_candidates(
    alloc: Global,
    candidates: &mut Candidates,
    at: Loc,
    to: u32,
) -> Result<(), Memory>
    ensures sent { OnOk result (AreAtSite candidates.new at to) }
    ensures kept { KeepsCandidates candidates.old candidates.new }
    ensures places { candidates.new.places.keys ≡ candidates.old.places.keys }
{
    let moving = keys_with(alloc, &candidates.places, place_number(at))?;
    for key in moving.as_slice() {
        add_key(&mut candidates.sites, (to as u64, key.1))?;
    }
    Ok(())
}
