// The names that a block makes, and the locations that are born with it.
ghost use Rattle.std.specs.Prelude.{◌≡◌, ◌+◌, ◌++◌, IfOk, OnOk, length};
ghost use Rattle.chem_model.specs.Each.{Each};
ghost use Rattle.env_store.specs.Running.{channel_names, place_names, place_births, after_place};
ghost use Rattle.env_store.specs.Running.{numbered_levels};
ghost use Rattle.code_run.specs.inside.Steps.{IsThere, levels_named};

use chem_model::{Loc, Memory, Name, Names, Nums};
use env_store::{Code, Level, Locs};

// The sum. A count that would pass the last number is answered as want of memory.
pub(crate) fn sum(one: u64, more: u64) -> Result<u64, Memory>
    ensures { IfOk result (λ both. both ≡ one + more) }
{
    one.checked_add(more).ok_or(Memory)
}

// The next number after a place and its channels.
pub(crate) fn after_place(k: u64, level: &Level) -> Result<u64, Memory>
    ensures { IfOk result (λ next. next ≡ after_place k level.now) }
{
    sum(k, 1 + level.counts.len() as u64)
}

// Names the channels of a location with these counts, from a number on. Answers the next number.
fn name_channels(
    names: &mut Names,
    site: u32,
    home: Loc,
    from: u64,
    counts: &Nums,
) -> Result<u64, Memory>
    ensures names { OnOk result (names.new
        ≡ names.old ++ channel_names site home from counts.now) }
    ensures next { IfOk result (λ next. next ≡ from + length counts.now) }
{
    let mut k = from;
    for _count in counts.as_slice() {
        names.push(Name::Chan { site, k, home })?;
        k = sum(k, 1)?;
    }
    Ok(k)
}

// Names the places with these levels, each with its channels, from a number on.
fn name_places(
    code: &Code,
    site: u32,
    from: u64,
    places: &[u32],
    names: &mut Names,
) -> Result<(), Memory>
    requires { Each (IsThere code.now) places.now }
    ensures { OnOk result (names.new ≡ names.old
        ++ place_names site from (numbered_levels code.now.levels places.now)) }
{
    let mut k = from;
    for place in places {
        let level = code.level(*place);
        let loc = Loc { site, k };
        let first = sum(k, 1)?;
        names.push(Name::Place(loc))?;
        k = name_channels(names, site, loc, first, &level.counts)?;
    }
    Ok(())
}

// Appends the names of the block with these levels at a location, from a number on.
pub(crate) fn name_block(
    code: &Code,
    site: u32,
    loc: Loc,
    from: u64,
    levels: &[u32],
    names: &mut Names,
) -> Result<(), Memory>
    requires { Each (IsThere code.now) levels.now }
    ensures { OnOk result (names.new ≡ names.old
        ++ levels_named site loc from (numbered_levels code.now.levels levels.now)) }
{
    let [own, places @ ..] = levels else {
        return Ok(());
    };
    let level = code.level(*own);
    let first = name_channels(names, site, loc, from, &level.counts)?;
    name_places(code, site, first, places, names)
}

// The locations of the places with these levels are born, from a number on.
pub(crate) fn bear_places(
    code: &Code,
    site: u32,
    from: u64,
    places: &[u32],
    births: &mut Locs,
) -> Result<(), Memory>
    requires { Each (IsThere code.now) places.now }
    ensures { OnOk result (births.new ≡ births.old
        ++ place_births site from (numbered_levels code.now.levels places.now)) }
{
    let mut k = from;
    for place in places {
        let level = code.level(*place);
        births.push(Loc { site, k })?;
        k = after_place(k, level)?;
    }
    Ok(())
}
