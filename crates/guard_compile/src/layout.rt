// Layouts and slots.
ghost use Rattle.std.specs.Prelude.{◌≡◌, [], ◌++◌, IfOk, OnOk};
ghost use Rattle.chem_model.specs.Process.{definitions};
ghost use Rattle.chem_model.specs.Binders.{binder_of, params_of};
ghost use Rattle.env_store.specs.Layout.{new_ref, count_ref, new_in, counts_in, new_channels};
ghost use Rattle.env_store.specs.Layout.{new_counts, place_order, places_order};
ghost use Rattle.guard_compile.specs.inside.Appends.{AreBlockNames};
ghost use Rattle.guard_compile.specs.Written.{slot_or, slots_or, channel_of, channels_of};

use crate::binders::Binders;
use crate::names::NameTable;
use chem_model::{DefnNode, Defs, Items, Memory, Nums, Pat, Pats, Ref, Refs};
use env_store::{Slot, Slots};
use std::alloc::Global;

// The slot of an occurrence of a name.
pub(crate) fn slot(tops: &NameTable, layout: &Binders, occurrence: Ref) -> Slot
    ensures { result ≡ slot_or tops.now layout.now occurrence }
{
    match occurrence {
        Ref::Known(name) => Slot::Known(name),
        Ref::Binder(binder) => match tops.name_at(binder) {
            Some(name) => Slot::Known(name),
            None => match layout.place(binder) {
                Some(at) => Slot::Env(at),
                None => Slot::Env(0),
            },
        },
    }
}

// The slots of occurrences of names.
pub(crate) fn slots(
    alloc: Global,
    tops: &NameTable,
    layout: &Binders,
    occurrences: &Refs,
) -> Result<Slots, Memory>
    ensures { IfOk result (λ list. list ≡ slots_or tops.now layout.now occurrences.now) }
{
    let mut list = Items::new(alloc);
    for occurrence in occurrences.as_slice() {
        list.push(slot(tops, layout, *occurrence))?;
    }
    Ok(list)
}

// The number of a channel in its level.
fn channel(channels: &Binders, occurrence: Ref) -> u32
    ensures { result ≡ channel_of channels.now occurrence }
{
    match occurrence {
        Ref::Known(_) => 0,
        Ref::Binder(binder) => match channels.place(binder) {
            Some(at) => at,
            None => 0,
        },
    }
}

// The numbers of the channels of a join pattern.
pub(crate) fn channels(alloc: Global, channels: &Binders, pats: &Pats) -> Result<Nums, Memory>
    ensures { IfOk result (λ list. list ≡ channels_of channels.now pats.now) }
{
    let mut list = Items::new(alloc);
    for pat in pats.as_slice() {
        list.push(channel(channels, pat.on))?;
    }
    Ok(list)
}

// A channel that has no name yet gets one.
fn name_pat(
    named: &mut Binders,
    fresh: &mut Binders,
    counts: &mut Nums,
    pat: &Pat,
) -> Result<(), Memory>
    ensures named { OnOk result (named.new ≡ named.old ++ new_ref named.old pat.now.on) }
    ensures fresh { OnOk result (fresh.new ≡ fresh.old ++ new_ref named.old pat.now.on) }
    ensures counts { OnOk result (counts.new ≡ counts.old
        ++ count_ref named.old pat.now pat.now.on) }
{
    if let Ref::Binder(binder) = pat.on {
        if !named.contains(binder) {
            named.push(binder)?;
            fresh.push(binder)?;
            counts.push(pat.params.len() as u32)?;
        }
    }
    Ok(())
}

fn name_pats(
    named: &mut Binders,
    fresh: &mut Binders,
    counts: &mut Nums,
    pats: &Pats,
) -> Result<(), Memory>
    ensures named { OnOk result (named.new ≡ named.old ++ new_in named.old pats.now) }
    ensures fresh { OnOk result (fresh.new ≡ fresh.old ++ new_in named.old pats.now) }
    ensures counts { OnOk result (counts.new ≡ counts.old ++ counts_in named.old pats.now) }
{
    for pat in pats.as_slice() {
        name_pat(named, fresh, counts, pat)?;
    }
    Ok(())
}

// The channels of a level that have no name yet get one, each with its number of arguments.
fn name_channels(
    named: &mut Binders,
    fresh: &mut Binders,
    counts: &mut Nums,
    defs: &Defs,
) -> Result<(), Memory>
    ensures named { OnOk result (named.new ≡ named.old ++ new_channels named.old
        (definitions defs.now)) }
    ensures fresh { OnOk result (fresh.new ≡ fresh.old ++ new_channels named.old
        (definitions defs.now)) }
    ensures counts { OnOk result (counts.new ≡ counts.old ++ new_counts named.old
        (definitions defs.now)) }
{
    for definition in defs.as_slice() {
        if let DefnNode::Rule { pats, .. } = definition.node() {
            name_pats(named, fresh, counts, pats)?;
        }
    }
    Ok(())
}

// A place gets a name, and then its channels do.
pub(crate) fn name_place(
    named: &mut Binders,
    fresh: &mut Binders,
    counts: &mut Nums,
    name: Ref,
    defs: &Defs,
) -> Result<(), Memory>
    ensures named { OnOk result (named.new ≡ named.old ++ place_order named.old name
        (definitions defs.now)) }
    ensures fresh { OnOk result (fresh.new ≡ fresh.old ++ new_channels (named.old ++ binder_of name)
        (definitions defs.now)) }
    ensures counts { OnOk result (counts.new ≡ counts.old ++ new_counts (named.old
        ++ binder_of name)
        (definitions defs.now)) }
{
    if let Ref::Binder(binder) = name {
        named.push(binder)?;
    }
    name_channels(named, fresh, counts, defs)
}

// A place of a block gets its name, and then its channels do.
fn name_block_place(
    alloc: Global,
    named: &mut Binders,
    name: Ref,
    defs: &Defs,
) -> Result<(), Memory>
    ensures { OnOk result (named.new ≡ named.old ++ place_order named.old name
        (definitions defs.now)) }
{
    let mut fresh = Binders::new(alloc);
    let mut counts = Items::new(alloc);
    name_place(named, &mut fresh, &mut counts, name, defs)
}

// The places of a block get their names.
fn name_places(alloc: Global, named: &mut Binders, defs: &Defs) -> Result<(), Memory>
    ensures { OnOk result (named.new ≡ named.old ++ places_order named.old (definitions defs.now)) }
{
    for definition in defs.as_slice() {
        if let DefnNode::Place { name, defs, .. } = definition.node() {
            name_block_place(alloc, named, *name, defs)?;
        }
    }
    Ok(())
}

// What a block names: its own channels, each with its number of arguments, and all its names in
// order.
#[derive(Drop)]
pub(crate) struct Opened {
    pub(crate) channels: Binders,
    pub(crate) counts: Nums,
    pub(crate) order: Binders,
}

// A block of which nothing is named yet gets its names.
fn name_block(alloc: Global, opened: &mut Opened, defs: &Defs) -> Result<(), Memory>
    requires { opened.old ≡ record { channels = []; counts = []; order = [] } }
    ensures { OnOk result (AreBlockNames (definitions defs.now) opened.new) }
{
    name_channels(
        &mut opened.order,
        &mut opened.channels,
        &mut opened.counts,
        defs,
    )?;
    name_places(alloc, &mut opened.order, defs)
}

// What a block names.
pub(crate) fn open(alloc: Global, defs: &Defs) -> Result<Opened, Memory>
    ensures { IfOk result (λ opened. AreBlockNames (definitions defs.now) opened) }
{
    let mut opened = Opened {
        channels: Binders::new(alloc),
        counts: Items::new(alloc),
        order: Binders::new(alloc),
    };
    match name_block(alloc, &mut opened, defs) {
        Ok(()) => Ok(opened),
        Err(memory) => {
            drop(opened);
            Err(memory)
        }
    }
}

// Appends the parameters of a join pattern.
pub(crate) fn push_params(layout: &mut Binders, pats: &Pats) -> Result<(), Memory>
    ensures { OnOk result (layout.new ≡ layout.old ++ params_of pats.now) }
{
    for pat in pats.as_slice() {
        layout.extend(pat.params.as_slice())?;
    }
    Ok(())
}
