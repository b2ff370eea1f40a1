// The sorts of a program's locations and parameters.
ghost use Rattle.std.specs.Prelude.{◌≡◌, ◌++◌, ◌∷◌, [], OnOk, IfOk, slice_get};
ghost use Rattle.chem_model.specs.Process.{definitions as definitions_of};
ghost use Rattle.chem_model.specs.Process.{processes as processes_of};
ghost use Rattle.sort_laws.specs.Table.{asked_by, entries_for, place_entry};
ghost use Rattle.sort_check.specs.inside.Beside.{kept};
ghost use Rattle.sort_check.specs.inside.Told.{in_map};
ghost use Rattle.sort_check.specs.inside.Gathered.{sorts_of, seen_sorts as seen_of};
ghost use Rattle.sort_check.specs.inside.Gathered.{pattern_entries, entries, entries_of_all};
ghost use Rattle.sort_check.specs.inside.Gathered.{entries_of_definition, entries_of_definitions};
ghost use Rattle.sort_check.specs.inside.Gathered.{site_entries, entries_of_sites};

use crate::uses::Uses;
use crate::walk::{Table, sort_of};
use chem_model::{
    Defn, DefnNode, Defs, Items, Memory, Pat, Proc, ProcNode, Procs, Ref, SeenDecl, SiteTerm, Text,
};
use sort_laws::{Entry, SortArg};
use std::alloc::Global;

pub type Entries = Items<Entry>;

pub type SortList = Items<Option<SortArg>>;

// The sort of each binder by its spelling, as if it were a channel.
pub fn channel_sorts(alloc: Global, uses: &Uses<'_>, spell: &[Text]) -> Result<SortList, Memory>
    ensures { IfOk result (λ list. list ≡ sorts_of (in_map uses.now) spell.now) }
{
    let mut list = SortList::new(alloc);
    for text in spell {
        list.push(uses.find(text.as_slice()))?;
    }
    Ok(list)
}

// The sort of each observed name.
pub fn seen_sorts(alloc: Global, uses: &Uses<'_>, seen: &[SeenDecl]) -> Result<SortList, Memory>
    ensures { IfOk result (λ list. list ≡ seen_of (in_map uses.now) seen.now) }
{
    let mut list = SortList::new(alloc);
    for decl in seen {
        list.push(uses.find(decl.spell.as_slice()))?;
    }
    Ok(list)
}

// The sort that a channel of this sort asks for at this place.
fn asked_at(table: &Table<'_>, sort: Option<SortArg>, index: usize) -> Option<SortArg>
    ensures { result ≡ slice_get (asked_by (kept table.now).args sort) index }
{
    match sort {
        Some(SortArg::Named(sort)) => match table.decls.get(sort as usize) {
            Some(decl) => decl.args.as_slice().get(index).copied(),
            None => None,
        },
        _ => None,
    }
}

fn parameters(
    list: &mut Entries,
    table: &Table<'_>,
    sort: Option<SortArg>,
    params: &[u32],
) -> Result<(), Memory>
    ensures { OnOk result (list.new
        ≡ list.old ++ entries_for (asked_by (kept table.now).args sort) params.now) }
{
    for index in 0..params.len() {
        list.push(Entry {
            binder: params[index],
            sort: asked_at(table, sort, index),
        })?;
    }
    Ok(())
}

fn pattern(list: &mut Entries, table: &Table<'_>, p: &Pat) -> Result<(), Memory>
    ensures { OnOk result (list.new ≡ list.old ++ pattern_entries (kept table.now) (p.now ∷ [])) }
{
    parameters(list, table, sort_of(table, &p.on), p.params.as_slice())
}

fn patterns(list: &mut Entries, table: &Table<'_>, pats: &[Pat]) -> Result<(), Memory>
    ensures { OnOk result (list.new ≡ list.old ++ pattern_entries (kept table.now) pats.now) }
{
    for p in pats {
        pattern(list, table, p)?;
    }
    Ok(())
}

fn place(list: &mut Entries, name: &Ref) -> Result<(), Memory>
    ensures { OnOk result (list.new ≡ list.old ++ place_entry name.now) }
{
    match *name {
        Ref::Binder(binder) => list.push(Entry {
            binder,
            sort: Some(SortArg::Place),
        }),
        Ref::Known(_) => Ok(()),
    }
}

#[cycle(gather)]
fn process(list: &mut Entries, table: &Table<'_>, p: &Proc) -> Result<(), Memory>
    ensures { OnOk result (list.new ≡ list.old ++ entries (kept table.now) p.now) }
{
    match p.node() {
        ProcNode::Par(members) => processes(list, table, members),
        ProcNode::Def { defs, body } => {
            definitions(list, table, defs)?;
            process(list, table, body)?;
            Ok(())
        }
        ProcNode::Msg { .. } => Ok(()),
        ProcNode::Go { .. } => Ok(()),
        ProcNode::Fail { .. } => Ok(()),
        ProcNode::Halt => Ok(()),
    }
}

#[cycle(gather)]
fn processes(list: &mut Entries, table: &Table<'_>, members: &Procs) -> Result<(), Memory>
    ensures { OnOk result (list.new
        ≡ list.old ++ entries_of_all (kept table.now) (processes_of members.now)) }
{
    for p in members.as_slice() {
        process(list, table, p)?;
    }
    Ok(())
}

#[cycle(gather)]
fn definition(list: &mut Entries, table: &Table<'_>, d: &Defn) -> Result<(), Memory>
    ensures { OnOk result (list.new ≡ list.old ++ entries_of_definition (kept table.now) d.now) }
{
    match d.node() {
        DefnNode::Rule { pats, body } => {
            patterns(list, table, pats.as_slice())?;
            process(list, table, body)?;
            Ok(())
        }
        DefnNode::Place { name, defs, body } => {
            place(list, name)?;
            definitions(list, table, defs)?;
            process(list, table, body)?;
            Ok(())
        }
    }
}

#[cycle(gather)]
fn definitions(list: &mut Entries, table: &Table<'_>, members: &Defs) -> Result<(), Memory>
    ensures { OnOk result (list.new
        ≡ list.old ++ entries_of_definitions (kept table.now) (definitions_of members.now)) }
{
    for d in members.as_slice() {
        definition(list, table, d)?;
    }
    Ok(())
}

fn site(list: &mut Entries, table: &Table<'_>, site: &SiteTerm) -> Result<(), Memory>
    ensures { OnOk result (list.new ≡ list.old ++ site_entries (kept table.now) site.now) }
{
    list.push(Entry {
        binder: site.name,
        sort: Some(SortArg::Place),
    })?;
    definitions(list, table, &site.defs)?;
    process(list, table, &site.body)?;
    Ok(())
}

// The sorts of the locations and the parameters of all sites.
pub fn sites(list: &mut Entries, table: &Table<'_>, terms: &[SiteTerm]) -> Result<(), Memory>
    ensures { OnOk result (list.new ≡ list.old ++ entries_of_sites (kept table.now) terms.now) }
{
    for term in terms {
        site(list, table, term)?;
    }
    Ok(())
}
