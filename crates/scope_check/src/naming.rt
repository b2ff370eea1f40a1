// The first walk: the tables of all scopes, each binder with its number, and the spellings in the
// order of the numbers.
ghost use Rattle.std.specs.Prelude.{◌≡◌, ◌+◌, ◌<◌, ◌++◌, ◌∷◌, [], OnOk, IfOk, length, set};
ghost use Rattle.join_parse.specs.Source.{processes, definitions as source_definitions};
ghost use Rattle.scope_check.specs.Blocks.{place_of, places_of, places, sites_of};
ghost use Rattle.scope_check.specs.inside.Naming.{name_one as named_one, name_all as named_all};
ghost use Rattle.scope_check.specs.inside.Naming.{numbered_as, spells_as};
ghost use Rattle.scope_check.specs.inside.Naming.{name_words as named_words};
ghost use Rattle.scope_check.specs.inside.Naming.{name_patterns as named_patterns, walk as walked};
ghost use Rattle.scope_check.specs.inside.Naming.{walk_all as walked_all, walk_one as walked_one};
ghost use Rattle.scope_check.specs.inside.Naming.{walk_level as walked_level};

use crate::block::Defining;
use chem_model::{Memory, Texts};
use join_parse::{
    DefNode, DefTree, DefTrees, PatTree, PlaceTree, ProcNode, ProcTree, ProcTrees, Word,
};
use scope_names::{Entry, Scope, Sort};
use std::alloc::Global;

// What the walk made so far: the tables of scopes, and the spellings of binders, which stand in the
// order of their numbers.
#[derive(Drop)]
pub struct Tables<'a> {
    pub scopes: Vec<Scope<'a>>,
    pub spell: Texts,
}

// The number of a word that isn't in its table yet: the next one. An observed name has none.
fn binder_for(alloc: Global, spell: &mut Texts, word: &Word, sort: Sort) -> Result<u32, Memory>
    ensures binder { IfOk result (λ n. n ≡ numbered_as sort (length spell.old)) }
    ensures spell { OnOk result (spell.new ≡ spells_as sort spell.old word.now.text) }
{
    match sort {
        Sort::Observed { .. } => Ok(0),
        Sort::Channel { .. } | Sort::Location | Sort::Parameter => {
            let binder = spell.len() as u32;
            let text = word.text.copy(alloc)?;
            spell.push(text)?;
            Ok(binder)
        }
    }
}

// A word that isn't in the table yet takes the next number.
fn name_one<'a>(
    alloc: Global,
    table: &mut Scope<'a>,
    spell: &mut Texts,
    word: &'a Word,
    sort: Sort,
) -> Result<(), Memory>
    ensures table { OnOk result (table.new ≡ (named_one spell.old table.old word.now sort).table) }
    ensures spell { OnOk result (spell.new ≡ (named_one spell.old table.old word.now sort).spell) }
{
    let text = word.text.as_slice();
    if table.find(text).is_none() {
        let binder = binder_for(alloc, spell, word, sort)?;
        table.add(text, Entry { sort, binder })?;
    }
    Ok(())
}

// The names of a block.
pub fn name_all<'a>(
    alloc: Global,
    table: &mut Scope<'a>,
    spell: &mut Texts,
    names: &[Defining<'a>],
) -> Result<(), Memory>
    ensures table { OnOk result (table.new ≡ (named_all spell.old table.old names.now).table) }
    ensures spell { OnOk result (spell.new ≡ (named_all spell.old table.old names.now).spell) }
{
    for d in names {
        name_one(alloc, table, spell, d.word, d.sort)?;
    }
    Ok(())
}

fn name_words<'a>(
    alloc: Global,
    table: &mut Scope<'a>,
    spell: &mut Texts,
    words: &'a [Word],
) -> Result<(), Memory>
    ensures table { OnOk result (table.new ≡ (named_words spell.old table.old words.now).table) }
    ensures spell { OnOk result (spell.new ≡ (named_words spell.old table.old words.now).spell) }
{
    for word in words {
        name_one(alloc, table, spell, word, Sort::Parameter)?;
    }
    Ok(())
}

// The channels of a join pattern at a location, and its parameters.
fn name_patterns<'a>(
    alloc: Global,
    own: &mut Scope<'a>,
    params: &mut Scope<'a>,
    spell: &mut Texts,
    at: u32,
    pats: &'a [PatTree],
) -> Result<(), Memory>
    ensures own { OnOk result
        (own.new ≡ (named_patterns at spell.old own.old params.old pats.now).own) }
    ensures params { OnOk result
        (params.new ≡ (named_patterns at spell.old own.old params.old pats.now).params) }
    ensures spell { OnOk result
        (spell.new ≡ (named_patterns at spell.old own.old params.old pats.now).spell) }
{
    for pat in pats {
        let count = pat.params.len() as u32;
        name_one(alloc, own, spell, &pat.on, Sort::Channel { count, at })?;
        name_words(alloc, params, spell, pat.params.as_slice())?;
    }
    Ok(())
}

// The channels of a join pattern at a location, and the scope of its parameters.
fn name_join<'a>(
    alloc: Global,
    tables: &mut Tables<'a>,
    own: &mut Scope<'a>,
    at: u32,
    pats: &'a [PatTree],
) -> Result<(), Memory>
    ensures own { OnOk result
        (own.new ≡ (named_patterns at tables.old.spell own.old [] pats.now).own) }
    ensures scopes { OnOk result (tables.new.scopes.items
        ≡ tables.old.scopes.items
        ++ (named_patterns at tables.old.spell own.old [] pats.now).params ∷ []) }
    ensures spell { OnOk result
        (tables.new.spell ≡ (named_patterns at tables.old.spell own.old [] pats.now).spell) }
{
    let mut params = Scope::new(alloc);
    match name_patterns(alloc, own, &mut params, &mut tables.spell, at, pats) {
        Ok(()) => {
            tables.scopes.push(params)?;
            Ok(())
        }
        Err(memory) => {
            drop(params);
            Err(memory)
        }
    }
}

// The place that is kept for a scope, behind the others.
pub fn keep_place<'a>(alloc: Global, scopes: &mut Vec<Scope<'a>>) -> Result<usize, Memory>
    ensures place { IfOk result (λ slot. slot ≡ length scopes.old.items) }
    ensures kept { OnOk result (scopes.new.items ≡ scopes.old.items ++ [] ∷ []) }
{
    let slot = scopes.len();
    scopes.push(Scope::new(alloc))?;
    Ok(slot)
}

// Puts a scope in the place that was kept for it.
pub fn fill<'a>(scopes: &mut Vec<Scope<'a>>, slot: usize, scope: Scope<'a>) -> Result<(), Memory>
    requires { slot < length scopes.old.items }
    ensures { OnOk result (scopes.new.items ≡ set scopes.old.items slot scope.entry) }
{
    let last = scopes.len();
    scopes.push(scope)?;
    scopes.swap(slot, last);
    scopes.pop();
    Ok(())
}

// The scopes of a process.
#[cycle(naming)]
pub fn walk<'a>(alloc: Global, tables: &mut Tables<'a>, p: &'a ProcTree) -> Result<(), Memory>
    ensures scopes { OnOk result (tables.new.scopes.items
        ≡ tables.old.scopes.items ++ (walked tables.old.spell p.now).tables) }
    ensures spell { OnOk result (tables.new.spell ≡ (walked tables.old.spell p.now).spell) }
{
    match p.node() {
        ProcNode::Zero
        | ProcNode::Msg { .. }
        | ProcNode::Add { .. }
        | ProcNode::Same { .. }
        | ProcNode::Go { .. }
        | ProcNode::Fail { .. }
        | ProcNode::Halt => Ok(()),
        ProcNode::Group(list) => walk_all(alloc, tables, list),
        ProcNode::Def { defs, body } => {
            let slot = keep_place(alloc, &mut tables.scopes)?;
            let mut own = Scope::new(alloc);
            match walk_level(alloc, tables, &mut own, 0, 1, defs) {
                Ok(_) => {
                    fill(&mut tables.scopes, slot, own)?;
                    walk_all(alloc, tables, body)
                }
                Err(memory) => {
                    drop(own);
                    Err(memory)
                }
            }
        }
    }
}

// The scopes of a list of processes.
#[cycle(naming)]
pub fn walk_all<'a>(
    alloc: Global,
    tables: &mut Tables<'a>,
    list: &'a ProcTrees,
) -> Result<(), Memory>
    ensures scopes { OnOk result (tables.new.scopes.items
        ≡ tables.old.scopes.items ++ (walked_all tables.old.spell (processes list.now)).tables) }
    ensures spell { OnOk result
        (tables.new.spell ≡ (walked_all tables.old.spell (processes list.now)).spell) }
{
    for p in list.as_slice() {
        walk(alloc, tables, p)?;
    }
    Ok(())
}

// A definition's words, and the scopes within.
#[cycle(naming)]
fn walk_one<'a>(
    alloc: Global,
    tables: &mut Tables<'a>,
    own: &mut Scope<'a>,
    at: u32,
    place: u32,
    d: &'a DefTree,
) -> Result<u32, Memory>
    ensures own { OnOk result (own.new ≡ (walked_one at place tables.old.spell own.old d.now).own) }
    ensures scopes { OnOk result (tables.new.scopes.items
        ≡ tables.old.scopes.items ++ (walked_one at place tables.old.spell own.old d.now).tables) }
    ensures spell { OnOk result
        (tables.new.spell ≡ (walked_one at place tables.old.spell own.old d.now).spell) }
    ensures place { IfOk result (λ n. n ≡ place + places_of d.now) }
{
    match d.node() {
        DefNode::Rule { pats, body } => {
            name_join(alloc, tables, own, at, pats.as_slice())?;
            walk_all(alloc, tables, body)?;
            Ok(place)
        }
        DefNode::Place(tree) => walk_place(alloc, tables, own, place, tree),
    }
}

// A place's words, and the scopes within. A block of 2^32 places is refused as want of memory, as
// a list of that length is.
#[cycle(naming)]
fn walk_place<'a>(
    alloc: Global,
    tables: &mut Tables<'a>,
    own: &mut Scope<'a>,
    place: u32,
    tree: &'a PlaceTree,
) -> Result<u32, Memory>
    ensures own { OnOk result
        (own.new ≡ (walked_one 0 place tables.old.spell own.old (place_of tree.now)).own) }
    ensures scopes { OnOk result (tables.new.scopes.items
        ≡ tables.old.scopes.items
        ++ (walked_one 0 place tables.old.spell own.old (place_of tree.now)).tables) }
    ensures spell { OnOk result (tables.new.spell
        ≡ (walked_one 0 place tables.old.spell own.old (place_of tree.now)).spell) }
    ensures place { IfOk result (λ n. n ≡ place + places_of (place_of tree.now)) }
{
    name_one(alloc, own, &mut tables.spell, &tree.name, Sort::Location)?;
    let inner = place.checked_add(1).ok_or(Memory)?;
    let end = walk_level(alloc, tables, own, place, inner, &tree.defs)?;
    walk_all(alloc, tables, &tree.body)?;
    Ok(end)
}

// A level's words, and the scopes within.
#[cycle(naming)]
fn walk_level<'a>(
    alloc: Global,
    tables: &mut Tables<'a>,
    own: &mut Scope<'a>,
    at: u32,
    place: u32,
    list: &'a DefTrees,
) -> Result<u32, Memory>
    ensures own { OnOk result (own.new
        ≡ (walked_level at place tables.old.spell own.old (source_definitions list.now)).own) }
    ensures scopes { OnOk result (tables.new.scopes.items
        ≡ tables.old.scopes.items
        ++ (walked_level at place tables.old.spell own.old (source_definitions list.now)).tables) }
    ensures spell { OnOk result (tables.new.spell
        ≡ (walked_level at place tables.old.spell own.old (source_definitions list.now)).spell) }
    ensures place { IfOk result (λ n. n ≡ place + places (source_definitions list.now)) }
{
    let mut end = place;
    for d in list.as_slice() {
        end = walk_one(alloc, tables, own, at, end, d)?;
    }
    Ok(end)
}

// The scopes of all sites, whose names stand in `own` already.
pub fn walk_sites<'a>(
    alloc: Global,
    tables: &mut Tables<'a>,
    own: &mut Scope<'a>,
    sites: &'a [PlaceTree],
) -> Result<(), Memory>
    ensures own { OnOk result
        (own.new ≡ (walked_level 0 1 tables.old.spell own.old (sites_of sites.now)).own) }
    ensures scopes { OnOk result (tables.new.scopes.items
        ≡ tables.old.scopes.items
        ++ (walked_level 0 1 tables.old.spell own.old (sites_of sites.now)).tables) }
    ensures spell { OnOk result (tables.new.spell
        ≡ (walked_level 0 1 tables.old.spell own.old (sites_of sites.now)).spell) }
{
    let mut end = 1;
    for site in sites {
        end = walk_place(alloc, tables, own, end, site)?;
    }
    Ok(())
}
