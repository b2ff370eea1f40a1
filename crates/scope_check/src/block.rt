// The defining occurrences of a block.
ghost use Rattle.std.specs.Prelude.{◌≡◌, ◌+◌, ◌++◌, IfOk, OnOk};
ghost use Rattle.join_parse.specs.Source.{definitions as source_definitions};
ghost use Rattle.scope_check.specs.Blocks.{channels as channels_at, defining, defining_one};
ghost use Rattle.scope_check.specs.Blocks.{places, places_of, observed_from, place_of, sites_of};

use chem_model::Memory;
use join_parse::{DefNode, DefTree, DefTrees, PatTree, PlaceTree, SeenTree, Word};
use scope_names::Sort;
use std::marker::Model;

// An occurrence that defines, and what it makes of its spelling.
#[derive(Drop)]
pub struct Defining<'a> {
    pub word: &'a Word,
    pub sort: Sort,
}

impl<'a> Model for Defining<'a> {
    ghost use Rattle.join_parse.specs.declared.word.Word.{Word};
    ghost use Rattle.scope_names.specs.declared.scope.Sort.{Sort};

    ghost Value = { Word × Sort };

    ghost view = { λ d. (d.word.now, d.sort) };
}

// The channels of a join pattern at a location.
fn channels<'a>(list: &mut Vec<Defining<'a>>, at: u32, pats: &'a [PatTree]) -> Result<(), Memory>
    ensures { OnOk result (list.new.items ≡ list.old.items ++ channels_at at pats.now) }
{
    for pat in pats {
        let count = pat.params.len() as u32;
        list.push(Defining {
            word: &pat.on,
            sort: Sort::Channel { count, at },
        })?;
    }
    Ok(())
}

// The names of a list of definitions at a location, and the number of the block's next place.
#[cycle(block)]
fn level<'a>(
    list: &mut Vec<Defining<'a>>,
    at: u32,
    place: u32,
    defs: &'a DefTrees,
) -> Result<u32, Memory>
    ensures names { OnOk result
        (list.new.items ≡ list.old.items ++ defining at place (source_definitions defs.now)) }
    ensures place { IfOk result (λ n. n ≡ place + places (source_definitions defs.now)) }
{
    let mut end = place;
    for d in defs.as_slice() {
        end = one(list, at, end, d)?;
    }
    Ok(end)
}

#[cycle(block)]
fn one<'a>(list: &mut Vec<Defining<'a>>, at: u32, place: u32, d: &'a DefTree) -> Result<u32, Memory>
    ensures names { OnOk result (list.new.items ≡ list.old.items ++ defining_one at place d.now) }
    ensures place { IfOk result (λ n. n ≡ place + places_of d.now) }
{
    match d.node() {
        DefNode::Rule { pats, .. } => {
            channels(list, at, pats.as_slice())?;
            Ok(place)
        }
        DefNode::Place(tree) => location(list, place, tree),
    }
}

// The name of a place, and those of its definitions. A block of 2^32 places is refused as want of
// memory, as a list of that length is.
#[cycle(block)]
fn location<'a>(
    list: &mut Vec<Defining<'a>>,
    place: u32,
    tree: &'a PlaceTree,
) -> Result<u32, Memory>
    ensures names { OnOk result
        (list.new.items ≡ list.old.items ++ defining_one 0 place (place_of tree.now)) }
    ensures place { IfOk result (λ n. n ≡ place + places_of (place_of tree.now)) }
{
    list.push(Defining {
        word: &tree.name,
        sort: Sort::Location,
    })?;
    let inner = place.checked_add(1).ok_or(Memory)?;
    level(list, place, inner, &tree.defs)
}

// The names of the block of a `def`.
pub fn block<'a>(list: &mut Vec<Defining<'a>>, defs: &'a DefTrees) -> Result<(), Memory>
    ensures { OnOk result
        (list.new.items ≡ list.old.items ++ defining 0 1 (source_definitions defs.now)) }
{
    level(list, 0, 1, defs)?;
    Ok(())
}

// The observed names.
pub fn observed<'a>(list: &mut Vec<Defining<'a>>, seen: &'a [SeenTree]) -> Result<(), Memory>
    ensures { OnOk result (list.new.items ≡ list.old.items ++ observed_from 0 seen.now) }
{
    let mut index: u32 = 0;
    for declaration in seen {
        list.push(Defining {
            word: &declaration.name,
            sort: Sort::Observed {
                count: declaration.count,
                index,
            },
        })?;
        index = index.checked_add(1).ok_or(Memory)?;
    }
    Ok(())
}

// The names that sites define, in the outermost block.
pub fn sites<'a>(list: &mut Vec<Defining<'a>>, trees: &'a [PlaceTree]) -> Result<(), Memory>
    ensures { OnOk result (list.new.items ≡ list.old.items ++ defining 0 1 (sites_of trees.now)) }
{
    let mut end = 1;
    for tree in trees {
        end = location(list, end, tree)?;
    }
    Ok(())
}
