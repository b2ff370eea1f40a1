// Identifiers and arguments as they stand in a text, message patterns and declarations of observed
// names.
ghost use Rattle.std.specs.Prelude.{◌≡◌, IfOk};

use chem_model::{Items, Memory, Text};
use std::alloc::Global;

/// An identifier and its place, a byte offset from 0.
#[derive(Debug, Drop)]
pub struct Word {
    pub text: Text,
    pub place: u32,
}

/// An argument: an identifier, or in a text of the second version a number and its place.
#[derive(Debug, Drop)]
pub enum Arg {
    Word(Word),
    Num { value: u64, place: u32 },
}

/// A message pattern: its channel and its parameters.
#[derive(Debug, Drop)]
pub struct PatTree {
    pub on: Word,
    pub params: Words,
}

/// The declaration of an observed name, and how many arguments its observable messages have.
#[derive(Debug, Drop)]
pub struct SeenTree {
    pub name: Word,
    pub count: u32,
}

pub type Words = Items<Word>;

pub type Args = Items<Arg>;

pub type PatTrees = Items<PatTree>;

pub type SeenTrees = Items<SeenTree>;

impl Word {
    /// An identifier that is equal to this one.
    pub fn copy(&self, alloc: Global) -> Result<Word, Memory>
        ensures { IfOk result (λ copy. copy ≡ self.now) }
    {
        let text = self.text.copy(alloc)?;
        Ok(Word {
            text,
            place: self.place,
        })
    }
}

impl Arg {
    /// An argument that is equal to this one.
    pub fn copy(&self, alloc: Global) -> Result<Arg, Memory>
        ensures { IfOk result (λ copy. copy ≡ self.now) }
    {
        match self {
            Arg::Word(word) => Ok(Arg::Word(word.copy(alloc)?)),
            Arg::Num { value, place } => Ok(Arg::Num {
                value: *value,
                place: *place,
            }),
        }
    }
}

impl PatTree {
    /// A pattern that is equal to this one.
    pub fn copy(&self, alloc: Global) -> Result<PatTree, Memory>
        ensures { IfOk result (λ copy. copy ≡ self.now) }
    {
        let on = self.on.copy(alloc)?;
        let params = copy_words(alloc, &self.params)?;
        Ok(PatTree { on, params })
    }
}

impl SeenTree {
    /// A declaration that is equal to this one.
    pub fn copy(&self, alloc: Global) -> Result<SeenTree, Memory>
        ensures { IfOk result (λ copy. copy ≡ self.now) }
    {
        let name = self.name.copy(alloc)?;
        Ok(SeenTree {
            name,
            count: self.count,
        })
    }
}

// Two identifiers that are equal to these.
pub fn copy_pair(alloc: Global, one: &Word, other: &Word) -> Result<(Word, Word), Memory>
    ensures one { IfOk result (λ copies. copies.0 ≡ one.now) }
    ensures other { IfOk result (λ copies. copies.1 ≡ other.now) }
{
    let first = one.copy(alloc)?;
    let second = other.copy(alloc)?;
    Ok((first, second))
}

// Two arguments that are equal to these.
pub fn copy_operands(alloc: Global, left: &Arg, right: &Arg) -> Result<(Arg, Arg), Memory>
    ensures left { IfOk result (λ copies. copies.0 ≡ left.now) }
    ensures right { IfOk result (λ copies. copies.1 ≡ right.now) }
{
    let first = left.copy(alloc)?;
    let second = right.copy(alloc)?;
    Ok((first, second))
}

/// A list that is equal to this one.
pub fn copy_args(alloc: Global, list: &Args) -> Result<Args, Memory>
    ensures { IfOk result (λ copy. copy ≡ list.now) }
{
    let mut members = Items::new(alloc);
    for member in list.as_slice() {
        members.push(member.copy(alloc)?)?;
    }
    Ok(members)
}

/// A list that is equal to this one.
pub fn copy_words(alloc: Global, list: &Words) -> Result<Words, Memory>
    ensures { IfOk result (λ copy. copy ≡ list.now) }
{
    let mut members = Items::new(alloc);
    for member in list.as_slice() {
        members.push(member.copy(alloc)?)?;
    }
    Ok(members)
}

/// A list that is equal to this one.
pub fn copy_patterns(alloc: Global, list: &PatTrees) -> Result<PatTrees, Memory>
    ensures { IfOk result (λ copy. copy ≡ list.now) }
{
    let mut members = Items::new(alloc);
    for member in list.as_slice() {
        members.push(member.copy(alloc)?)?;
    }
    Ok(members)
}

/// A list that is equal to this one.
pub fn copy_declarations(alloc: Global, list: &SeenTrees) -> Result<SeenTrees, Memory>
    ensures { IfOk result (λ copy. copy ≡ list.now) }
{
    let mut members = Items::new(alloc);
    for member in list.as_slice() {
        members.push(member.copy(alloc)?)?;
    }
    Ok(members)
}
