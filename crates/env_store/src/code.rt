// Compiled code: the types, and their copies.
ghost use Rattle.std.specs.Prelude.{◌≡◌, ◌+◌, ◌<◌, ◌^◌, IfOk, Ok, Some, length, slice_get};
ghost use Rattle.env_store.specs.CodeFacts.{IsCode};

use chem_model::{Items, Loc, Memory, Name, Nums};
use status_words::Bits;
use std::alloc::Global;
use std::marker::Model;

/// A place of an environment, counted from 0, or a site-level or observed name.
#[derive(Clone, Copy, PartialEq, Eq, Debug)]
pub enum Slot {
    Env(u32),
    Known(Name),
}

impl Slot {
    /// A slot that is equal to this one. It takes no memory.
    pub fn copy(&self, _alloc: Global) -> Result<Slot, Memory>
        ensures { result ≡ Ok self.now }
    {
        Ok(*self)
    }
}

pub type Slots = Items<Slot>;

/// An instruction of a body.
#[derive(Debug, Drop)]
pub enum Instr {
    /// Pours a message.
    Send { on: Slot, args: Slots },
    /// Names and lays a block. Its names are appended to the environment in the order of naming.
    Enter { block: u32 },
    /// Drops the last names of the environment.
    Leave { count: u32 },
    /// Puts the request to move.
    Go { target: Slot, cont: Slot },
    /// Puts the request to be told of a failure.
    Fail { target: Slot, cont: Slot },
    /// Puts the request to halt.
    Halt,
}

impl Instr {
    /// An instruction that is equal to this one.
    pub fn copy(&self, alloc: Global) -> Result<Instr, Memory>
        ensures { IfOk result (λ copy. copy ≡ self.now) }
    {
        match self {
            Instr::Send { on, args } => {
                let args = args.copy(alloc)?;
                Ok(Instr::Send { on: *on, args })
            }
            Instr::Enter { block } => Ok(Instr::Enter { block: *block }),
            Instr::Leave { count } => Ok(Instr::Leave { count: *count }),
            Instr::Go { target, cont } => Ok(Instr::Go {
                target: *target,
                cont: *cont,
            }),
            Instr::Fail { target, cont } => Ok(Instr::Fail {
                target: *target,
                cont: *cont,
            }),
            Instr::Halt => Ok(Instr::Halt),
        }
    }
}

pub type Instrs = Items<Instr>;

/// A list that is equal to this one.
pub fn copy_instrs(alloc: Global, list: &Instrs) -> Result<Instrs, Memory>
    ensures { IfOk result (λ copy. copy ≡ list.now) }
{
    let mut members = Items::new(alloc);
    for member in list.as_slice() {
        members.push(member.copy(alloc)?)?;
    }
    Ok(members)
}

/// A set of channels of one level, in words of 64 bits: bit `i % 64` of the word `i / 64` stands
/// for channel `i` (Le Fessant, Maranget, *Compiling Join Patterns*, 1998). It takes the memory of
/// those words that aren't 0, so that code grows with its rules and not with their square.
#[derive(Debug, Drop)]
pub struct Mask {
    pub words: Bits,
}

impl Mask {
    /// A mask that is equal to this one.
    pub fn copy(&self, alloc: Global) -> Result<Mask, Memory>
        ensures { IfOk result (λ copy. copy ≡ self.now) }
    {
        let words = self.words.copy(alloc)?;
        Ok(Mask { words })
    }
}

/// One rule: its level, the channels of its patterns in order and as a mask, its body, how many
/// locations that body opens and how many messages it pours.
#[derive(Debug, Drop)]
pub struct Guard {
    pub level: u32,
    pub mask: Mask,
    pub chans: Nums,
    pub body: u32,
    pub births: u32,
    pub sends: u32,
}

impl Guard {
    /// A guard that is equal to this one.
    pub fn copy(&self, alloc: Global) -> Result<Guard, Memory>
        ensures { IfOk result (λ copy. copy ≡ self.now) }
    {
        let mask = self.mask.copy(alloc)?;
        let chans = self.chans.copy(alloc)?;
        Ok(Guard {
            level: self.level,
            mask,
            chans,
            body: self.body,
            births: self.births,
            sends: self.sends,
        })
    }
}

pub type Guards = Items<Guard>;

/// A list that is equal to this one.
pub fn copy_guards(alloc: Global, list: &Guards) -> Result<Guards, Memory>
    ensures { IfOk result (λ copy. copy ≡ list.now) }
{
    let mut members = Items::new(alloc);
    for member in list.as_slice() {
        members.push(member.copy(alloc)?)?;
    }
    Ok(members)
}

/// One list of definitions. The list of a `def` or a site itself has neither a place nor a body.
#[derive(Debug, Drop)]
pub struct Level {
    pub block: u32,
    /// Its location's index among the block's places.
    pub place: Option<u32>,
    /// The argument count of each channel.
    pub counts: Nums,
    /// The length of its groups' environments.
    pub depth: u32,
    /// The first of its guards, and how many there are.
    pub first: u32,
    pub guards: u32,
    /// The place's process.
    pub body: Option<u32>,
}

impl Level {
    /// A level that is equal to this one.
    pub fn copy(&self, alloc: Global) -> Result<Level, Memory>
        ensures { IfOk result (λ copy. copy ≡ self.now) }
    {
        let counts = self.counts.copy(alloc)?;
        Ok(Level {
            block: self.block,
            place: self.place,
            counts,
            depth: self.depth,
            first: self.first,
            guards: self.guards,
            body: self.body,
        })
    }
}

pub type Levels = Items<Level>;

/// A list that is equal to this one.
pub fn copy_levels(alloc: Global, list: &Levels) -> Result<Levels, Memory>
    ensures { IfOk result (λ copy. copy ≡ list.now) }
{
    let mut members = Items::new(alloc);
    for member in list.as_slice() {
        members.push(member.copy(alloc)?)?;
    }
    Ok(members)
}

/// One `def`, or one site: its levels in the order of naming, and how many names it makes.
#[derive(Debug, Drop)]
pub struct Block {
    pub levels: Nums,
    pub names: u32,
}

impl Block {
    /// A block that is equal to this one.
    pub fn copy(&self, alloc: Global) -> Result<Block, Memory>
        ensures { IfOk result (λ copy. copy ≡ self.now) }
    {
        let levels = self.levels.copy(alloc)?;
        Ok(Block {
            levels,
            names: self.names,
        })
    }
}

pub type Blocks = Items<Block>;

/// A list that is equal to this one.
pub fn copy_blocks(alloc: Global, list: &Blocks) -> Result<Blocks, Memory>
    ensures { IfOk result (λ copy. copy ≡ list.now) }
{
    let mut members = Items::new(alloc);
    for member in list.as_slice() {
        members.push(member.copy(alloc)?)?;
    }
    Ok(members)
}

/// A site's block, and the body of its process.
#[derive(Clone, Copy, PartialEq, Eq, Debug)]
pub struct SiteCode {
    pub block: u32,
    pub body: u32,
}

impl SiteCode {
    /// Code that is equal to this one. It takes no memory.
    pub fn copy(&self, _alloc: Global) -> Result<SiteCode, Memory>
        ensures { result ≡ Ok self.now }
    {
        Ok(*self)
    }
}

pub type SiteCodes = Items<SiteCode>;

pub type Bodies = Items<Instrs>;

/// A list that is equal to this one.
pub fn copy_bodies(alloc: Global, list: &Bodies) -> Result<Bodies, Memory>
    ensures { IfOk result (λ copy. copy ≡ list.now) }
{
    let mut members = Items::new(alloc);
    for member in list.as_slice() {
        members.push(copy_instrs(alloc, member)?)?;
    }
    Ok(members)
}

pub type Locs = Items<Loc>;

/// The whole program: `seen` are the declared counts of its observed names, and `tops` the
/// locations that its sites define, their roots among them. `sites` has one member per site.
///
/// Each such value keeps the facts of `IsCode`: each index is in range, each `Enter` is followed by
/// its `Leave`, environments are as long as the levels say, masks have the bits of their channels,
/// running a body ends, and more. Whoever writes one proves them, and whoever reads a field knows
/// them.
#[derive(Drop)]
pub struct Code {
    pub guards: Guards,
    pub levels: Levels,
    pub blocks: Blocks,
    pub bodies: Bodies,
    pub seen: Nums,
    pub tops: Locs,
    pub sites: SiteCodes,
}

impl Model for Code {
    ghost use Rattle.env_store.specs.CodeParts.{CodeParts};
    ghost use Rattle.env_store.specs.CodeStored.{code_stored};
    ghost use Rattle.env_store.specs.CodeFacts.{IsCode};

    ghost Value = { CodeParts };

    ghost coded = { code_stored };

    ghost view = { λ c. record {
      guards = c.guards;
      levels = c.levels;
      blocks = c.blocks;
      bodies = c.bodies;
      seen = c.seen;
      tops = c.tops;
      sites = c.sites;
    } };

    ghost invariant = { λ c. IsCode (record {
      guards = c.guards;
      levels = c.levels;
      blocks = c.blocks;
      bodies = c.bodies;
      seen = c.seen;
      tops = c.tops;
      sites = c.sites;
    }) };
}

impl Code {
    /// Code that is equal to this one.
    pub fn copy(&self, alloc: Global) -> Result<Code, Memory>
        ensures { IfOk result (λ copy. copy ≡ self.now) }
    {
        let guards = copy_guards(alloc, &self.guards)?;
        let levels = copy_levels(alloc, &self.levels)?;
        let blocks = copy_blocks(alloc, &self.blocks)?;
        let bodies = copy_bodies(alloc, &self.bodies)?;
        let seen = self.seen.copy(alloc)?;
        let tops = self.tops.copy(alloc)?;
        let sites = self.sites.copy(alloc)?;
        Ok(Code {
            guards,
            levels,
            blocks,
            bodies,
            seen,
            tops,
            sites,
        })
    }

    /// The guard with this number. Like the other parts, it is answered with the facts of the code.
    pub fn guard(&self, number: u32) -> &Guard
        requires { number < length self.now.guards }
        ensures there { slice_get self.now.guards number ≡ Some result.now }
        ensures kept { IsCode self.now }
    {
        &self.guards.as_slice()[number as usize]
    }

    /// The level with this number. Its guards have numbers of 32 bits.
    pub fn level(&self, number: u32) -> &Level
        requires { number < length self.now.levels }
        ensures there { slice_get self.now.levels number ≡ Some result.now }
        ensures kept { IsCode self.now }
        ensures fits { result.now.first + result.now.guards < 2 ^ 32 }
    {
        let _guards = self.guards.len();
        let level = &self.levels.as_slice()[number as usize];
        let _first = level.first;
        level
    }

    /// The block with this number.
    pub fn block(&self, number: u32) -> &Block
        requires { number < length self.now.blocks }
        ensures there { slice_get self.now.blocks number ≡ Some result.now }
        ensures kept { IsCode self.now }
    {
        &self.blocks.as_slice()[number as usize]
    }

    /// The body with this number.
    pub fn body(&self, number: u32) -> &Instrs
        requires { number < length self.now.bodies }
        ensures there { slice_get self.now.bodies number ≡ Some result.now }
        ensures kept { IsCode self.now }
    {
        &self.bodies.as_slice()[number as usize]
    }

    /// The block and the body of the site with this number.
    pub fn site(&self, number: u32) -> SiteCode
        requires { number < length self.now.sites }
        ensures there { slice_get self.now.sites number ≡ Some result }
        ensures kept { IsCode self.now }
    {
        self.sites.as_slice()[number as usize]
    }

    /// The facts of code hold. It does nothing.
    pub fn kept(&self)
        ensures { IsCode self.now }
    {
        let _guards = &self.guards;
    }
}
