// Programs: declarations, sites, and the facts that a program keeps.
ghost use Rattle.std.specs.Prelude.{◌≡◌, IfOk};

use crate::items::Items;
use crate::memory::Memory;
use crate::name::{Text, Texts};
use crate::term::{Defs, Proc};
use std::alloc::Global;
use std::marker::Model;

/// The declaration of an observed name: how many arguments its observable messages have, and its
/// spelling.
#[derive(Drop)]
pub struct SeenDecl {
    pub count: u32,
    pub spell: Text,
}

/// A site: the binder of its name, its definitions and its process.
#[derive(Drop)]
pub struct SiteTerm {
    pub name: u32,
    pub defs: Defs,
    pub body: Proc,
}

pub type SeenDecls = Items<SeenDecl>;

pub type SiteTerms = Items<SiteTerm>;

/// A program: the version of its text (1 or 2), the declarations of observed names, the sites, the
/// number of site-level binders (the names that sites define, which are numbered first), and the
/// spelling of each binder.
///
/// Each program keeps the facts of `IsProgram`. Whoever writes one proves them, and whoever reads a
/// field knows them.
#[derive(Drop)]
pub struct Program {
    pub version: u32,
    pub seen: SeenDecls,
    pub sites: SiteTerms,
    pub tops: u32,
    pub spell: Texts,
}

impl Model for Program {
    ghost use Rattle.chem_model.specs.ProgramFacts.{ProgramTerms, IsProgram};
    ghost use Rattle.chem_model.specs.ProgramCode.{program_code};

    ghost Value = { ProgramTerms };

    ghost coded = { program_code };

    ghost view = { λ p. record {
      version = p.version;
      seen = p.seen;
      sites = p.sites;
      tops = p.tops;
      spell = p.spell;
    } };

    ghost invariant = { λ p. IsProgram (record {
      version = p.version;
      seen = p.seen;
      sites = p.sites;
      tops = p.tops;
      spell = p.spell;
    }) };
}

impl SeenDecl {
    /// A declaration that is equal to this one.
    pub fn copy(&self, alloc: Global) -> Result<SeenDecl, Memory>
        ensures { IfOk result (λ copy. copy ≡ self.now) }
    {
        let spell = self.spell.copy(alloc)?;
        Ok(SeenDecl {
            count: self.count,
            spell,
        })
    }
}

impl SiteTerm {
    /// A site that is equal to this one.
    pub fn copy(&self, alloc: Global) -> Result<SiteTerm, Memory>
        ensures { IfOk result (λ copy. copy ≡ self.now) }
    {
        let defs = self.defs.copy(alloc)?;
        let body = self.body.copy(alloc)?;
        Ok(SiteTerm {
            name: self.name,
            defs,
            body,
        })
    }
}

impl Items<SeenDecl> {
    /// A list that is equal to this one.
    pub fn copy(&self, alloc: Global) -> Result<SeenDecls, Memory>
        ensures { IfOk result (λ copy. copy ≡ self.now) }
    {
        let mut list = Items::new(alloc);
        for member in self.as_slice() {
            list.push(member.copy(alloc)?)?;
        }
        Ok(list)
    }
}

impl Items<SiteTerm> {
    /// A list that is equal to this one.
    pub fn copy(&self, alloc: Global) -> Result<SiteTerms, Memory>
        ensures { IfOk result (λ copy. copy ≡ self.now) }
    {
        let mut list = Items::new(alloc);
        for member in self.as_slice() {
            list.push(member.copy(alloc)?)?;
        }
        Ok(list)
    }
}

impl Program {
    /// A program that is equal to this one.
    pub fn copy(&self, alloc: Global) -> Result<Program, Memory>
        ensures { IfOk result (λ copy. copy ≡ self.now) }
    {
        let seen = self.seen.copy(alloc)?;
        let sites = self.sites.copy(alloc)?;
        let spell = self.spell.copy(alloc)?;
        Ok(Program {
            version: self.version,
            seen,
            sites,
            tops: self.tops,
            spell,
        })
    }
}
