// The code of a program.
ghost use Rattle.std.specs.Prelude.{◌≡◌, ◌++◌, ℕ, IfOk, OnOk, length, slice_get};
ghost use Rattle.chem_model.specs.Fill.{name_at};
ghost use Rattle.chem_model.specs.Opening.{site_names, counts_of};
ghost use Rattle.env_store.specs.Reading.{locs_in, IsCodeOf};
ghost use Rattle.guard_compile.specs.Written.{write_sites as written_sites, code_of};
ghost use Rattle.guard_compile.specs.Written.{zero_at};
ghost use Rattle.guard_compile.specs.inside.Appends.{Appends};

use crate::names::{NameTable, site_names};
use crate::write::{At, Piece, write_site};
use chem_model::{Items, Memory, Name, Names, Nums, Program, SeenDecls, SiteTerms};
use env_store::{Code, Locs, SiteCodes};
use std::alloc::Global;

// Writes the sites, each with its block and its body.
fn write_sites(
    alloc: Global,
    tops: &NameTable,
    sites: &SiteTerms,
    piece: &mut Piece,
    codes: &mut SiteCodes,
) -> Result<(), Memory>
    ensures piece { OnOk result (Appends piece.old piece.new
        (written_sites tops.now piece.old.next sites.now).piece) }
    ensures codes { OnOk result (codes.new ≡ codes.old ++
        (written_sites tops.now piece.old.next sites.now).sites) }
{
    for site in sites.as_slice() {
        let code = write_site(alloc, tops, &site.defs, &site.body, piece)?;
        codes.push(code)?;
    }
    Ok(())
}

// The members that all sites add, whose codes are appended.
fn whole_piece(
    alloc: Global,
    tops: &NameTable,
    sites: &SiteTerms,
    codes: &mut SiteCodes,
) -> Result<Piece, Memory>
    ensures piece { IfOk result (λ piece. piece ≡
        (written_sites tops.now zero_at sites.now).piece) }
    ensures codes { OnOk result (codes.new ≡ codes.old ++
        (written_sites tops.now zero_at sites.now).sites) }
{
    let start = At {
        level: 0,
        guard: 0,
        block: 0,
        body: 0,
    };
    let mut piece = Piece::start(alloc, start);
    match write_sites(alloc, tops, sites, &mut piece, codes) {
        Ok(()) => Ok(piece),
        Err(memory) => {
            drop(piece);
            Err(memory)
        }
    }
}

// The declared counts of observed names.
fn counts(alloc: Global, seen: &SeenDecls) -> Result<Nums, Memory>
    ensures { IfOk result (λ list. list ≡ counts_of seen.now) }
{
    let mut list = Items::new(alloc);
    for declaration in seen.as_slice() {
        list.push(declaration.count)?;
    }
    Ok(list)
}

// The locations among names.
fn locations(alloc: Global, names: &NameTable) -> Result<Locs, Memory>
    ensures { IfOk result (λ list. list ≡ locs_in names.now) }
{
    let mut list = Items::new(alloc);
    for entry in names.as_slice() {
        if let Name::Place(at) = entry.name {
            list.push(at)?;
        }
    }
    Ok(list)
}

// The code of a program, where these are its site-level names as the opening gives them.
fn code(alloc: Global, program: &Program, tops: &NameTable) -> Result<Code, Memory>
    requires { tops.now ≡ site_names program.now.sites }
    ensures { IfOk result (λ code. code ≡ code_of program.now) }
{
    let seen = counts(alloc, &program.seen)?;
    let locs = locations(alloc, tops)?;
    let mut sites = Items::new(alloc);
    let piece = whole_piece(alloc, tops, &program.sites, &mut sites)?;
    Ok(Code {
        guards: piece.guards,
        levels: piece.levels,
        blocks: piece.blocks,
        bodies: piece.bodies,
        seen,
        tops: locs,
        sites,
    })
}

/// The code of a program: the one that `code_of` names. It reads as the program.
pub fn compile(alloc: Global, program: &Program) -> Result<Code, Memory>
    ensures is { IfOk result (λ code. code ≡ code_of program.now) }
    ensures reads { IfOk result (λ code. IsCodeOf program.now code) }
{
    let _ = &program.tops;
    let tops = site_names(alloc, &program.sites)?;
    code(alloc, program, &tops)
}

// The names of the site-level binders, by their numbers, where these are all names of that level.
fn names_in_order(alloc: Global, program: &Program, tops: &NameTable) -> Result<Names, Memory>
    requires { tops.now ≡ site_names program.now.sites }
    ensures count { IfOk result (λ names. length names ≡ program.now.tops) }
    ensures names { IfOk result (λ names. (b : ℕ) → slice_get names b ≡ name_at
        (site_names program.now.sites) b) }
{
    let mut names = Items::new(alloc);
    for binder in 0..program.tops {
        match tops.name_at(binder) {
            Some(name) => names.push(name)?,
            None => unreachable!(),
        }
    }
    Ok(names)
}

/// The names of the site-level binders, by their numbers, as the opening of the program gives them.
pub fn top_names(alloc: Global, program: &Program) -> Result<Names, Memory>
    ensures count { IfOk result (λ names. length names ≡ program.now.tops) }
    ensures names { IfOk result (λ names. (b : ℕ) → slice_get names b ≡ name_at
        (site_names program.now.sites) b) }
{
    let tops = site_names(alloc, &program.sites)?;
    names_in_order(alloc, program, &tops)
}
