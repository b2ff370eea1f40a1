// The check of a tree.
ghost use Rattle.std.specs.Prelude.{◌≡◌, ◌+◌, ◌≤◌, ◌++◌, ◌∷◌, [], None, get_or};
ghost use Rattle.std.specs.Prelude.{length, drop, IfOk, IfErr, OnOk};
ghost use Rattle.scope_check.specs.inside.Order.{first_of};
ghost use Rattle.scope_check.specs.Blocks.{observed_from, defining, sites_of, scopes_in_defs};
ghost use Rattle.scope_check.specs.Blocks.{outermost as outermost_names};
ghost use Rattle.scope_check.specs.inside.FaultList.{many, level_faults};
ghost use Rattle.scope_check.specs.inside.Clashes.{clashes_in};
ghost use Rattle.scope_check.specs.inside.Naming.{outermost, walk_sites as walked_sites};
ghost use Rattle.scope_check.specs.inside.Twin.{site_terms_in, level_uses_in};
ghost use Rattle.scope_check.specs.Stands.{seen_decls};
ghost use Rattle.scope_check.specs.Checked.{IsProgramOf, IsRefusedAs, AnswersProgram, AnswersFault};
ghost use Rattle.scope_check.specs.Checked.{HasOneOutcome};
ghost use Rattle.chem_model.specs.ProgramFacts.{most_sites};
ghost use Rattle.join_parse.specs.Grammar.{TreeOfText};

use crate::block::{Defining, observed, sites};
use crate::clashes::{clashes, place};
use crate::fault::{Fault, note};
use crate::naming::{Tables, fill, keep_place, name_all, walk_sites};
use crate::translate::{self, Translation};
use chem_model::{Memory, Program, SeenDecl, SeenDecls, SiteTerms, Texts};
use join_base::{Front, Kind};
use join_parse::{PlaceTree, SeenTree, Tree};
use scope_names::{Env, Scope};
use std::alloc::Global;

// How many sites a text of a version may have.
fn sites_of_version(version: u32) -> usize
    ensures { result ≡ most_sites version }
{
    match version {
        2 => 256,
        _ => 64,
    }
}

// Notes the sites above the limit.
fn above(limit: usize, sites: &[PlaceTree], least: &mut Option<Fault>)
    ensures { least.new ≡ first_of least.old (many (drop limit sites.now)) }
{
    for number in limit..sites.len() {
        note(
            least,
            Fault {
                kind: Kind::Scope6,
                place: sites[number].opener,
            },
        );
    }
}

// The names of the outermost block.
fn names<'a>(
    alloc: Global,
    seen: &'a [SeenTree],
    trees: &'a [PlaceTree],
) -> Result<Vec<Defining<'a>>, Memory>
    ensures { IfOk result (λ list.
        list.items ≡ observed_from 0 seen.now ++ defining 0 1 (sites_of trees.now)) }
{
    let mut list = Vec::new(alloc);
    observed(&mut list, seen)?;
    sites(&mut list, trees)?;
    Ok(list)
}

// The faults of all definitions within sites.
fn within(alloc: Global, trees: &[PlaceTree], least: &mut Option<Fault>) -> Result<(), Memory>
    ensures { OnOk result (least.new ≡ first_of least.old (level_faults (sites_of trees.now))) }
{
    for tree in trees {
        place(alloc, tree, least)?;
    }
    Ok(())
}

// Fills empty tables, but for that of the outermost scope, which is kept apart. Answers how many
// binders the sites define.
fn number<'a>(
    alloc: Global,
    own: &mut Scope<'a>,
    tables: &mut Tables<'a>,
    names: &[Defining<'a>],
    trees: &'a [PlaceTree],
) -> Result<u32, Memory>
    requires own { own.old ≡ [] }
    requires spell { tables.old.spell ≡ [] }
    requires scopes { tables.old.scopes.items ≡ [] }
    ensures tops { IfOk result (λ n. n ≡ length (outermost names.now).spell) }
    ensures spell { OnOk result (tables.new.spell ≡ (walked_sites names.now trees.now).spell) }
    ensures own { OnOk result (own.new ≡ (walked_sites names.now trees.now).own) }
    ensures scopes { OnOk result (tables.new.scopes.items
        ≡ [] ∷ (walked_sites names.now trees.now).tables) }
{
    name_all(alloc, own, &mut tables.spell, names)?;
    let tops = tables.spell.len() as u32;
    keep_place(alloc, &mut tables.scopes)?;
    walk_sites(alloc, tables, own, trees)?;
    Ok(tops)
}

// The tables of all scopes, the outermost one first, and how many binders the sites define.
fn numbered<'a>(
    alloc: Global,
    names: &[Defining<'a>],
    trees: &'a [PlaceTree],
) -> Result<(Tables<'a>, u32), Memory>
    ensures tops { IfOk result (λ r. r.1 ≡ length (outermost names.now).spell) }
    ensures spell { IfOk result (λ r. r.0.spell ≡ (walked_sites names.now trees.now).spell) }
    ensures scopes { IfOk result (λ r. r.0.scopes.items
        ≡ (walked_sites names.now trees.now).own ∷ (walked_sites names.now trees.now).tables) }
{
    let mut own = Scope::new(alloc);
    let mut tables = Tables {
        scopes: Vec::new(alloc),
        spell: Texts::new(alloc),
    };
    match number(alloc, &mut own, &mut tables, names, trees) {
        Ok(tops) => {
            fill(&mut tables.scopes, 0, own)?;
            Ok((tables, tops))
        }
        Err(memory) => {
            drop(own);
            drop(tables);
            Err(memory)
        }
    }
}

// The terms of all sites.
fn terms(
    alloc: Global,
    scopes: &[Scope<'_>],
    trees: &[PlaceTree],
    least: &mut Option<Fault>,
) -> Result<SiteTerms, Memory>
    requires { 1 + scopes_in_defs (sites_of trees.now) ≤ length scopes.now }
    ensures value { IfOk result (λ r. r
        ≡ site_terms_in scopes.now (get_or scopes.now 0 []) (get_or scopes.now 0 [] ∷ []) 1
        trees.now) }
    ensures faults { OnOk result (least.new
        ≡ first_of least.old
        (level_uses_in scopes.now (get_or scopes.now 0 [] ∷ []) 1 (sites_of trees.now))) }
{
    let own = &scopes[0];
    let env = Env::outermost(own);
    let by = Translation { alloc, scopes };
    let list = translate::sites(&by, own, &env, trees, least)?;
    Ok(list)
}

// The declarations of observed names.
fn declarations(alloc: Global, trees: &[SeenTree]) -> Result<SeenDecls, Memory>
    ensures { IfOk result (λ list. list ≡ seen_decls trees.now) }
{
    let mut list = SeenDecls::new(alloc);
    for tree in trees {
        let spell = tree.name.text.copy(alloc)?;
        list.push(SeenDecl {
            count: tree.count,
            spell,
        })?;
    }
    Ok(list)
}

// The first fault of the definitions, and of the sites above the limit.
fn first_declared(
    alloc: Global,
    version: u32,
    names: &[Defining<'_>],
    trees: &[PlaceTree],
) -> Result<Option<Fault>, Memory>
    ensures { IfOk result (λ least. least
        ≡ first_of (first_of (first_of None (many (drop (most_sites version) trees.now)))
        (clashes_in [] names.now)) (level_faults (sites_of trees.now))) }
{
    let mut least = None;
    above(sites_of_version(version), trees, &mut least);
    clashes(alloc, names, &mut least)?;
    within(alloc, trees, &mut least)?;
    Ok(least)
}

// The program that a tree with these names in its outermost block stands for, or its first fault.
fn program_with<'a>(alloc: Global, names: &[Defining<'a>], tree: &'a Tree) -> Result<Program, Front>
    requires { names.now ≡ outermost_names tree.now }
    ensures program { IfOk result (IsProgramOf tree.now) }
    ensures fault { IfErr result (IsRefusedAs tree.now) }
{
    let trees = tree.sites.as_slice();
    let mut least = first_declared(alloc, tree.version, names, trees)?;
    let (tables, tops) = numbered(alloc, names, trees)?;
    let sites = terms(alloc, tables.scopes.as_slice(), trees, &mut least)?;
    if let Some(fault) = least {
        drop(sites);
        drop(tables);
        return Err(Front::Refused {
            kind: fault.kind,
            place: fault.place,
        });
    }
    let seen = declarations(alloc, tree.seen.as_slice())?;
    Ok(Program {
        version: tree.version,
        seen,
        sites,
        tops,
        spell: tables.spell,
    })
}

/// The program that a tree stands for, or its first fault of scope or arity.
///
/// The first fault has the least place, and at one place the kind that stands first among `Scope1`
/// to `Arity4`. Its place is a byte offset from 0: of the identifier that is wrong, or of the
/// keyword `site` of the 65th site, in a text of the second version of the 257th. No other kind is
/// answered.
///
/// It answers a program exactly where the tree has one, and a fault exactly where the tree has it,
/// but for want of memory.
pub fn check(alloc: Global, tree: &Tree) -> Result<Program, Front>
    ensures program { IfOk result (IsProgramOf tree.now) }
    ensures fault { IfErr result (IsRefusedAs tree.now) }
    ensures reads { AnswersProgram tree.now result }
    ensures refuses { AnswersFault tree.now result }
{
    let names = names(alloc, tree.seen.as_slice(), tree.sites.as_slice())?;
    program_with(alloc, names.as_slice(), tree)
}

/// A tree has one program or one first fault, and never both. So `check` answers exactly by the
/// definitions, save for want of memory.
pub fn one_outcome()
    ensures { (t : TreeOfText) → HasOneOutcome t }
{}
