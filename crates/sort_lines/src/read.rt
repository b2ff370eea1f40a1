// The sorts that the sort lines of a text declare, or their first fault.
ghost use Rattle.std.specs.Prelude.{◌≡◌, ◌≤◌, ◌++◌, [], length, map, IfOk, IfErr, OnOk, Some};
ghost use Rattle.std.specs.List.{list_all};
ghost use Rattle.sort_lines.specs.Lines.{lines_of};
ghost use Rattle.sort_lines.specs.Faults.{first_place, place_in, sort_named, defined_in};
ghost use Rattle.sort_lines.specs.Faults.{AreSortsOf};
ghost use Rattle.sort_lines.specs.Outcomes.{NamesFault, AnswersSorts, AnswersFault};
ghost use Rattle.sort_lines.specs.inside.Told.{told, told_one, AreShort};
ghost use Rattle.sort_lines.specs.inside.Judging.{IsSaidLine, AreSaid, names_in, defined_by};
ghost use Rattle.sort_lines.specs.inside.Judging.{is_built_in as built_in, is_known as known};
ghost use Rattle.sort_lines.specs.inside.Judging.{is_repeated as repeated, wrong_by as wrong};
ghost use Rattle.sort_lines.specs.inside.Judging.{is_place, wrong_content as wrong_in_content};
ghost use Rattle.sort_lines.specs.inside.Judging.{wrong_in as wrong_in_line, first_wrong};
ghost use Rattle.sort_lines.specs.inside.Judging.{EndsIn, Gains, Takes, Declare};

use crate::content::{Content, said};
use crate::lines::{SortLine, sort_lines};
use crate::names::Names;
use chem_model::{Memory, Texts};
use sort_laws::{SortArg, SortArgs, SortDecl, SortDecls, SortUse, SortUses, Sorts};
use std::alloc::Global;
use thiserror::Error;

/// Why a text declares no sorts.
#[derive(Clone, Copy, Debug, PartialEq, Eq, Error)]
pub enum SortEnd {
    /// The first fault of its sort lines: its number, 1 to 3, and its place, a byte offset from 0.
    #[error("sort {kind} at {place}")]
    Fault { kind: u32, place: u32 },
    #[error("out of memory")]
    Memory,
}

impl SortEnd {
    /// An end that is equal to this one. It takes no memory.
    pub fn copy(&self, _alloc: Global) -> Result<SortEnd, Memory>
        ensures { result ≡ Ok self.now }
    {
        Ok(*self)
    }
}

impl From<Memory> for SortEnd {
    ghost use Rattle.sort_lines.specs.declared.read.SortEnd.TheVariants as sort_end;

    ghost from_gives = { λ _ error. error ≡ sort_end.Memory };

    fn from(_error: Memory) -> SortEnd {
        SortEnd::Memory
    }
}

// What a sort line says, where it has one of the two forms.
#[derive(Drop)]
pub(crate) struct SaidLine {
    pub place: u32,
    pub content: Option<Content>,
}

// ---- what the lines say

fn read_line(alloc: Global, line: SortLine<'_>) -> Result<SaidLine, Memory>
    requires { length line.text.now ≤ 1048576 }
    ensures { IfOk result (IsSaidLine (told_one line.entry)) }
{
    let content = said(alloc, line.text)?;
    Ok(SaidLine {
        place: line.place,
        content,
    })
}

fn read_all(alloc: Global, lines: &[SortLine<'_>]) -> Result<Vec<SaidLine>, Memory>
    requires { AreShort lines.now }
    ensures { IfOk result (λ all. AreSaid (told lines.now) all.items) }
{
    let mut all = Vec::new(alloc);
    for line in lines {
        let said = read_line(alloc, *line)?;
        all.push(said)?;
    }
    Ok(all)
}

// ---- the sorts that they define

fn define_in<'a>(names: &mut Names<'a>, content: &'a Content) -> Result<(), Memory>
    ensures { OnOk result (names.new ≡ names.old ++ defined_in content.now) }
{
    match content {
        Content::Declares { name, .. } => names.push(name.as_slice()),
        Content::Uses { .. } => Ok(()),
    }
}

fn define_by<'a>(names: &mut Names<'a>, line: &'a SaidLine) -> Result<(), Memory>
    ensures { OnOk result (names.new ≡ names.old ++ defined_by line.now.content) }
{
    match &line.content {
        Some(content) => define_in(names, content),
        None => Ok(()),
    }
}

fn names_of<'a>(alloc: Global, all: &'a [SaidLine]) -> Result<Names<'a>, Memory>
    ensures { IfOk result (λ names. names ≡ names_in all.now) }
{
    let mut names = Names::new(alloc);
    for line in all {
        define_by(&mut names, line)?;
    }
    Ok(names)
}

// ---- what is wrong with a line

fn is_built_in(name: &[u8]) -> bool
    ensures { result ≡ built_in name.now }
{
    name == b"place".as_slice() || name == b"num".as_slice()
}

fn is_known(names: &Names<'_>, name: &[u8]) -> bool
    ensures { result ≡ known names.now name.now }
{
    is_built_in(name) || names.contains(name)
}

fn all_known(names: &Names<'_>, args: &Texts) -> bool
    ensures { result ≡ list_all (known names.now) args.now }
{
    for arg in args.as_slice() {
        if !is_known(names, arg.as_slice()) {
            return false;
        }
    }
    true
}

// Whether this place is that of the name.
fn has_place(names: &Names<'_>, name: &[u8], place: usize) -> bool
    ensures { result ≡ is_place (first_place name.now names.now) place }
{
    match names.place(name) {
        Some(first) => first as usize == place,
        None => false,
    }
}

// Whether the sort of this name is built in, or is defined by one of the first `count` definitions.
fn is_repeated(names: &Names<'_>, count: usize, name: &[u8]) -> bool
    ensures { result ≡ repeated names.now count name.now }
{
    is_built_in(name) || !has_place(names, name, count)
}

fn wrong_by(repeated: bool, known: bool) -> Option<u32>
    ensures { result ≡ wrong repeated known }
{
    if repeated {
        return Some(2);
    }
    if known { None } else { Some(3) }
}

// What is wrong with a line of one of the forms, behind lines that define `count` sorts and use
// these spellings.
fn wrong_content(
    names: &Names<'_>,
    count: usize,
    spells: &Names<'_>,
    content: &Content,
) -> Option<u32>
    ensures { result ≡ wrong_in_content names.now count spells.now content.now }
{
    match content {
        Content::Declares { name, args } => wrong_by(
            is_repeated(names, count, name.as_slice()),
            all_known(names, args),
        ),
        Content::Uses { spell, name } => wrong_by(
            spells.contains(spell.as_slice()),
            names.contains(name.as_slice()),
        ),
    }
}

fn wrong_in(names: &Names<'_>, count: usize, spells: &Names<'_>, line: &SaidLine) -> Option<u32>
    ensures { result ≡ wrong_in_line names.now count spells.now line.now.content }
{
    match &line.content {
        None => Some(1),
        Some(content) => wrong_content(names, count, spells, content),
    }
}

// ---- the sorts

fn place_of(names: &Names<'_>, name: &[u8]) -> u32
    ensures { result ≡ place_in name.now names.now }
{
    names.place(name).unwrap_or(0)
}

fn arg_of(names: &Names<'_>, name: &[u8]) -> SortArg
    ensures { result ≡ sort_named names.now name.now }
{
    if name == b"place".as_slice() {
        return SortArg::Place;
    }
    if name == b"num".as_slice() {
        return SortArg::Num;
    }
    SortArg::Named(place_of(names, name))
}

fn args_of(alloc: Global, names: &Names<'_>, list: &Texts) -> Result<SortArgs, Memory>
    ensures { IfOk result (λ args. args ≡ map (sort_named names.now) list.now) }
{
    let mut args = SortArgs::new(alloc);
    for name in list.as_slice() {
        args.push(arg_of(names, name.as_slice()))?;
    }
    Ok(args)
}

// Appends what a line declares, and the spelling that it uses.
fn gain_in<'a>(
    alloc: Global,
    names: &Names<'_>,
    content: &'a Content,
    spells: &mut Names<'a>,
    sorts: &mut Sorts,
) -> Result<(), Memory>
    ensures { OnOk result
        (Gains names.now (Some content.now) spells.old spells.new sorts.old sorts.new) }
{
    match content {
        Content::Declares { name, args } => {
            let name = name.copy(alloc)?;
            let args = args_of(alloc, names, args)?;
            sorts.decls.push(SortDecl { name, args })
        }
        Content::Uses { spell, name } => {
            spells.push(spell.as_slice())?;
            let spell = spell.copy(alloc)?;
            let sort = place_of(names, name.as_slice());
            sorts.uses.push(SortUse { spell, sort })
        }
    }
}

fn gain_by<'a>(
    alloc: Global,
    names: &Names<'_>,
    line: &'a SaidLine,
    spells: &mut Names<'a>,
    sorts: &mut Sorts,
) -> Result<(), Memory>
    ensures { OnOk result
        (Gains names.now line.now.content spells.old spells.new sorts.old sorts.new) }
{
    match &line.content {
        Some(content) => gain_in(alloc, names, content, spells, sorts),
        None => Ok(()),
    }
}

// Takes a line that has no fault.
fn take<'a>(
    alloc: Global,
    names: &Names<'_>,
    line: &'a SaidLine,
    spells: &mut Names<'a>,
    sorts: &mut Sorts,
) -> Result<(), SortEnd>
    ensures { Takes names.now line.now spells.old spells.new sorts.old sorts.new result }
{
    match wrong_in(names, sorts.decls.len(), spells, line) {
        Some(kind) => Err(SortEnd::Fault {
            kind,
            place: line.place,
        }),
        None => Ok(gain_by(alloc, names, line, spells, sorts)?),
    }
}

fn sorts_of(alloc: Global, names: &Names<'_>, all: &[SaidLine]) -> Result<Sorts, SortEnd>
    ensures sorts { IfOk result (Declare names.now all.now) }
    ensures fault { IfErr result (EndsIn (first_wrong names.now 0 [] all.now)) }
{
    let mut sorts = Sorts {
        decls: SortDecls::new(alloc),
        uses: SortUses::new(alloc),
    };
    let mut spells = Names::new(alloc);
    for line in all {
        take(alloc, names, line, &mut spells, &mut sorts)?;
    }
    Ok(sorts)
}

fn sorts_read(alloc: Global, bytes: &[u8]) -> Result<Sorts, SortEnd>
    requires { length bytes.now ≤ 1048576 }
    ensures sorts { IfOk result (AreSortsOf (lines_of bytes.now)) }
    ensures fault { IfErr result (NamesFault (lines_of bytes.now)) }
{
    let lines = sort_lines(alloc, bytes)?;
    let all = read_all(alloc, lines.as_slice())?;
    let names = names_of(alloc, all.as_slice())?;
    sorts_of(alloc, &names, all.as_slice())
}

/// The sorts that the sort lines of a text declare, or the first fault of those lines: the least
/// place, and at one place the least number.
///
/// It answers sorts exactly where the lines have no fault, and a fault exactly where they have one,
/// but for want of memory. The text may have other faults: its sort lines are the same ones.
pub fn read_sorts(alloc: Global, bytes: &[u8]) -> Result<Sorts, SortEnd>
    requires { length bytes.now ≤ 1048576 }
    ensures sorts { IfOk result (AreSortsOf (lines_of bytes.now)) }
    ensures fault { IfErr result (NamesFault (lines_of bytes.now)) }
    ensures reads { AnswersSorts (lines_of bytes.now) result }
    ensures refuses { AnswersFault (lines_of bytes.now) result }
{
    sorts_read(alloc, bytes)
}
