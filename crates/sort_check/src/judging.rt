// The judge of a tree by declared sorts.
ghost use Rattle.std.specs.Prelude.{◌≡◌, ◌++◌, None, IfOk, ℕ, slice_set};
ghost use Rattle.scope_check.specs.Checked.{IsProgramOf};
ghost use Rattle.sort_laws.specs.Table.{binder_sort};
ghost use Rattle.sort_check.specs.Asked.{asked_of_seen};
ghost use Rattle.sort_check.specs.Judged.{IsJudged, MeansNoWrongAtom};
ghost use Rattle.sort_check.specs.inside.First.{first_of};
ghost use Rattle.sort_check.specs.inside.Pairs.{sort_at, by_lists, pair_sites};
ghost use Rattle.sort_check.specs.inside.Beside.{kept};
ghost use Rattle.sort_check.specs.inside.Gathered.{entries_of_sites};
ghost use Rattle.sort_check.specs.inside.Gathered.{seen_sorts as seen_of};
ghost use Rattle.sort_check.specs.inside.Filled.{FilledBy};
ghost use Rattle.sort_check.specs.inside.Told.{in_map, TellsAs};
ghost use Rattle.sort_check.specs.inside.Answered.{judged_by};

use crate::fault::Found;
use crate::gather::{self, Entries, SortList, channel_sorts, seen_sorts};
use crate::judged::Judged;
use crate::uses::{Uses, uses_of};
use crate::walk::{Table, declarations, sites};
use chem_model::{Memory, Program, SiteTerm};
use join_parse::Tree;
use sort_laws::{Entry, SortArg, SortDecl, Sorts};
use std::alloc::Global;

fn set(list: &mut SortList, entry: &Entry)
    ensures { list.new ≡ slice_set list.old entry.now.binder entry.now.sort }
{
    list.set(entry.binder as usize, entry.sort);
}

// Sets what entries say: of two entries of one binder the first counts.
fn fill(list: &mut SortList, entries: &[Entry])
    ensures { FilledBy list.old entries.now list.new }
{
    let mut left = entries.len();
    while left > 0 {
        left -= 1;
        set(list, &entries[left]);
    }
}

// The sorts of the locations and the parameters of a program.
fn entries_of(
    alloc: Global,
    decls: &[SortDecl],
    channels: &[Option<SortArg>],
    seen: &[Option<SortArg>],
    terms: &[SiteTerm],
) -> Result<Entries, Memory>
    ensures { IfOk result (λ list.
        list ≡ entries_of_sites (by_lists decls.now channels.now seen.now) terms.now) }
{
    let table = Table {
        decls,
        binders: channels,
        seen,
    };
    let mut list = Entries::new(alloc);
    gather::sites(&mut list, &table, terms)?;
    Ok(list)
}

// The sort of each binder of a program.
fn binder_sorts(
    alloc: Global,
    program: &Program,
    sorts: &Sorts,
    uses: &Uses<'_>,
    seen: &[Option<SortArg>],
) -> Result<SortList, Memory>
    requires told { TellsAs sorts.now.uses uses.now }
    requires seen { seen.now ≡ seen_of (in_map uses.now) program.now.seen }
    ensures sorts { IfOk result (λ list.
        (b : ℕ) → sort_at list b ≡ binder_sort sorts.now program.now b) }
{
    let mut list = channel_sorts(alloc, uses, program.spell.as_slice())?;
    let entries = entries_of(
        alloc,
        sorts.decls.as_slice(),
        list.as_slice(),
        seen,
        program.sites.as_slice(),
    )?;
    fill(&mut list, entries.as_slice());
    Ok(list)
}

fn first_fault(table: &Table<'_>, tree: &Tree, terms: &[SiteTerm]) -> Option<Found>
    ensures { result ≡ first_of (kept table.now).args None
        (asked_of_seen (kept table.now) 0 tree.now.seen
        ++ pair_sites (kept table.now) tree.now.sites terms.now) }
{
    let mut least = None;
    declarations(table, tree.seen.as_slice(), &mut least);
    sites(table, tree.sites.as_slice(), terms, &mut least);
    least
}

fn answer(found: Option<Found>) -> Judged
    ensures { result ≡ judged_by found }
{
    match found {
        None => Judged::Yes,
        Some(fault) => Judged::No {
            kind: fault.kind,
            place: fault.place,
        },
    }
}

/// Whether a tree keeps declared sorts: its first fault, where it has one. The first fault has the
/// least place, a byte offset from 0, and at one place the least number.
///
/// `Yes` means that no solution of a replay of the program holds a wrong atom.
///
/// It asks nothing of the sorts. Of two uses of one spelling the first counts, and a sort past the
/// declarations has no arguments.
pub fn judge(alloc: Global, tree: &Tree, program: &Program, sorts: &Sorts) -> Result<Judged, Memory>
    requires program { IsProgramOf tree.now program.now }
    ensures judged { IfOk result (IsJudged tree.now program.now sorts.now) }
    ensures keeps { IfOk result (MeansNoWrongAtom program.now) }
{
    let uses = uses_of(alloc, sorts.uses.as_slice())?;
    let seen = seen_sorts(alloc, &uses, program.seen.as_slice())?;
    let binders = binder_sorts(alloc, program, sorts, &uses, seen.as_slice())?;
    let table = Table {
        decls: sorts.decls.as_slice(),
        binders: binders.as_slice(),
        seen: seen.as_slice(),
    };
    Ok(answer(first_fault(&table, tree, program.sites.as_slice())))
}
