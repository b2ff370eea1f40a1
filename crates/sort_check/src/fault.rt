// What is wrong with the sort of a name, and the sooner of two faults.
ghost use Rattle.std.specs.Prelude.{◌≡◌, length};
ghost use Rattle.sort_laws.specs.Table.{args_of as arguments_of};
ghost use Rattle.sort_check.specs.inside.First.{noted, sooner, same_sort, same_sorts};
ghost use Rattle.sort_check.specs.inside.First.{wrong_defining, wrong_call, wrong_argument};
ghost use Rattle.sort_check.specs.inside.First.{wrong_continuation};

use sort_laws::{SortArg, SortDecl};

// A fault: its number, and its place as a byte offset from 0.
#[derive(Clone, Copy, PartialEq, Eq, Debug)]
pub struct Found {
    pub kind: u32,
    pub place: u32,
}

// Keeps the sooner of a fault and one more, where there is one.
pub fn note(least: &mut Option<Found>, place: u32, kind: Option<u32>)
    ensures { least.new ≡ noted least.old place kind }
{
    if let Some(kind) = kind {
        keep(least, Found { kind, place });
    }
}

fn keep(least: &mut Option<Found>, fault: Found)
    ensures { least.new ≡ sooner least.old fault }
{
    match *least {
        None => *least = Some(fault),
        Some(kept) => {
            if fault.place < kept.place || (fault.place == kept.place && fault.kind < kept.kind) {
                *least = Some(fault);
            }
        }
    }
}

// How many arguments a defined sort has.
fn count_of(decls: &[SortDecl], sort: u32) -> usize
    ensures { result ≡ length (arguments_of decls.now sort) }
{
    match decls.get(sort as usize) {
        Some(decl) => decl.args.len(),
        None => 0,
    }
}

fn same(one: SortArg, other: SortArg) -> bool
    ensures { result ≡ same_sort one other }
{
    match (one, other) {
        (SortArg::Place, SortArg::Place) => true,
        (SortArg::Num, SortArg::Num) => true,
        (SortArg::Named(one), SortArg::Named(other)) => one == other,
        _ => false,
    }
}

fn same_all(one: &[SortArg], other: &[SortArg]) -> bool
    ensures { result ≡ same_sorts one.now other.now }
{
    if one.len() != other.len() {
        return false;
    }
    for index in 0..one.len() {
        if !same(one[index], other[index]) {
            return false;
        }
    }
    true
}

// Whether a defined sort has exactly these arguments.
fn takes(decls: &[SortDecl], sort: u32, asked: &[SortArg]) -> bool
    ensures { result ≡ same_sorts (arguments_of decls.now sort) asked.now }
{
    match decls.get(sort as usize) {
        Some(decl) => same_all(decl.args.as_slice(), asked),
        None => same_all(&[], asked),
    }
}

// What is wrong where a channel or an observed name is defined with this count.
pub fn defined(decls: &[SortDecl], sort: Option<SortArg>, count: usize) -> Option<u32>
    ensures { result ≡ wrong_defining (arguments_of decls.now) count sort }
{
    match sort {
        Some(SortArg::Named(sort)) => {
            if count_of(decls, sort) == count {
                None
            } else {
                Some(5)
            }
        }
        _ => Some(4),
    }
}

// What is wrong with a message's name, where the message has this many arguments.
pub fn called(decls: &[SortDecl], sort: Option<SortArg>, count: usize) -> Option<u32>
    ensures { result ≡ wrong_call (arguments_of decls.now) count sort }
{
    match sort {
        None => None,
        Some(SortArg::Named(sort)) => {
            if count_of(decls, sort) == count {
                None
            } else {
                Some(7)
            }
        }
        Some(_) => Some(6),
    }
}

// What is wrong with an argument of which this sort is asked.
pub fn sent(sort: Option<SortArg>, asked: SortArg) -> Option<u32>
    ensures { result ≡ wrong_argument asked sort }
{
    match sort {
        None => None,
        Some(sort) => { if same(sort, asked) { None } else { Some(8) } }
    }
}

// What is wrong with a continuation of which these arguments are asked.
pub fn continued(decls: &[SortDecl], sort: Option<SortArg>, asked: &[SortArg]) -> Option<u32>
    ensures { result ≡ wrong_continuation (arguments_of decls.now) asked.now sort }
{
    match sort {
        None => None,
        Some(SortArg::Named(sort)) => {
            if takes(decls, sort, asked) {
                None
            } else {
                Some(8)
            }
        }
        Some(_) => Some(8),
    }
}
