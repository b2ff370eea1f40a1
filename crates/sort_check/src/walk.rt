// A tree beside its program: the first fault of the sorts of its words.
ghost use Rattle.std.specs.Prelude.{◌≡◌, ◌≢◌, ◌∷◌, ◌<◌, ◌^◌, [], length, slice_get};
ghost use Rattle.std.specs.Prelude.{IfSome, IfNone};
ghost use Rattle.chem_model.specs.Process.{definitions, processes};
ghost use Rattle.join_parse.specs.Source.{processes as trees, definitions as levels};
ghost use Rattle.join_parse.specs.Source as source;
ghost use Rattle.sort_laws.specs.Asks.{ref_sort};
ghost use Rattle.sort_laws.specs.Table.{asked_by};
ghost use Rattle.sort_check.specs.Asked.{asked_of_seen, arg_place};
ghost use Rattle.sort_check.specs.inside.First.{first_of};
ghost use Rattle.sort_check.specs.inside.Pairs.{sort_at, pair_arguments, pair_message, pair};
ghost use Rattle.sort_check.specs.inside.Pairs.{pair_patterns, pair_request, pair_body, pair_all};
ghost use Rattle.sort_check.specs.inside.Pairs.{pair_one, pair_level, pair_sites, pair_number};
ghost use Rattle.sort_check.specs.inside.Pairs.{pair_continuation, pair_operands};
ghost use Rattle.sort_check.specs.inside.Beside.{kept, pattern_beside, process_beside};
ghost use Rattle.sort_check.specs.inside.Beside.{definition_beside, site_pair, site_beside};
ghost use Rattle.sort_check.specs.inside.Beside.{argument_beside, pair_several};

use crate::fault::{Found, called, continued, defined, note, sent};
use chem_model::{Defn, DefnNode, Defs, Name, Pat, Proc, ProcNode as Term, Ref, SiteTerm};
use join_parse::{
    Arg, Args, DefNode, DefTree, DefTrees, PatTree, PlaceTree, ProcNode, ProcTree, ProcTrees,
    SeenTree, Word,
};
use sort_laws::{SortArg, SortDecl};

// The declared sorts, and the sorts of a program's binders and of its observed names.
#[derive(Clone, Copy)]
pub struct Table<'a> {
    pub decls: &'a [SortDecl],
    pub binders: &'a [Option<SortArg>],
    pub seen: &'a [Option<SortArg>],
}

fn in_list(list: &[Option<SortArg>], index: u32) -> Option<SortArg>
    ensures { result ≡ sort_at list.now index }
{
    match list.get(index as usize) {
        Some(sort) => *sort,
        None => None,
    }
}

// The sort of an occurrence of a name.
pub fn sort_of(table: &Table<'_>, name: &Ref) -> Option<SortArg>
    ensures { result ≡ ref_sort (kept table.now) name.now }
{
    match *name {
        Ref::Binder(binder) => in_list(table.binders, binder),
        Ref::Known(Name::Seen(index)) => in_list(table.seen, index),
        Ref::Known(Name::Place(_)) => Some(SortArg::Place),
        Ref::Known(Name::Chan { .. }) => None,
        Ref::Known(Name::Num(_)) => Some(SortArg::Num),
        Ref::Known(Name::Op(_)) => None,
    }
}

// The place of an argument.
fn place_of(arg: &Arg) -> u32
    ensures { result ≡ arg_place arg.now }
{
    match arg {
        Arg::Word(word) => word.place,
        Arg::Num { place, .. } => *place,
    }
}

// An argument, where there is one, of which this sort is asked.
fn argument(
    table: &Table<'_>,
    asked: SortArg,
    args: &[Arg],
    names: &[Ref],
    index: usize,
    least: &mut Option<Found>,
)
    ensures { least.new ≡ first_of (kept table.now).args least.old
        (argument_beside (kept table.now) asked (slice_get args.now index)
        (slice_get names.now index)) }
{
    match args.get(index) {
        Some(arg) => match names.get(index) {
            Some(name) => note(least, place_of(arg), sent(sort_of(table, name), asked)),
            None => {}
        },
        None => {}
    }
}

// The arguments of a message whose channel asks for these sorts.
fn arguments(
    table: &Table<'_>,
    asked: &[SortArg],
    args: &[Arg],
    names: &[Ref],
    least: &mut Option<Found>,
)
    ensures { least.new ≡ first_of (kept table.now).args least.old
        (pair_arguments (kept table.now) asked.now args.now names.now) }
{
    for index in 0..asked.len() {
        argument(table, asked[index], args, names, index, least);
    }
}

// The arguments of a message on a name of this sort.
fn arguments_for(
    table: &Table<'_>,
    sort: Option<SortArg>,
    args: &[Arg],
    names: &[Ref],
    least: &mut Option<Found>,
)
    ensures { least.new ≡ first_of (kept table.now).args least.old
        (pair_arguments (kept table.now) (asked_by (kept table.now).args sort) args.now names.now) }
{
    match sort {
        Some(SortArg::Named(sort)) => match table.decls.get(sort as usize) {
            Some(decl) => arguments(table, decl.args.as_slice(), args, names, least),
            None => {}
        },
        _ => {}
    }
}

fn message(
    table: &Table<'_>,
    on: &Word,
    args: &[Arg],
    name: &Ref,
    names: &[Ref],
    least: &mut Option<Found>,
)
    ensures { least.new ≡ first_of (kept table.now).args least.old
        (pair_message (kept table.now) on.now args.now name.now names.now) }
{
    let sort = sort_of(table, name);
    note(least, on.place, called(table.decls, sort, args.len()));
    arguments_for(table, sort, args, names, least);
}

fn request(
    table: &Table<'_>,
    target: &Word,
    cont: &Word,
    place: &Ref,
    next: &Ref,
    least: &mut Option<Found>,
)
    ensures { least.new ≡ first_of (kept table.now).args least.old
        (pair_request (kept table.now) target.now cont.now place.now next.now) }
{
    note(
        least,
        target.place,
        sent(sort_of(table, place), SortArg::Place),
    );
    note(
        least,
        cont.place,
        continued(table.decls, sort_of(table, next), &[]),
    );
}

// An argument of an operation, where the term has it.
fn number(table: &Table<'_>, arg: &Arg, names: &[Ref], index: usize, least: &mut Option<Found>)
    ensures { least.new ≡ first_of (kept table.now).args least.old
        (pair_number (kept table.now) arg.now (slice_get names.now index)) }
{
    match names.get(index) {
        Some(name) => note(
            least,
            place_of(arg),
            sent(sort_of(table, name), SortArg::Num),
        ),
        None => {}
    }
}

// A continuation of an operation, where the term has it, of which these arguments are asked.
fn continuation(
    table: &Table<'_>,
    asked: &[SortArg],
    word: &Word,
    names: &[Ref],
    index: usize,
    least: &mut Option<Found>,
)
    ensures { least.new ≡ first_of (kept table.now).args least.old
        (pair_continuation (kept table.now) asked.now word.now (slice_get names.now index)) }
{
    match names.get(index) {
        Some(name) => note(
            least,
            word.place,
            continued(table.decls, sort_of(table, name), asked),
        ),
        None => {}
    }
}

fn operands(table: &Table<'_>, left: &Arg, right: &Arg, names: &[Ref], least: &mut Option<Found>)
    ensures { least.new ≡ first_of (kept table.now).args least.old
        (pair_operands (kept table.now) left.now right.now names.now) }
{
    number(table, left, names, 0, least);
    number(table, right, names, 1, least);
}

fn pattern(table: &Table<'_>, p: &PatTree, terms: &[Pat], index: usize, least: &mut Option<Found>)
    ensures { least.new ≡ first_of (kept table.now).args least.old
        (pattern_beside (kept table.now) p.now (slice_get terms.now index)) }
{
    match terms.get(index) {
        Some(term) => {
            let sort = sort_of(table, &term.on);
            note(
                least,
                p.on.place,
                defined(table.decls, sort, p.params.len()),
            );
        }
        None => {}
    }
}

fn patterns(table: &Table<'_>, pats: &[PatTree], terms: &[Pat], least: &mut Option<Found>)
    ensures { least.new ≡ first_of (kept table.now).args least.old
        (pair_patterns (kept table.now) pats.now terms.now) }
{
    for index in 0..pats.len() {
        pattern(table, &pats[index], terms, index, least);
    }
}

// A message of the text, beside what it stands for.
fn sends(table: &Table<'_>, on: &Word, args: &Args, term: &Proc, least: &mut Option<Found>)
    ensures { least.new ≡ first_of (kept table.now).args least.old
        (pair (kept table.now) (source.Msg on.now args.now) term.now) }
{
    match term.node() {
        Term::Msg {
            on: name,
            args: names,
        } => { message(table, on, args.as_slice(), name, names.as_slice(), least) }
        _ => {}
    }
}

// A `go` of the text.
fn goes(table: &Table<'_>, target: &Word, cont: &Word, term: &Proc, least: &mut Option<Found>)
    ensures { least.new ≡ first_of (kept table.now).args least.old
        (pair (kept table.now) (source.Go target.now cont.now) term.now) }
{
    match term.node() {
        Term::Go {
            target: place,
            cont: next,
        } => { request(table, target, cont, place, next, least) }
        _ => {}
    }
}

// A `fail` of the text.
fn fails(table: &Table<'_>, target: &Word, cont: &Word, term: &Proc, least: &mut Option<Found>)
    ensures { least.new ≡ first_of (kept table.now).args least.old
        (pair (kept table.now) (source.Fail target.now cont.now) term.now) }
{
    match term.node() {
        Term::Fail {
            target: lost,
            cont: next,
        } => { request(table, target, cont, lost, next, least) }
        _ => {}
    }
}

// An `add` of the text.
fn adds(
    table: &Table<'_>,
    left: &Arg,
    right: &Arg,
    cont: &Word,
    term: &Proc,
    least: &mut Option<Found>,
)
    ensures { least.new ≡ first_of (kept table.now).args least.old
        (pair (kept table.now) (source.Add left.now right.now cont.now) term.now) }
{
    match term.node() {
        Term::Msg { args: names, .. } => {
            operands(table, left, right, names.as_slice(), least);
            continuation(table, &[SortArg::Num], cont, names.as_slice(), 2, least);
        }
        _ => {}
    }
}

// What a `same` compares, and the names of the messages that tell the answer.
#[derive(Clone, Copy)]
struct Comparison<'a> {
    left: &'a Arg,
    right: &'a Arg,
    yes: &'a Word,
    no: &'a Word,
}

// A `same` of the text.
fn compares(table: &Table<'_>, same: Comparison<'_>, term: &Proc, least: &mut Option<Found>)
    ensures { least.new ≡ first_of (kept table.now).args least.old
        (pair (kept table.now)
        (source.Same same.entry.left.now same.entry.right.now same.entry.yes.now same.entry.no.now)
        term.now) }
{
    match term.node() {
        Term::Msg { args: names, .. } => {
            operands(table, same.left, same.right, names.as_slice(), least);
            continuation(table, &[], same.yes, names.as_slice(), 2, least);
            continuation(table, &[], same.no, names.as_slice(), 3, least);
        }
        _ => {}
    }
}

#[cycle(walk)]
fn process(table: &Table<'_>, p: &ProcTree, term: &Proc, least: &mut Option<Found>)
    ensures { least.new ≡ first_of (kept table.now).args least.old
        (pair (kept table.now) p.now term.now) }
{
    match p.node() {
        ProcNode::Msg { on, args } => sends(table, on, args, term, least),
        ProcNode::Go { target, cont } => goes(table, target, cont, term, least),
        ProcNode::Fail { target, cont } => fails(table, target, cont, term, least),
        ProcNode::Add { left, right, cont } => adds(table, left, right, cont, term, least),
        ProcNode::Same {
            left,
            right,
            yes,
            no,
        } => {
            let same = Comparison {
                left,
                right,
                yes,
                no,
            };
            compares(table, same, term, least)
        }
        ProcNode::Group(list) => body(table, list, term, least),
        ProcNode::Def { defs, body: list } => match term.node() {
            Term::Def {
                defs: terms,
                body: inner,
            } => {
                level(table, defs, terms, least);
                body(table, list, inner, least);
            }
            _ => {}
        },
        ProcNode::Zero => {}
        ProcNode::Halt => {}
    }
}

// The one process of a list that has no other.
fn only(list: &ProcTrees) -> Option<&ProcTree>
    ensures some { IfSome result (λ p. list.now ≡ p.now ∷ []) }
    ensures none { IfNone result (length list.now ≢ 1) }
{
    match list.as_slice() {
        [only] => Some(only),
        _ => None,
    }
}

#[cycle(walk)]
fn body(table: &Table<'_>, list: &ProcTrees, term: &Proc, least: &mut Option<Found>)
    ensures { least.new ≡ first_of (kept table.now).args least.old
        (pair_body (kept table.now) (trees list.now) term.now) }
{
    match only(list) {
        Some(p) => process(table, p, term, least),
        None => several(table, list, term, least),
    }
}

#[cycle(walk)]
fn several(table: &Table<'_>, list: &ProcTrees, term: &Proc, least: &mut Option<Found>)
    ensures { least.new ≡ first_of (kept table.now).args least.old
        (pair_several (kept table.now) (trees list.now) term.now) }
{
    match term.node() {
        Term::Par(terms) => members(table, list.as_slice(), terms.as_slice(), least),
        _ => {}
    }
}

#[cycle(walk)]
fn members(table: &Table<'_>, list: &[ProcTree], terms: &[Proc], least: &mut Option<Found>)
    ensures { least.new ≡ first_of (kept table.now).args least.old
        (pair_all (kept table.now) (trees list.now) (processes terms.now)) }
{
    for index in 0..list.len() {
        member(table, &list[index], terms, index, least);
    }
}

#[cycle(walk)]
fn member(table: &Table<'_>, p: &ProcTree, terms: &[Proc], index: usize, least: &mut Option<Found>)
    ensures { least.new ≡ first_of (kept table.now).args least.old
        (process_beside (kept table.now) p.now (slice_get terms.now index)) }
{
    match terms.get(index) {
        Some(term) => process(table, p, term, least),
        None => {}
    }
}

#[cycle(walk)]
fn definition(table: &Table<'_>, d: &DefTree, term: &Defn, least: &mut Option<Found>)
    ensures { least.new ≡ first_of (kept table.now).args least.old
        (pair_one (kept table.now) d.now term.now) }
{
    match d.node() {
        DefNode::Rule { pats, body: list } => match term.node() {
            DefnNode::Rule {
                pats: terms,
                body: inner,
            } => {
                patterns(table, pats.as_slice(), terms.as_slice(), least);
                body(table, list, inner, least);
            }
            _ => {}
        },
        DefNode::Place(tree) => match term.node() {
            DefnNode::Place {
                defs: terms,
                body: inner,
                ..
            } => {
                level(table, &tree.defs, terms, least);
                body(table, &tree.body, inner, least);
            }
            _ => {}
        },
    }
}

#[cycle(walk)]
fn level(table: &Table<'_>, list: &DefTrees, terms: &Defs, least: &mut Option<Found>)
    ensures { least.new ≡ first_of (kept table.now).args least.old
        (pair_level (kept table.now) (levels list.now) (definitions terms.now)) }
{
    let defs = list.as_slice();
    let terms = terms.as_slice();
    for index in 0..defs.len() {
        one(table, &defs[index], terms, index, least);
    }
}

#[cycle(walk)]
fn one(table: &Table<'_>, d: &DefTree, terms: &[Defn], index: usize, least: &mut Option<Found>)
    ensures { least.new ≡ first_of (kept table.now).args least.old
        (definition_beside (kept table.now) d.now (slice_get terms.now index)) }
{
    match terms.get(index) {
        Some(term) => definition(table, d, term, least),
        None => {}
    }
}

fn site(table: &Table<'_>, tree: &PlaceTree, term: &SiteTerm, least: &mut Option<Found>)
    ensures { least.new ≡ first_of (kept table.now).args least.old
        (site_pair (kept table.now) tree.now term.now) }
{
    level(table, &tree.defs, &term.defs, least);
    body(table, &tree.body, &term.body, least);
}

fn site_at(
    table: &Table<'_>,
    tree: &PlaceTree,
    terms: &[SiteTerm],
    index: usize,
    least: &mut Option<Found>,
)
    ensures { least.new ≡ first_of (kept table.now).args least.old
        (site_beside (kept table.now) tree.now (slice_get terms.now index)) }
{
    match terms.get(index) {
        Some(term) => site(table, tree, term, least),
        None => {}
    }
}

// The first fault of what is given and of all sites.
pub fn sites(table: &Table<'_>, list: &[PlaceTree], terms: &[SiteTerm], least: &mut Option<Found>)
    ensures { least.new ≡ first_of (kept table.now).args least.old
        (pair_sites (kept table.now) list.now terms.now) }
{
    for index in 0..list.len() {
        site_at(table, &list[index], terms, index, least);
    }
}

// The first fault of what is given and of the declarations of observed names.
pub fn declarations(table: &Table<'_>, list: &[SeenTree], least: &mut Option<Found>)
    requires { length list.now < 2 ^ 32 }
    ensures { least.new ≡ first_of (kept table.now).args least.old
        (asked_of_seen (kept table.now) 0 list.now) }
{
    for index in 0..list.len() {
        let tree = &list[index];
        let sort = in_list(table.seen, index as u32);
        note(
            least,
            tree.name.place,
            defined(table.decls, sort, tree.count as usize),
        );
    }
}
