// Uses of words under the scopes around them.
ghost use Rattle.std.specs.Prelude.{◌≡◌, IfOk, OnOk, None, length};
ghost use Rattle.scope_check.specs.inside.Order.{first_of};
ghost use Rattle.scope_check.specs.inside.Twin.{called_by, headed_by, sent_in, sent_by, ref_by};
ghost use Rattle.scope_check.specs.inside.Twin.{arg_in, arg_faults, args_in, binder_by, binder_in};
ghost use Rattle.scope_check.specs.inside.Twin.{binders_in, pats_in, added_in, added_faults};
ghost use Rattle.scope_check.specs.inside.Twin.{compared_in, compared_faults};
ghost use Rattle.scope_check.specs.inside.FaultList.{called_as, headed_for};
ghost use Rattle.scope_names.specs.Frames.{in_env, in_frame};

use crate::fault::{Fault, note};
use chem_model::{Memory, Name, Nums, Pat, Pats, Proc, Ref, Refs};
use join_base::Kind;
use join_parse::{Arg, PatTree, Word};
use scope_names::{Entry, Env, Scope, Sort};
use std::alloc::Global;

// The operations, as names of messages.
const ADD: u32 = 0;

const SAME: u32 = 1;

// What a resolved word stands for.
fn reference(entry: Option<Entry>) -> Ref
    ensures { result ≡ ref_by entry }
{
    match entry {
        None => Ref::Binder(0),
        Some(entry) => match entry.sort {
            Sort::Observed { index, .. } => Ref::Known(Name::Seen(index)),
            Sort::Channel { .. } | Sort::Location | Sort::Parameter => Ref::Binder(entry.binder),
        },
    }
}

// A word as a message's name.
pub fn called(env: &Env<'_>, word: &Word, given: usize, least: &mut Option<Fault>) -> Ref
    ensures value { result ≡ ref_by (in_env word.now.text env.now) }
    ensures faults { least.new
        ≡ first_of least.old (called_by word.now given (in_env word.now.text env.now)) }
{
    let entry = env.resolve(word.text.as_slice());
    match entry {
        None => note(
            least,
            Fault {
                kind: Kind::Scope1,
                place: word.place,
            },
        ),
        Some(entry) => match entry.sort {
            Sort::Channel { count, .. } | Sort::Observed { count, .. } => {
                if count as usize != given {
                    note(
                        least,
                        Fault {
                            kind: Kind::Arity1,
                            place: word.place,
                        },
                    );
                }
            }
            Sort::Location => note(
                least,
                Fault {
                    kind: Kind::Arity3,
                    place: word.place,
                },
            ),
            Sort::Parameter => {}
        },
    }
    reference(entry)
}

// A word as the first name of `go` or `fail`.
pub fn headed(env: &Env<'_>, word: &Word, least: &mut Option<Fault>) -> Ref
    ensures value { result ≡ ref_by (in_env word.now.text env.now) }
    ensures faults { least.new
        ≡ first_of least.old (headed_by word.now (in_env word.now.text env.now)) }
{
    let entry = env.resolve(word.text.as_slice());
    match entry {
        None => note(
            least,
            Fault {
                kind: Kind::Scope1,
                place: word.place,
            },
        ),
        Some(entry) => match entry.sort {
            Sort::Channel { .. } | Sort::Observed { .. } => note(
                least,
                Fault {
                    kind: Kind::Arity4,
                    place: word.place,
                },
            ),
            Sort::Location | Sort::Parameter => {}
        },
    }
    reference(entry)
}

fn sent(env: &Env<'_>, word: &Word, least: &mut Option<Fault>) -> Ref
    ensures value { result ≡ ref_by (in_env word.now.text env.now) }
    ensures faults { least.new
        ≡ first_of least.old (sent_by word.now (in_env word.now.text env.now)) }
{
    let entry = env.resolve(word.text.as_slice());
    if entry.is_none() {
        note(
            least,
            Fault {
                kind: Kind::Scope1,
                place: word.place,
            },
        );
    }
    reference(entry)
}

// An argument: what its word is resolved to, or its number.
fn argument(env: &Env<'_>, arg: &Arg, least: &mut Option<Fault>) -> Ref
    ensures value { result ≡ arg_in env.now arg.now }
    ensures faults { least.new ≡ first_of least.old (arg_faults env.now arg.now) }
{
    match arg {
        Arg::Word(word) => sent(env, word, least),
        Arg::Num { value, .. } => Ref::Known(Name::Num(*value)),
    }
}

// The arguments of a message.
pub fn all_sent(
    alloc: Global,
    env: &Env<'_>,
    args: &[Arg],
    least: &mut Option<Fault>,
) -> Result<Refs, Memory>
    ensures value { IfOk result (λ refs. refs ≡ args_in env.now args.now) }
    ensures faults { OnOk result (least.new ≡ first_of least.old (sent_in env.now args.now)) }
{
    let mut refs = Refs::new(alloc);
    for arg in args {
        refs.push(argument(env, arg, least))?;
    }
    Ok(refs)
}

// `add`, as a message on the operation. Its last name is used as the name of a message with one
// argument.
pub fn added(
    alloc: Global,
    env: &Env<'_>,
    left: &Arg,
    right: &Arg,
    cont: &Word,
    least: &mut Option<Fault>,
) -> Result<Proc, Memory>
    ensures value { IfOk result (λ p. p ≡ added_in env.now left.now right.now cont.now) }
    ensures faults { OnOk result (least.new
        ≡ first_of least.old (added_faults env.now left.now right.now cont.now)) }
{
    let left = argument(env, left, least);
    let right = argument(env, right, least);
    let cont = called(env, cont, 1, least);
    let args = Refs::from_slice(alloc, &[left, right, cont])?;
    Ok(Proc::msg(Ref::Known(Name::Op(ADD)), args))
}

// What a `same` compares, and the names of the messages that tell the answer.
#[derive(Clone, Copy)]
pub struct Comparison<'a> {
    pub left: &'a Arg,
    pub right: &'a Arg,
    pub yes: &'a Word,
    pub no: &'a Word,
}

// `same`, as a message on the operation. Its last two names are used as the names of messages
// without arguments.
pub fn compared(
    alloc: Global,
    env: &Env<'_>,
    same: Comparison<'_>,
    least: &mut Option<Fault>,
) -> Result<Proc, Memory>
    ensures value { IfOk result (λ p. p
        ≡ compared_in env.now same.entry.left.now same.entry.right.now same.entry.yes.now
        same.entry.no.now) }
    ensures faults { OnOk result (least.new ≡ first_of least.old
        (compared_faults env.now same.entry.left.now same.entry.right.now same.entry.yes.now
        same.entry.no.now)) }
{
    let left = argument(env, same.left, least);
    let right = argument(env, same.right, least);
    let yes = called(env, same.yes, 0, least);
    let no = called(env, same.no, 0, least);
    let args = Refs::from_slice(alloc, &[left, right, yes, no])?;
    Ok(Proc::msg(Ref::Known(Name::Op(SAME)), args))
}

// The number of a word in its scope.
pub fn binder_of(scope: &Scope<'_>, word: &Word) -> u32
    ensures { result ≡ binder_in scope.now word.now }
{
    match scope.find(word.text.as_slice()) {
        Some(entry) => entry.binder,
        None => 0,
    }
}

fn binders_of(alloc: Global, scope: &Scope<'_>, words: &[Word]) -> Result<Nums, Memory>
    ensures { IfOk result (λ ns. ns ≡ binders_in scope.now words.now) }
{
    let mut numbers = Nums::new(alloc);
    for word in words {
        numbers.push(binder_of(scope, word))?;
    }
    Ok(numbers)
}

// A join pattern.
pub fn patterns_of(
    alloc: Global,
    own: &Scope<'_>,
    params: &Scope<'_>,
    pats: &[PatTree],
) -> Result<Pats, Memory>
    ensures { IfOk result (λ ps. ps ≡ pats_in own.now params.now pats.now) }
{
    let mut list = Pats::new(alloc);
    for pat in pats {
        let numbers = binders_of(alloc, params, pat.params.as_slice())?;
        list.push(Pat {
            on: Ref::Binder(binder_of(own, &pat.on)),
            params: numbers,
        })?;
    }
    Ok(list)
}
