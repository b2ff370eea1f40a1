// The term that a tree stands for, by the tables of its scopes.
ghost use Rattle.std.specs.Prelude.{◌≡◌, ◌≢◌, ◌+◌, ◌≤◌, ◌∷◌, [], IfOk};
ghost use Rattle.std.specs.Prelude.{OnOk, IfSome, IfNone, length};
ghost use Rattle.join_parse.specs.Source.{processes, definitions as source_definitions};
ghost use Rattle.join_parse.specs.Nodes.{process_of, definition_of};
ghost use Rattle.scope_check.specs.Stands.{together};
ghost use Rattle.scope_check.specs.inside.Order.{first_of};
ghost use Rattle.scope_check.specs.Blocks.{place_of, sites_of, scopes_in, scopes_in_all};
ghost use Rattle.scope_check.specs.Blocks.{scopes_in_def, scopes_in_defs};
ghost use Rattle.scope_check.specs.inside.Twin.{process_in, members_in, definition_in, level_in};
ghost use Rattle.scope_check.specs.inside.Twin.{uses_in, all_uses_in, definition_uses_in};
ghost use Rattle.scope_check.specs.inside.Twin.{level_uses_in, site_terms_in};
ghost use Rattle.scope_check.specs.inside.Shown.{Shows};

use crate::fault::Fault;
use crate::words::{Comparison, added, all_sent, binder_of, called, compared, headed, patterns_of};
use chem_model::{Defn, Defs, Memory, Proc, Procs, Ref, SiteTerm, SiteTerms};
use join_parse::{DefNode, DefTree, DefTrees, PlaceTree, ProcNode, ProcTree, ProcTrees};
use scope_names::{Env, Scope};
use std::alloc::Global;

// What a term is made with: an allocator, and the tables of all scopes.
#[derive(Clone, Copy)]
pub struct Translation<'t> {
    pub alloc: Global,
    pub scopes: &'t [Scope<'t>],
}

// The term of a process, and the number of the next scope.
#[cycle(translate)]
pub fn process(
    by: &Translation<'_>,
    at: usize,
    env: &Env<'_>,
    p: &ProcTree,
    least: &mut Option<Fault>,
) -> Result<(Proc, usize), Memory>
    requires { at + scopes_in p.now ≤ length by.now.scopes.now }
    ensures { IfOk result (λ r. Shows (process_in by.now.scopes.now env.now at p.now)
        (at + scopes_in p.now) (uses_in by.now.scopes.now env.now at p.now) r.0 r.1 least.old
        least.new) }
{
    match p.node() {
        ProcNode::Zero => Ok((Proc::par(Procs::new(by.alloc)), at)),
        ProcNode::Msg { on, args } => {
            let args = args.as_slice();
            let on = called(env, on, args.len(), least);
            let refs = all_sent(by.alloc, env, args, least)?;
            Ok((Proc::msg(on, refs), at))
        }
        ProcNode::Go { target, cont } => {
            let target = headed(env, target, least);
            let cont = called(env, cont, 0, least);
            Ok((Proc::go(target, cont), at))
        }
        ProcNode::Fail { target, cont } => {
            let target = headed(env, target, least);
            let cont = called(env, cont, 0, least);
            Ok((Proc::fail(target, cont), at))
        }
        ProcNode::Halt => Ok((Proc::halt(), at)),
        ProcNode::Add { left, right, cont } => {
            let sum = added(by.alloc, env, left, right, cont, least)?;
            Ok((sum, at))
        }
        ProcNode::Same {
            left,
            right,
            yes,
            no,
        } => {
            let same = Comparison {
                left,
                right,
                yes,
                no,
            };
            let choice = compared(by.alloc, env, same, least)?;
            Ok((choice, at))
        }
        ProcNode::Group(list) => body(by, at, env, list, least),
        ProcNode::Def { defs, body: list } => {
            let own = &by.scopes[at];
            let inner = Env::within(own, &*env);
            let (defs, next) = level(by, at + 1, own, &inner, defs, least)?;
            let (term, end) = body(by, next, &inner, list, least)?;
            let term = Proc::def(by.alloc, defs, term)?;
            Ok((term, end))
        }
    }
}

// The one process of a list that has no other.
fn only(list: &ProcTrees) -> Option<&ProcTree>
    ensures some { IfSome result (λ p. list.now ≡ p.now ∷ []) }
    ensures none { IfNone result (length list.now ≢ 1) }
{
    match list.as_slice() {
        [only] => Some(only),
        _ => None,
    }
}

// The term of a list of processes.
#[cycle(translate)]
pub fn body(
    by: &Translation<'_>,
    at: usize,
    env: &Env<'_>,
    list: &ProcTrees,
    least: &mut Option<Fault>,
) -> Result<(Proc, usize), Memory>
    requires { at + scopes_in_all (processes list.now) ≤ length by.now.scopes.now }
    ensures { IfOk result (λ r. Shows
        (together (members_in by.now.scopes.now env.now at (processes list.now)))
        (at + scopes_in_all (processes list.now))
        (all_uses_in by.now.scopes.now env.now at (processes list.now)) r.0 r.1 least.old
        least.new) }
{
    if let Some(only) = only(list) {
        let (term, end) = process(by, at, env, only, least)?;
        return Ok((term, end));
    }
    let mut members = Procs::new(by.alloc);
    let mut end = at;
    for p in list.as_slice() {
        let (member, next) = process(by, end, env, p, least)?;
        members.push(member)?;
        end = next;
    }
    Ok((Proc::par(members), end))
}

// The term of a definition in its block.
#[cycle(translate)]
fn definition(
    by: &Translation<'_>,
    at: usize,
    own: &Scope<'_>,
    env: &Env<'_>,
    d: &DefTree,
    least: &mut Option<Fault>,
) -> Result<(Defn, usize), Memory>
    requires { at + scopes_in_def d.now ≤ length by.now.scopes.now }
    ensures { IfOk result (λ r. Shows (definition_in by.now.scopes.now own.now env.now at d.now)
        (at + scopes_in_def d.now) (definition_uses_in by.now.scopes.now env.now at d.now) r.0 r.1
        least.old least.new) }
{
    match d.node() {
        DefNode::Rule { pats, body: list } => {
            let params = &by.scopes[at];
            let pats = patterns_of(by.alloc, &*own, params, pats.as_slice())?;
            let inner = Env::within(params, &*env);
            let (term, end) = body(by, at + 1, &inner, list, least)?;
            let rule = Defn::rule(by.alloc, pats, term)?;
            Ok((rule, end))
        }
        DefNode::Place(tree) => {
            let name = Ref::Binder(binder_of(&*own, &tree.name));
            let (defs, term, end) = inner(by, at, &*own, &*env, tree, least)?;
            let place = Defn::place(by.alloc, name, defs, term)?;
            Ok((place, end))
        }
    }
}

// The terms of a place's definitions and of its process.
#[cycle(translate)]
fn inner(
    by: &Translation<'_>,
    at: usize,
    own: &Scope<'_>,
    env: &Env<'_>,
    tree: &PlaceTree,
    least: &mut Option<Fault>,
) -> Result<(Defs, Proc, usize), Memory>
    requires { at + scopes_in_def (place_of tree.now) ≤ length by.now.scopes.now }
    ensures defs { IfOk result (λ r.
        r.0 ≡ level_in by.now.scopes.now own.now env.now at (source_definitions tree.now.defs)) }
    ensures shows { IfOk result (λ r. Shows
        (together (members_in by.now.scopes.now env.now
        (at + scopes_in_defs (source_definitions tree.now.defs)) (processes tree.now.body)))
        (at + scopes_in_def (place_of tree.now))
        (definition_uses_in by.now.scopes.now env.now at (place_of tree.now)) r.1 r.2 least.old
        least.new) }
{
    let (defs, next) = level(by, at, &*own, &*env, &tree.defs, least)?;
    let (term, end) = body(by, next, &*env, &tree.body, least)?;
    Ok((defs, term, end))
}

// The terms of a level's definitions.
#[cycle(translate)]
fn level(
    by: &Translation<'_>,
    at: usize,
    own: &Scope<'_>,
    env: &Env<'_>,
    list: &DefTrees,
    least: &mut Option<Fault>,
) -> Result<(Defs, usize), Memory>
    requires { at + scopes_in_defs (source_definitions list.now) ≤ length by.now.scopes.now }
    ensures { IfOk result (λ r. Shows
        (level_in by.now.scopes.now own.now env.now at (source_definitions list.now))
        (at + scopes_in_defs (source_definitions list.now))
        (level_uses_in by.now.scopes.now env.now at (source_definitions list.now)) r.0 r.1 least.old
        least.new) }
{
    let mut defs = Defs::new(by.alloc);
    let mut end = at;
    for d in list.as_slice() {
        let (term, next) = definition(by, end, &*own, &*env, d, least)?;
        defs.push(term)?;
        end = next;
    }
    Ok((defs, end))
}

// The terms of the sites.
pub fn sites(
    by: &Translation<'_>,
    own: &Scope<'_>,
    env: &Env<'_>,
    list: &[PlaceTree],
    least: &mut Option<Fault>,
) -> Result<SiteTerms, Memory>
    requires { 1 + scopes_in_defs (sites_of list.now) ≤ length by.now.scopes.now }
    ensures value { IfOk result
        (λ r. r ≡ site_terms_in by.now.scopes.now own.now env.now 1 list.now) }
    ensures faults { OnOk result
        (least.new
        ≡ first_of least.old (level_uses_in by.now.scopes.now env.now 1 (sites_of list.now))) }
{
    let mut terms = SiteTerms::new(by.alloc);
    let mut end = 1;
    for tree in list {
        let name = binder_of(&*own, &tree.name);
        let (defs, body, next) = inner(by, end, &*own, &*env, tree, least)?;
        terms.push(SiteTerm { name, defs, body })?;
        end = next;
    }
    Ok(terms)
}
