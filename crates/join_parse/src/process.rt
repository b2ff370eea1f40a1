// Processes and definitions.
ghost use Rattle.std.specs.Prelude.{◌≡◌, ◌∷◌, [], ◌+◌, ◌≤◌, ◌&&◌, not};
ghost use Rattle.std.specs.Prelude.{true, false, length, drop, IfOk};
ghost use Rattle.join_lex.specs.declared.token.Key.TheVariants as word;
ghost use Rattle.join_lex.specs.declared.token.Sign.TheVariants as paren;
ghost use Rattle.join_parse.specs.Terminals.{a_key, a_sign};
ghost use Rattle.join_parse.specs.Grammar.{IsSimple};
ghost use Rattle.join_parse.specs.Begins.{AName, ASign, Body, Defs, DefRest};
ghost use Rattle.join_parse.specs.Begins.{Names, MorePatterns, AProc, MoreProcs};
ghost use Rattle.join_parse.specs.inside.Parsed.{terms, next_is_sign, next_is_key, Exactly};
ghost use Rattle.join_parse.specs.inside.Parsed.{Reads, Fails, SpellsProcess, SpellsProcesses};
ghost use Rattle.join_parse.specs.inside.Parsed.{SpellsDefinition, SpellsDefinitions, SpellsBody};

use crate::bounds::Bounds;
use crate::cursor::{is_key_at, is_sign_at, key, refused, sign, too_deep, word};
use crate::leaf::leaf;
use crate::names::patterns;
use crate::tree::{DefTree, DefTrees, PlaceTree, ProcTree, ProcTrees};
use chem_model::Items;
use join_base::Front;
use join_lex::{Key, Sign, Token};
use std::alloc::Global;

// proc. Of the processes in parallel only the last may be a `def`.
#[cycle(processes)]
pub fn processes(
    alloc: Global,
    tokens: &[Token],
    b: Bounds,
    depth: u32,
    at: usize,
) -> Result<(ProcTrees, usize), Front>
    requires shallow { depth ≤ b.levels }
    ensures reads { IfOk result (λ r. Reads b (Exactly depth) tokens.now at (AProc ∷ []) r.1 []) }
    ensures spelled { IfOk result (λ r. SpellsProcesses b.second tokens.now at r.0 r.1) }
    ensures fails { Fails b (Exactly depth) tokens.now at (AProc ∷ []) result }
{
    let mut list = Items::new(alloc);
    let mut end = at;
    'members: while !is_key_at(tokens, end, Key::Def) {
        let (member, upto) = simple(alloc, tokens, b, depth, end)?;
        list.push(member)?;
        if !is_sign_at(tokens, upto, Sign::Bar) {
            return Ok((list, upto));
        }
        end = upto + 1;
    }
    let (last, upto) = def_in(alloc, tokens, b, depth, end)?;
    list.push(last)?;
    Ok((list, upto))
}

// A process that isn't a `def`, without those in parallel behind it.
#[cycle(processes)]
fn simple(
    alloc: Global,
    tokens: &[Token],
    b: Bounds,
    depth: u32,
    at: usize,
) -> Result<(ProcTree, usize), Front>
    requires shallow { depth ≤ b.levels }
    requires other { next_is_key word.Def (drop at tokens.now) ≡ false }
    ensures reads { IfOk result (λ r.
        Reads b (Exactly depth) tokens.now at (AProc ∷ []) r.1 (MoreProcs ∷ [])) }
    ensures simple { IfOk result (λ r. IsSimple r.0) }
    ensures spelled { IfOk result (λ r. SpellsProcess b.second tokens.now at r.0 r.1) }
    ensures fails { Fails b (Exactly depth) tokens.now at (AProc ∷ []) result }
{
    if is_sign_at(tokens, at, Sign::ParenLeft) {
        return group(alloc, tokens, b, depth, at);
    }
    leaf(alloc, tokens, b, at)
}

// "(" proc ")"
#[cycle(processes)]
fn group(
    alloc: Global,
    tokens: &[Token],
    b: Bounds,
    depth: u32,
    at: usize,
) -> Result<(ProcTree, usize), Front>
    requires shallow { depth ≤ b.levels }
    requires paren { next_is_sign paren.ParenLeft (drop at tokens.now) ≡ true }
    requires within { at + 1 ≤ length tokens.now }
    requires spelled { terms tokens.now at ≡ a_sign paren.ParenLeft ∷ terms tokens.now (at + 1) }
    ensures reads { IfOk result (λ r.
        Reads b (Exactly depth) tokens.now at (AProc ∷ []) r.1 (MoreProcs ∷ [])) }
    ensures simple { IfOk result (λ r. IsSimple r.0) }
    ensures spelled { IfOk result (λ r. SpellsProcess b.second tokens.now at r.0 r.1) }
    ensures fails { Fails b (Exactly depth) tokens.now at (AProc ∷ []) result }
{
    if depth >= b.levels {
        return Err(too_deep(tokens, b, at));
    }
    let (members, upto) = processes(alloc, tokens, b, depth + 1, at + 1)?;
    let upto = sign(tokens, b, upto, Sign::ParenRight)?;
    Ok((ProcTree::group(members), upto))
}

// "def" defs "in" proc
#[cycle(processes)]
fn def_in(
    alloc: Global,
    tokens: &[Token],
    b: Bounds,
    depth: u32,
    at: usize,
) -> Result<(ProcTree, usize), Front>
    requires shallow { depth ≤ b.levels }
    requires def { next_is_key word.Def (drop at tokens.now) ≡ true }
    requires within { at + 1 ≤ length tokens.now }
    requires spelled { terms tokens.now at ≡ a_key word.Def ∷ terms tokens.now (at + 1) }
    ensures reads { IfOk result (λ r. Reads b (Exactly depth) tokens.now at (AProc ∷ []) r.1 []) }
    ensures spelled { IfOk result (λ r. SpellsProcess b.second tokens.now at r.0 r.1) }
    ensures fails { Fails b (Exactly depth) tokens.now at (AProc ∷ []) result }
{
    if depth >= b.levels {
        return Err(too_deep(tokens, b, at));
    }
    let (defs, upto) = definitions(alloc, tokens, b, depth + 1, at + 1, false)?;
    let upto = key(tokens, b, upto, Key::Inside)?;
    let (body, upto) = processes(alloc, tokens, b, depth + 1, upto)?;
    Ok((ProcTree::def(defs, body), upto))
}

// "none" | defn { "and" defn }. Within a place that isn't a site the definitions are rules.
#[cycle(processes)]
fn definitions(
    alloc: Global,
    tokens: &[Token],
    b: Bounds,
    depth: u32,
    at: usize,
    within: bool,
) -> Result<(DefTrees, usize), Front>
    requires shallow { depth ≤ b.levels }
    requires short { at ≤ length tokens.now }
    ensures reads { IfOk result (λ r.
        Reads b (Exactly depth) tokens.now at (Defs within ∷ []) r.1 []) }
    ensures spelled { IfOk result (λ r. SpellsDefinitions b.second tokens.now at within r.0 r.1) }
    ensures fails { Fails b (Exactly depth) tokens.now at (Defs within ∷ []) result }
{
    let mut list = Items::new(alloc);
    if is_key_at(tokens, at, Key::Void) {
        return Ok((list, at + 1));
    }
    let (first, upto) = definition(alloc, tokens, b, depth, at, within)?;
    list.push(first)?;
    let mut end = upto;
    'ands: while is_key_at(tokens, end, Key::And) {
        let (more, upto) = definition(alloc, tokens, b, depth, end + 1, within)?;
        list.push(more)?;
        end = upto;
    }
    Ok((list, end))
}

// Whether a definition is a place: its name has `[` behind it, and it stands in no place itself.
fn is_place(tokens: &[Token], at: usize, within: bool) -> bool
    requires short { at ≤ length tokens.now }
    ensures { result ≡ (not within && next_is_sign paren.SquareLeft (drop (at + 1) tokens.now)) }
{
    !within && is_sign_at(tokens, at + 1, Sign::SquareLeft)
}

#[cycle(processes)]
fn definition(
    alloc: Global,
    tokens: &[Token],
    b: Bounds,
    depth: u32,
    at: usize,
    within: bool,
) -> Result<(DefTree, usize), Front>
    requires shallow { depth ≤ b.levels }
    requires short { at ≤ length tokens.now }
    ensures reads { IfOk result (λ r.
        Reads b (Exactly depth) tokens.now at (AName ∷ DefRest within ∷ []) r.1 []) }
    ensures spelled { IfOk result (λ r. SpellsDefinition b.second tokens.now at within r.0 r.1) }
    ensures fails { Fails b (Exactly depth) tokens.now at (AName ∷ DefRest within ∷ []) result }
{
    if is_place(tokens, at, within) {
        return place(alloc, tokens, b, depth, at);
    }
    rule(alloc, tokens, b, depth, at)
}

// pattern { "|" pattern } "=>" proc
#[cycle(processes)]
fn rule(
    alloc: Global,
    tokens: &[Token],
    b: Bounds,
    depth: u32,
    at: usize,
) -> Result<(DefTree, usize), Front>
    requires shallow { depth ≤ b.levels }
    ensures reads { IfOk result (λ r. Reads b (Exactly depth) tokens.now at
        (AName ∷ ASign paren.ParenLeft ∷ Names ∷ MorePatterns ∷ AProc ∷ []) r.1 []) }
    ensures spelled { IfOk result (λ r. SpellsDefinition b.second tokens.now at false r.0 r.1) }
    ensures spelled_within { IfOk result (λ r.
        SpellsDefinition b.second tokens.now at true r.0 r.1) }
    ensures fails { Fails b (Exactly depth) tokens.now at
        (AName ∷ ASign paren.ParenLeft ∷ Names ∷ MorePatterns ∷ AProc ∷ []) result }
{
    let (pats, upto) = patterns(alloc, tokens, b, at)?;
    let (body, upto) = processes(alloc, tokens, b, depth, upto)?;
    Ok((DefTree::rule(pats, body), upto))
}

// ident "[" rules ":" proc "]"
#[cycle(processes)]
fn place(
    alloc: Global,
    tokens: &[Token],
    b: Bounds,
    depth: u32,
    at: usize,
) -> Result<(DefTree, usize), Front>
    requires shallow { depth ≤ b.levels }
    ensures reads { IfOk result (λ r.
        Reads b (Exactly depth) tokens.now at (AName ∷ Body true ∷ []) r.1 []) }
    ensures spelled { IfOk result (λ r. SpellsDefinition b.second tokens.now at false r.0 r.1) }
    ensures fails { Fails b (Exactly depth) tokens.now at (AName ∷ Body true ∷ []) result }
{
    let (name, upto) = word(alloc, tokens, b, at)?;
    let (defs, body, upto) = body(alloc, tokens, b, depth, upto, true)?;
    let place = PlaceTree {
        opener: name.place,
        name,
        defs,
        body,
    };
    Ok((DefTree::place(place), upto))
}

// "[" defs ":" proc "]" of a site, or of a place within one
#[cycle(processes)]
pub fn body(
    alloc: Global,
    tokens: &[Token],
    b: Bounds,
    depth: u32,
    at: usize,
    within: bool,
) -> Result<(DefTrees, ProcTrees, usize), Front>
    requires shallow { depth ≤ b.levels }
    ensures reads { IfOk result (λ r.
        Reads b (Exactly depth) tokens.now at (Body within ∷ []) r.2 []) }
    ensures spelled { IfOk result (λ r. SpellsBody b.second tokens.now at within r.0 r.1 r.2) }
    ensures fails { Fails b (Exactly depth) tokens.now at (Body within ∷ []) result }
{
    if !is_sign_at(tokens, at, Sign::SquareLeft) {
        return Err(refused(tokens, b, at));
    }
    if depth >= b.levels {
        return Err(too_deep(tokens, b, at));
    }
    let (defs, upto) = definitions(alloc, tokens, b, depth + 1, at + 1, within)?;
    let upto = sign(tokens, b, upto, Sign::Colon)?;
    let (body, upto) = processes(alloc, tokens, b, depth + 1, upto)?;
    let upto = sign(tokens, b, upto, Sign::SquareRight)?;
    Ok((defs, body, upto))
}
