// Processes in which no other stands.
ghost use Rattle.std.specs.Prelude.{◌≡◌, ◌∷◌, [], ◌+◌, ◌≤◌, ◌&&◌, true, false, length, drop, IfOk};
ghost use Rattle.std.specs.Bool.{OnTrue};
ghost use Rattle.join_lex.specs.declared.token.Key.TheVariants as word;
ghost use Rattle.join_lex.specs.declared.token.Sign.TheVariants as paren;
ghost use Rattle.join_parse.specs.Terminals.{a_key};
ghost use Rattle.join_parse.specs.Grammar.{of_process, IsProcess, IsSimple};
ghost use Rattle.join_parse.specs.Begins.{AProc, MoreProcs};
ghost use Rattle.join_parse.specs.inside.Parsed.{terms, places, next_is_sign, next_is_key, AtMost};
ghost use Rattle.join_parse.specs.inside.Parsed.{an_addition, a_comparison, SpellsOne, key_here};
ghost use Rattle.join_parse.specs.inside.Parsed.{Reads, Fails, SpellsProcess};

use crate::bounds::Bounds;
use crate::cursor::{is_key_at, is_name_at, is_zero_at, refused, sign};
use crate::names::{closing_name, message, operands, pair, word_behind};
use crate::tree::ProcTree;
use join_base::Front;
use join_lex::{Key, Sign, Token};
use std::alloc::Global;

// Whether an operation stands at a place, as none does in the first version.
fn is_operation_at(tokens: &[Token], b: Bounds, at: usize, key: Key) -> bool
    ensures is { result ≡ (b.second && next_is_key key (drop at tokens.now)) }
    ensures second { OnTrue result (b.second ≡ true) }
    ensures within { OnTrue result (at + 1 ≤ length tokens.now) }
    ensures spelled { OnTrue result (SpellsOne tokens.now at (key_here key tokens.now at)
        (at + 1)) }
{
    b.second && is_key_at(tokens, at, key)
}

// "(" arg "," arg "," ident ")" behind `add`
fn addition(
    alloc: Global,
    tokens: &[Token],
    b: Bounds,
    at: usize,
) -> Result<(ProcTree, usize), Front>
    requires second { b.second ≡ true }
    ensures reads { IfOk result (λ r. Reads b (AtMost b.levels) tokens.now at an_addition r.1 []) }
    ensures of { IfOk result (λ r. IsProcess b.second r.0) }
    ensures simple { IfOk result (λ r. IsSimple r.0) }
    ensures spelled { IfOk result (λ r. a_key word.Add ∷ terms tokens.now at
        ≡ of_process (places tokens.now) r.0 (terms tokens.now r.1)) }
    ensures fails { Fails b (AtMost b.levels) tokens.now at an_addition result }
{
    let (left, right, upto) = operands(alloc, tokens, b, at)?;
    let (cont, upto) = closing_name(alloc, tokens, b, upto)?;
    Ok((ProcTree::add(left, right, cont), upto))
}

// "(" arg "," arg "," ident "," ident ")" behind `same`
fn comparison(
    alloc: Global,
    tokens: &[Token],
    b: Bounds,
    at: usize,
) -> Result<(ProcTree, usize), Front>
    requires second { b.second ≡ true }
    ensures reads { IfOk result (λ r. Reads b (AtMost b.levels) tokens.now at a_comparison r.1 []) }
    ensures of { IfOk result (λ r. IsProcess b.second r.0) }
    ensures simple { IfOk result (λ r. IsSimple r.0) }
    ensures spelled { IfOk result (λ r. a_key word.Same ∷ terms tokens.now at
        ≡ of_process (places tokens.now) r.0 (terms tokens.now r.1)) }
    ensures fails { Fails b (AtMost b.levels) tokens.now at a_comparison result }
{
    let (left, right, upto) = operands(alloc, tokens, b, at)?;
    let (yes, upto) = word_behind(alloc, tokens, b, upto, Sign::Comma)?;
    let (no, upto) = closing_name(alloc, tokens, b, upto)?;
    Ok((ProcTree::same(left, right, yes, no), upto))
}

// zero, a message, a request or an operation
pub fn leaf(
    alloc: Global,
    tokens: &[Token],
    b: Bounds,
    at: usize,
) -> Result<(ProcTree, usize), Front>
    requires other { next_is_key word.Def (drop at tokens.now) ≡ false }
    requires open { next_is_sign paren.ParenLeft (drop at tokens.now) ≡ false }
    ensures reads { IfOk result (λ r.
        Reads b (AtMost b.levels) tokens.now at (AProc ∷ []) r.1 (MoreProcs ∷ [])) }
    ensures simple { IfOk result (λ r. IsSimple r.0) }
    ensures spelled { IfOk result (λ r. SpellsProcess b.second tokens.now at r.0 r.1) }
    ensures fails { Fails b (AtMost b.levels) tokens.now at (AProc ∷ []) result }
{
    if is_zero_at(tokens, at) {
        return Ok((ProcTree::zero(), at + 1));
    }
    if is_name_at(tokens, at) {
        let (on, args, upto) = message(alloc, tokens, b, at)?;
        return Ok((ProcTree::msg(on, args), upto));
    }
    if is_key_at(tokens, at, Key::Halt) {
        let upto = sign(tokens, b, at + 1, Sign::ParenLeft)?;
        let upto = sign(tokens, b, upto, Sign::ParenRight)?;
        return Ok((ProcTree::halt(), upto));
    }
    if is_key_at(tokens, at, Key::Go) {
        let (target, cont, upto) = pair(alloc, tokens, b, at + 1)?;
        return Ok((ProcTree::go(target, cont), upto));
    }
    if is_key_at(tokens, at, Key::Fail) {
        let (target, cont, upto) = pair(alloc, tokens, b, at + 1)?;
        return Ok((ProcTree::fail(target, cont), upto));
    }
    if is_operation_at(tokens, b, at, Key::Add) {
        return addition(alloc, tokens, b, at + 1);
    }
    if is_operation_at(tokens, b, at, Key::Same) {
        return comparison(alloc, tokens, b, at + 1);
    }
    Err(refused(tokens, b, at))
}
