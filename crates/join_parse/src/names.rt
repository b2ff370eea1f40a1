// Identifiers and arguments between parentheses, join patterns, and the two names of a request.
ghost use Rattle.std.specs.Prelude.{◌≡◌, ◌∷◌, [], ◌≤◌, length, IfOk};
ghost use Rattle.join_parse.specs.Grammar.{names, applied, arguments, of_message, patterns, pair};
ghost use Rattle.join_parse.specs.Grammar.{operands, closing_name};
ghost use Rattle.join_parse.specs.Grammar.{IsNotEmpty, AreShort, AreArguments};
ghost use Rattle.join_parse.specs.Terminals.{a_sign, named, argument};
ghost use Rattle.join_parse.specs.Begins.{AName, AnArg, ASign, Names, Args};
ghost use Rattle.join_parse.specs.inside.Parsed.{a_message, some_operands, a_closing_name};
ghost use Rattle.join_parse.specs.inside.Parsed.{terms, a_pattern, some_patterns};
ghost use Rattle.join_parse.specs.inside.Parsed.{a_pair, AtMost, Reads, Fails};

use crate::bounds::Bounds;
use crate::cursor::{arg, is_sign_at, sign, word};
use crate::word::{Arg, Args, PatTree, PatTrees, Word, Words};
use chem_model::Items;
use join_base::Front;
use join_lex::{Sign, Token};
use std::alloc::Global;

// The most members that a list between parentheses may have.
const MOST: usize = 255;

// [ ident { "," ident } ] ")", of at most 255 identifiers
fn names(alloc: Global, tokens: &[Token], b: Bounds, at: usize) -> Result<(Words, usize), Front>
    ensures reads { IfOk result (λ r. Reads b (AtMost b.levels) tokens.now at (Names ∷ []) r.1 []) }
    ensures few { IfOk result (λ r. length r.0 ≤ 255) }
    ensures spelled { IfOk result (λ r. terms tokens.now at ≡ names r.0 (terms tokens.now r.1)) }
    ensures fails { Fails b (AtMost b.levels) tokens.now at (Names ∷ []) result }
{
    let mut list = Items::new(alloc);
    if is_sign_at(tokens, at, Sign::ParenRight) {
        return Ok((list, at + 1));
    }
    let (first, upto) = word(alloc, tokens, b, at)?;
    list.push(first)?;
    let mut end = upto;
    'commas: while list.len() < MOST && is_sign_at(tokens, end, Sign::Comma) {
        let (more, upto) = word(alloc, tokens, b, end + 1)?;
        list.push(more)?;
        end = upto;
    }
    let end = sign(tokens, b, end, Sign::ParenRight)?;
    Ok((list, end))
}

// [ arg { "," arg } ] ")", of at most 255 arguments
fn args(alloc: Global, tokens: &[Token], b: Bounds, at: usize) -> Result<(Args, usize), Front>
    ensures reads { IfOk result (λ r. Reads b (AtMost b.levels) tokens.now at (Args ∷ []) r.1 []) }
    ensures few { IfOk result (λ r. length r.0 ≤ 255) }
    ensures of { IfOk result (λ r. AreArguments b.second r.0) }
    ensures spelled { IfOk result (λ r.
        terms tokens.now at ≡ arguments r.0 (terms tokens.now r.1)) }
    ensures fails { Fails b (AtMost b.levels) tokens.now at (Args ∷ []) result }
{
    let mut list = Items::new(alloc);
    if is_sign_at(tokens, at, Sign::ParenRight) {
        return Ok((list, at + 1));
    }
    let (first, upto) = arg(alloc, tokens, b, at)?;
    list.push(first)?;
    let mut end = upto;
    'commas: while list.len() < MOST && is_sign_at(tokens, end, Sign::Comma) {
        let (more, upto) = arg(alloc, tokens, b, end + 1)?;
        list.push(more)?;
        end = upto;
    }
    let end = sign(tokens, b, end, Sign::ParenRight)?;
    Ok((list, end))
}

// ident "(" [ arg { "," arg } ] ")"
pub fn message(
    alloc: Global,
    tokens: &[Token],
    b: Bounds,
    at: usize,
) -> Result<(Word, Args, usize), Front>
    ensures reads { IfOk result (λ r. Reads b (AtMost b.levels) tokens.now at a_message r.2 []) }
    ensures few { IfOk result (λ r. length r.1 ≤ 255) }
    ensures of { IfOk result (λ r. AreArguments b.second r.1) }
    ensures spelled { IfOk result (λ r.
        terms tokens.now at ≡ of_message r.0 r.1 (terms tokens.now r.2)) }
    ensures fails { Fails b (AtMost b.levels) tokens.now at a_message result }
{
    let (on, upto) = word(alloc, tokens, b, at)?;
    let upto = sign(tokens, b, upto, Sign::ParenLeft)?;
    let (args, upto) = args(alloc, tokens, b, upto)?;
    Ok((on, args, upto))
}

// ident "(" [ ident { "," ident } ] ")"
pub fn pattern(
    alloc: Global,
    tokens: &[Token],
    b: Bounds,
    at: usize,
) -> Result<(PatTree, usize), Front>
    ensures reads { IfOk result (λ r. Reads b (AtMost b.levels) tokens.now at a_pattern r.1 []) }
    ensures few { IfOk result (λ r. length r.0.params ≤ 255) }
    ensures spelled { IfOk result (λ r.
        terms tokens.now at ≡ applied r.0.on r.0.params (terms tokens.now r.1)) }
    ensures fails { Fails b (AtMost b.levels) tokens.now at a_pattern result }
{
    let (on, upto) = word(alloc, tokens, b, at)?;
    let upto = sign(tokens, b, upto, Sign::ParenLeft)?;
    let (params, upto) = names(alloc, tokens, b, upto)?;
    Ok((PatTree { on, params }, upto))
}

// pattern { "|" pattern } "=>"
pub fn patterns(
    alloc: Global,
    tokens: &[Token],
    b: Bounds,
    at: usize,
) -> Result<(PatTrees, usize), Front>
    ensures reads { IfOk result (λ r.
        Reads b (AtMost b.levels) tokens.now at some_patterns r.1 []) }
    ensures some { IfOk result (λ r. IsNotEmpty r.0) }
    ensures short { IfOk result (λ r. AreShort r.0) }
    ensures spelled { IfOk result (λ r. terms tokens.now at ≡ patterns r.0 (terms tokens.now r.1)) }
    ensures fails { Fails b (AtMost b.levels) tokens.now at some_patterns result }
{
    let mut list = Items::new(alloc);
    let (first, upto) = pattern(alloc, tokens, b, at)?;
    list.push(first)?;
    let mut end = upto;
    'bars: while is_sign_at(tokens, end, Sign::Bar) {
        let (more, upto) = pattern(alloc, tokens, b, end + 1)?;
        list.push(more)?;
        end = upto;
    }
    let end = sign(tokens, b, end, Sign::Arrow)?;
    Ok((list, end))
}

// A sign, and an identifier behind it.
pub fn word_behind(
    alloc: Global,
    tokens: &[Token],
    b: Bounds,
    at: usize,
    before: Sign,
) -> Result<(Word, usize), Front>
    ensures reads { IfOk result (λ r.
        Reads b (AtMost b.levels) tokens.now at (ASign before ∷ AName ∷ []) r.1 []) }
    ensures spelled { IfOk result (λ r.
        terms tokens.now at ≡ a_sign before ∷ named r.0 ∷ terms tokens.now r.1) }
    ensures fails { Fails b (AtMost b.levels) tokens.now at (ASign before ∷ AName ∷ []) result }
{
    let upto = sign(tokens, b, at, before)?;
    let (name, upto) = word(alloc, tokens, b, upto)?;
    Ok((name, upto))
}

// "(" ident "," ident ")"
pub fn pair(
    alloc: Global,
    tokens: &[Token],
    b: Bounds,
    at: usize,
) -> Result<(Word, Word, usize), Front>
    ensures reads { IfOk result (λ r. Reads b (AtMost b.levels) tokens.now at a_pair r.2 []) }
    ensures spelled { IfOk result (λ r. terms tokens.now at ≡ pair r.0 r.1 (terms tokens.now r.2)) }
    ensures fails { Fails b (AtMost b.levels) tokens.now at a_pair result }
{
    let (one, upto) = word_behind(alloc, tokens, b, at, Sign::ParenLeft)?;
    let (other, upto) = word_behind(alloc, tokens, b, upto, Sign::Comma)?;
    let upto = sign(tokens, b, upto, Sign::ParenRight)?;
    Ok((one, other, upto))
}

// A sign, and an argument behind it.
fn arg_behind(
    alloc: Global,
    tokens: &[Token],
    b: Bounds,
    at: usize,
    before: Sign,
) -> Result<(Arg, usize), Front>
    ensures reads { IfOk result (λ r.
        Reads b (AtMost b.levels) tokens.now at (ASign before ∷ AnArg ∷ []) r.1 []) }
    ensures spelled { IfOk result (λ r.
        terms tokens.now at ≡ a_sign before ∷ argument r.0 ∷ terms tokens.now r.1) }
    ensures fails { Fails b (AtMost b.levels) tokens.now at (ASign before ∷ AnArg ∷ []) result }
{
    let upto = sign(tokens, b, at, before)?;
    let (arg, upto) = arg(alloc, tokens, b, upto)?;
    Ok((arg, upto))
}

// "(" arg "," arg
pub fn operands(
    alloc: Global,
    tokens: &[Token],
    b: Bounds,
    at: usize,
) -> Result<(Arg, Arg, usize), Front>
    ensures reads { IfOk result (λ r.
        Reads b (AtMost b.levels) tokens.now at some_operands r.2 []) }
    ensures spelled { IfOk result (λ r.
        terms tokens.now at ≡ operands r.0 r.1 (terms tokens.now r.2)) }
    ensures fails { Fails b (AtMost b.levels) tokens.now at some_operands result }
{
    let (left, upto) = arg_behind(alloc, tokens, b, at, Sign::ParenLeft)?;
    let (right, upto) = arg_behind(alloc, tokens, b, upto, Sign::Comma)?;
    Ok((left, right, upto))
}

// "," ident ")"
pub fn closing_name(
    alloc: Global,
    tokens: &[Token],
    b: Bounds,
    at: usize,
) -> Result<(Word, usize), Front>
    ensures reads { IfOk result (λ r.
        Reads b (AtMost b.levels) tokens.now at a_closing_name r.1 []) }
    ensures spelled { IfOk result (λ r.
        terms tokens.now at ≡ closing_name r.0 (terms tokens.now r.1)) }
    ensures fails { Fails b (AtMost b.levels) tokens.now at a_closing_name result }
{
    let (name, upto) = word_behind(alloc, tokens, b, at, Sign::Comma)?;
    let upto = sign(tokens, b, upto, Sign::ParenRight)?;
    Ok((name, upto))
}
