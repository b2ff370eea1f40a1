// The tokens one by one: what comes next, and the parts that are one token.
ghost use Rattle.std.specs.Prelude.{◌≡◌, ◌∷◌, [], ◌+◌, ◌≤◌, ◌<◌, length};
ghost use Rattle.std.specs.Prelude.{drop, IfOk, OnSome, MatchOption};
ghost use Rattle.std.specs.Bool.{OnTrue};
ghost use Rattle.join_base.specs.declared.fault.Front.TheVariants as front;
ghost use Rattle.join_base.specs.declared.fault.Kind.TheVariants as fault;
ghost use Rattle.join_parse.specs.Terminals.{a_sign, named, argument};
ghost use Rattle.join_parse.specs.Grammar.{IsArgument};
ghost use Rattle.join_parse.specs.Begins.{AName, AnArg, ACount, ASign};
ghost use Rattle.join_parse.specs.inside.Automaton.{is_sign, is_key};
ghost use Rattle.join_parse.specs.inside.Parsed.{next_is_sign, next_is_key, next_is_name};
ghost use Rattle.join_parse.specs.inside.Parsed.{next_is_zero};
ghost use Rattle.join_parse.specs.inside.Parsed.{place_of, key_symbol, key_here};
ghost use Rattle.join_parse.specs.inside.Parsed.{SpellsOne, SpellsNumber, AtMost, Reads, Fails};

use crate::bounds::Bounds;
use crate::word::{Arg, Word};
use join_base::{Front, Kind};
use join_lex::{Key, Kind2, Sign, Token};
use std::alloc::Global;

// The token at a place, where the tokens don't end before it.
fn token_at(tokens: &[Token], at: usize) -> Option<&Token>
    ensures within { OnSome result (at + 1 ≤ length tokens.now) }
    ensures token { MatchOption result (drop at tokens.now ≡ []) (λ t.
        drop at tokens.now ≡ t.now ∷ drop (at + 1) tokens.now) }
{
    tokens.get(at)
}

fn is_sign(kind: &Kind2, sign: Sign) -> bool
    ensures { result ≡ is_sign sign kind.now }
{
    match kind {
        Kind2::Sign(found) => *found as u8 == sign as u8,
        _ => false,
    }
}

fn is_key(kind: &Kind2, key: Key) -> bool
    ensures { result ≡ is_key key kind.now }
{
    match kind {
        Kind2::Key(found) => *found as u8 == key as u8,
        _ => false,
    }
}

pub fn is_sign_at(tokens: &[Token], at: usize, sign: Sign) -> bool
    ensures is { result ≡ next_is_sign sign (drop at tokens.now) }
    ensures within { OnTrue result (at + 1 ≤ length tokens.now) }
    ensures spelled { OnTrue result (SpellsOne tokens.now at (a_sign sign) (at + 1)) }
{
    match token_at(tokens, at) {
        None => false,
        Some(token) => is_sign(&token.kind, sign),
    }
}

pub fn is_key_at(tokens: &[Token], at: usize, key: Key) -> bool
    ensures is { result ≡ next_is_key key (drop at tokens.now) }
    ensures within { OnTrue result (at + 1 ≤ length tokens.now) }
    ensures spelled { OnTrue result (SpellsOne tokens.now at (key_here key tokens.now at)
        (at + 1)) }
{
    match token_at(tokens, at) {
        None => false,
        Some(token) => is_key(&token.kind, key),
    }
}

pub fn is_name_at(tokens: &[Token], at: usize) -> bool
    ensures is { result ≡ next_is_name (drop at tokens.now) }
{
    match token_at(tokens, at) {
        None => false,
        Some(token) => matches!(&token.kind, Kind2::Ident(_)),
    }
}

pub fn is_zero_at(tokens: &[Token], at: usize) -> bool
    ensures is { result ≡ next_is_zero (drop at tokens.now) }
    ensures within { OnTrue result (at + 1 ≤ length tokens.now) }
    ensures spelled { OnTrue result (SpellsNumber tokens.now at 0 (at + 1)) }
{
    match token_at(tokens, at) {
        None => false,
        Some(token) => matches!(&token.kind, Kind2::Number(0)),
    }
}

// The place of the token that comes next, or the text's length.
pub fn place_at(tokens: &[Token], end: u32, at: usize) -> u32
    ensures { result ≡ place_of end (drop at tokens.now) }
{
    match token_at(tokens, at) {
        None => end,
        Some(token) => token.span.from,
    }
}

// The fault that no sentence goes on with what comes next.
pub fn refused(tokens: &[Token], b: Bounds, at: usize) -> Front
    ensures { result ≡ front.Refused fault.Grammar1 (place_of b.end (drop at tokens.now)) }
{
    Front::Refused {
        kind: Kind::Grammar1,
        place: place_at(tokens, b.end, at),
    }
}

// The fault that what comes next opens a level too many.
pub fn too_deep(tokens: &[Token], b: Bounds, at: usize) -> Front
    ensures { result ≡ front.Refused fault.Grammar2 (place_of b.end (drop at tokens.now)) }
{
    Front::Refused {
        kind: Kind::Grammar2,
        place: place_at(tokens, b.end, at),
    }
}

pub fn sign(tokens: &[Token], b: Bounds, at: usize, sign: Sign) -> Result<usize, Front>
    ensures reads { IfOk result (λ upto.
        Reads b (AtMost b.levels) tokens.now at (ASign sign ∷ []) upto []) }
    ensures spelled { IfOk result (λ upto. SpellsOne tokens.now at (a_sign sign) upto) }
    ensures fails { Fails b (AtMost b.levels) tokens.now at (ASign sign ∷ []) result }
{
    if is_sign_at(tokens, at, sign) {
        Ok(at + 1)
    } else {
        Err(refused(tokens, b, at))
    }
}

pub fn key(tokens: &[Token], b: Bounds, at: usize, key: Key) -> Result<usize, Front>
    ensures reads { IfOk result (λ upto.
        Reads b (AtMost b.levels) tokens.now at (key_symbol key ∷ []) upto []) }
    ensures spelled { IfOk result (λ upto.
        SpellsOne tokens.now at (key_here key tokens.now at) upto) }
    ensures fails { Fails b (AtMost b.levels) tokens.now at (key_symbol key ∷ []) result }
{
    if is_key_at(tokens, at, key) {
        Ok(at + 1)
    } else {
        Err(refused(tokens, b, at))
    }
}

pub fn word(alloc: Global, tokens: &[Token], b: Bounds, at: usize) -> Result<(Word, usize), Front>
    ensures reads { IfOk result (λ r. Reads b (AtMost b.levels) tokens.now at (AName ∷ []) r.1 []) }
    ensures spelled { IfOk result (λ r. SpellsOne tokens.now at (named r.0) r.1) }
    ensures next { IfOk result (λ r. r.1 ≡ at + 1) }
    ensures fails { Fails b (AtMost b.levels) tokens.now at (AName ∷ []) result }
{
    let Some(token) = token_at(tokens, at) else {
        return Err(refused(tokens, b, at));
    };
    let Kind2::Ident(text) = &token.kind else {
        return Err(refused(tokens, b, at));
    };
    let text = text.copy(alloc)?;
    let place = token.span.from;
    Ok((Word { text, place }, at + 1))
}

pub fn count(tokens: &[Token], b: Bounds, at: usize) -> Result<(u32, usize), Front>
    ensures reads { IfOk result (λ r.
        Reads b (AtMost b.levels) tokens.now at (ACount ∷ []) r.1 []) }
    ensures spelled { IfOk result (λ r. SpellsNumber tokens.now at r.0 r.1) }
    ensures small { IfOk result (λ r. r.0 ≤ 255) }
    ensures fails { Fails b (AtMost b.levels) tokens.now at (ACount ∷ []) result }
{
    let Some(token) = token_at(tokens, at) else {
        return Err(refused(tokens, b, at));
    };
    let Kind2::Number(count) = &token.kind else {
        return Err(refused(tokens, b, at));
    };
    if *count > 255 {
        return Err(refused(tokens, b, at));
    }
    Ok((*count as u32, at + 1))
}

// ident, or a number in the second version
pub fn arg(alloc: Global, tokens: &[Token], b: Bounds, at: usize) -> Result<(Arg, usize), Front>
    ensures reads { IfOk result (λ r. Reads b (AtMost b.levels) tokens.now at (AnArg ∷ []) r.1 []) }
    ensures spelled { IfOk result (λ r. SpellsOne tokens.now at (argument r.0) r.1) }
    ensures of { IfOk result (λ r. IsArgument b.second r.0) }
    ensures fails { Fails b (AtMost b.levels) tokens.now at (AnArg ∷ []) result }
{
    let Some(token) = token_at(tokens, at) else {
        return Err(refused(tokens, b, at));
    };
    let place = token.span.from;
    match &token.kind {
        Kind2::Ident(text) => {
            let text = text.copy(alloc)?;
            Ok((Arg::Word(Word { text, place }), at + 1))
        }
        Kind2::Number(value) if b.second => Ok((
            Arg::Num {
                value: *value,
                place,
            },
            at + 1,
        )),
        _ => Err(refused(tokens, b, at)),
    }
}
