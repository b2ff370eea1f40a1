// The tokens of a whole text.
ghost use Rattle.std.specs.Prelude.{ℕ, ◌<◌, ◌≤◌, ◌≡◌, List, length, IfOk, IfErr};
ghost use Rattle.join_lex.specs.Spelling.{version_at};
ghost use Rattle.join_lex.specs.Versions.{is_version_word, is_two, is_semicolon, says_second};
ghost use Rattle.join_lex.specs.Tokens.{TokensOfText};
ghost use Rattle.join_lex.specs.Lexical.{AreTokensOf, NamesFault, AnswersTokens, AnswersFault};
ghost use Rattle.join_lex.specs.Lexical.{HasOneOutcome, HoldSpellings, TellVersion};
ghost use Rattle.join_lex.specs.inside.Steps.{StepsTo, FailsAt};

use crate::scan::scan;
use crate::token::{Kind2, Sign, Token, TokenList, Tokens};
use chem_model::Items;
use join_base::{Front, Kind, Span};
use std::alloc::Global;

// The most bytes that a text may have.
const LIMIT: usize = 1_048_576;

// Passes over the piece at `place`, and appends its token where it is one. Answers the place
// behind it. `second` says whether the text is of the second version.
fn step(
    alloc: Global,
    bytes: &[u8],
    place: usize,
    second: bool,
    tokens: &mut TokenList,
) -> Result<usize, Front>
    requires within { place < length bytes.now }
    requires short { length bytes.now ≤ LIMIT }
    ensures further { IfOk result (λ upto.
        StepsTo (version_at second) bytes.now place upto tokens.old tokens.new) }
    ensures fault { FailsAt (version_at second) bytes.now place result }
{
    let rest = bytes.split_at(place).1;
    let (kind, len) = scan(alloc, rest, place as u32, second)?;
    let upto = place + len;
    if let Some(kind) = kind {
        tokens.push(Token {
            kind,
            span: Span {
                from: place as u32,
                upto: upto as u32,
            },
        })?;
    }
    Ok(upto)
}

// The word with which a text of the second version begins.
fn is_version_word(kind: &Kind2) -> bool
    ensures { result ≡ is_version_word kind.now }
{
    match kind {
        Kind2::Ident(name) => matches!(name.as_slice(), b"version"),
        _ => false,
    }
}

fn is_two(kind: &Kind2) -> bool
    ensures { result ≡ is_two kind.now }
{
    matches!(kind, Kind2::Number(2))
}

fn is_semicolon(kind: &Kind2) -> bool
    ensures { result ≡ is_semicolon kind.now }
{
    matches!(kind, Kind2::Sign(Sign::Semicolon))
}

/// Whether tokens say that their text is of the second version.
pub fn says_second(tokens: &[Token]) -> bool
    ensures { result ≡ says_second tokens.now }
{
    let [a, b, c, ..] = tokens else {
        return false;
    };
    is_version_word(&a.kind) && is_two(&b.kind) && is_semicolon(&c.kind)
}

// The tokens of a text, or its first fault.
fn tokens_of(alloc: Global, bytes: &[u8]) -> Result<Tokens, Front>
    ensures tokens { IfOk result (λ t. AreTokensOf t bytes.now) }
    ensures fault { IfErr result (λ e. NamesFault e bytes.now) }
{
    if bytes.len() > LIMIT {
        return Err(Front::Refused {
            kind: Kind::Lex1,
            place: 1_048_576,
        });
    }
    let mut list = Items::new(alloc);
    let mut place = 0;
    // The first three tokens are the same in both versions, where they say which one it is.
    'first: while place < bytes.len() && list.len() < 3 {
        place = step(alloc, bytes, place, false, &mut list)?;
    }
    let second = says_second(list.as_slice());
    'others: while place < bytes.len() {
        place = step(alloc, bytes, place, second, &mut list)?;
    }
    Ok(Tokens {
        list,
        length: bytes.len() as u32,
    })
}

/// The tokens of a text in order, each with its span, or the text's first lexical fault at its
/// place: `Lex1` at 1,048,576 where it has more bytes than that, whatever they are; else the least
/// place at which a byte begins no token (`Lex2`) or a number above the bound begins (`Lex3`).
///
/// A text is of the second version where its first three tokens are `version`, a number whose value
/// is 2, and `;`. There `add` and `same` are keywords, and the bound is the largest `u64`; in a
/// text of the first version it is 255.
///
/// It answers tokens exactly where the text has them, and a fault exactly where the text has it,
/// but for want of memory.
pub fn lex(alloc: Global, bytes: &[u8]) -> Result<Tokens, Front>
    ensures tokens { IfOk result (λ t. AreTokensOf t bytes.now) }
    ensures fault { IfErr result (λ e. NamesFault e bytes.now) }
    ensures reads { AnswersTokens bytes.now result }
    ensures refuses { AnswersFault bytes.now result }
{
    tokens_of(alloc, bytes)
}

/// A text has one list of tokens or one first lexical fault, and never both. It does nothing.
pub fn one_outcome()
    ensures { (text : List ℕ) → HasOneOutcome text }
{}

/// The tokens of a text tell its version. It does nothing.
pub fn tokens_tell_version()
    ensures { (text : List ℕ) (t : TokensOfText) → TellVersion text t }
{}

/// Each token of a text has its spelling as the bytes of its span, and could not be longer. It does
/// nothing.
pub fn spans_hold_spellings()
    ensures { (text : List ℕ) (t : TokensOfText) → HoldSpellings text t }
{}
