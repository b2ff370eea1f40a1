// The first piece of a text: a blank, a comment or a token.
ghost use Rattle.std.specs.Prelude.{◌≡◌, ◌≢◌, ◌<◌, ◌≤◌, ◌+◌, ℕ, length, IfOk, IfSome, IfNone, Ok};
ghost use Rattle.std.specs.Prelude.{min};
ghost use Rattle.std.specs.List.{prefix_len, take_while};
ghost use Rattle.join_lex.specs.Spelling.{Version, version_at, in_word, is_digit};
ghost use Rattle.join_lex.specs.Spelling.{in_line, value_of, key_bytes};
ghost use Rattle.join_lex.specs.inside.Scan.{sign_at, word_piece, number_piece, IsPieceAt, Scans};
ghost use Rattle.chem_model.specs.Each.{IsIn};
ghost use Rattle.join_lex.specs.declared.token.Key.{Key};

use crate::token::{Key, Kind2, Sign};
use chem_model::Text;
use join_base::{Front, Kind};
use std::alloc::Global;

// The largest number of a text.
fn largest_number(second: bool) -> u64
    ensures { result ≡ (version_at second).largest }
{
    if second { u64::MAX } else { 255 }
}

fn is_word_byte(byte: u8) -> bool
    ensures { result ≡ in_word byte }
{
    matches!(byte, b'a'..=b'z' | b'A'..=b'Z' | b'0'..=b'9' | b'_')
}

// How many bytes at the front may stand in a word.
fn word_len(bytes: &[u8]) -> usize
    ensures { result ≡ prefix_len in_word bytes.now }
{
    bytes.iter().take_while(|byte| is_word_byte(**byte)).count()
}

// How many bytes stand before the end of the line.
fn line_len(bytes: &[u8]) -> usize
    ensures value { result ≡ prefix_len in_line bytes.now }
    ensures bound { result ≤ length bytes.now }
{
    bytes.iter().take_while(|byte| **byte != b'\n').count()
}

// How many bytes at the front are digits.
fn digits_len(bytes: &[u8]) -> usize
    ensures { result ≡ prefix_len is_digit bytes.now }
{
    bytes
        .iter()
        .take_while(|byte| matches!(**byte, b'0'..=b'9'))
        .count()
}

// The value of digits, or `largest + 1` for a larger one.
fn value_up_to_bound(digits: &[u8], largest: u64) -> u128
    ensures { result ≡ min (value_of digits.now) (largest + 1) }
{
    let above = u128::from(largest) + 1;
    let mut value = 0u128;
    for digit in digits {
        value = (value * 10 + u128::from(digit.saturating_sub(b'0'))).min(above);
    }
    value
}

// The keyword that a word is.
fn key_of(word: &[u8], second: bool) -> Option<Key>
    ensures found { IfSome result (λ k.
        (word.now ≡ key_bytes k) × IsIn k (version_at second).keywords) }
    ensures none { IfNone result ((k : Key) →
        IsIn k (version_at second).keywords → word.now ≢ key_bytes k) }
{
    match word {
        b"observe" => Some(Key::Observe),
        b"site" => Some(Key::Site),
        b"def" => Some(Key::Def),
        b"in" => Some(Key::Inside),
        b"and" => Some(Key::And),
        b"go" => Some(Key::Go),
        b"fail" => Some(Key::Fail),
        b"halt" => Some(Key::Halt),
        b"none" => Some(Key::Void),
        b"add" if second => Some(Key::Add),
        b"same" if second => Some(Key::Same),
        _ => None,
    }
}

// The sign at the front, and how many bytes it has.
fn sign_of(bytes: &[u8]) -> Option<(Sign, usize)>
    ensures sign { result ≡ sign_at bytes.now }
    ensures bound { IfSome result (λ found. found.1 ≤ length bytes.now) }
{
    match bytes {
        [b'=', b'>', ..] => Some((Sign::Arrow, 2)),
        [b':', ..] => Some((Sign::Colon, 1)),
        [b'|', ..] => Some((Sign::Bar, 1)),
        [b'(', ..] => Some((Sign::ParenLeft, 1)),
        [b')', ..] => Some((Sign::ParenRight, 1)),
        [b'[', ..] => Some((Sign::SquareLeft, 1)),
        [b']', ..] => Some((Sign::SquareRight, 1)),
        [b',', ..] => Some((Sign::Comma, 1)),
        [b';', ..] => Some((Sign::Semicolon, 1)),
        [b'/', ..] => Some((Sign::Slash, 1)),
        _ => None,
    }
}

// The word at the front, and how many bytes it has: a keyword or an identifier.
fn word_at(alloc: Global, text: &[u8], second: bool) -> Result<(Option<Kind2>, usize), Front>
    ensures scanned { (place : ℕ) → IsPieceAt
        (Ok (word_piece (version_at second) (take_while in_word text.now)))
        place text.now result }
    ensures bound { IfOk result (λ found. found.1 ≤ length text.now) }
{
    let len = word_len(text);
    let word = &text[..len];
    match key_of(word, second) {
        Some(key) => Ok((Some(Kind2::Key(key)), len)),
        None => Ok((Some(Kind2::Ident(Text::from_slice(alloc, word)?)), len)),
    }
}

// The number at the front, and how many bytes it has.
fn number_at(text: &[u8], place: u32, second: bool) -> Result<(Option<Kind2>, usize), Front>
    ensures scanned { IsPieceAt
        (number_piece (version_at second) (take_while is_digit text.now)) place text.now result }
    ensures bound { IfOk result (λ found. found.1 ≤ length text.now) }
{
    let len = digits_len(text);
    let largest = largest_number(second);
    let value = value_up_to_bound(&text[..len], largest);
    if value > u128::from(largest) {
        Err(Front::Refused {
            kind: Kind::Lex3,
            place,
        })
    } else {
        Ok((Some(Kind2::Number(value as u64)), len))
    }
}

// The first piece of a text that isn't empty: what token it is, where it is one, and how many
// bytes it has. `place` is where the text stands; a fault is answered at it. `second` says whether
// the text is of the second version.
pub fn scan(
    alloc: Global,
    text: &[u8],
    place: u32,
    second: bool,
) -> Result<(Option<Kind2>, usize), Front>
    requires { 0 < length text.now }
    ensures scanned { Scans (version_at second) place text.now result }
    ensures bound { IfOk result (λ found. found.1 ≤ length text.now) }
{
    match text[0] {
        b' ' | b'\t' | b'\n' | b'\r' => Ok((None, 1)),
        b'#' => Ok((None, line_len(text))),
        b'a'..=b'z' => word_at(alloc, text, second),
        b'0'..=b'9' => number_at(text, place, second),
        _ => match sign_of(text) {
            Some((sign, len)) => Ok((Some(Kind2::Sign(sign)), len)),
            None => Err(Front::Refused {
                kind: Kind::Lex2,
                place,
            }),
        },
    }
}
