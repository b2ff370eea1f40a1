// What a sort line says.
ghost use Rattle.std.specs.Prelude.{◌≡◌, ◌∷◌, ◌++◌, ◌≤◌, Some, length, IfOk};
ghost use Rattle.sort_lines.specs.Contents.{kinds};
ghost use Rattle.sort_lines.specs.inside.Reading.{text_of, is_left as left, is_right as right};
ghost use Rattle.sort_lines.specs.inside.Reading.{is_comma as comma, is_named, pair_in, more_in};
ghost use Rattle.sort_lines.specs.inside.Reading.{args_in, declares_of, uses_in, content_in};
ghost use Rattle.sort_lines.specs.inside.Reading.{with_name, three_in, HasRead, IsSaid};

use chem_model::{Memory, Text, Texts};
use join_base::Front;
use join_lex::{Kind2, Sign, Token, lex};
use std::alloc::Global;

/// What a sort line says: a sort with its name and its arguments, or the sort of a spelling.
#[derive(Drop)]
pub enum Content {
    Declares { name: Text, args: Texts },
    Uses { spell: Text, name: Text },
}

fn is_left(token: &Token) -> bool
    ensures { result ≡ left token.now.kind }
{
    match &token.kind {
        Kind2::Sign(Sign::ParenLeft) => true,
        _ => false,
    }
}

fn is_right(token: &Token) -> bool
    ensures { result ≡ right token.now.kind }
{
    match &token.kind {
        Kind2::Sign(Sign::ParenRight) => true,
        _ => false,
    }
}

fn is_comma(token: &Token) -> bool
    ensures { result ≡ comma token.now.kind }
{
    match &token.kind {
        Kind2::Sign(Sign::Comma) => true,
        _ => false,
    }
}

fn is_word(token: &Token, word: &[u8]) -> bool
    ensures { result ≡ is_named token.now.kind word.now }
{
    match &token.kind {
        Kind2::Ident(name) => name.as_slice() == word,
        _ => false,
    }
}

// The name that a token is.
fn name_of(alloc: Global, token: &Token) -> Result<Option<Text>, Memory>
    ensures { IfOk result (λ name. name ≡ text_of token.now.kind) }
{
    match &token.kind {
        Kind2::Ident(name) => Ok(Some(name.copy(alloc)?)),
        _ => Ok(None),
    }
}

// The name that stands after a comma.
fn next_name(alloc: Global, first: &Token, token: &Token) -> Result<Option<Text>, Memory>
    ensures { IfOk result (λ name. name ≡ pair_in first.now.kind token.now.kind) }
{
    if !is_comma(first) {
        return Ok(None);
    }
    name_of(alloc, token)
}

// { "," ident } ")"
fn more(alloc: Global, tokens: &[Token], names: &mut Texts) -> Result<bool, Memory>
    ensures { IfOk result (λ b. HasRead names.old (more_in (kinds tokens.now)) b names.new) }
{
    let mut at = 0;
    while tokens.len() - at > 1 {
        match next_name(alloc, &tokens[at], &tokens[at + 1])? {
            Some(name) => names.push(name)?,
            None => return Ok(false),
        }
        at += 2;
    }
    if at < tokens.len() {
        return Ok(is_right(&tokens[at]));
    }
    Ok(false)
}

// A name, and those behind it.
fn behind(alloc: Global, name: Text, tokens: &[Token], names: &mut Texts) -> Result<bool, Memory>
    ensures { IfOk result (λ b.
        HasRead names.old (with_name (Some name) (more_in (kinds tokens.now))) b names.new) }
{
    names.push(name)?;
    more(alloc, tokens, names)
}

fn listed(alloc: Global, first: &Token, tokens: &[Token], names: &mut Texts) -> Result<bool, Memory>
    ensures { IfOk result (λ b.
        HasRead names.old (args_in (first.now.kind ∷ kinds tokens.now)) b names.new) }
{
    if is_right(first) {
        return Ok(tokens.is_empty());
    }
    match name_of(alloc, first)? {
        Some(name) => behind(alloc, name, tokens, names),
        None => Ok(false),
    }
}

// [ ident { "," ident } ] ")"
fn arguments(alloc: Global, tokens: &[Token], names: &mut Texts) -> Result<bool, Memory>
    ensures { IfOk result (λ b. HasRead names.old (args_in (kinds tokens.now)) b names.new) }
{
    if tokens.is_empty() {
        return Ok(false);
    }
    listed(alloc, &tokens[0], &tokens[1..], names)
}

// How many members a list of names may have.
const MOST: usize = 255;

fn declared(alloc: Global, name: &Token, args: Texts) -> Result<Option<Content>, Memory>
    ensures { IfOk result (λ said. said ≡ declares_of (text_of name.now.kind) (Some args)) }
{
    match name_of(alloc, name)? {
        Some(name) => {
            if args.len() <= MOST {
                Ok(Some(Content::Declares { name, args }))
            } else {
                Ok(None)
            }
        }
        None => Ok(None),
    }
}

fn declares(alloc: Global, name: &Token, tokens: &[Token]) -> Result<Option<Content>, Memory>
    ensures { IfOk result (λ said.
        said ≡ declares_of (text_of name.now.kind) (args_in (kinds tokens.now))) }
{
    let mut args = Texts::new(alloc);
    if !arguments(alloc, tokens, &mut args)? {
        return Ok(None);
    }
    declared(alloc, name, args)
}

fn uses(alloc: Global, spell: &Token, name: &Token) -> Result<Option<Content>, Memory>
    ensures { IfOk result (λ said. said ≡ uses_in spell.now.kind name.now.kind) }
{
    match name_of(alloc, spell)? {
        Some(spell) => match name_of(alloc, name)? {
            Some(name) => Ok(Some(Content::Uses { spell, name })),
            None => Ok(None),
        },
        None => Ok(None),
    }
}

fn three(
    alloc: Global,
    first: &Token,
    second: &Token,
    third: &Token,
    tokens: &[Token],
) -> Result<Option<Content>, Memory>
    ensures { IfOk result (λ said. said
        ≡ three_in first.now.kind second.now.kind third.now.kind (kinds tokens.now)) }
{
    if is_word(first, b"use".as_slice()) {
        if tokens.is_empty() {
            return uses(alloc, second, third);
        }
        return Ok(None);
    }
    if is_word(first, b"sort".as_slice()) {
        if is_left(third) {
            return declares(alloc, second, tokens);
        }
    }
    Ok(None)
}

// What tokens say.
fn content_of(alloc: Global, tokens: &[Token]) -> Result<Option<Content>, Memory>
    ensures { IfOk result (λ said. said ≡ content_in (kinds tokens.now)) }
{
    if tokens.len() < 3 {
        return Ok(None);
    }
    three(alloc, &tokens[0], &tokens[1], &tokens[2], &tokens[3..])
}

// What the bytes of a line after `#:` say, where they have one of the two forms.
pub(crate) fn said(alloc: Global, text: &[u8]) -> Result<Option<Content>, Memory>
    requires { length text.now ≤ 1048576 }
    ensures { IfOk result (IsSaid text.now) }
{
    match lex(alloc, text) {
        Ok(tokens) => content_of(alloc, tokens.list.as_slice()),
        Err(Front::Refused { .. }) => Ok(None),
        Err(Front::Memory) => Err(Memory),
    }
}
