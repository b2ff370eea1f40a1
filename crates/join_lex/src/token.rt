// What a token is, and what a list of a text's tokens keeps.
ghost use Rattle.std.specs.Prelude.{◌≡◌, IfOk, Ok};

use chem_model::{Items, Memory, Text};
use join_base::Span;
use std::alloc::Global;
use std::marker::Model;

/// A keyword: `observe`, `site`, `def`, `in`, `and`, `go`, `fail`, `halt` or `none`, in this order,
/// or in a text of the second version `add` or `same`.
#[derive(Clone, Copy, PartialEq, Eq, Debug)]
pub enum Key {
    Observe,
    Site,
    Def,
    Inside,
    And,
    Go,
    Fail,
    Halt,
    Void,
    Add,
    Same,
}

impl Key {
    /// A keyword that is equal to this one. It takes no memory.
    pub fn copy(&self, _alloc: Global) -> Result<Key, Memory>
        ensures { result ≡ Ok self.now }
    {
        Ok(*self)
    }
}

/// A sign: `=>`, `:`, `|`, `(`, `)`, `[`, `]`, `,`, `;` or `/`, in this order.
#[derive(Clone, Copy, PartialEq, Eq, Debug)]
pub enum Sign {
    Arrow,
    Colon,
    Bar,
    ParenLeft,
    ParenRight,
    SquareLeft,
    SquareRight,
    Comma,
    Semicolon,
    Slash,
}

impl Sign {
    /// A sign that is equal to this one. It takes no memory.
    pub fn copy(&self, _alloc: Global) -> Result<Sign, Memory>
        ensures { result ≡ Ok self.now }
    {
        Ok(*self)
    }
}

/// What a token is: an identifier with its spelling, a number by its value, a keyword, or a sign.
#[derive(Debug, Drop)]
pub enum Kind2 {
    Ident(Text),
    Number(u64),
    Key(Key),
    Sign(Sign),
}

impl Kind2 {
    /// What is equal to this. Only an identifier takes memory.
    pub fn copy(&self, alloc: Global) -> Result<Kind2, Memory>
        ensures { IfOk result (λ copy. copy ≡ self.now) }
    {
        match self {
            Kind2::Ident(name) => Ok(Kind2::Ident(name.copy(alloc)?)),
            Kind2::Number(value) => Ok(Kind2::Number(*value)),
            Kind2::Key(key) => Ok(Kind2::Key(*key)),
            Kind2::Sign(sign) => Ok(Kind2::Sign(*sign)),
        }
    }
}

/// A token and where it stands.
#[derive(Debug, Drop)]
pub struct Token {
    pub kind: Kind2,
    pub span: Span,
}

impl Token {
    /// A token that is equal to this one.
    pub fn copy(&self, alloc: Global) -> Result<Token, Memory>
        ensures { IfOk result (λ copy. copy ≡ self.now) }
    {
        let kind = self.kind.copy(alloc)?;
        Ok(Token {
            kind,
            span: self.span,
        })
    }
}

pub type TokenList = Items<Token>;

/// A list that is equal to this one.
pub fn copy_tokens(alloc: Global, list: &TokenList) -> Result<TokenList, Memory>
    ensures { IfOk result (λ copy. copy ≡ list.now) }
{
    let mut members = Items::new(alloc);
    for member in list.as_slice() {
        members.push(member.copy(alloc)?)?;
    }
    Ok(members)
}

/// The tokens of a text, in order, and how many bytes the text has.
///
/// Each such list keeps the facts of `AreTokens`: there are at most 1,048,576 tokens, their spans
/// rise and end within the text, and each is one of the text's version. So each identifier is one,
/// and numbers are at most 255 in a text of the first version. Whoever writes one proves them, and
/// whoever reads a field knows them.
#[derive(Drop)]
pub struct Tokens {
    pub list: TokenList,
    pub length: u32,
}

impl Model for Tokens {
    ghost use Rattle.join_lex.specs.Tokens.{TokensOfText, AreTokens};
    ghost use Rattle.join_lex.specs.TokensCode.{tokens_code};

    ghost Value = { TokensOfText };

    ghost coded = { tokens_code };

    ghost view = { λ t. record { list = t.list; length = t.length } };

    ghost invariant = { λ t. AreTokens (record { list = t.list; length = t.length }) };
}

impl Tokens {
    /// Tokens that are equal to these.
    pub fn copy(&self, alloc: Global) -> Result<Tokens, Memory>
        ensures { IfOk result (λ copy. copy ≡ self.now) }
    {
        let list = copy_tokens(alloc, &self.list)?;
        Ok(Tokens {
            list,
            length: self.length,
        })
    }
}
