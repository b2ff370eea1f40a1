//! The tokens of a text, or its first lexical fault at its place.
#![tactic(auto)]

mod lexer;
mod scan;
mod token;

pub use lexer::{lex, one_outcome, says_second, spans_hold_spellings, tokens_tell_version};
pub use token::{Key, Kind2, Sign, Token, TokenList, Tokens, copy_tokens};
