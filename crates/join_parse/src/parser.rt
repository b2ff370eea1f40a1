// The parser's call, and the laws of the grammar.
ghost use Rattle.std.specs.Prelude.{◌≡◌, ◌≤◌, ◌∷◌, [], ℕ, Bool, List, length, drop, IfOk, IfErr};
ghost use Rattle.join_lex.specs.declared.token.Token.{Token};
ghost use Rattle.join_lex.specs.Versions.{says_second};
ghost use Rattle.join_parse.specs.Grammar.{TreeOfText, opening, version_number, IsSentence};
ghost use Rattle.join_parse.specs.Levels.{most_levels};
ghost use Rattle.join_parse.specs.Begins.{Symbol, Program, start};
ghost use Rattle.join_parse.specs.Faults.{IsTheTree, IsTheRefusal, AnswersTree, AnswersFault};
ghost use Rattle.join_parse.specs.Faults.{HasOneOutcome};
ghost use Rattle.join_parse.specs.Laws.{HaveOneLevel, IsCompleted, EachPrefixBegins};
ghost use Rattle.join_parse.specs.inside.Automaton.{Whole, outcome};
ghost use Rattle.join_parse.specs.inside.Parsed.{terms, places, IsStop};

use crate::bounds::Bounds;
use crate::cursor::refused;
use crate::program::{declarations, sites};
use crate::text::Tree;
use crate::tree::PlaceTrees;
use crate::word::SeenTrees;
use join_base::Front;
use join_lex::{Token, Tokens, says_second};
use std::alloc::Global;

// How deep a tree may be nested.
fn levels_of(second: bool) -> u32
    ensures { result ≡ most_levels second }
{
    if second { 400 } else { 200 }
}

fn version_of(second: bool) -> u32
    ensures { result ≡ version_number second }
{
    if second { 2 } else { 1 }
}

// How many tokens stand before the declarations: those that say that the text is of the second
// version.
fn opening_len(tokens: &[Token], b: Bounds) -> usize
    requires second { b.second ≡ says_second tokens.now }
    ensures runs { outcome b tokens.now (start b.second)
        ≡ outcome b (drop result tokens.now) (Program ∷ []) }
    ensures within { result ≤ length tokens.now }
    ensures spelled { terms tokens.now 0
        ≡ opening (places tokens.now) b.second (terms tokens.now result) }
{
    if says_second(tokens) { 3 } else { 0 }
}

// The parts of the one tree, or the first fault.
fn read(alloc: Global, tokens: &[Token], b: Bounds) -> Result<(SeenTrees, PlaceTrees), Front>
    requires second { b.second ≡ says_second tokens.now }
    ensures whole { IfOk result (λ r. outcome b tokens.now (start b.second) ≡ Whole) }
    ensures sentence { IfOk result (λ r. IsSentence tokens.now
        (record { version = version_number b.second; seen = r.0; sites = r.1 })) }
    ensures stops { IfErr result (IsStop b tokens.now) }
{
    let begin = opening_len(tokens, b);
    let (seen, upto) = declarations(alloc, tokens, b, begin)?;
    let (sites, upto) = sites(alloc, tokens, b, upto)?;
    if upto < tokens.len() {
        return Err(refused(tokens, b, upto));
    }
    Ok((seen, sites))
}

// The one tree of a text's tokens, or the first fault.
fn tree_of(alloc: Global, tokens: &Tokens) -> Result<Tree, Front>
    ensures tree { IfOk result (λ tree. IsTheTree tokens.now.list tree) }
    ensures fault { IfErr result (IsTheRefusal tokens.now) }
{
    let list = tokens.list.as_slice();
    let second = says_second(list);
    let levels = levels_of(second);
    let b = Bounds {
        second,
        levels,
        end: tokens.length,
    };
    let (seen, sites) = read(alloc, list, b)?;
    let version = version_of(second);
    Ok(Tree {
        version,
        seen,
        sites,
    })
}

/// The one tree of a text's tokens.
///
/// A token after which no sentence goes on is refused with `Grammar1`, at its first byte, and so is
/// the end of tokens that are no sentence, at the text's length. A token that may stand there but
/// opens level 201, or level 401 in a text of the second version, is refused with `Grammar2`, at
/// its first byte. The first fault is reported. No other kind is answered.
///
/// Which sentences there are is decided first, by the version that the tokens tell: those of the
/// second version begin with `version`, `2` and `;`, and those of the first never do.
///
/// It answers a tree exactly where the tokens have one, and a fault exactly where they have it, but
/// for want of memory.
pub fn parse(alloc: Global, tokens: &Tokens) -> Result<Tree, Front>
    ensures tree { IfOk result (λ tree. IsTheTree tokens.now.list tree) }
    ensures fault { IfErr result (IsTheRefusal tokens.now) }
    ensures reads { AnswersTree tokens.now result }
    ensures refuses { AnswersFault tokens.now result }
{
    tree_of(alloc, tokens)
}

/// In either version and for any bound on the levels, tokens have one tree, or they are refused in
/// one way at one place, and never both. So `parse` answers exactly by the grammar, save for want
/// of memory.
pub fn one_outcome()
    ensures { (second : Bool) (limit end : ℕ) (tokens : List Token) →
        HasOneOutcome second limit end tokens }
{}

/// The level of a token is the same in each sentence that goes on from it.
pub fn one_level()
    ensures { (one other : TreeOfText) (tokens : List Token) → HaveOneLevel one other tokens }
{}

/// What begins is completed to a sentence, by the shortest completion of each symbol that is still
/// expected. And every prefix of a sentence begins.
pub fn beginnings()
    ensures completed { (second : Bool) (tokens : List Token) (after : List Symbol) →
        IsCompleted second tokens after }
    ensures prefix { (tree : TreeOfText) → EachPrefixBegins tree }
{}
