// Declarations, sites, and the whole text.
ghost use Rattle.std.specs.Prelude.{◌≡◌, ◌∷◌, [], ◌≤◌, false, length, drop, IfOk};
ghost use Rattle.join_lex.specs.declared.token.Key.TheVariants as word;
ghost use Rattle.join_parse.specs.Grammar.{of_declarations, of_sites};
ghost use Rattle.join_parse.specs.Grammar.{AreDeclarations, AreSites, IsNotEmpty};
ghost use Rattle.join_parse.specs.Begins.{Program};
ghost use Rattle.join_parse.specs.inside.Parsed.{terms, places, next_is_key, AtMost, Exactly};
ghost use Rattle.join_parse.specs.inside.Parsed.{a_count, a_declaration, a_whole_site, some_sites};
ghost use Rattle.join_parse.specs.inside.Parsed.{Runs, Reads, Fails};
ghost use Rattle.join_parse.specs.inside.Parsed.{SpellsCount, SpellsDeclaration, SpellsSite};

use crate::bounds::Bounds;
use crate::cursor::{count, is_key_at, key, place_at, sign, word};
use crate::process::body;
use crate::tree::{PlaceTree, PlaceTrees};
use crate::word::{SeenTree, SeenTrees};
use chem_model::Items;
use join_base::Front;
use join_lex::{Key, Sign, Token};
use std::alloc::Global;

// "/" count ";"
fn declared_count(tokens: &[Token], b: Bounds, at: usize) -> Result<(u32, usize), Front>
    ensures reads { IfOk result (λ r. Reads b (AtMost b.levels) tokens.now at a_count r.1 []) }
    ensures small { IfOk result (λ r. r.0 ≤ 255) }
    ensures spelled { IfOk result (λ r. SpellsCount tokens.now at r.0 r.1) }
    ensures fails { Fails b (AtMost b.levels) tokens.now at a_count result }
{
    let upto = sign(tokens, b, at, Sign::Slash)?;
    let (count, upto) = count(tokens, b, upto)?;
    let upto = sign(tokens, b, upto, Sign::Semicolon)?;
    Ok((count, upto))
}

// "observe" ident "/" count ";"
fn declaration(
    alloc: Global,
    tokens: &[Token],
    b: Bounds,
    at: usize,
) -> Result<(SeenTree, usize), Front>
    ensures reads { IfOk result (λ r.
        Reads b (AtMost b.levels) tokens.now at a_declaration r.1 []) }
    ensures small { IfOk result (λ r. r.0.count ≤ 255) }
    ensures spelled { IfOk result (λ r. SpellsDeclaration tokens.now at r.0 r.1) }
    ensures fails { Fails b (AtMost b.levels) tokens.now at a_declaration result }
{
    let upto = key(tokens, b, at, Key::Observe)?;
    let (name, upto) = word(alloc, tokens, b, upto)?;
    let (count, upto) = declared_count(tokens, b, upto)?;
    Ok((SeenTree { name, count }, upto))
}

// { observe }
pub fn declarations(
    alloc: Global,
    tokens: &[Token],
    b: Bounds,
    at: usize,
) -> Result<(SeenTrees, usize), Front>
    requires short { at ≤ length tokens.now }
    ensures runs { IfOk result (λ r.
        Runs b (AtMost b.levels) tokens.now at (Program ∷ []) r.1 (Program ∷ [])) }
    ensures within { IfOk result (λ r. r.1 ≤ length tokens.now) }
    ensures all { IfOk result (λ r. next_is_key word.Observe (drop r.1 tokens.now) ≡ false) }
    ensures small { IfOk result (λ r. AreDeclarations r.0) }
    ensures spelled { IfOk result (λ r.
        terms tokens.now at ≡ of_declarations (places tokens.now) r.0 (terms tokens.now r.1)) }
    ensures fails { Fails b (AtMost b.levels) tokens.now at (Program ∷ []) result }
{
    let mut list = Items::new(alloc);
    let mut end = at;
    'observed: while is_key_at(tokens, end, Key::Observe) {
        let (more, upto) = declaration(alloc, tokens, b, end)?;
        list.push(more)?;
        end = upto;
    }
    Ok((list, end))
}

// "site" ident "[" defs ":" proc "]"
fn site(alloc: Global, tokens: &[Token], b: Bounds, at: usize) -> Result<(PlaceTree, usize), Front>
    ensures reads { IfOk result (λ r. Reads b (Exactly 0) tokens.now at a_whole_site r.1 []) }
    ensures spelled { IfOk result (λ r. SpellsSite b.second tokens.now at r.0 r.1) }
    ensures fails { Fails b (Exactly 0) tokens.now at a_whole_site result }
{
    let opener = place_at(tokens, 0, at);
    let upto = key(tokens, b, at, Key::Site)?;
    let (name, upto) = word(alloc, tokens, b, upto)?;
    let (defs, body, upto) = body(alloc, tokens, b, 0, upto, false)?;
    let site = PlaceTree {
        opener,
        name,
        defs,
        body,
    };
    Ok((site, upto))
}

// site { site }
pub fn sites(
    alloc: Global,
    tokens: &[Token],
    b: Bounds,
    at: usize,
) -> Result<(PlaceTrees, usize), Front>
    ensures reads { IfOk result (λ r. Reads b (Exactly 0) tokens.now at some_sites r.1 []) }
    ensures some { IfOk result (λ r. IsNotEmpty r.0) }
    ensures sites { IfOk result (λ r. AreSites b.second r.0) }
    ensures spelled { IfOk result (λ r.
        terms tokens.now at ≡ of_sites (places tokens.now) r.0 (terms tokens.now r.1)) }
    ensures fails { Fails b (Exactly 0) tokens.now at some_sites result }
{
    let mut list = Items::new(alloc);
    let (first, upto) = site(alloc, tokens, b, at)?;
    list.push(first)?;
    let mut end = upto;
    'sites: while is_key_at(tokens, end, Key::Site) {
        let (more, upto) = site(alloc, tokens, b, end)?;
        list.push(more)?;
        end = upto;
    }
    Ok((list, end))
}
